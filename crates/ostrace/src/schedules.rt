//! The text of a schedule: the turns that a run is given.

ghost use Rattle.std.specs.Prelude.{◌≡◌, ◌≤◌, ◌++◌, IfOk, IsTrue, OnOk, Some, length, map, string_bytes};
ghost use Rattle.osplan.specs.{declared.plans.Plan.Plan, Limits.is_within_limits};
ghost use Rattle.ostrace_text.specs.Trace.{after_spaces, spaced};
ghost use Rattle.osinput.specs.Given.{schedule_of_text};
ghost use Rattle.ostrace.specs.Schedules.{are_turns_of, choice_word, schedule_text, turn_word};

use itoa::Buffer;
use osbase::{Choice, Turn};
use std::alloc::{AllocError, Global};

// Adds the word of a choice: `o` for Own, `l` for Look, and `s` with the number of the served core for Serve.
fn push_choice(text: &mut String, choice: Choice) -> Result<(), AllocError>
    ensures { OnOk result (string_bytes text.new ≡ string_bytes text.old ++ choice_word choice) }
{
    match choice {
        Choice::Own => text.push_str("o"),
        Choice::Look => text.push_str("l"),
        Choice::Serve(from) => {
            text.push_str("s")?;
            text.push_str(Buffer::new().format(from.number))
        }
    }
}

// Adds the word of a turn: the number of its core, and then its choice.
fn push_turn(text: &mut String, turn: Turn) -> Result<(), AllocError>
    ensures { OnOk result (string_bytes text.new ≡ string_bytes text.old ++ turn_word turn) }
{
    let (core, choice) = turn;
    text.push_str(Buffer::new().format(core.number))?;
    push_choice(text, choice)
}

// Adds the words of turns, each after a space.
fn push_led_turns(text: &mut String, turns: &[Turn]) -> Result<(), AllocError>
    ensures { OnOk result (string_bytes text.new ≡ string_bytes text.old ++ after_spaces (map turn_word turns.now)) }
{
    for turn in turns {
        text.push_str(" ")?;
        push_turn(text, *turn)?;
    }
    Ok(())
}

// Adds the words of turns, divided by one space.
fn push_turns(text: &mut String, turns: &[Turn]) -> Result<(), AllocError>
    ensures { OnOk result (string_bytes text.new ≡ string_bytes text.old ++ spaced (map turn_word turns.now)) }
{
    match turns {
        [] => Ok(()),
        [first, later @ ..] => {
            push_turn(text, *first)?;
            push_led_turns(text, later)
        }
    }
}

/// The text by which a schedule lists these turns: a JSON string of their words, which are divided by one space.
/// `AllocError` where memory runs out.
pub fn schedule_text(alloc: Global, turns: &[Turn]) -> Result<String, AllocError>
    ensures text { IfOk result (λ text. string_bytes text ≡ schedule_text turns.now) }
    // If they are turns of a configuration, and no more than a schedule may have, the text means just these turns.
    ensures reads_back { IfOk result (λ text. (plan : Plan) → IsTrue (is_within_limits plan) → IsTrue (are_turns_of plan turns.now)
        → length turns.now ≤ 1000000 → schedule_of_text plan (string_bytes text) ≡ Some turns.now) }
{
    let mut text = String::new(alloc);
    text.push_str("\"")?;
    push_turns(&mut text, turns)?;
    text.push_str("\"")?;
    Ok(text)
}
