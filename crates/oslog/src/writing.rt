//! Writing: the text of items.

ghost use Rattle.std.specs.Prelude.{◌≡◌, ◌++◌, ◌∷◌, IfErr, IfOk, OnOk, map, string_bytes};
ghost use Rattle.std.specs.Fmt.{decimal};
ghost use Rattle.oslog.specs.{Items.after_spaces, Items.line_of, Logs.log_text, Words.core_words, Words.word_text};
ghost use Rattle.ossyntax.specs.Call.{call_words};
ghost use Rattle.osplan.specs.Names.{name_of};

use crate::faults::LogFault;
use crate::forms::{Parts, form_of};
use crate::names::PlanNames;
use crate::rows::{Kind, Tail, row_of};
use itoa::Buffer;
use osbase::{CORE_NUMBERS, CoreId, CoreSet, Item, RemoteCall};
use oscript::op_of_call;
use osplan::{Config, Plan};
use ossyntax::op_text;
use std::alloc::{AllocError, Global};

// Adds a space and the word of this kind: the keyword, or the text of the value that `parts` has for the kind.
fn push_word(text: &mut String, plan: &Plan, kind: Kind, parts: &Parts) -> Result<(), AllocError>
    ensures { OnOk result (string_bytes text.new ≡ string_bytes text.old ++ 32 ∷ word_text plan.now parts.now kind) }
{
    text.push_str(" ")?;
    match kind {
        Kind::Keyword(keyword) => text.push_str(keyword.text()),
        Kind::Core => text.push_str(Buffer::new().format(parts.core.number)),
        Kind::Count => text.push_str(Buffer::new().format(parts.count)),
        Kind::Status => text.push_str(parts.status.name()),
        Kind::Value => text.push_str(Buffer::new().format(parts.value)),
        Kind::Mode => text.push_str(plan.name_of_mode(parts.mode)),
        Kind::Irq => {
            text.push_str("irq=")?;
            text.push_str(plan.isr_name(parts.isr))
        }
        Kind::Spinlock => text.push_str(plan.spinlock_name(parts.spinlock)),
    }
}

// Adds the words of these kinds for these parts, each after a space.
fn push_words(
    text: &mut String,
    plan: &Plan,
    kinds: &[Kind],
    parts: &Parts,
) -> Result<(), AllocError>
    ensures { OnOk result (string_bytes text.new ≡ string_bytes text.old ++ after_spaces (map (word_text plan.now parts.now) kinds.now)) }
{
    for kind in kinds {
        push_word(text, plan, *kind, parts)?;
    }
    Ok(())
}

// Adds a space and the words of the call's operation.
fn push_call(
    alloc: Global,
    text: &mut String,
    plan: &Plan,
    call: RemoteCall,
) -> Result<(), AllocError>
    ensures { OnOk result (string_bytes text.new ≡ string_bytes text.old ++ after_spaces (call_words (name_of plan.now) call)) }
{
    let words = op_text(alloc, &PlanNames { plan }, op_of_call(call))?;
    text.push_str(" ")?;
    text.push_str(words.as_str())
}

// Adds a space and a core's number.
fn push_number(text: &mut String, number: u8) -> Result<(), AllocError>
    ensures { OnOk result (string_bytes text.new ≡ string_bytes text.old ++ 32 ∷ decimal number) }
{
    text.push_str(" ")?;
    text.push_str(Buffer::new().format(number))
}

// Adds the numbers of the set's cores, ascending, each after a space.
fn push_cores(text: &mut String, cores: &CoreSet) -> Result<(), AllocError>
    ensures { OnOk result (string_bytes text.new ≡ string_bytes text.old ++ after_spaces (core_words cores.now)) }
{
    for number in 0..CORE_NUMBERS {
        if cores.contains(CoreId { number }) {
            push_number(text, number)?;
        }
    }
    Ok(())
}

// Adds the line of an item, without its end.
fn push_line(alloc: Global, text: &mut String, plan: &Plan, item: &Item) -> Result<(), AllocError>
    ensures { OnOk result (string_bytes text.new ≡ string_bytes text.old ++ line_of plan.now item.now) }
{
    let (line, parts) = form_of(item);
    let row = row_of(line);
    text.push_str(row.first.text())?;
    push_words(text, plan, row.kinds, &parts)?;
    match row.tail {
        Tail::Nothing => Ok(()),
        Tail::Call => push_call(alloc, text, plan, parts.call),
        Tail::Cores => push_cores(text, &parts.cores),
    }
}

/// The log of these items: a line for each, in their order. An object that the configuration lacks has the empty name.
/// `NoMemory` where memory runs out, and no other fault.
pub fn items_text(alloc: Global, config: &Config, items: &[Item]) -> Result<String, LogFault>
    ensures text { IfOk result (λ text. string_bytes text ≡ log_text config.now items.now) }
    // The only fault is that memory runs out.
    ensures fault { IfErr result (λ fault. fault ≡ LogFault.NoMemory) }
{
    let mut text = String::new(alloc);
    for item in items {
        push_line(alloc, &mut text, config.plan(), item)?;
        text.push_str("\n")?;
    }
    Ok(text)
}
