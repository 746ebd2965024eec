//! Reading what a run is given: stimuli and turns.

ghost use Rattle.std.specs.Prelude.{◌≡◌, ◌≢◌, ◌≤◌, ◌<◌, not, length, position, IfOk, IfErr, IfSome, Option, Some, option_copied, option_map, ℕ, List};
ghost use Rattle.std.specs.{Char.is_ascii_digit, List.list_all, Borrow.Bor, BTreeMap.values};
ghost use Rattle.serde_json.specs.{declared.value.Value.Value, Read.read, View.view, View.members_view};
ghost use Rattle.osbase.specs.{declared.items.Stimulus.Stimulus as Word, declared.references.CoreId.CoreId, declared.turns.Choice.Choice};
ghost use Rattle.osplan.specs.{Stimuli.AreKnown, Fault.GivesOr, Fault.IsLeast};
ghost use Rattle.osjson.specs.{Reading.Gives, Reading.each, Json.entries};
ghost use Rattle.osinput.specs.Given.{core_named, is_isr_named, isr_named, stimulus_of, core_stimuli_of, stimuli_of_data, has_words_within, are_stimuli_within, schedule_of_data, digits_in, served, choice_of, turn_of, stimuli_of_text, stimuli_faults, schedule_of_text, schedule_faults};
ghost use Rattle.osinput.specs.Walk.{IsStep};

use crate::walks::{WordReader, cut_at_space, read_words};
use crate::words::core_number;
use osbase::{
    Choice, CoreId, CoreStimuli, ISRS, IsrRef, List as Items, Schedule, Stimuli, Stimulus, Turn,
};
use osjson::{Refusal, part_count, value_of};
use osplan::own::isr_of;
use osplan::{ConfFault, Config, Core, Plan};
use serde_json::{Map, Value};
use std::alloc::Global;

/// The most stimuli of a core.
const STIMULI: usize = 100_000;

/// The most turns of a schedule.
const TURNS: usize = 1_000_000;

// The JSON value of a text. `NotJson` where the text is not JSON; `NoMemory` where memory runs out.
fn json_of(alloc: Global, text: &str) -> Result<Value, ConfFault>
    ensures { GivesOr ConfFault.NotJson view result (read text.now) }
{
    match value_of(alloc, text) {
        Ok(value) => Ok(value),
        Err(Refusal::OutOfMemory) => Err(ConfFault::NoMemory),
        Err(Refusal::Unfit) => Err(ConfFault::NotJson),
    }
}

/// The configured core that these digits name, if there is one.
#[inline(always)]
fn core_named<'p>(plan: &'p Plan, digits: &[u8]) -> Option<&'p Core>
    ensures { option_copied result ≡ core_named plan.now digits.now }
{
    let number = core_number(digits)?;
    plan.core(CoreId { number })
}

// Whether the ISR is one of the core's own, and has this name.
fn is_isr_named(core: &Core, name: &[u8], isr: IsrRef) -> bool
    ensures { result ≡ is_isr_named core.now name.now isr }
{
    match isr_of(core, isr) {
        Some(own) => own.name.as_str().as_bytes() == name,
        None => false,
    }
}

// The core's ISR of this name, if there is one.
fn isr_named(core: &Core, name: &[u8]) -> Option<IsrRef>
    ensures { result ≡ isr_named core.now name.now }
{
    for index in 0..ISRS as u8 {
        let isr = IsrRef {
            core: core.id,
            index,
        };
        if is_isr_named(core, name, isr) {
            return Some(isr);
        }
    }
    None
}

// The stimulus that this word means to the core: `op`, `tick`, or `irq=` and the name of one of the core's ISRs. Any
// other word means none.
#[inline(always)]
fn stimulus_of(core: &Core, word: &[u8]) -> Option<Stimulus>
    ensures { result ≡ stimulus_of core.now word.now }
{
    match word {
        [b'o', b'p'] => Some(Stimulus::Op),
        [b't', b'i', b'c', b'k'] => Some(Stimulus::Tick),
        [b'i', b'r', b'q', b'=', name @ ..] => Some(Stimulus::Irq(isr_named(core, name)?)),
        _ => None,
    }
}

// Reads a stimulus of a core.
#[derive(Clone, Copy)]
struct StimulusReader<'p> {
    core: &'p Core,
}

impl WordReader<Stimulus> for StimulusReader<'_> {
    ghost shape = { λ reader. stimulus_of reader.core.now };

    fn read(&self, word: &[u8]) -> Option<Stimulus> {
        stimulus_of(self.core, word)
    }

    // `op` is the most frequent word: it is compared first, at the text's front, and its end is not looked for. The
    // functions that read a stimulus are inlined, so that no byte is compared twice.
    #[inline(always)]
    fn front<'t>(&self, text: &'t [u8]) -> Option<(Option<Stimulus>, &'t [u8])> {
        match text {
            [b'o', b'p', b' ', later @ ..] => Some((stimulus_of(self.core, &text[..2]), later)),
            _ => other_front(self.core, text),
        }
    }
}

// The first stimulus of a text, for `front`, which has looked for `op` and a space already. Here `tick` and a space are
// compared at the text's front.
#[inline(always)]
fn other_front<'t>(core: &Core, text: &'t [u8]) -> Option<(Option<Stimulus>, &'t [u8])>
    ensures { IsStep (stimulus_of core.now) text.now (option_map (λ (front : Option Word × Bor (List ℕ)). (front.0, front.1.now)) result) }
{
    match text {
        [b't', b'i', b'c', b'k', b' ', later @ ..] => Some((stimulus_of(core, &text[..4]), later)),
        _ => first_stimulus(core, text),
    }
}

// The first stimulus of any text, for `front`: the first space is looked for. The function is not inlined, since it is
// rarely called, and so the loop over words stays short.
#[inline(never)]
fn first_stimulus<'t>(core: &Core, text: &'t [u8]) -> Option<(Option<Stimulus>, &'t [u8])>
    ensures { IsStep (stimulus_of core.now) text.now (option_map (λ (front : Option Word × Bor (List ℕ)). (front.0, front.1.now)) result) }
{
    let (word, later) = cut_at_space(text)?;
    Some((stimulus_of(core, word), later))
}

// The stimuli of one core: `key` is the core's number, and `value` a text of words. `Unfit` where the core is not
// configured, the value is no text, or a word means no stimulus. `OutOfMemory` where memory runs out.
#[tactic(auto, unfolding(crate::specs::Given::core_stimuli_of))]
fn core_stimuli_of(
    alloc: Global,
    plan: &Plan,
    key: &str,
    value: &Value,
) -> Result<CoreStimuli, Refusal>
    ensures { Gives (λ x. x) result (core_stimuli_of plan.now (key.now, view value.now)) }
{
    let core = core_named(plan, key.as_bytes()).ok_or(Refusal::Unfit)?;
    let text = value.as_str().ok_or(Refusal::Unfit)?;
    let words = read_words(alloc, &StimulusReader { core }, text, STIMULI)?;
    Ok(CoreStimuli {
        core: core.id,
        words,
    })
}

// The stimuli of each core that the members of an object list.
fn stimuli_of_members(
    alloc: Global,
    plan: &Plan,
    members: &Map<String, Value>,
) -> Result<Stimuli, Refusal>
    ensures { Gives (λ x. x) result (each (core_stimuli_of plan.now) (entries (members_view members.now.entries))) }
{
    let mut stimuli = Items::new(alloc);
    for (key, value) in members {
        stimuli.push(core_stimuli_of(alloc, plan, key.as_str(), value)?)?;
    }
    Ok(stimuli)
}

// Whether the value, if it is a text, has at most `most` words. All other values pass.
fn has_words_within(most: usize, value: &Value) -> bool
    ensures { result ≡ has_words_within most (view value.now) }
{
    match value.as_str() {
        Some(text) => part_count(text, b' ') <= most,
        None => true,
    }
}

// Whether each member that is a text has at most `most` words.
fn are_values_within(most: usize, members: &Map<String, Value>) -> bool
    ensures { result ≡ list_all (λ (value : Value). has_words_within most (view value)) (values members.now) }
{
    members.values().all(|words| has_words_within(most, words))
}

// Whether each member of an object, if it is a text, has at most 100,000 words. All other values pass.
fn are_stimuli_within(value: &Value) -> bool
    ensures { result ≡ are_stimuli_within (view value.now) }
{
    match value.as_object() {
        Some(members) => are_values_within(STIMULI, members),
        None => true,
    }
}

// The stimuli of the cores that an object lists. `Unfit` where the value is no object, or one of its members is not
// read. `OutOfMemory` where memory runs out.
fn stimuli_of(alloc: Global, plan: &Plan, value: &Value) -> Result<Stimuli, Refusal>
    ensures { Gives (λ x. x) result (stimuli_of_data plan.now (view value.now)) }
{
    match value.as_object() {
        Some(members) => stimuli_of_members(alloc, plan, members),
        None => Err(Refusal::Unfit),
    }
}

/// The stimuli that a JSON text means for a configuration: an object from core numbers to words, which are divided by
/// one space. `NotJson` where the text is not JSON; `Limit` where a member has more than 100,000 words; `BadStimulus`
/// where the text is unfit otherwise. `NoMemory` where memory runs out. In the result, each listed core is configured
/// and has the ISRs that its stimuli name.
#[tactic(auto, using(crate::proofs::Known::known_data))]
pub fn read_stimuli(alloc: Global, config: &Config, text: &str) -> Result<Stimuli, ConfFault>
    ensures ok { IfOk result (λ stimuli. stimuli_of_text config.now text.now ≡ Some stimuli) }
    ensures fault { IfErr result (λ fault. fault ≢ ConfFault.NoMemory → IsLeast fault (stimuli_faults config.now text.now)) }
    ensures known { IfOk result (AreKnown config.now) }
{
    let value = json_of(alloc, text)?;
    if !are_stimuli_within(&value) {
        return Err(ConfFault::Limit);
    }
    match stimuli_of(alloc, config.plan(), &value) {
        Ok(stimuli) => Ok(stimuli),
        Err(Refusal::OutOfMemory) => Err(ConfFault::NoMemory),
        Err(Refusal::Unfit) => Err(ConfFault::BadStimulus),
    }
}

// The choice that the rest of a word means, after a core's number: `o` is Own, `l` is Look, and `s` with the number of
// another core is Serve. Any other rest means none.
#[tactic(auto, unfolding(crate::specs::Given::choice_of))]
#[inline(always)]
fn choice_of(plan: &Plan, core: CoreId, word: &[u8]) -> Option<Choice>
    ensures { result ≡ choice_of plan.now core word.now }
{
    match word {
        [b'o'] => Some(Choice::Own),
        [b'l'] => Some(Choice::Look),
        [b's', digits @ ..] => served(plan, core, digits),
        _ => None,
    }
}

// The choice to serve the core that these digits name. None if no configured core has this number, or it is the core
// `core` itself.
#[inline(always)]
fn served(plan: &Plan, core: CoreId, digits: &[u8]) -> Option<Choice>
    ensures { result ≡ served plan.now core digits.now }
{
    let from = core_named(plan, digits)?;
    if from.id.number == core.number {
        None
    } else {
        Some(Choice::Serve(from.id))
    }
}

/// How many digits a word begins with.
#[inline(always)]
fn digits_in(word: &[u8]) -> usize
    ensures exact { result ≡ digits_in word.now }
    ensures within { result ≤ length word.now }
{
    match first_other(word) {
        Some(index) => index,
        None => word.len(),
    }
}

// The index of the first byte that is no digit, if there is one.
#[inline(always)]
fn first_other(word: &[u8]) -> Option<usize>
    ensures exact { result ≡ position (λ b. not (is_ascii_digit b)) word.now }
    ensures within { IfSome result (λ index. index < length word.now) }
{
    word.iter().position(|b| !b.is_ascii_digit())
}

// The turn that a word means: the number of a configured core, and the core's choice. Any other word means none.
#[tactic(auto, unfolding(crate::specs::Given::turn_of))]
#[inline(always)]
fn turn_of(plan: &Plan, word: &[u8]) -> Option<Turn>
    ensures { result ≡ turn_of plan.now word.now }
{
    let digits = digits_in(word);
    let core = core_named(plan, &word[..digits])?.id;
    let choice = choice_of(plan, core, &word[digits..])?;
    Some((core, choice))
}

// Reads a turn.
#[derive(Clone, Copy)]
struct TurnReader<'p> {
    plan: &'p Plan,
}

impl WordReader<Turn> for TurnReader<'_> {
    ghost shape = { λ reader. turn_of reader.plan.now };

    fn read(&self, word: &[u8]) -> Option<Turn> {
        turn_of(self.plan, word)
    }

    // The turns of cores with one digit are compared at the text's front, and their ends are not looked for. The
    // functions that read a turn are inlined, so that no byte is compared twice.
    #[inline(always)]
    fn front<'t>(&self, text: &'t [u8]) -> Option<(Option<Turn>, &'t [u8])> {
        match text {
            [b'0'..=b'9', b'o', b' ', later @ ..] => Some((turn_of(self.plan, &text[..2]), later)),
            [b'0'..=b'9', b'l', b' ', later @ ..] => Some((turn_of(self.plan, &text[..2]), later)),
            [b'0'..=b'9', b's', b'0'..=b'9', b' ', later @ ..] => {
                Some((turn_of(self.plan, &text[..3]), later))
            }
            _ => first_turn(self.plan, text),
        }
    }
}

// The first turn of any text, for `front`: the first space is looked for.
fn first_turn<'t>(plan: &Plan, text: &'t [u8]) -> Option<(Option<Turn>, &'t [u8])>
    ensures { IsStep (turn_of plan.now) text.now (option_map (λ (front : Option (CoreId × Choice) × Bor (List ℕ)). (front.0, front.1.now)) result) }
{
    let (word, later) = cut_at_space(text)?;
    Some((turn_of(plan, word), later))
}

// The turns that the words of a text mean. `Unfit` where the value is no text, or a word means no turn. `OutOfMemory`
// where memory runs out.
fn schedule_of(alloc: Global, plan: &Plan, value: &Value) -> Result<Schedule, Refusal>
    ensures { Gives (λ x. x) result (schedule_of_data plan.now (view value.now)) }
{
    match value.as_str() {
        Some(text) => read_words(alloc, &TurnReader { plan }, text, TURNS),
        None => Err(Refusal::Unfit),
    }
}

/// The turns that a JSON text means for a configuration: a text of words, which are divided by one space. `NotJson`
/// where the text is not JSON; `Limit` where there are more than 1,000,000 words; `BadSchedule` where the text is unfit
/// otherwise. `NoMemory` where memory runs out.
pub fn read_schedule(alloc: Global, config: &Config, text: &str) -> Result<Schedule, ConfFault>
    ensures ok { IfOk result (λ turns. schedule_of_text config.now text.now ≡ Some turns) }
    ensures fault { IfErr result (λ fault. fault ≢ ConfFault.NoMemory → IsLeast fault (schedule_faults config.now text.now)) }
{
    let value = json_of(alloc, text)?;
    if !has_words_within(TURNS, &value) {
        return Err(ConfFault::Limit);
    }
    match schedule_of(alloc, config.plan(), &value) {
        Ok(turns) => Ok(turns),
        Err(Refusal::OutOfMemory) => Err(ConfFault::NoMemory),
        Err(Refusal::Unfit) => Err(ConfFault::BadSchedule),
    }
}
