//! Reading: the item of a line.

ghost use Rattle.std.specs.Prelude.{◌≡◌, ◌∷◌, List, Option, option_map, ℕ};
ghost use Rattle.std.specs.Borrow.{Bor};
ghost use Rattle.ossyntax.specs.ParsedOp.{rest_words, words_of};
ghost use Rattle.oslog.specs.Items.{first_item, item_as, item_of_text};
ghost use Rattle.oslog.specs.Words.{call_of, irq_of, read_words, with_tail, with_word};
ghost use Rattle.oslog.specs.{Forms.no_parts, declared.forms.Parts.Parts as PartsValue};

use crate::forms::{Parts, item_of};
use crate::names::NameIndex;
use crate::rows::{Kind, LINES, Line, Tail, row_of};
use crate::words::{core_of, cores_of, status_of};
use osbase::{IsrRef, Item, RemoteCall};
use oscript::call_of_op;
use ossyntax::{cut, int_of, number_in, op_of_text};

// The ISR of a word: `irq=` and the ISR's name.
fn irq_of(names: &NameIndex, word: &str) -> Option<IsrRef>
    ensures { result ≡ irq_of names.now.config.now word.now }
{
    names.isr(word.strip_prefix("irq=")?)
}

// The parts, with the value of a word of this kind added. None if the word is not of this kind.
fn with_word(names: &NameIndex, kind: Kind, word: &str, parts: Parts) -> Option<Parts>
    ensures { result ≡ with_word names.now.config.now kind word.now parts }
{
    match kind {
        Kind::Keyword(keyword) => {
            if word == keyword.text() {
                Some(parts)
            } else {
                None
            }
        }
        Kind::Core => Some(Parts {
            core: core_of(word)?,
            ..parts
        }),
        Kind::Count => Some(Parts {
            count: number_in(0, u64::MAX, word)?,
            ..parts
        }),
        Kind::Status => Some(Parts {
            status: status_of(word)?,
            ..parts
        }),
        Kind::Value => Some(Parts {
            value: int_of(word)?,
            ..parts
        }),
        Kind::Mode => Some(Parts {
            mode: names.mode(word)?,
            ..parts
        }),
        Kind::Irq => Some(Parts {
            isr: irq_of(names, word)?,
            ..parts
        }),
        Kind::Spinlock => Some(Parts {
            spinlock: names.spinlock(word)?,
            ..parts
        }),
    }
}

// The parts that the first words of the text give, one of each of these kinds, and the text that follows these words.
// None if a word is missing or not of its kind.
#[inline(always)]
fn read_words<'t>(
    names: &NameIndex,
    kinds: &[Kind],
    text: Option<&'t str>,
) -> Option<(Parts, Option<&'t str>)>
    ensures { option_map (λ (read : PartsValue × Option (Bor (List ℕ))). (read.0, rest_words read.1)) result ≡ read_words names.now.config.now kinds.now (rest_words text.entry) no_parts }
{
    let mut parts = Parts::none();
    let mut left = text;
    for kind in kinds {
        let (word, later) = cut(left?);
        parts = with_word(names, *kind, word, parts)?;
        left = later;
    }
    Some((parts, left))
}

// The call that the words of an operation mean, if the operation goes across cores and names its object, and its mask
// (if any) has an event.
fn call_of(names: &NameIndex, text: &str) -> Option<RemoteCall>
    ensures { result ≡ call_of names.now.config.now (words_of text.now) }
{
    let op = op_of_text(names, text)?;
    if !op.has_masks() {
        return None;
    }
    let (_, call) = call_of_op(op)?;
    call
}

// The parts, with the call or the cores added that the text after a row's words means. None if the text does not fit;
// with `Nothing`, if there is a text.
fn with_tail(names: &NameIndex, tail: Tail, text: Option<&str>, parts: Parts) -> Option<Parts>
    ensures { result ≡ with_tail names.now.config.now tail (rest_words text.entry) parts }
{
    match tail {
        Tail::Nothing => { if text.is_none() { Some(parts) } else { None } }
        Tail::Call => Some(Parts {
            call: call_of(names, text?)?,
            ..parts
        }),
        Tail::Cores => Some(Parts {
            cores: cores_of(text)?,
            ..parts
        }),
    }
}

// The item of a line of this form. `first` is the first word of the line, and `rest` is what follows it. None if the
// line does not fit the form.
#[inline(always)]
fn item_as(names: &NameIndex, form: Line, first: &str, rest: Option<&str>) -> Option<Item>
    ensures { result ≡ item_as names.now.config.now (first.now ∷ rest_words rest.entry) form }
{
    let row = row_of(form);
    if first != row.first.text() {
        return None;
    }
    let (parts, rest) = read_words(names, row.kinds, rest)?;
    let parts = with_tail(names, row.tail, rest, parts)?;
    Some(item_of(form, &parts))
}

// The item of a line, given by its first word and the rest, in the first of these forms that fits. None if none fits.
fn first_item(names: &NameIndex, forms: &[Line], first: &str, rest: Option<&str>) -> Option<Item>
    ensures { result ≡ first_item (item_as names.now.config.now (first.now ∷ rest_words rest.entry)) forms.now }
{
    for form in forms {
        let item = item_as(names, *form, first, rest);
        if item.is_some() {
            return item;
        }
    }
    None
}

/// The item of a line, in the first form that fits. None if none fits.
pub fn item_of_text(names: &NameIndex, text: &str) -> Option<Item>
    ensures { result ≡ item_of_text names.now.config.now text.now }
{
    let (first, rest) = cut(text);
    first_item(names, &LINES, first, rest)
}
