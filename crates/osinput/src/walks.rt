//! The walk over a text by its words, which spaces divide.

ghost use Rattle.std.specs.Prelude.{◌≡◌, ◌==◌, ◌<◌, IfSome, List, Option, length, option_map, position, ℕ};
ghost use Rattle.std.specs.Borrow.{Bor};
ghost use Rattle.osjson.specs.Reading.{Gives, each, parts_of};
ghost use Rattle.osinput.specs.Walk.{IsStep, cut_at_space, words_in};

use osbase::List as Items;
use osjson::Refusal;
use std::alloc::Global;

/// Reads words.
pub trait WordReader<T> {
    /// What a word is read as.
    ghost shape: { Self → List ℕ → Option T };

    /// What the word is read as; `None` where it does not have the reader's shape.
    fn read(&self, word: &[u8]) -> Option<T>
        ensures { result ≡ shape self.now word.now };

    /// What the first word of a text is read as, and the text after its space. `None` if no space ends the first word.
    fn front<'t>(&self, text: &'t [u8]) -> Option<(Option<T>, &'t [u8])>
        ensures { IsStep (shape self.now) text.now (option_map (λ (front : Option T × Bor (List ℕ)). (front.0, front.1.now)) result) };
}

/// The text before the first space, and the text after it. `None` if the text has no space.
pub fn cut_at_space(text: &[u8]) -> Option<(&[u8], &[u8])>
    ensures { option_map (λ (parts : Bor (List ℕ) × Bor (List ℕ)). (parts.0.now, parts.1.now)) result ≡ cut_at_space text.now }
{
    let end = space_in(text)?;
    Some((&text[..end], &text[end + 1..]))
}

// The index of the first space, if there is one.
fn space_in(text: &[u8]) -> Option<usize>
    ensures exact { result ≡ position (λ b. b == 32) text.now }
    ensures within { IfSome result (λ index. index < length text.now) }
{
    text.iter().position(|b| *b == b' ')
}

/// Each word of a text as the reader reads it. The empty text has no word. Room is taken for at most `most` words.
/// `Unfit` where a word does not have the reader's shape; `OutOfMemory` where memory runs out.
pub fn read_words<T: Drop, R: WordReader<T>>(
    alloc: Global,
    reader: &R,
    text: &str,
    most: usize,
) -> Result<Items<T>, Refusal>
    ensures { Gives (λ x. x) result (each (R.shape reader.now) (parts_of 32 text.now)) }
{
    if text.is_empty() {
        return Ok(Items::new(alloc));
    }
    // Each word that is read has at least two bytes, and so room is taken once.
    let room = most.min(text.len() / 3 + 1);
    read_all(alloc, reader, text.as_bytes(), room)
}

// Each word of a text as the reader reads it; the empty text has one word, the empty one. Room is taken for `room`
// words. The function is not inlined, so that its loop has all registers for itself.
#[inline(never)]
fn read_all<T: Drop, R: WordReader<T>>(
    alloc: Global,
    reader: &R,
    text: &[u8],
    room: usize,
) -> Result<Items<T>, Refusal>
    ensures { Gives (λ x. x) result (each (R.shape reader.now) (words_in text.now)) }
{
    let mut read = Vec::with_capacity(alloc, room)?;
    let mut rest = text;
    while let Some((item, later)) = reader.front(rest) {
        read.push(item.ok_or(Refusal::Unfit)?)?;
        rest = later;
    }
    let last = reader.read(rest);
    read.push(last.ok_or(Refusal::Unfit)?)?;
    Ok(Items::from_vec(read))
}
