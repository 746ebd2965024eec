//! The loop over the parts of a text.

ghost use Rattle.std.specs.Prelude.{◌≡◌, ◌==◌, ◌<◌, ◌∷◌, Option, List, ℕ};
ghost use Rattle.std.specs.List.{slice_split};
ghost use Rattle.osjson.specs.Reading.{Gives, each_of_few, later_parts, parts_of};

use crate::refusals::Refusal;
use memchr::memchr;
use osbase::List as Items;
use std::alloc::Global;

/// Reads one part of a text.
pub trait PartReader<U> {
    /// What a part is read as.
    ghost shape: { Self → List ℕ → Option U };

    /// What the part is read as; `None` where it does not have the reader's shape.
    fn read(&self, part: &str) -> Option<U>
        ensures { result ≡ shape self.now part.now };
}

// The first part of a text, and the text behind the first separator, if there is a separator.
#[inline(always)]
fn first_part(text: &str, separator: u8) -> (&str, Option<&str>)
    requires { separator < 128 }
    ensures { slice_split (λ b. b == separator) text.now ≡ result.0.now ∷ later_parts separator result.1 }
{
    match memchr(separator, text.as_bytes()) {
        Some(at) => (&text[..at], Some(&text[at + 1..])),
        None => (text, None),
    }
}

/// Each part of a text between separators, as the reader reads it. The empty text has no part. `Unfit` where there are
/// more than `most` parts, or one of them does not have the reader's shape. `OutOfMemory` where memory runs out.
pub fn read_parts<U: Drop, R: PartReader<U>>(
    alloc: Global,
    reader: &R,
    text: &str,
    separator: char,
    most: usize,
) -> Result<Items<U>, Refusal>
    requires { separator < 128 }
    ensures { Gives (λ x. x) result (each_of_few most (R.shape reader.now) (parts_of separator text.now)) }
{
    let mut read = Items::new(alloc);
    if text.is_empty() {
        return Ok(read);
    }
    let mut left = Some(text);
    while let Some(rest) = left {
        if read.len() == most {
            return Err(Refusal::Unfit);
        }
        let (part, later) = first_part(rest, separator as u8);
        let Some(item) = reader.read(part) else {
            return Err(Refusal::Unfit);
        };
        read.push(item)?;
        left = later;
    }
    Ok(read)
}
