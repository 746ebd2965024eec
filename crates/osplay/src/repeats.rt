//! Short forms of long texts: a part that occurs many times is written once.

use crate::differences::Difference;
use std::alloc::{AllocError, Global};

/// A table has fewer parts than this.
const PARTS: u32 = 1_000;

/// The text with its parts written out. `<N*T>` is N copies of T. `<N#T>` is N copies of T, too, but each `#` becomes
/// the number of the copy, from 1. In `<N%T>`, each `%` becomes that number with two digits. A T may itself have parts.
pub fn written_out(alloc: Global, text: &str) -> Result<String, Difference> {
    let mut text = String::from_str(alloc, text)?;
    for _ in 0..PARTS {
        match with_one_out(alloc, text.as_str())? {
            Some(longer) => text = longer,
            None => return Ok(text),
        }
    }
    Err(Difference::TooManyParts)
}

// The text with one part written out. That part has no parts of its own. `None` if the text has no part.
fn with_one_out(alloc: Global, text: &str) -> Result<Option<String>, Difference> {
    let Some((before, rest)) = text.rsplit_once('<') else {
        return Ok(None);
    };
    let (part, after) = rest.split_once('>').ok_or("the end of a part")?;
    let mut longer = String::from_str(alloc, before)?;
    push_part(alloc, &mut longer, part)?;
    longer.push_str(after)?;
    Ok(Some(longer))
}

// Adds the copies that the part stands for. The part is written `N*T`, `N#T` or `N%T`.
fn push_part(alloc: Global, longer: &mut String, part: &str) -> Result<(), Difference> {
    let rest = part.trim_start_matches(|c: char| c.is_ascii_digit());
    let count = part.strip_suffix(rest).ok_or("a count")?;
    let mark = rest.chars().next().ok_or("a mark")?;
    let text = rest.strip_prefix(mark).ok_or("a text")?;
    for number in 1..=count.parse::<u32>().ok().ok_or("a count")? {
        let number = if mark == '%' {
            format!(in alloc; "{number:02}")?
        } else {
            format!(in alloc; "{number}")?
        };
        push_numbered(longer, text, mark, number.as_str())?;
    }
    Ok(())
}

// Adds the text, with the number in place of each mark.
fn push_numbered(
    longer: &mut String,
    text: &str,
    mark: char,
    number: &str,
) -> Result<(), AllocError> {
    let mut pieces = text.split(mark);
    longer.push_str(pieces.next().unwrap_or(""))?;
    for piece in pieces {
        longer.push_str(number)?;
        longer.push_str(piece)?;
    }
    Ok(())
}
