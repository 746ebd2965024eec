//! The words of a line, and how they are written.

ghost use Rattle.std.specs.Prelude.{◌^◌, ◌<◌, ◌++◌, ◌∷◌, [], codes};
ghost use Rattle.std.specs.Fmt.{decimal, signed_decimal};
ghost use Rattle.ostrace.specs.{Taken.Writes, Gathers.Gathers, Pieces.text_after_spaces, Pieces.word_text};
ghost use Rattle.ostrace_text.specs.Trace.{after_spaces, line_end};

use crate::gathered::Gathered;
use crate::sinks::{Sink, WriteFailed};
use itoa::Buffer;

/// A word of a line.
#[derive(Clone, Copy)]
pub enum Word<'a> {
    /// A name, or one of the trace's own words.
    Text(&'a str),
    /// A number without a sign.
    Whole(u32),
    /// A number with `-` where it is below 0.
    Signed(i64),
    /// The variable of this number.
    Variable(u8),
}

/// Writes a text after a space.
#[inline(always)]
pub fn write_text_after_space<S: Sink>(
    out: &mut S,
    gathered: &mut Gathered,
    text: &str,
) -> Result<(), WriteFailed>
    requires { S.failed out.old < 2 ^ 48 }
    ensures { Gathers S.taken S.failed out.old out.new gathered.old gathered.new
        (after_spaces (text.now ∷ [])) result }
{
    gathered.put_pair(out, "", text)
}

// Writes a number below 10 after a space.
#[inline(always)]
fn write_digit_after_space<S: Sink>(
    out: &mut S,
    gathered: &mut Gathered,
    digit: u8,
) -> Result<(), WriteFailed>
    requires sink { S.failed out.old < 2 ^ 48 }
    requires digit { digit < 10 }
    ensures { Gathers S.taken S.failed out.old out.new gathered.old gathered.new
        (after_spaces (decimal digit ∷ [])) result }
{
    gathered.put(out, &[b' ', b'0' + digit])
}

/// Writes a number after a space.
#[inline(always)]
pub fn write_whole_after_space<S: Sink>(
    out: &mut S,
    gathered: &mut Gathered,
    number: u32,
) -> Result<(), WriteFailed>
    requires { S.failed out.old < 2 ^ 48 }
    ensures { Gathers S.taken S.failed out.old out.new gathered.old gathered.new
        (after_spaces (decimal number ∷ [])) result }
{
    if number < 10 {
        return write_digit_after_space(out, gathered, number as u8);
    }
    write_digits_after_space(out, gathered, number)
}

// Writes a number of any size after a space. The function is not inlined.
#[inline(never)]
fn write_digits_after_space<S: Sink>(
    out: &mut S,
    gathered: &mut Gathered,
    number: u32,
) -> Result<(), WriteFailed>
    requires { S.failed out.old < 2 ^ 48 }
    ensures { Gathers S.taken S.failed out.old out.new gathered.old gathered.new
        (after_spaces (decimal number ∷ [])) result }
{
    write_text_after_space(out, gathered, Buffer::new().format(number))
}

/// Writes a number after a space, with `-` where it is below 0.
pub fn write_signed_after_space<S: Sink>(
    out: &mut S,
    gathered: &mut Gathered,
    number: i64,
) -> Result<(), WriteFailed>
    requires { S.failed out.old < 2 ^ 48 }
    ensures { Gathers S.taken S.failed out.old out.new gathered.old gathered.new
        (after_spaces (signed_decimal number ∷ [])) result }
{
    write_text_after_space(out, gathered, Buffer::new().format(number))
}

// Writes a number, without a space before it.
fn write_decimal<S: Sink>(
    out: &mut S,
    gathered: &mut Gathered,
    number: u8,
) -> Result<(), WriteFailed>
    requires { S.failed out.old < 2 ^ 48 }
    ensures { Gathers S.taken S.failed out.old out.new gathered.old gathered.new
        (decimal number) result }
{
    gathered.put_text(out, Buffer::new().format(number))
}

/// Writes a variable after a space: `v` and its number.
pub fn write_variable_after_space<S: Sink>(
    out: &mut S,
    gathered: &mut Gathered,
    number: u8,
) -> Result<(), WriteFailed>
    requires { S.failed out.old < 2 ^ 48 }
    ensures { Gathers S.taken S.failed out.old out.new gathered.old gathered.new
        (after_spaces ((codes "v" ++ decimal number) ∷ [])) result }
{
    gathered.put_text(out, " v")?;
    write_decimal(out, gathered, number)
}

/// Writes a word after a space.
#[inline(always)]
pub fn write_word_after_space<S: Sink>(
    out: &mut S,
    gathered: &mut Gathered,
    word: Word,
) -> Result<(), WriteFailed>
    requires { S.failed out.old < 2 ^ 48 }
    ensures { Gathers S.taken S.failed out.old out.new gathered.old gathered.new
        (after_spaces (word_text word.entry ∷ [])) result }
{
    match word {
        Word::Text(text) => write_text_after_space(out, gathered, text),
        Word::Whole(number) => write_whole_after_space(out, gathered, number),
        Word::Signed(number) => write_signed_after_space(out, gathered, number),
        Word::Variable(number) => write_variable_after_space(out, gathered, number),
    }
}

/// Writes words, each after a space.
#[inline(always)]
pub fn write_after_space<S: Sink>(
    out: &mut S,
    gathered: &mut Gathered,
    words: &[Word],
) -> Result<(), WriteFailed>
    requires { S.failed out.old < 2 ^ 48 }
    ensures { Gathers S.taken S.failed out.old out.new gathered.old gathered.new
        (text_after_spaces words.now) result }
{
    for word in words {
        write_word_after_space(out, gathered, *word)?;
    }
    Ok(())
}

/// Writes a first word, and other words each after a space.
// Inlined into its callers, where the words are known, it is as fast as a call for each word.
#[inline(always)]
pub fn write_spaced<S: Sink>(
    out: &mut S,
    gathered: &mut Gathered,
    first: &str,
    others: &[Word],
) -> Result<(), WriteFailed>
    requires { S.failed out.old < 2 ^ 48 }
    ensures { Gathers S.taken S.failed out.old out.new gathered.old gathered.new
        (first.now ++ text_after_spaces others.now) result }
{
    gathered.put_text(out, first)?;
    write_after_space(out, gathered, others)
}

// Writes a first word, other words each after a space, and a line end.
fn write_words<S: Sink>(
    out: &mut S,
    gathered: &mut Gathered,
    first: &str,
    others: &[Word],
) -> Result<(), WriteFailed>
    requires { S.failed out.old < 2 ^ 48 }
    ensures { Gathers S.taken S.failed out.old out.new gathered.old gathered.new
        ((first.now ++ text_after_spaces others.now) ++ line_end) result }
{
    write_spaced(out, gathered, first, others)?;
    gathered.put_text(out, "\n")
}

/// Writes a line: a first word, other words each after a space, and its end.
pub fn write_ended_words<S: Sink>(
    out: &mut S,
    first: &str,
    others: &[Word],
) -> Result<(), WriteFailed>
    requires { S.failed out.old < 2 ^ 48 }
    ensures { Writes S.taken S.failed out.old out.new ((first.now ++ text_after_spaces others.now) ++ line_end) result }
{
    let mut gathered = Gathered::new();
    write_words(out, &mut gathered, first, others)?;
    gathered.send(out)
}
