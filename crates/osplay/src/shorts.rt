//! Short forms of blocks: one line stands for lines that each run has together, or for lines of an earlier block.

ghost use Rattle.std.specs.Prelude.{◌≡◌, ◌-◌, IfSome, length, take, drop};

use crate::differences::Difference;
use std::alloc::Global;

/// Adds what this line of a block stands for, with line ends. `A .. B` stands for A, B and the lines that a run has
/// between them; any other line stands for itself.
pub fn push_in_full(text: &mut String, line: &str) -> Result<(), Difference> {
    let Some((first, last)) = line.split_once(" .. ") else {
        return push_line(text, line);
    };
    push_line(text, first)?;
    push_between(text, first, last)?;
    push_line(text, last)
}

// Adds the lines that a run has between `first` and `last`. Behind `on` or `began` they are `entered`, `pass1 M` and
// `readied`; behind `entered`, the last two of these. Behind `drained`, `passend`; behind `pre T`, `post T`. Behind
// `core` or `start`, `hook Startup`, and also `act T` if `last` is `pre T`. No other line has lines behind it.
fn push_between(text: &mut String, first: &str, last: &str) -> Result<(), Difference> {
    match first.split(' ').next().unwrap_or("") {
        "on" | "began" => push_line(text, "entered\npass1 M\nreadied"),
        "entered" => push_line(text, "pass1 M\nreadied"),
        "drained" => push_line(text, "passend"),
        "pre" => {
            let task = first.strip_prefix("pre ").ok_or("a task")?;
            text.push_str("post ")?;
            push_line(text, task)
        }
        "core" | "start" => {
            push_line(text, "hook Startup")?;
            if let Some(task) = last.strip_prefix("pre ") {
                text.push_str("act ")?;
                push_line(text, task)?;
            }
            Ok(())
        }
        _ => Err(Difference::Lacks("a line that `..` may follow")),
    }
}

// Adds the line and a line end.
fn push_line(text: &mut String, line: &str) -> Result<(), Difference> {
    text.push_str(line)?;
    Ok(text.push_str("\n")?)
}

/// Splits a line `as WHICH up to L` or `as WHICH from L` into `as WHICH` and the part of that block. None if the line
/// has neither form.
pub fn repeat_of(line: &str) -> Option<(&str, Part<'_>)> {
    if !line.starts_with("as ") {
        return None;
    }
    if let Some((which, last)) = line.split_once(" up to ") {
        return Some((which, Part::UpTo(last)));
    }
    let (which, first) = line.split_once(" from ")?;
    Some((which, Part::From(first)))
}

/// Some lines of a block.
#[derive(Clone, Copy)]
pub enum Part<'a> {
    /// The lines up to the last one that equals this line, and that one.
    UpTo(&'a str),
    /// The first line that equals this line, and those behind it.
    From(&'a str),
}

/// Adds this part of a block. The line that the part names must not be the first line of the block.
pub fn push_part(
    alloc: Global,
    text: &mut String,
    block: &str,
    part: Part<'_>,
) -> Result<(), Difference> {
    let lacks = "the line from which or up to which a block is repeated";
    match part {
        Part::UpTo(line) => {
            let end = format!(in alloc; "\n{line}\n")?;
            text.push_str(before_last(block, end.as_str()).ok_or(lacks)?)?;
            text.push_str("\n")?;
            push_line(text, line)
        }
        Part::From(line) => {
            let start = format!(in alloc; "\n{line}\n")?;
            push_line(text, line)?;
            Ok(text.push_str(behind_first(block, start.as_str()).ok_or(lacks)?)?)
        }
    }
}

// What comes in the block before the last occurrence of these lines.
fn before_last<'a>(block: &'a str, lines: &str) -> Option<&'a str>
    ensures { IfSome result (λ before. before.now ≡ take (length before.now) block.now) }
{
    let (before, _) = block.rsplit_once(lines)?;
    Some(before)
}

// What comes in the block behind the first occurrence of these lines.
fn behind_first<'a>(block: &'a str, lines: &str) -> Option<&'a str>
    ensures { IfSome result (λ behind. behind.now ≡ drop (length block.now - length behind.now) block.now) }
{
    let (_, behind) = block.split_once(lines)?;
    Some(behind)
}
