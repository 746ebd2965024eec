//! Parts of blocks: the pieces in which threads make the text of reports.

ghost use Rattle.std.specs.Prelude.{◌≡◌, ◌+◌, ◌++◌, ◌^◌, ◌<◌, ◌≤◌, IfOk, OnOk, length};
ghost use Rattle.ostrace.specs.{Gathers.Gathers, Parts.part_text, Parts.parts_text, Parts.title_before, Taken.Writes};
ghost use Rattle.ostrace_text.specs.Trace.{block_of, text_of};

use crate::gathered::Gathered;
use crate::reports::{write_ended_title, write_lines};
use crate::sinks::{Sink, WriteFailed};
use osbase::{CoreId, Mark, Report};
use osplan::Plan;
use ostrace_text::BlockNames;
use std::alloc::{AllocError, Global};

/// Consecutive lines of a block. If they are the first lines of the block, its title comes before them.
#[derive(Clone, Copy)]
pub(crate) struct Part<'a> {
    plan: &'a Plan,
    core: CoreId,
    is_first: bool,
    marks: &'a [Mark],
}

impl<'a> Part<'a> {
    /// The block of a report as one part.
    pub(crate) fn whole(plan: &'a Plan, report: &'a Report) -> Self
        ensures { part_text result ≡ block_of plan.now report.now }
    {
        Part {
            plan,
            core: report.core,
            is_first: true,
            marks: report.marks.as_slice(),
        }
    }

    /// How many lines the part has, without the title.
    pub(crate) fn line_count(&self) -> usize
        ensures { result ≡ length self.now.marks.now }
    {
        self.marks.len()
    }

    // The first `count` lines of the part, and the others.
    fn split_at(self, count: usize) -> (Self, Self)
        requires { count ≤ length self.marks.now }
        ensures text { part_text result.0 ++ part_text result.1 ≡ part_text self.entry }
        ensures left { length result.1.marks.now + count ≡ length self.entry.marks.now }
    {
        let (marks, others) = self.marks.split_at(count);
        let rest = Part {
            is_first: false,
            marks: others,
            ..self
        };
        (Part { marks, ..self }, rest)
    }

    // Gathers the title of the block, if the part has the block's first lines.
    fn gather_title<S: Sink>(&self, out: &mut S, gathered: &mut Gathered) -> Result<(), WriteFailed>
        requires { S.failed out.old < 2 ^ 48 }
        ensures { Gathers S.taken S.failed out.old out.new gathered.old gathered.new
            (title_before self.now) result }
    {
        if !self.is_first {
            return Ok(());
        }
        write_ended_title(out, gathered, self.core)
    }

    /// Gathers the text of the part.
    pub(crate) fn gather<S: Sink>(
        &self,
        out: &mut S,
        gathered: &mut Gathered,
    ) -> Result<(), WriteFailed>
        requires { S.failed out.old < 2 ^ 48 }
        ensures { Gathers S.taken S.failed out.old out.new gathered.old gathered.new
            (part_text self.now) result }
    {
        self.gather_title(out, gathered)?;
        let names = BlockNames::new(self.plan, self.core);
        write_lines(out, gathered, &names, self.marks)
    }
}

// Gathers the texts of the parts one after another.
fn gather_parts<S: Sink>(
    out: &mut S,
    gathered: &mut Gathered,
    parts: &[Part],
) -> Result<(), WriteFailed>
    requires { S.failed out.old < 2 ^ 48 }
    ensures { Gathers S.taken S.failed out.old out.new gathered.old gathered.new
        (parts_text parts.now) result }
{
    for part in parts {
        part.gather(out, gathered)?;
    }
    Ok(())
}

/// Writes the texts of the parts one after another.
pub(crate) fn write_parts<S: Sink>(out: &mut S, parts: &[Part]) -> Result<(), WriteFailed>
    requires { S.failed out.old < 2 ^ 48 }
    ensures { Writes S.taken S.failed out.old out.new (parts_text parts.now) result }
{
    let mut gathered = Gathered::new();
    gather_parts(out, &mut gathered, parts)?;
    gathered.send(out)
}

// Adds the parts of a block, each of at most `size` lines.
fn push_block<'a>(parts: &mut Vec<Part<'a>>, block: Part<'a>, size: usize) -> Result<(), AllocError>
    requires { 0 < size }
    ensures { OnOk result (parts_text parts.new.items ≡
        parts_text parts.old.items ++ part_text block.entry) }
{
    let mut rest = block;
    while rest.line_count() > size {
        let (part, others) = rest.split_at(size);
        parts.push(part)?;
        rest = others;
    }
    parts.push(rest)?;
    Ok(())
}

/// The parts of all blocks, each of at most `size` lines.
pub(crate) fn parts_of<'a>(
    alloc: Global,
    plan: &'a Plan,
    reports: &'a [Report],
    size: usize,
) -> Result<Vec<Part<'a>>, AllocError>
    requires { 0 < size }
    ensures { IfOk result (λ parts. parts_text parts.items ≡ text_of plan.now reports.now) }
{
    let mut parts = Vec::new(alloc);
    for report in reports {
        push_block(&mut parts, Part::whole(plan, report), size)?;
    }
    Ok(parts)
}
