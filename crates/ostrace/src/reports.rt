//! The text of reports: a block for each core, in it a line for each mark.

ghost use Rattle.std.specs.Prelude.{◌≡◌, ◌+◌, ◌^◌, ◌<◌, ◌++◌, OnOk, OnErr};
ghost use Rattle.std.specs.Io.KnownBytes.{Appends};
ghost use Rattle.ostrace.specs.{Gathers.Gathers, Taken.failures, Taken.TakesBeginning, Taken.Writes};
ghost use Rattle.ostrace_text.specs.Trace.{block_of, line_end, line_of, lines_of, text_of, title_of};

use crate::gathered::Gathered;
use crate::lines::{write_line, write_verb_and_core};
use crate::parts::Part;
use crate::sinks::{Sink, WriteFailed};
use osbase::{CoreId, Mark, Report};
use osplan::{Config, Plan};
use ostrace_text::BlockNames;

/// Writes the title of a core's block, with its line end.
pub(crate) fn write_ended_title<S: Sink>(
    out: &mut S,
    gathered: &mut Gathered,
    core: CoreId,
) -> Result<(), WriteFailed>
    requires { S.failed out.old < 2 ^ 48 }
    ensures { Gathers S.taken S.failed out.old out.new gathered.old gathered.new
        (title_of core ++ line_end) result }
{
    write_verb_and_core(out, gathered, "core", core)?;
    gathered.put_text(out, "\n")
}

// Writes the line of a mark, with its line end.
#[inline]
fn write_ended_line<S: Sink>(
    out: &mut S,
    gathered: &mut Gathered,
    names: &BlockNames,
    mark: &Mark,
) -> Result<(), WriteFailed>
    requires { S.failed out.old < 2 ^ 48 }
    ensures { Gathers S.taken S.failed out.old out.new gathered.old gathered.new
        (line_of names.now mark.now ++ line_end) result }
{
    write_line(out, gathered, names, mark)?;
    gathered.put_text(out, "\n")
}

/// Writes the lines of marks, each with its line end.
pub(crate) fn write_lines<S: Sink>(
    out: &mut S,
    gathered: &mut Gathered,
    names: &BlockNames,
    marks: &[Mark],
) -> Result<(), WriteFailed>
    requires { S.failed out.old < 2 ^ 48 }
    ensures { Gathers S.taken S.failed out.old out.new gathered.old gathered.new
        (lines_of names.now marks.now) result }
{
    for mark in marks {
        write_ended_line(out, gathered, names, mark)?;
    }
    Ok(())
}

// Gathers the blocks of the reports in their order.
fn gather_blocks<S: Sink>(
    out: &mut S,
    gathered: &mut Gathered,
    plan: &Plan,
    reports: &[Report],
) -> Result<(), WriteFailed>
    requires { S.failed out.old < 2 ^ 48 }
    ensures { Gathers S.taken S.failed out.old out.new gathered.old gathered.new
        (text_of plan.now reports.now) result }
{
    for report in reports {
        Part::whole(plan, report).gather(out, gathered)?;
    }
    Ok(())
}

/// Writes the blocks of the reports in their order.
pub(crate) fn write_blocks<S: Sink>(
    plan: &Plan,
    out: &mut S,
    reports: &[Report],
) -> Result<(), WriteFailed>
    requires { S.failed out.old < 2 ^ 48 }
    ensures { Writes S.taken S.failed out.old out.new (text_of plan.now reports.now) result }
{
    let mut gathered = Gathered::new();
    gather_blocks(out, &mut gathered, plan, reports)?;
    gathered.send(out)
}

/// Writes the blocks of the reports in their order, and stops at the first write that fails: then
/// the sink has a prefix of the text. The function takes no memory.
pub fn write_reports<S: Sink>(
    config: &Config,
    out: &mut S,
    reports: &[Report],
) -> Result<(), WriteFailed>
    requires { S.failed out.old < 2 ^ 48 }
    ensures ok { OnOk result (Appends (S.taken out.old) (S.taken out.new)
        (text_of config.now reports.now)) }
    ensures err { OnErr result (TakesBeginning (S.taken out.old) (S.taken out.new)
        (text_of config.now reports.now)) }
    ensures failed { S.failed out.new ≡ S.failed out.old + failures result }
{
    write_blocks(config.plan(), out, reports)
}
