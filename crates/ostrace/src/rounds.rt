//! The text of reports, made by threads.

ghost use Rattle.std.specs.Prelude.{◌≡◌, ◌^◌, ◌<◌, IfSome, length, slice_index_or};
ghost use Rattle.ostrace.specs.{declared.rounds.TheConstants.PARTS, Parts.AreMade, Parts.part_text, Parts.parts_text, Parts.round_of, Taken.Writes};
ghost use Rattle.ostrace_text.specs.Trace.{text_of};

use crate::parts::{Part, parts_of, write_parts};
use crate::reports::write_blocks;
use crate::sinks::{MemorySink, Sink, WriteFailed, write_all};
use osbase::Report;
use osplan::Config;
use std::alloc::Global;
use std::thread::Threads;
use std::{slice, thread};

// How many threads make text at once, one part each.
const PARTS: usize = 8;

// The least and the most lines of a part. Fewer lines are written sooner than a thread starts. The upper limit lets the
// memory of one round serve for the next.
const LEAST: usize = 4096;

const MOST: usize = 131_072;

// How many bytes of memory are taken beforehand for each line. Most lines have fewer.
const BYTES: usize = 16;

// The parts of the round at this place.
fn round_of<'a, 'b>(parts: &'b [Part<'a>], at: usize) -> &'b [Part<'a>]
    ensures { result.now ≡ round_of parts.now PARTS at }
{
    let rest = &parts[at.saturating_mul(PARTS).min(parts.len())..];
    &rest[..PARTS.min(rest.len())]
}

// The text of a part, if there is memory for it.
fn text_in_memory(alloc: Global, part: &Part) -> Option<Vec<u8>>
    ensures { IfSome result (λ text. text.items ≡ part_text part.now) }
{
    let bytes = Vec::with_capacity(alloc, part.line_count().saturating_mul(BYTES)).ok()?;
    let mut out = MemorySink::new(bytes);
    match write_parts(&mut out, slice::from_ref(part)) {
        Ok(()) => Some(out.bytes),
        Err(WriteFailed) => None,
    }
}

// Writes a part's text. If the text was not made before, it is made now.
fn write_part<S: Sink>(out: &mut S, part: &Part, text: Option<&[u8]>) -> Result<(), WriteFailed>
    requires failed { S.failed out.old < 2 ^ 48 }
    requires text { IfSome text (λ bytes. bytes.now ≡ part_text part.now) }
    ensures { Writes S.taken S.failed out.old out.new (part_text part.now) result }
{
    match text {
        Some(bytes) => write_all(out, bytes),
        None => write_parts(out, slice::from_ref(part)),
    }
}

// Writes the texts of the parts, some of which were made before.
fn write_texts<S: Sink>(
    out: &mut S,
    parts: &[Part],
    texts: &[Option<Vec<u8>>],
) -> Result<(), WriteFailed>
    requires failed { S.failed out.old < 2 ^ 48 }
    requires all { length texts.now ≡ length parts.now }
    requires made { AreMade parts.now texts.now }
    ensures { Writes S.taken S.failed out.old out.new (parts_text parts.now) result }
{
    for (at, text) in texts.iter().enumerate() {
        write_part(out, &parts[at], text.as_ref().map(Vec::as_slice))?;
    }
    Ok(())
}

// Writes the parts of a round. If the system has threads, these make the texts of the parts first.
fn write_round<R: Threads + Sync, S: Sink>(
    rt: &R,
    alloc: Global,
    out: &mut S,
    parts: &[Part],
) -> Result<(), WriteFailed>
    requires { S.failed out.old < 2 ^ 48 }
    ensures { Writes S.taken S.failed out.old out.new (parts_text parts.now) result }
{
    let made = thread::map_indices(
        rt,
        alloc,
        parts.len(),
        &|at| { text_in_memory(alloc, &parts[at]) },
    );
    match made {
        Ok(texts) => write_texts(out, parts, texts.as_slice()),
        Err(_) => write_parts(out, parts),
    }
}

// Writes the parts, round by round.
fn write_rounds<R: Threads + Sync, S: Sink>(
    rt: &R,
    alloc: Global,
    out: &mut S,
    parts: &[Part],
) -> Result<(), WriteFailed>
    requires { S.failed out.old < 2 ^ 48 }
    ensures { Writes S.taken S.failed out.old out.new (parts_text parts.now) result }
{
    let rounds = parts.len() / PARTS + 1;
    for at in 0..rounds {
        write_round(rt, alloc, out, round_of(parts, at))?;
    }
    Ok(())
}

// How many lines the reports have, without titles.
fn line_count(reports: &[Report]) -> usize {
    let mut count = 0usize;
    for report in reports {
        count = count.saturating_add(report.marks.len());
    }
    count
}

/// Writes the blocks of the reports in their order, as `write_reports` does. If they have many lines together, these
/// are made in memory first, in parts, each by a thread of its own if the system has one. A part for which there is no
/// memory is made when it is written.
pub fn write_reports_by_threads<R: Threads + Sync, S: Sink>(
    rt: &R,
    alloc: Global,
    config: &Config,
    out: &mut S,
    reports: &[Report],
) -> Result<(), WriteFailed>
    requires { S.failed out.old < 2 ^ 48 }
    ensures { Writes S.taken S.failed out.old out.new (text_of config.now reports.now) result }
{
    let size = (line_count(reports) / PARTS + 1).min(MOST);
    if size < LEAST {
        return write_blocks(config.plan(), out, reports);
    }
    match parts_of(alloc, config.plan(), reports, size) {
        Ok(parts) => write_rounds(rt, alloc, out, parts.as_slice()),
        Err(_) => write_blocks(config.plan(), out, reports),
    }
}
