//! Replaying a log: one core is played alone, and its block is printed.

ghost use Rattle.std.specs.Prelude.{◌≡◌, ◌<◌, ◌≤◌, ◌^◌, IsSome, Ok, Result, length, max};
ghost use Rattle.ostrace_text.specs.Trace.{block_of};
ghost use Rattle.osplan.specs.View.{core_of};
ghost use Rattle.osjob.specs.{Performs.Prints, Performs.PrintsFrom, Performs.PrintsOrFaults, Replays.HasNoReplay, Replays.IsReplayOutput, Replays.Replays, Runs.StopsAtFaults};

use crate::endings::written;
use crate::faults::Fault;
use crate::outcomes::Outcome;
use crate::readings::{config_in, known_core, log_in};
use crate::sources::Source;
use osbase::{CoreId, Item, Report};
use osconf::Config;
use osreplay::{ReplayFault, replay};
use ostrace::{Sink, write_reports};
use std::alloc::Global;
use std::slice;

/// Plays the core alone with the items of its log, the second file, and prints its block. If an item may not be
/// taken, prints the block of the items before it, and the fault has the item's number.
pub fn replay_out<S: Source, O: Sink>(
    alloc: Global,
    core: CoreId,
    source: &mut S,
    out: &mut O,
) -> Result<Outcome, Fault>
    requires { O.failed out.old < 2 ^ 48 }
    ensures comes { PrintsFrom O.taken O.failed out.old out.new (IsReplayOutput core (S.files source.new))
        (HasNoReplay core (S.files source.new)) (S.files source.new) (S.count source.new) result }
    ensures stops { StopsAtFaults (length (S.files source.old)) (S.files source.new) }
    ensures ahead { length (S.files source.new) ≤ max (length (S.files source.old)) 2 }
    ensures count { S.count source.new ≡ S.count source.old }
    ensures known { S.known source.new ≡ S.known source.old }
{
    let config = config_in(alloc, source)?;
    known_core(&config, core)?;
    let items = log_in(alloc, &config, core, source)?;
    play(alloc, &config, core, items.as_slice(), out)
}

// Plays the items on the core alone, and prints the core's block. If an item may not be taken, prints the block of the
// items before it, and the fault has the item's number.
fn play<O: Sink>(
    alloc: Global,
    config: &Config,
    core: CoreId,
    items: &[Item],
    out: &mut O,
) -> Result<Outcome, Fault>
    requires sink { O.failed out.old < 2 ^ 48 }
    requires core { IsSome (core_of config.now core) }
    ensures { PrintsOrFaults O.taken O.failed out.old out.new (Replays config.now core items.now)
        (λ fault. fault ≡ Fault.NoMemoryToRun) result }
{
    match replay(alloc, config, core, items) {
        Ok(report) => print(config, &report, Ok(Outcome::Done), out),
        Err(ReplayFault::ItemRefused { number, report }) => {
            print(config, &report, Err(Fault::ItemRefused(number)), out)
        }
        Err(ReplayFault::NoMemory { .. }) => Err(Fault::NoMemoryToRun),
    }
}

// Prints the core's block. Answers `ending`, or the fault `WriteFailed` if a write was refused.
fn print<O: Sink>(
    config: &Config,
    report: &Report,
    ending: Result<Outcome, Fault>,
    out: &mut O,
) -> Result<Outcome, Fault>
    requires { O.failed out.old < 2 ^ 48 }
    ensures { Prints O.taken O.failed out.old out.new (block_of config.now report.now) ending result }
{
    written(write_reports(config, out, slice::from_ref(report)), ending)
}
