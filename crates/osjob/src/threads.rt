//! A run by threads: its files are read, its cores run, and the reports are printed.

ghost use Rattle.std.specs.Prelude.{◌≡◌, ◌<◌, ◌^◌, None};
ghost use Rattle.ostrace.specs.Taken.{Writes};
ghost use Rattle.osjob.specs.{Performs.IsReported, Performs.IsThreadsPrinted, Performs.PrintsOrFaults, Runs.Consumes, Runs.ended_text, Runs.logged_core};

use crate::endings::written;
use crate::faults::Fault;
use crate::orders::print_order;
use crate::outcomes::Outcome;
use crate::runs::{input_of, last_line, print_reports};
use crate::sources::Source;
use crossbeam_utils::CachePadded;
use osbase::{CORES, CoreId, MailKind, Report};
use oscommand::Print;
use osconf::Config;
use osthreads::{AWAKE, Gate, ROUND, run_threads};
use ostrace::{Sink, WriteFailed, write_all, write_reports_by_threads};
use osworld::have_all_ended;
use std::alloc::Global;
use std::sync::Wait;
use std::sync::atomic::{AtomicU64, Ordering};
use std::thread::Threads;
use std::{array, thread};

/// The gate of the program: each thread may start. A core that found nothing to do for as long as a worker stays awake
/// yields its processor before it sleeps. Beside busy programs, a yielded processor comes back late. Most turns of a
/// working core change nothing, too: in a round of three, the turn that serves the other cores, and the look.
///
/// A store to a word that threads share takes as long as some forty instructions, so most turns of a working core make
/// only one. Below the count `WATCHED`, each turn that changed nothing is counted, even if other turns come between.
/// From this count on the core is watched: if its last turn changed something, `before` begins the count again.
#[derive(Drop)]
pub struct Yielding {
    // Each core's count, on a cache line of its own, since no other core writes it.
    cores: [CachePadded<AtomicU64>; CORES],
}

// What a turn that changed nothing adds to a count. The bit `WAS_LAST` says that the last turn was such a turn.
const TURN: u64 = 2;

const WAS_LAST: u64 = 1;

// The count at which a core yields its processor. From the count `WATCHED` on, the core is watched.
const PATIENCE: u64 = AWAKE * ROUND * TURN;

const WATCHED: u64 = PATIENCE / 4;

impl Yielding {
    /// The gate of a run that has not begun.
    pub fn new() -> Self {
        Yielding {
            cores: array::from_fn(|_| CachePadded::new(AtomicU64::new(0))),
        }
    }
}

impl Gate for Yielding {
    fn starts(&self, _core: CoreId) -> bool {
        true
    }

    // If the core is watched: begins its count again if its last turn changed something, and else clears `WAS_LAST`.
    fn before(&self, core: CoreId) {
        let Some(count) = self.cores.get(usize::from(core.number)) else {
            return;
        };
        let seen = count.load(Ordering::Relaxed);
        if seen < WATCHED {
            return;
        }
        let was_last = seen & WAS_LAST == WAS_LAST;
        let left = if was_last { seen ^ WAS_LAST } else { 0 };
        count.store(left, Ordering::Relaxed);
    }

    // Counts the core's turn, which changed nothing, and sets `WAS_LAST`. At `PATIENCE`, begins the count again and
    // yields the processor.
    fn idle(&self, core: CoreId) {
        let Some(count) = self.cores.get(usize::from(core.number)) else {
            return;
        };
        let turns = (count.load(Ordering::Relaxed) | WAS_LAST).wrapping_add(TURN);
        if turns < PATIENCE {
            count.store(turns, Ordering::Relaxed);
        } else {
            count.store(0, Ordering::Relaxed);
            thread::yield_now();
        }
    }
}

/// Runs each core of the source's files on a thread of its own, with this kind of mail, and prints what `print` names.
/// A core gives up once `turns` turns in a row changed nothing. The files' bytes are let go before the run begins.
pub fn run_by_threads<R: Threads + Wait + Sync, S: Source + Drop, O: Sink>(
    rt: &R,
    alloc: Global,
    mail: MailKind,
    turns: u64,
    print: Print,
    source: S,
    out: &mut O,
) -> Result<Outcome, Fault>
    requires { O.failed out.old < 2 ^ 48 }
    ensures { Consumes S.files S.known source 2
        (λ files. IsThreadsPrinted O.taken O.failed out.old out.new turns print files (S.count source) result) }
{
    let (config, stimuli, _) = input_of(alloc, None, logged_core(print), source)?;
    let gate = Yielding::new();
    let reports = run_threads(rt, alloc, &config, &stimuli, mail, &gate, turns)?;
    let reports = reports.as_slice();
    match print {
        Print::Trace => print_by_threads(rt, alloc, &config, out, reports),
        Print::Log(core) => print_reports(alloc, &config, Some(core), out, reports),
        Print::Order => print_order(alloc, &config, &stimuli, out, reports),
    }
}

// Prints the reports, and whether the run ended or stalled; answers that, too. Threads make the parts of each block.
fn print_by_threads<R: Threads + Sync, O: Sink>(
    rt: &R,
    alloc: Global,
    config: &Config,
    out: &mut O,
    reports: &[Report],
) -> Result<Outcome, Fault>
    requires { O.failed out.old < 2 ^ 48 }
    ensures { PrintsOrFaults O.taken O.failed out.old out.new (IsReported config.now reports.now None)
        (λ fault. fault ≡ Fault.NoMemoryToRun) result }
{
    let ended = have_all_ended(config.plan(), reports);
    written(
        write_by_threads(rt, alloc, config, out, reports, ended),
        Ok(Outcome::of_run(ended)),
    )
}

// Writes the blocks of the reports, whose parts threads make, and the last line.
fn write_by_threads<R: Threads + Sync, O: Sink>(
    rt: &R,
    alloc: Global,
    config: &Config,
    out: &mut O,
    reports: &[Report],
    ended: bool,
) -> Result<(), WriteFailed>
    requires { O.failed out.old < 2 ^ 48 }
    ensures { Writes O.taken O.failed out.old out.new (ended_text config.now reports.now ended) result }
{
    write_reports_by_threads(rt, alloc, config, out, reports)?;
    write_all(out, last_line(ended).as_bytes())
}

// The core whose log is to be printed, if a log is to be printed.
fn logged_core(print: Print) -> Option<CoreId>
    ensures { result ≡ logged_core print }
{
    match print {
        Print::Log(core) => Some(core),
        Print::Trace | Print::Order => None,
    }
}
