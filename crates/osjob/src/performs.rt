//! Doing a job over its files' bytes.

ghost use Rattle.std.specs.Prelude.{◌<◌, ◌^◌, length};
ghost use Rattle.oscommand.specs.Jobs.{paths_of};
ghost use Rattle.osjob.specs.{Performs.IsPrinted, Performs.Performs, Runs.Consumes};

use crate::checks::{check, cut_out};
use crate::endings::report_ending;
use crate::faults::Fault;
use crate::groups::{group_out, groups_out};
use crate::outcomes::Outcome;
use crate::replays::replay_out;
use crate::runs::run;
use crate::sources::{Given, Source};
use crate::threads::run_by_threads;
use oscommand::Job;
use ostrace::Sink;
use std::alloc::Global;
use std::sync::Wait;
use std::thread::Threads;

/// Does the job over the bytes of its files. `files` has one entry for each of the job's paths, `None` if the file
/// could not be read. Prints to `out`, and reports a fault by its line to `err`. Returns the exit status: 0 done,
/// 1 fault, 3 stalled. A run by threads may wait.
pub fn perform<R: Threads + Wait + Sync, O: Sink, E: Sink>(
    rt: &R,
    alloc: Global,
    job: &Job,
    files: &[Option<Vec<u8>>],
    out: &mut O,
    err: &mut E,
) -> u8
    requires out { O.failed out.old < 2 ^ 48 }
    requires err { E.failed err.old < 2 ^ 48 }
    ensures { Performs O.taken O.failed out.old out.new E.taken E.failed err.old err.new
        job.now files.now (length files.now) result }
{
    let result = print_from(rt, alloc, job, Given { files }, out);
    report_ending(result, err)
}

/// Prints what the job asks for. The files are read one by one, and each file is judged before the next one is read. No
/// file is read after a file with a fault, and no more files than the job has paths. Only a file that was asked for is
/// reported as unreadable. The source is used up: a run lets its files go before it begins. A run by threads may wait.
pub fn print_from<R: Threads + Wait + Sync, S: Source + Drop, O: Sink>(
    rt: &R,
    alloc: Global,
    job: &Job,
    mut source: S,
    out: &mut O,
) -> Result<Outcome, Fault>
    requires { O.failed out.old < 2 ^ 48 }
    ensures { Consumes S.files S.known source (length (paths_of job.now))
        (λ files. IsPrinted O.taken O.failed out.old out.new job.now files (S.count source) result) }
{
    match job {
        Job::Run {
            schedule,
            items,
            ..
        } => run(alloc, *schedule, *items, source, out),
        Job::Check { .. } => check(alloc, &mut source, out),
        Job::Cut { core, .. } => cut_out(alloc, *core, &mut source, out),
        Job::Groups { .. } => groups_out(alloc, &mut source, out),
        Job::Group { core, .. } => group_out(alloc, *core, &mut source, out),
        Job::Replay { core, .. } => replay_out(alloc, *core, &mut source, out),
        Job::Threads {
            turns,
            mail,
            print,
            ..
        } => run_by_threads(rt, alloc, *mail, *turns, *print, source, out),
    }
}
