//! The program: what it answers to its words.

ghost use Rattle.std.specs.Prelude.{◌≡◌, ◌≢◌, ◌<◌, ◌^◌, IfErr, Ok, OnOk, map};
ghost use Rattle.std.specs.Result.{result_map_both};
ghost use Rattle.clap.specs.{Words.kind_of, declared.error.kind.ErrorKind.TheVariants.OutOfMemory};
ghost use Rattle.osplan.specs.declared.faults.ConfFault.TheVariants.{NoMemory};
ghost use Rattle.osjob.specs.{declared.outcomes.Outcome.TheVariants.Done, Performs.Prints};
ghost use Rattle.osjob.specs.declared.program.NoWords.TheVariants as no_words;
ghost use Rattle.osjob.specs.Program.{Answers, DoesJob, IsMistaken, PrintsJob, Refuses, is_request};

use crate::endings::{close, written};
use crate::faults::Fault;
use crate::files::Paths;
use crate::outcomes::{Outcome, USAGE};
use crate::outputs::Output;
use crate::performs::print_from;
use clap::Error;
use clap::error::ErrorKind;
use oscommand::{Job, job_of};
use ostrace::{Sink, write_all};
use std::alloc::{AllocError, Global};
use std::convert::AsStr;
use std::rt::Files;
use std::sync::Wait;
use std::thread::Threads;

/// Why the words of the command line could not be read.
#[derive(Clone, Copy, Debug, PartialEq, Eq)]
pub enum NoWords {
    /// Memory ran out.
    NoMemory,
    /// A word is not UTF-8.
    NotText,
}

impl From<AllocError> for NoWords {
    ghost from_gives = { λ _ none. none ≡ no_words.NoMemory };

    fn from(_refused: AllocError) -> NoWords {
        NoWords::NoMemory
    }
}

/// Does the job that the words name, or prints the help or the version that they request. The first word is the
/// program's name. Prints to `out` and sends that off. Reports to `err` a fault, a mistake in the words, or why the
/// words could not be read. Returns the exit status.
pub fn answer<R: Files + AllocGlobal + Threads + Wait + Sync, S: AsStr + Drop, O: Output, E: Sink>(
    rt: &R,
    words: Result<Vec<S>, NoWords>,
    out: &mut O,
    err: &mut E,
) -> u8
    requires out { O.failed out.old < 2 ^ 48 }
    requires err { E.failed err.old < 2 ^ 48 }
    ensures { Answers O.taken O.sent O.failed out.old out.new E.taken E.failed err.old err.new
        (result_map_both (λ words. map S.text words.items) (λ none. none) words) result }
{
    let words = match words {
        Ok(words) => words,
        Err(NoWords::NoMemory) => return close(Err(Fault::from(AllocError)), out, err),
        Err(NoWords::NotText) => {
            return mistake("error: a word of the command line is not UTF-8\n", err);
        }
    };
    match job_of(rt.alloc(), words.as_slice()) {
        Ok(job) => do_job(rt, &job, out, err),
        Err(error) => refuse(rt.alloc(), &error, out, err),
    }
}

// Prints what the job asks for, over the files at its paths; then sends that off, and reports a fault if there is one.
// Returns the exit status.
fn do_job<R: Files + AllocGlobal + Threads + Wait + Sync, O: Output, E: Sink>(
    rt: &R,
    job: &Job,
    out: &mut O,
    err: &mut E,
) -> u8
    requires out { O.failed out.old < 2 ^ 48 }
    requires err { E.failed err.old < 2 ^ 48 }
    ensures { DoesJob O.taken O.sent O.failed out.old out.new E.taken E.failed err.old err.new job.now result }
{
    let result = print_job(rt, job, out);
    close(result, out, err)
}

// Prints what the job asks for, over the files at its paths.
fn print_job<R: Files + AllocGlobal + Threads + Wait + Sync, O: Sink>(
    rt: &R,
    job: &Job,
    out: &mut O,
) -> Result<Outcome, Fault>
    requires { O.failed out.old < 2 ^ 48 }
    ensures { PrintsJob O.taken O.failed out.old out.new job.now result }
{
    let paths = job.paths(rt.alloc())?;
    print_from(rt, rt.alloc(), job, Paths::new(rt, paths), out)
}

// Answers words that name no job: prints the help or the version that they request, or reports the mistake in them, in
// `clap`'s text. If memory ran out, reports that fault. Returns the exit status.
fn refuse<O: Output, E: Sink>(alloc: Global, error: &Error, out: &mut O, err: &mut E) -> u8
    requires out { O.failed out.old < 2 ^ 48 }
    requires err { E.failed err.old < 2 ^ 48 }
    ensures { Refuses O.taken O.sent O.failed out.old out.new E.taken E.failed err.old err.new
        (kind_of error.now) result }
{
    match text_of(alloc, error) {
        Ok(text) if is_request(error.kind()) => {
            let shown = show(text.as_str(), out);
            close(shown, out, err)
        }
        Ok(text) => mistake(text.as_str(), err),
        Err(fault) => close(Err(fault), out, err),
    }
}

// Whether an error of this kind says that the words request help or the version.
fn is_request(kind: ErrorKind) -> bool
    ensures { result ≡ is_request kind }
{
    matches!(kind, ErrorKind::DisplayHelp | ErrorKind::DisplayVersion)
}

// The error's text for the user, or a fault if memory ran out.
fn text_of(alloc: Global, error: &Error) -> Result<String, Fault>
    ensures ok { OnOk result (kind_of error.now ≢ OutOfMemory) }
    ensures fault { IfErr result (λ fault. fault ≡ Fault.Text NoMemory) }
{
    if error.kind() == ErrorKind::OutOfMemory {
        return Err(Fault::from(AllocError));
    }
    Ok(error.to_string(alloc)?)
}

// Prints the text. Answers `Done`, or the fault `WriteFailed` if a write was refused.
fn show<O: Sink>(text: &str, out: &mut O) -> Result<Outcome, Fault>
    requires { O.failed out.old < 2 ^ 48 }
    ensures { Prints O.taken O.failed out.old out.new text.now (Ok Done) result }
{
    written(write_all(out, text.as_bytes()), Ok(Outcome::Done))
}

// Reports a mistake in the words by this text. Returns the exit status of wrong usage.
fn mistake<E: Sink>(text: &str, err: &mut E) -> u8
    requires { E.failed err.old < 2 ^ 48 }
    ensures { IsMistaken E.taken E.failed err.old err.new text.now result }
{
    let _ = write_all(err, text.as_bytes());
    USAGE
}
