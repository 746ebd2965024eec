//! How a job ends: what it printed is sent off, a fault is reported, and a status is returned.

ghost use Rattle.std.specs.Prelude.{◌≡◌, ◌<◌, ◌≤◌, ◌^◌};
ghost use Rattle.ostrace.specs.Taken.{Writes};
ghost use Rattle.osjob.specs.{Faults.fault_text, Performs.ReportsEnding, Performs.status_of, Performs.unless_refused, Program.Closes, Program.SendsOff};

use crate::faults::Fault;
use crate::outcomes::{FAULT, Outcome};
use crate::outputs::Output;
use itoa::Buffer;
use ostrace::{Sink, Word, WriteFailed, write_ended_words};

/// Sends off what was printed. Then reports the fault with which the job ended, or `WriteFailed` if the sending was
/// refused. Returns the exit status.
pub fn close<O: Output, E: Sink>(ending: Result<Outcome, Fault>, out: &mut O, err: &mut E) -> u8
    requires out { O.failed out.old ≤ 2 ^ 48 }
    requires err { E.failed err.old < 2 ^ 48 }
    ensures { Closes O.taken O.sent O.failed out.old out.new E.taken E.failed err.old err.new ending result }
{
    report_ending(send_off(ending, out), err)
}

// Sends off what was printed. Returns the ending, or the fault `WriteFailed` if the sending was refused.
fn send_off<O: Output>(ending: Result<Outcome, Fault>, out: &mut O) -> Result<Outcome, Fault>
    requires { O.failed out.old ≤ 2 ^ 48 }
    ensures { SendsOff O.taken O.sent O.failed out.old out.new ending result }
{
    out.flush()?;
    ending
}

/// Returns the ending, or the fault `WriteFailed` if a write was refused.
pub fn written(
    writes: Result<(), WriteFailed>,
    ending: Result<Outcome, Fault>,
) -> Result<Outcome, Fault>
    ensures { result ≡ unless_refused writes ending }
{
    writes?;
    ending
}

/// Reports the fault by its line, if there is one. Returns the exit status.
pub fn report_ending<E: Sink>(ending: Result<Outcome, Fault>, err: &mut E) -> u8
    requires { E.failed err.old < 2 ^ 48 }
    ensures reported { ReportsEnding E.taken E.failed err.old err.new ending }
    ensures status { result ≡ status_of ending }
{
    match ending {
        Ok(outcome) => outcome.status(),
        Err(fault) => {
            let _ = fault_line(err, fault);
            FAULT
        }
    }
}

/// Prints the line of a fault.
pub fn fault_line<E: Sink>(err: &mut E, fault: Fault) -> Result<(), WriteFailed>
    requires { E.failed err.old < 2 ^ 48 }
    ensures { Writes E.taken E.failed err.old err.new (fault_text fault) result }
{
    let number = Word::Whole(u32::from(fault.number()));
    let name = Word::Text(fault.name());
    match fault {
        Fault::ItemRefused(item) => {
            let mut place = Buffer::new();
            write_ended_words(
                err,
                "fault",
                &[number, name, Word::Text(place.format(item))],
            )
        }
        _ => write_ended_words(err, "fault", &[number, name]),
    }
}
