//! One order of the turns of a run by threads, as it is printed.

ghost use Rattle.std.specs.Prelude.{◌≡◌, ◌<◌, ◌^◌, IfOk, string_bytes};
ghost use Rattle.std.specs.List.{AllByRecursion};
ghost use Rattle.osplan.specs.Stimuli.{AreKnown};
ghost use Rattle.osrun.specs.Sound.{IsOwn};
ghost use Rattle.osjob.specs.{Performs.PrintsOrFaults, Performs.IsOrderPrinted, Runs.order_line};

use crate::endings::written;
use crate::faults::Fault;
use crate::outcomes::Outcome;
use osbase::Report;
use osconf::{Config, Schedule, Stimuli};
use ostrace::{Sink, schedule_text, write_all};
use osworld::{have_all_ended, order};
use std::alloc::{AllocError, Global};

/// Prints the turns of all cores in one order by which a listed run has these reports, or `none` if no order is found.
/// Answers whether the run ended or stalled.
pub fn print_order<O: Sink>(
    alloc: Global,
    config: &Config,
    stimuli: &Stimuli,
    out: &mut O,
    reports: &[Report],
) -> Result<Outcome, Fault>
    requires sink { O.failed out.old < 2 ^ 48 }
    requires known { AreKnown config.now stimuli.now }
    requires own { AllByRecursion (IsOwn config.now) reports.now }
    ensures { PrintsOrFaults O.taken O.failed out.old out.new (IsOrderPrinted config.now stimuli.now reports.now)
        (λ fault. fault ≡ Fault.NoMemoryToRun) result }
{
    let Ok(line) = order_line(alloc, order(alloc, config, stimuli, reports)) else {
        return Err(Fault::NoMemoryToRun);
    };
    written(
        write_all(out, line.as_bytes()),
        Ok(Outcome::of_run(have_all_ended(config.plan(), reports))),
    )
}

// The line of the turns in one order, or `none` if no order was found.
fn order_line(alloc: Global, turns: Option<Schedule>) -> Result<String, AllocError>
    ensures { IfOk result (λ line. string_bytes line ≡ order_line turns) }
{
    match turns {
        Some(turns) => {
            let mut line = schedule_text(alloc, turns.as_slice())?;
            line.push_str("\n")?;
            Ok(line)
        }
        None => String::from_str(alloc, "none\n"),
    }
}
