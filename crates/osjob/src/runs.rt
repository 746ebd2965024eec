//! A run: its files are read and played, and the reports printed.

ghost use Rattle.std.specs.Prelude.{◌≡◌, ◌+◌, ◌<◌, ◌^◌, IfErr, IfOk, Ok, OnOk, Some, find, length, option_copied, true};
ghost use Rattle.osbase.specs.{History.same_core, declared.turns.Report.Report as ReportValue};
ghost use Rattle.ostrace.specs.Taken.{Writes};
ghost use Rattle.osplan.specs.Stimuli.{AreKnown};
ghost use Rattle.osrun.specs.Ends.{have_all_ended};
ghost use Rattle.oscommand.specs.Jobs.{listed, path_in};
ghost use Rattle.osjob.specs.Performs.{PrintsOrFaults, HasNoItems, IsReported, IsRunPrinted, IsRead, Prints, outcome_of};
ghost use Rattle.osjob.specs.Runs.{AreOfTurns, Consumes, are_items_known, ended_text, items_in, last_line, run_text};

use crate::endings::written;
use crate::faults::Fault;
use crate::outcomes::Outcome;
use crate::readings::{config_in, known_core, schedule_in, stimuli_in};
use crate::sources::Source;
use osbase::{CoreId, Item, Report};
use osconf::{Config, Schedule, Stimuli};
use oslog::items_text;
use ostrace::{Sink, WriteFailed, write_all, write_reports};
use osworld::{RunFault, have_all_ended, run_default, run_world};
use std::alloc::Global;

/// Plays the run of the source's files and prints its reports, or the log of the core `items` alone if that is given.
/// `schedule` is the path of the listed turns, the third file; without it the default schedule runs. The files' bytes
/// are let go before the run begins.
pub fn run<S: Source + Drop, O: Sink>(
    alloc: Global,
    schedule: Option<&str>,
    items: Option<CoreId>,
    source: S,
    out: &mut O,
) -> Result<Outcome, Fault>
    requires { O.failed out.old < 2 ^ 48 }
    ensures { Consumes S.files S.known source (2 + length (listed (path_in schedule.entry)))
        (λ files. IsRunPrinted O.taken O.failed out.old out.new (path_in schedule.entry) items files (S.count source) result) }
{
    let (config, stimuli, turns) = input_of(alloc, schedule, items, source)?;
    let reports = play(alloc, &config, &stimuli, turns)?;
    print_reports(alloc, &config, items, out, reports.as_slice())
}

/// What a run is given. If no turns are listed, the schedule is `None`.
pub type Input = (Config, Stimuli, Option<Schedule>);

/// Reads from the files what a run is given, and lets the files go. The turns are read only if `schedule`, the path of
/// their file, is given. If the core `items` is given but not configured, the fault is `UnknownName`.
pub fn input_of<S: Source + Drop>(
    alloc: Global,
    schedule: Option<&str>,
    items: Option<CoreId>,
    mut source: S,
) -> Result<Input, Fault>
    ensures input { Consumes S.files S.known source (2 + length (listed (path_in schedule.entry)))
        (λ files. IsRead (path_in schedule.entry) items files (S.count source) result) }
    ensures known { IfOk result (λ input. AreKnown input.0 input.1) }
{
    let config = config_in(alloc, &mut source)?;
    known_items(&config, items)?;
    let stimuli = stimuli_in(alloc, &config, &mut source)?;
    match schedule {
        None => Ok((config, stimuli, None)),
        Some(_) => {
            let turns = schedule_in(alloc, &config, &mut source)?;
            Ok((config, stimuli, Some(turns)))
        }
    }
}

// If the log of the core `items` is to be printed, checks that this core is configured. If it is not, the fault is
// `UnknownName`.
fn known_items(config: &Config, items: Option<CoreId>) -> Result<(), Fault>
    ensures ok { OnOk result (are_items_known config.now items ≡ true) }
    ensures fault { IfErr result (HasNoItems config.now items) }
{
    match items {
        Some(core) => known_core(config, core),
        None => Ok(()),
    }
}

// The reports of the run by these turns, or by the default schedule if no turns are listed.
fn play(
    alloc: Global,
    config: &Config,
    stimuli: &Stimuli,
    turns: Option<Schedule>,
) -> Result<Vec<Report>, RunFault>
    requires { AreKnown config.now stimuli.now }
    ensures { IfOk result (λ reports. AreOfTurns config.now stimuli.now turns reports.items) }
{
    match turns {
        None => run_default(alloc, config, stimuli),
        Some(turns) => run_world(alloc, config, stimuli, turns.as_slice()),
    }
}

/// Prints the reports and whether the run ended or stalled, or the log of the core `items` alone if that is given.
/// Answers whether the run ended or stalled.
pub fn print_reports<O: Sink>(
    alloc: Global,
    config: &Config,
    items: Option<CoreId>,
    out: &mut O,
    reports: &[Report],
) -> Result<Outcome, Fault>
    requires { O.failed out.old < 2 ^ 48 }
    ensures { PrintsOrFaults O.taken O.failed out.old out.new (IsReported config.now reports.now items)
        (λ fault. fault ≡ Fault.NoMemoryToRun) result }
{
    match items {
        None => print(config, out, reports),
        Some(core) => print_log(alloc, config, core, out, reports),
    }
}

// Prints the reports, and whether the run ended or stalled. Answers that, too.
fn print<O: Sink>(config: &Config, out: &mut O, reports: &[Report]) -> Result<Outcome, Fault>
    requires { O.failed out.old < 2 ^ 48 }
    ensures { Prints O.taken O.failed out.old out.new (run_text config.now reports.now)
        (Ok (outcome_of (have_all_ended config.now reports.now))) result }
{
    let ended = have_all_ended(config.plan(), reports);
    written(
        write_run(config, out, reports, ended),
        Ok(Outcome::of_run(ended)),
    )
}

// Prints the log of a core alone, and answers whether the run ended or stalled.
fn print_log<O: Sink>(
    alloc: Global,
    config: &Config,
    core: CoreId,
    out: &mut O,
    reports: &[Report],
) -> Result<Outcome, Fault>
    requires { O.failed out.old < 2 ^ 48 }
    ensures { PrintsOrFaults O.taken O.failed out.old out.new (IsReported config.now reports.now (Some core))
        (λ fault. fault ≡ Fault.NoMemoryToRun) result }
{
    let text = items_text(alloc, config, items_of(reports, core))?;
    written(
        write_all(out, text.as_bytes()),
        Ok(Outcome::of_run(have_all_ended(config.plan(), reports))),
    )
}

// The items of a core, or none if it has no report.
fn items_of(reports: &[Report], core: CoreId) -> &[Item]
    ensures { result.now ≡ items_in reports.now core }
{
    match report_of(reports, core) {
        Some(report) => report.items.as_slice(),
        None => &[],
    }
}

fn report_of(reports: &[Report], core: CoreId) -> Option<&Report>
    ensures { option_copied result ≡ find (λ (r : ReportValue). same_core r.core core) reports.now }
{
    reports
        .iter()
        .find(|report| report.core.number == core.number)
}

// Writes the blocks of the reports, and the last line, which says whether the run ended or stalled.
fn write_run<O: Sink>(
    config: &Config,
    out: &mut O,
    reports: &[Report],
    ended: bool,
) -> Result<(), WriteFailed>
    requires { O.failed out.old < 2 ^ 48 }
    ensures { Writes O.taken O.failed out.old out.new (ended_text config.now reports.now ended) result }
{
    write_reports(config, out, reports)?;
    write_all(out, last_line(ended).as_bytes())
}

/// The last line of what a run prints: whether every started core ended.
pub(crate) fn last_line(ended: bool) -> &'static str
    ensures { result.now ≡ last_line ended }
{
    if ended { "ended\n" } else { "stalled\n" }
}
