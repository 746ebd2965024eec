//! The reports of runs by threads, as texts.

ghost use Rattle.osplan.specs.Stimuli.{AreKnown};

use osbase::{CoreId, Report};
use osconf::{Config, Stimuli, read_config, read_stimuli};
use osjob::Yielding;
use oslog::items_text;
use osplay::{blocks_of, compare, replay_of};
use osthreads::{Gate, MailKind, ThreadFault, run_threads};
use std::alloc::Global;
use std::slice;
use std::sync::Wait;
use std::test::Fail;
use std::thread::Threads;

// A report's block, how many items its core took, and whether it ended.
fn report_text(alloc: Global, config: &Config, report: &Report) -> Result<String, Fail> {
    let block = blocks_of(alloc, config, slice::from_ref(report))?;
    let items = report.items.len();
    let core = report.core.number;
    let end = if report.ended { "ended" } else { "stopped" };
    Ok(format!(in alloc; "{block}took {items}\nworker {core} {end}\n")?)
}

fn reports_text(alloc: Global, config: &Config, reports: &[Report]) -> Result<String, Fail> {
    let mut text = String::new(alloc);
    for report in reports {
        text.push_str(report_text(alloc, config, report)?.as_str())?;
    }
    Ok(text)
}

// The reports of a run by threads with this kind of mail, under a gate.
fn reports_under<R: Threads + Wait + Sync, G: Gate + Sync>(
    rt: &R,
    alloc: Global,
    mail: MailKind,
    config: &Config,
    stimuli: &Stimuli,
    gate: &G,
    turns: u64,
) -> Result<Vec<Report>, ThreadFault>
    requires { AreKnown config.now stimuli.now }
{
    run_threads(rt, alloc, config, stimuli, mail, gate, turns)
}

// Why a run broke off, and the reports that there are, as a text.
fn fault_text(alloc: Global, config: &Config, fault: &ThreadFault) -> Result<String, Fail> {
    let text = reports_text(alloc, config, fault.reports.as_slice())?;
    Ok(format!(in alloc; "{}\n{text}", fault.reason)?)
}

// The reports of a run by threads, as a text. If the run broke off, the first line of the text says why.
fn text_of<R: Threads + Wait + Sync, G: Gate + Sync>(
    rt: &R,
    alloc: Global,
    mail: MailKind,
    config: &Config,
    stimuli: &Stimuli,
    gate: &G,
    turns: u64,
) -> Result<String, Fail>
    requires { AreKnown config.now stimuli.now }
{
    match reports_under(rt, alloc, mail, config, stimuli, gate, turns) {
        Ok(reports) => reports_text(alloc, config, reports.as_slice()),
        Err(fault) => fault_text(alloc, config, &fault),
    }
}

/// The reports of a run by threads under a gate, as a text. The configuration and the stimuli are texts, too. If the
/// run broke off, the first line of the text says why.
pub(super) fn text_under<R: Threads + Wait + Sync, G: Gate + Sync>(
    rt: &R,
    alloc: Global,
    mail: MailKind,
    (config, stimuli): (&str, &str),
    gate: &G,
    turns: u64,
) -> Result<String, Fail> {
    let config = read_config(alloc, config)?;
    let stimuli = read_stimuli(alloc, &config, stimuli)?;
    text_of(rt, alloc, mail, &config, &stimuli, gate, turns)
}

// Checks that a core's log replays to this block, by this configuration. All three are texts.
fn replays_to(
    rt: &(impl Threads + Wait + Sync),
    alloc: Global,
    core: CoreId,
    (config, log): (&str, &str),
    block: &str,
) -> Result<(), Fail> {
    let job = replay_of(core.number);
    compare(rt, alloc, &job, &[Some(config), Some(log)], (block, "", 0))?;
    Ok(())
}

// Checks that the report's log replays to its block, by this configuration, which is also given as a text.
fn replay_one(
    rt: &(impl Threads + Wait + Sync),
    alloc: Global,
    (text, config): (&str, &Config),
    report: &Report,
) -> Result<(), Fail> {
    let log = items_text(alloc, config, report.items.as_slice());
    let log = log.ok().ok_or("a log")?;
    let block = blocks_of(alloc, config, slice::from_ref(report))?;
    replays_to(rt, alloc, report.core, (text, log.as_str()), block.as_str())
}

// Checks that each report's log replays to its block, by the configuration of this text.
fn replay_all(
    rt: &(impl Threads + Wait + Sync),
    alloc: Global,
    text: &str,
    reports: &[Report],
) -> Result<(), Fail> {
    let config = read_config(alloc, text)?;
    for report in reports {
        replay_one(rt, alloc, (text, &config), report)?;
    }
    Ok(())
}

// The reports of a run by threads with this kind of mail, under the program's own gate.
fn reports_under_own_gate(
    rt: &(impl Threads + Wait + Sync),
    alloc: Global,
    mail: MailKind,
    config: &Config,
    stimuli: &Stimuli,
    turns: u64,
) -> Result<Vec<Report>, Fail>
    requires { AreKnown config.now stimuli.now }
{
    let gate = Yielding::new();
    Ok(reports_under(rt, alloc, mail, config, stimuli, &gate, turns)?)
}

/// The reports of a run by threads with this kind of mail, under the program's own gate. The configuration and the
/// stimuli are given as texts.
pub(super) fn reports_of(
    rt: &(impl Threads + Wait + Sync),
    alloc: Global,
    mail: MailKind,
    (config, stimuli): (&str, &str),
    turns: u64,
) -> Result<Vec<Report>, Fail> {
    let config = read_config(alloc, config)?;
    let stimuli = read_stimuli(alloc, &config, stimuli)?;
    reports_under_own_gate(rt, alloc, mail, &config, &stimuli, turns)
}

/// Checks that in a run by threads with this kind of mail each report's log replays to its block. Answers the number of
/// reports.
pub(super) fn replays(
    rt: &(impl Threads + Wait + Sync),
    alloc: Global,
    mail: MailKind,
    texts: (&str, &str),
    turns: u64,
) -> Result<usize, Fail> {
    let reports = reports_of(rt, alloc, mail, texts, turns)?;
    let (config, _) = texts;
    replay_all(rt, alloc, config, reports.as_slice())?;
    Ok(reports.len())
}
