//! One order of the turns of a run by threads: the listed run of these turns has the same reports.

ghost use Rattle.std.specs.List.{AllByRecursion};
ghost use Rattle.osplan.specs.Stimuli.{AreKnown};
ghost use Rattle.osrun.specs.Sound.{IsOwn};

use super::gates::{FOUR_CORES, STIMULI, Watcher};
use super::threads::{Example, FEW, KINDS, MANY};
use osbase::{CoreId, Report, Schedule, Turn};
use osconf::{Config, Stimuli, read_config, read_schedule, read_stimuli};
use osjob::Yielding;
use osplay::given;
use osthreads::{Gate, MailKind, ThreadReason, run_threads};
use ostrace::schedule_text;
use osworld::{order, run_world};
use std::alloc::Global;
use std::process::Abort;
use std::sync::Wait;
use std::test::Fail;
use std::thread::Threads;

/// A task, an event and an alarm of another core.
const CALLS: [(&str, &str); 3] = [
    (
        r#"{"cores":[{"id":0,"start":[1],"tasks":[{"name":"A","prio":1,"auto":["M"],"script":"ActivateTask B;TerminateTask"}]},{"id":1,"tasks":[{"name":"B","prio":1,"script":"TerminateTask"}]}]}"#,
        r#"{"0":"op op","1":"op op"}"#,
    ),
    (
        r#"{"cores":[{"id":0,"start":[1],"tasks":[{"name":"A","prio":1,"auto":["M"],"script":"SetEvent W 4;TerminateTask"}]},{"id":1,"tasks":[{"name":"W","prio":1,"extended":true,"auto":["M"],"script":"WaitEvent 4;TerminateTask"}]}]}"#,
        r#"{"0":"op op","1":"op op"}"#,
    ),
    (
        r#"{"cores":[{"id":0,"start":[1],"tasks":[{"name":"A","prio":1,"auto":["M"],"script":"SetRelAlarm L 5 0;GetAlarm L v0;CancelAlarm L;TerminateTask"}]},{"id":1,"tasks":[{"name":"B","prio":1,"script":"TerminateTask"}],"counters":[{"name":"C","max":9}],"alarms":[{"name":"L","counter":"C","action":"ActivateTask B"}]}]}"#,
        r#"{"0":"op op op op"}"#,
    ),
];

/// Four cores, each of which takes two nested spinlocks over and over and activates a task of the next core, with room
/// for one envelope in each mailbox. A core may drain with a spinlock, and then the cores that wait for it stall.
const NESTED: (&str, &str) = (
    r#"{"cap":1,"spinlocks":[{"name":"S2","next":"S1"},{"name":"S1"}],"cores":[{"id":0,"start":[1,2,3],"tasks":[{"name":"Door","prio":1,"auto":["M"],"script":"GetSpinlock S2;GetSpinlock S1;ReleaseSpinlock S1;ReleaseSpinlock S2;ActivateTask U1;jump 0"},{"name":"U0","prio":2,"activations":8,"script":"TerminateTask"}]},{"id":1,"tasks":[{"name":"Light","prio":1,"auto":["M"],"script":"GetSpinlock S2;GetSpinlock S1;ReleaseSpinlock S1;ReleaseSpinlock S2;ActivateTask U2;jump 0"},{"name":"U1","prio":2,"activations":8,"script":"TerminateTask"}]},{"id":2,"tasks":[{"name":"Wiper","prio":1,"auto":["M"],"script":"GetSpinlock S2;GetSpinlock S1;ReleaseSpinlock S1;ReleaseSpinlock S2;ActivateTask U3;jump 0"},{"name":"U2","prio":2,"activations":8,"script":"TerminateTask"}]},{"id":3,"tasks":[{"name":"Horn","prio":1,"auto":["M"],"script":"GetSpinlock S2;GetSpinlock S1;ReleaseSpinlock S1;ReleaseSpinlock S2;ActivateTask U0;jump 0"},{"name":"U3","prio":2,"activations":8,"script":"TerminateTask"}]}]}"#,
    r#"{"0":"op op op op op op op op op op op op op op op op op op op op","1":"op op op op op op op op op op op op op op op op op op op op","2":"op op op op op op op op op op op op op op op op op op op op","3":"op op op op op op op op op op op op op op op op op op op op"}"#,
);

// Whether a listed run's report is this one, except that it has no clocks.
fn is_listed(listed: &Report, report: &Report) -> bool {
    listed.core == report.core
        && listed.items.as_slice() == report.items.as_slice()
        && listed.clocks.len() == 0
        && listed.marks.as_slice() == report.marks.as_slice()
        && listed.ended == report.ended
}

// Checks that the reports of a listed run are these, except that they have no clocks.
fn are_listed(rt: &impl Abort, listed: &[Report], reports: &[Report]) {
    assert_eq!(rt; listed.len(), reports.len());
    for (one, report) in listed.iter().zip(reports) {
        assert!(rt; is_listed(one, report));
    }
}

// Checks that the text of these turns is read as these turns.
fn is_read(rt: &impl Abort, alloc: Global, config: &Config, turns: &[Turn]) -> Result<(), Fail> {
    let text = schedule_text(alloc, turns)?;
    let read = read_schedule(alloc, config, text.as_str())?;
    assert!(rt; read.as_slice() == turns);
    Ok(())
}

// Checks that the listed run of these turns has these reports, and that the text of the turns is read as these turns.
fn plays(
    rt: &impl Abort,
    alloc: Global,
    config: &Config,
    stimuli: &Stimuli,
    turns: &[Turn],
    reports: &[Report],
) -> Result<(), Fail>
    requires { AreKnown config.now stimuli.now }
{
    let listed = run_world(alloc, config, stimuli, turns)?;
    are_listed(rt, listed.as_slice(), reports);
    is_read(rt, alloc, config, turns)
}

// Checks that `order` finds turns for these reports, that the listed run of these turns has the reports, and that the
// text of the turns is read as the turns.
fn are_ordered(
    rt: &impl Abort,
    alloc: Global,
    config: &Config,
    stimuli: &Stimuli,
    reports: &[Report],
) -> Result<(), Fail>
    requires known { AreKnown config.now stimuli.now }
    requires own { AllByRecursion (IsOwn config.now) reports.now }
{
    let turns = order(alloc, config, stimuli, reports).ok_or("an order")?;
    plays(rt, alloc, config, stimuli, turns.as_slice(), reports)
}

// Checks that `order` finds turns for a run by threads of this configuration and these stimuli.
fn run_has_order(
    rt: &(impl Abort + Threads + Wait + Sync),
    alloc: Global,
    mail: MailKind,
    config: &Config,
    stimuli: &Stimuli,
    turns: u64,
) -> Result<(), Fail>
    requires { AreKnown config.now stimuli.now }
{
    let gate = Yielding::new();
    let reports = run_threads(rt, alloc, config, stimuli, mail, &gate, turns)?;
    are_ordered(rt, alloc, config, stimuli, reports.as_slice())
}

// Checks that `order` finds turns for a run by threads of this configuration and these stimuli, given as texts.
fn has_order(
    rt: &(impl Abort + Threads + Wait + Sync),
    alloc: Global,
    mail: MailKind,
    (config, stimuli): (&str, &str),
    turns: u64,
) -> Result<(), Fail> {
    let config = read_config(alloc, config)?;
    let stimuli = read_stimuli(alloc, &config, stimuli)?;
    run_has_order(rt, alloc, mail, &config, &stimuli, turns)
}

/// Examples whose runs have an order.
const ORDERED: [Example; 4] = [
    Example::Mutual,
    Example::BoundAndSeparate,
    Example::AllDown,
    Example::Owed,
];

#[test]
fn runs_by_threads_have_an_order(rt: HostRuntime) -> Result<(), Fail> {
    for mail in KINDS.iter() {
        for example in ORDERED.as_slice() {
            has_order(&rt, rt.alloc(), *mail, given(example.table())?, MANY)?;
        }
    }
    Ok(())
}

#[test]
fn calls_and_spinlocks_of_threads_have_an_order(rt: HostRuntime) -> Result<(), Fail> {
    for mail in KINDS.iter() {
        for run in CALLS.as_slice() {
            has_order(&rt, rt.alloc(), *mail, *run, MANY)?;
        }
        has_order(&rt, rt.alloc(), *mail, NESTED, FEW)?;
    }
    Ok(())
}

// The gate refuses a core's thread. Checks that the run breaks off for this reason, and that `order` finds turns for
// the reports that there are.
fn refused_run_has_order(
    rt: &(impl Abort + Threads + Wait + Sync),
    alloc: Global,
    mail: MailKind,
    config: &Config,
    stimuli: &Stimuli,
    gate: &Watcher,
) -> Result<(), Fail>
    requires { AreKnown config.now stimuli.now }
{
    match run_threads(rt, alloc, config, stimuli, mail, gate, FEW) {
        Ok(_) => Err(Fail::from("a thread was refused")),
        Err(fault) => match fault.reason {
            ThreadReason::NoThread => {
                are_ordered(rt, alloc, config, stimuli, fault.reports.as_slice())
            }
            _ => Err(Fail::from(fault)),
        },
    }
}

// Checks that `order` finds turns for a run of the four cores whose gate refuses a core's thread.
fn has_order_without(
    rt: &(impl Abort + Threads + Wait + Sync),
    alloc: Global,
    mail: MailKind,
    gate: &Watcher,
) -> Result<(), Fail> {
    let config = read_config(alloc, FOUR_CORES)?;
    let stimuli = read_stimuli(alloc, &config, STIMULI)?;
    refused_run_has_order(rt, alloc, mail, &config, &stimuli, gate)
}

#[test]
fn a_run_without_a_thread_for_a_core_has_an_order(rt: HostRuntime) -> Result<(), Fail> {
    for mail in KINDS.iter() {
        for number in 0..4 {
            let gate = Watcher::new(Some(CoreId { number }), false);
            has_order_without(&rt, rt.alloc(), *mail, &gate)?;
        }
    }
    Ok(())
}

// Checks that `order` finds no turns for an empty list of reports.
fn has_none(rt: &impl Abort, alloc: Global, config: &Config, stimuli: &Stimuli)
    requires { AreKnown config.now stimuli.now }
{
    let found: Option<Schedule> = order(alloc, config, stimuli, &[]);
    assert!(rt; found.is_none());
}

#[test]
fn reports_that_lack_a_core_have_no_order(rt: HostRuntime) -> Result<(), Fail> {
    let (config, stimuli) = given(Example::Mutual.table())?;
    let config = read_config(rt.alloc(), config)?;
    let stimuli = read_stimuli(rt.alloc(), &config, stimuli)?;
    has_none(&rt, rt.alloc(), &config, &stimuli);
    Ok(())
}
