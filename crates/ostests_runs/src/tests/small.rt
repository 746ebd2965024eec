//! A kernel of a smaller size. It takes the items of the runs of all cores that fit it, and prints the same marks.

ghost use Rattle.osplan.specs.Stimuli.{AreKnown};

use osbase::{CoreId, Mark, Report};
use osconf::{Config, Stimuli, read_config, read_stimuli};
use oskernel::{Kernel, STEP_MARKS};
use osworld::{RunFault, run_default};
use std::alloc::Global;
use std::process::Abort;
use std::test::Fail;

/// Room for eight jobs and sixteen letters; priorities and ceilings are below 8.
type SmallKernel<'a> = Kernel<'a, 8, 8, 16>;

/// Preemption, events, a resource, Schedule, a chain, and a call to another core. No alarm or schedule table acts.
const EXAMPLES: [(&str, &str); 6] = [
    (
        r#"{"cores":[{"id":0,"tasks":[{"name":"X","prio":1,"auto":["M"],"script":"ActivateTask Y;ActivateTask H;TerminateTask"},{"name":"Y","prio":1,"script":"TerminateTask"},{"name":"Z","prio":1,"script":"TerminateTask"},{"name":"H","prio":2,"script":"ActivateTask Z;TerminateTask"}]}]}"#,
        r#"{"0":"op op op op op op op"}"#,
    ),
    (
        r#"{"cores":[{"id":0,"tasks":[{"name":"W","prio":2,"extended":true,"auto":["M"],"script":"WaitEvent 1;TerminateTask"},{"name":"F","prio":2,"script":"TerminateTask"},{"name":"D","prio":1,"preemptable":false,"auto":["M"],"script":"ActivateTask F;SetEvent W 1;TerminateTask"}]}]}"#,
        r#"{"0":"op op op op op op"}"#,
    ),
    (
        r#"{"cores":[{"id":0,"tasks":[{"name":"L","prio":1,"auto":["M"],"script":"GetResource R;ActivateTask H;ReleaseResource R;TerminateTask"},{"name":"H","prio":2,"script":"TerminateTask"}],"resources":[{"name":"R","ceiling":2}]}]}"#,
        r#"{"0":"op op op op op"}"#,
    ),
    (
        r#"{"cores":[{"id":0,"tasks":[{"name":"N","prio":1,"preemptable":false,"auto":["M"],"script":"ActivateTask E;Schedule;ActivateTask U;Schedule;TerminateTask"},{"name":"E","prio":1,"script":"TerminateTask"},{"name":"U","prio":2,"script":"TerminateTask"}]}]}"#,
        r#"{"0":"op op op op op op op"}"#,
    ),
    (
        r#"{"cores":[{"id":0,"tasks":[{"name":"S","prio":1,"auto":["M"],"script":"ChainTask S"}]}]}"#,
        r#"{"0":"op op"}"#,
    ),
    (
        r#"{"cores":[{"id":0,"start":[1],"tasks":[{"name":"A","prio":1,"auto":["M"],"script":"ActivateTask B;TerminateTask"}]},{"id":1,"tasks":[{"name":"B","prio":1,"script":"TerminateTask"}]}]}"#,
        r#"{"0":"op op","1":"op op"}"#,
    ),
];

/// Core 0 has a resource of ceiling 7, tasks of priorities up to 6 with four jobs, and three alarms that act on core 1
/// at once. Core 1 has a task of priority 8.
const BOUNDS: &str =
    r#"{"cores":[{"id":0,"tasks":[{"name":"A","prio":6,"script":"TerminateTask"},{"name":"B","prio":1,"activations":3,"script":"TerminateTask"}],"resources":[{"name":"R","ceiling":7}],"counters":[{"name":"C","max":9}],"alarms":[{"name":"K","counter":"C","action":"ActivateTask D"},{"name":"L","counter":"C","action":"ActivateTask D"},{"name":"N","counter":"C","action":"ActivateTask D"}]},{"id":1,"tasks":[{"name":"D","prio":8,"script":"TerminateTask"}]}]}"#;

const CORE_0: CoreId = CoreId { number: 0 };

const CORE_1: CoreId = CoreId { number: 1 };

const CORE_2: CoreId = CoreId { number: 2 };

// The reports of a run by the default schedule, whose kernels have the largest size.
fn reports_of(alloc: Global, config: &Config, stimuli: &Stimuli) -> Result<Vec<Report>, RunFault>
    requires { AreKnown config.now stimuli.now }
{
    run_default(alloc, config, stimuli)
}

// Checks that the small kernel may take each item of the report in turn, and prints the report's marks. The kernel just
// fits: a call and fifteen replies need sixteen places.
fn replay_small(
    rt: &impl Abort,
    alloc: Global,
    config: &Config,
    report: &Report,
) -> Result<(), Fail> {
    if !SmallKernel::fits(config, report.core) {
        return Err(Fail::from("a core that fits"));
    }
    assert!(rt; !Kernel::<8, 8, 15>::fits(config, report.core));
    let mut kernel = SmallKernel::new(config, report.core);
    let mut marks: Vec<Mark> = Vec::with_capacity(alloc, 2 * STEP_MARKS)?;
    for item in report.items.as_slice() {
        assert!(rt; kernel.may_take(item));
        assert!(rt; marks.capacity() - marks.len() >= STEP_MARKS);
        kernel.step(*item, &mut marks);
    }
    assert!(rt; marks.as_slice() == report.marks.as_slice());
    Ok(())
}

// Checks that the small kernel takes the items of each report, and prints the report's marks.
fn replay_each(
    rt: &impl Abort,
    alloc: Global,
    config: &Config,
    reports: &[Report],
) -> Result<(), Fail> {
    for report in reports {
        replay_small(rt, alloc, config, report)?;
    }
    Ok(())
}

// Checks that the small kernel takes what each core of the run by the default schedule took.
fn play_small(rt: &impl Abort, alloc: Global, config: &str, stimuli: &str) -> Result<(), Fail> {
    let config = read_config(alloc, config)?;
    let stimuli = read_stimuli(alloc, &config, stimuli)?;
    match reports_of(alloc, &config, &stimuli) {
        Ok(reports) => replay_each(rt, alloc, &config, reports.as_slice()),
        Err(fault) => Err(Fail::from(fault)),
    }
}

#[test]
fn a_small_kernel_takes_the_items_of_a_run(rt: HostRuntime) -> Result<(), Fail> {
    for (config, stimuli) in EXAMPLES.as_slice() {
        play_small(&rt, rt.alloc(), config, stimuli)?;
    }
    Ok(())
}

#[test]
fn a_kernel_fits_exactly_the_cores_that_it_is_large_enough_for(
    rt: HostRuntime,
) -> Result<(), Fail> {
    let config = read_config(rt.alloc(), BOUNDS)?;
    assert!(rt; Kernel::<8, 4, 19>::fits(&config, CORE_0));
    assert!(rt; !Kernel::<8, 4, 18>::fits(&config, CORE_0));
    assert!(rt; !Kernel::<8, 3, 19>::fits(&config, CORE_0));
    assert!(rt; !Kernel::<7, 4, 19>::fits(&config, CORE_0));
    assert!(rt; !SmallKernel::fits(&config, CORE_1));
    assert!(rt; Kernel::<9, 1, 16>::fits(&config, CORE_1));
    assert!(rt; !Kernel::<9, 1, 15>::fits(&config, CORE_1));
    assert!(rt; !SmallKernel::fits(&config, CORE_2));
    Ok(())
}
