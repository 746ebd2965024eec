//! The services of whole cores: StartCore, which a script calls too late; how many cores are started; the shutdown of
//! one core and of all.

ghost use Rattle.std.specs.Prelude.{◌≡◌, ◌≤◌, ◌+◌, ◌^◌, IsTrue};
ghost use Rattle.osjobs.specs.Priorities.{is_own_runner};
ghost use Rattle.osstate.specs.Does.{HasRoom, service_entries, service_marks};
ghost use Rattle.osservice.specs.{Terms.MayAct, Terms.Offered, Checks.first_failing};
ghost use Rattle.oscall.specs.Shutdown.{core_acts, core_count, counts_cores, goes_down, is_ignored, is_unknown, refuses_start, shuts_down_all, starting_checks};
ghost use Rattle.osacts.specs.{Runs.all_cores_in, Steps.PostsNone, Steps.QuietSteps, Steps.Steps};

use crate::variables::set;
use osbase::{Awaited, CoreId, CoreSet, Mark, OpenCall, Runner, ServiceId, Status, Variable};
use oscript::Op;
use osservice::{Step, refuse};
use osstate::CoreState;

// Whether the identifier is invalid, or no core of its number is configured.
fn is_unknown<const P: usize, const J: usize, const OUT: usize>(
    state: &CoreState<'_, P, J, OUT>,
    target: Option<CoreId>,
) -> bool
    ensures { result ≡ is_unknown (all_cores_in state.now) target }
{
    match target {
        Some(core) => !state.is_configured(core),
        None => true,
    }
}

// The status of StartCore in a script: E_OS_ID if there is no such core, else E_OS_ACCESS.
fn status_of_starting<const P: usize, const J: usize, const OUT: usize>(
    state: &CoreState<'_, P, J, OUT>,
    target: Option<CoreId>,
) -> Status
    ensures { result ≡ first_failing (starting_checks (all_cores_in state.now) target) }
{
    if is_unknown(state, target) {
        Status::EOsId
    } else {
        Status::EOsAccess
    }
}

// A running job of one of the core's tasks or ISRs calls StartCore, which is too late once StartOS was called. It
// returns E_OS_ID for the invalid identifier and for a core that is not configured, and else E_OS_ACCESS (AUTOSAR SWS
// OS 4.x, SWS_Os_00676).
fn start_core<const P: usize, const J: usize, const OUT: usize>(
    state: &mut CoreState<'_, P, J, OUT>,
    runner: Runner,
    target: Option<CoreId>,
    marks: &mut Vec<Mark>,
)
    requires { MayAct service_entries service_marks state.old runner marks.old }
    ensures { Steps service_entries service_marks (refuses_start runner target) state.old state.new marks.old marks.new }
{
    let status = status_of_starting(state, target);
    refuse(state, runner, ServiceId::StartCore, status, marks);
}

// How many cores are in this set.
fn core_count(cores: &CoreSet) -> usize
    ensures value { result ≡ core_count cores.now }
    ensures few { result ≤ 16 }
{
    cores.members.iter().filter(|is_member| **is_member).count()
}

// GetNumberOfActivatedCores: the variable becomes the number of started cores, which is printed (AUTOSAR SWS OS 4.x,
// SWS_Os_00672).
fn count_cores<const P: usize, const J: usize, const OUT: usize>(
    state: &mut CoreState<'_, P, J, OUT>,
    runner: Runner,
    variable: Variable,
    marks: &mut Vec<Mark>,
)
    requires { MayAct service_entries service_marks state.old runner marks.old }
    ensures { Steps service_entries service_marks (counts_cores runner variable) state.old state.new marks.old marks.new }
{
    let count = core_count(&state.started_cores());
    set(state, runner, variable, count as i64, marks);
}

/// Calls ShutdownHook at once with this status and takes the core down, for ShutdownOS and for a time fault (OSEK/VDX
/// OS 2.2.3, section 11.4; AUTOSAR SWS OS 4.x, section 7.9.6).
pub fn go_down<const P: usize, const J: usize, const OUT: usize>(
    state: &mut CoreState<'_, P, J, OUT>,
    status: Status,
    marks: &mut Vec<Mark>,
)
    requires { HasRoom 2 1 state.old marks.old }
    ensures { PostsNone 2 1 (goes_down status) state.old state.new marks.old marks.new }
{
    state.print(Mark::ShutdownHook(status), marks);
    state.go_down();
}

// A running job of one of the core's tasks or ISRs asks that all cores shut down, and waits for that. It does nothing
// more (AUTOSAR SWS OS 4.x, SWS_Os_00713).
fn shut_down_all<const P: usize, const J: usize, const OUT: usize>(
    state: &mut CoreState<'_, P, J, OUT>,
    runner: Runner,
    status: Status,
)
    requires own { IsTrue (is_own_runner state.old.view.own runner) }
    requires count { state.old.progress.entries + 1 ≤ 2 ^ 63 }
    ensures { QuietSteps 1 (shuts_down_all runner status) state.old state.new }
{
    state.open_call(OpenCall {
        runner,
        awaits: Awaited::Halt(status),
    });
}

/// If an operation of a running job of one of the core's tasks or ISRs is a service of whole cores, it is done, and the
/// answer is yes. Else nothing changes.
pub fn operate<const P: usize, const J: usize, const OUT: usize>(
    state: &mut CoreState<'_, P, J, OUT>,
    step: Step,
    marks: &mut Vec<Mark>,
) -> bool
    requires { MayAct service_entries service_marks state.old step.runner marks.old }
    ensures { Offered (core_acts step.runner step.op) result state.old state.new marks.old marks.new }
{
    let runner = step.runner;
    match step.op {
        Op::StartCore(target) => {
            start_core(state, runner, target, marks);
            true
        }
        Op::GetNumberOfActivatedCores(variable) => {
            count_cores(state, runner, variable, marks);
            true
        }
        Op::ShutdownOs(status) => {
            go_down(state, status, marks);
            true
        }
        Op::ShutdownAllCores(status) => {
            shut_down_all(state, runner, status);
            true
        }
        _ => false,
    }
}

/// Whether the operation is ignored while its caller has suspended interrupts: only the services of whole cores that
/// return no status are ignored (AUTOSAR SWS OS 4.x, SWS_Os_00093).
pub fn is_ignored(op: Op) -> bool
    ensures { result ≡ is_ignored op }
{
    matches!(
        op,
        Op::GetNumberOfActivatedCores(_) | Op::ShutdownOs(_) | Op::ShutdownAllCores(_)
    )
}
