//! How a service returns to its caller.

ghost use Rattle.std.specs.Prelude.{IsTrue, ◌≡◌, ◌<◌, None};
ghost use Rattle.osbase.specs.{declared.statuses.Status.TheVariants.EOk, Answers.returned};
ghost use Rattle.osjobs.specs.{Jobs.is_plain, Priorities.is_own_runner};
ghost use Rattle.osstate.specs.Does.{HasRoom};
ghost use Rattle.osservice.specs.{Terms.MayAct, Terms.MayQueue, Checks.is_ok_status};
ghost use Rattle.osservice.specs.Returning.{asks, calls_no_hook, reports, reports_of, returns};
ghost use Rattle.osacts.specs.Steps.{Steps};

use osbase::{Awaited, CoreId, Mark, Message, OpenCall, RemoteCall, Runner, ServiceId, Status};
use osstate::CoreState;

/// What a service answers: its status, and with E_OK its value, if it has one.
#[derive(Clone, Copy, PartialEq, Eq)]
pub struct ServiceResult {
    pub status: Status,
    pub value: Option<i64>,
}

/// The answer of a service that has no value.
pub fn without_value(status: Status) -> ServiceResult
    ensures { result ≡ record { status = status; value = None } }
{
    ServiceResult {
        status,
        value: None,
    }
}

/// Whether the status is E_OK.
pub fn is_ok(status: Status) -> bool
    ensures { result ≡ is_ok_status status }
{
    matches!(status, Status::EOk)
}

/// Calls ErrorHook with the status, unless it is E_OK (OSEK/VDX OS 2.2.3, section 11.2).
pub fn report<const P: usize, const J: usize, const OUT: usize>(
    state: &mut CoreState<'_, P, J, OUT>,
    status: Status,
    marks: &mut Vec<Mark>,
)
    requires { HasRoom 1 1 state.old marks.old }
    ensures { Steps 1 1 (reports status) state.old state.new marks.old marks.new }
{
    if !is_ok(status) {
        state.print(Mark::ErrorHook(status), marks);
    }
}

// Whether the errors of this service do not call ErrorHook: so it is for StartCore alone (AUTOSAR SWS OS 4.x,
// SWS_Os_00681).
fn calls_no_hook(service: ServiceId) -> bool
    ensures { result ≡ calls_no_hook service }
{
    matches!(service, ServiceId::StartCore)
}

// Calls ErrorHook with the service's status, unless the status is E_OK or the service's errors call no hook.
fn report_of<const P: usize, const J: usize, const OUT: usize>(
    state: &mut CoreState<'_, P, J, OUT>,
    service: ServiceId,
    status: Status,
    marks: &mut Vec<Mark>,
)
    requires { HasRoom 1 1 state.old marks.old }
    ensures { Steps 1 1 (reports_of service status) state.old state.new marks.old marks.new }
{
    if !calls_no_hook(service) {
        report(state, status, marks);
    }
}

// The line of a service that returned: with its value, if it has one, else with its status.
fn mark_of(runner: Runner, service: ServiceId, answer: ServiceResult) -> Mark
    ensures mark { result ≡ returned runner service answer.status answer.value }
    ensures plain { IsTrue (is_plain result) }
{
    match answer.value {
        Some(value) => Mark::ValueReturned {
            runner,
            service,
            value,
        },
        None => Mark::ServiceReturned {
            runner,
            service,
            status: answer.status,
        },
    }
}

/// A service returns to a job of one of the core's tasks or ISRs. Its status or value is printed, an error calls
/// ErrorHook unless the service is StartCore, and the job goes on to its next operation.
pub fn finish<const P: usize, const J: usize, const OUT: usize>(
    state: &mut CoreState<'_, P, J, OUT>,
    runner: Runner,
    service: ServiceId,
    answer: ServiceResult,
    marks: &mut Vec<Mark>,
)
    requires { MayAct 3 2 state.old runner marks.old }
    ensures { Steps 3 2 (returns runner service answer.status answer.value) state.old state.new marks.old marks.new }
{
    state.print(mark_of(runner, service, answer), marks);
    report_of(state, service, answer.status, marks);
    state.complete(runner, answer.status, answer.value);
}

/// A service that is refused returns with this status.
pub fn refuse<const P: usize, const J: usize, const OUT: usize>(
    state: &mut CoreState<'_, P, J, OUT>,
    runner: Runner,
    service: ServiceId,
    status: Status,
    marks: &mut Vec<Mark>,
)
    requires { MayAct 3 2 state.old runner marks.old }
    ensures { Steps 3 2 (returns runner service status None) state.old state.new marks.old marks.new }
{
    finish(state, runner, service, without_value(status), marks);
}

/// A service without a value that has had its effect returns with E_OK.
pub fn accept<const P: usize, const J: usize, const OUT: usize>(
    state: &mut CoreState<'_, P, J, OUT>,
    runner: Runner,
    service: ServiceId,
    marks: &mut Vec<Mark>,
)
    requires { MayAct 3 2 state.old runner marks.old }
    ensures { Steps 3 2 (returns runner service EOk None) state.old state.new marks.old marks.new }
{
    finish(state, runner, service, without_value(Status::EOk), marks);
}

/// A service on another core's object: its line is printed, its request joins the outbox, and the call stays open until
/// the reply comes (AUTOSAR SWS OS 4.x, SWS_Os_00596 and SWS_Os_00602).
pub fn ask<const P: usize, const J: usize, const OUT: usize>(
    state: &mut CoreState<'_, P, J, OUT>,
    runner: Runner,
    service: ServiceId,
    core: CoreId,
    call: RemoteCall,
    marks: &mut Vec<Mark>,
)
    requires own { IsTrue (is_own_runner state.old.view.own runner) }
    requires queues { MayQueue OUT 3 1 core state.old marks.old }
    ensures { Steps 3 1 (asks runner service core call) state.old state.new marks.old marks.new }
{
    state.print(Mark::CallQueued { core, call }, marks);
    state.queue(core, Message::Request(call));
    state.open_call(OpenCall {
        runner,
        awaits: Awaited::Reply { service, core },
    });
}
