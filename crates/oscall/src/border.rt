//! Services on objects that may be on another core, and what a core does for another one.

ghost use Rattle.std.specs.Prelude.{◌≡◌, ◌<◌, IfSome, IsTrue};
ghost use Rattle.osbase.specs.{declared.limits.TheConstants.CORES, Answers.reply, Answers.served};
ghost use Rattle.osstate.specs.{Does.service_entries, Does.service_marks, Readings.is_served};
ghost use Rattle.osservice.specs.Terms.{MayBegin, MayPost, MayServe, Serves};
ghost use Rattle.osacts.specs.{Acts.both, Acts.prints, Runs.seen_in, Steps.Steps, Steps.StepsWithin};
ghost use Rattle.osservice.specs.Service.{carries_out, answer_of};
ghost use Rattle.osjobs.specs.Jobs.{is_plain};
ghost use Rattle.oscall.specs.Border.{calls, core_of_call, crosses, is_known_call, serves_action, serves_request, service_of};

use osbase::{CoreId, Mark, Message, RemoteCall, Runner, ServiceId, Status};
use osservice::{ServiceResult, ask, finish, refuse, report};
use osservice_alarms::{ask_left, cancel, set_absolute, set_relative};
use osservice_tasks::{activate, set_events};
use osstate::CoreState;

/// The half of a service that the object's core does, for a job of its own and for another core alike: the remaining
/// checks, and the effect. A service that is refused has no effect.
pub fn serve<const P: usize, const J: usize, const OUT: usize>(
    state: &mut CoreState<'_, P, J, OUT>,
    call: RemoteCall,
    marks: &mut Vec<Mark>,
) -> ServiceResult
    requires served { IsTrue (is_served state.old.view call) }
    requires begins { MayBegin 2 2 state.old marks.old }
    ensures { Serves 2 2 (service_of call) result state.old state.new marks.old marks.new }
{
    match call {
        RemoteCall::ActivateTask(task) => activate(state, task, marks),
        RemoteCall::SetEvent { task, mask } => set_events(state, task, mask, marks),
        RemoteCall::SetRelAlarm {
            alarm,
            increment,
            cycle,
        } => set_relative(state, alarm, increment, cycle),
        RemoteCall::SetAbsAlarm {
            alarm,
            start,
            cycle,
        } => set_absolute(state, alarm, start, cycle),
        RemoteCall::CancelAlarm(alarm) => cancel(state, alarm),
        RemoteCall::GetAlarm { alarm, .. } => ask_left(state, alarm),
    }
}

/// A running job calls a service on an object that may be on another core. The service returns E_OS_ID for the invalid
/// identifier, and E_OS_CORE for an object of a core that was never started; it has no other effect then. For an own
/// object the service is done here; else the object's core is asked.
pub fn call<const P: usize, const J: usize, const OUT: usize>(
    state: &mut CoreState<'_, P, J, OUT>,
    runner: Runner,
    service: ServiceId,
    target: Option<RemoteCall>,
    marks: &mut Vec<Mark>,
)
    requires known { IfSome target (λ call. IsTrue (is_known_call state.old.view.own call)) }
    requires serves { MayServe 1 OUT state.old runner marks.old }
    ensures { Steps service_entries service_marks (calls runner service target) state.old state.new marks.old marks.new }
{
    let Some(call) = target else {
        return refuse(state, runner, service, Status::EOsId, marks);
    };
    let core = call.object().place.core;
    if state.knows_started(core) {
        cross(state, runner, service, call, marks);
    } else {
        refuse(state, runner, service, Status::EOsCore, marks);
    }
}

// Does the service for an own object; else asks the object's core, which alone can make the remaining checks.
fn cross<const P: usize, const J: usize, const OUT: usize>(
    state: &mut CoreState<'_, P, J, OUT>,
    runner: Runner,
    service: ServiceId,
    call: RemoteCall,
    marks: &mut Vec<Mark>,
)
    requires known { IsTrue (is_known_call state.old.view.own call) }
    requires receiver { (core_of_call call).number < CORES }
    requires serves { MayServe 1 OUT state.old runner marks.old }
    ensures { Steps service_entries service_marks (crosses runner service call) state.old state.new marks.old marks.new }
{
    let core = call.object().place.core;
    if !state.is_this_core(core) {
        return ask(state, runner, service, core, call, marks);
    }
    let answer = serve(state, call, marks);
    finish(state, runner, service, answer, marks);
}

// A call of another core is served, and its line is printed. Returns what the service answered.
fn serve_for<const P: usize, const J: usize, const OUT: usize>(
    state: &mut CoreState<'_, P, J, OUT>,
    from: CoreId,
    call: RemoteCall,
    marks: &mut Vec<Mark>,
) -> ServiceResult
    requires served { IsTrue (is_served state.old.view call) }
    requires begins { MayBegin 3 3 state.old marks.old }
    ensures answer { result ≡ answer_of (service_of call (seen_in state.old)) }
    ensures steps { StepsWithin 3 3 (both (carries_out (service_of call)) (prints (served from call result.status result.value))) state.old state.new marks.old marks.new }
{
    let answer = serve(state, call, marks);
    state.print(mark_of(from, call, answer), marks);
    answer
}

// The line of a call that was served for another core: with the value that GetAlarm answered, else with the status.
fn mark_of(core: CoreId, call: RemoteCall, answer: ServiceResult) -> Mark
    ensures mark { result ≡ served core call answer.status answer.value }
    ensures plain { IsTrue (is_plain result) }
{
    match (call, answer.value) {
        (RemoteCall::GetAlarm { alarm, variable }, Some(value)) => Mark::CallAnswered {
            core,
            alarm,
            variable,
            value,
        },
        (_, _) => Mark::CallServed {
            core,
            status: answer.status,
            call,
        },
    }
}

// The reply that says what a service answered.
fn reply_of(answer: ServiceResult) -> Message
    ensures { result ≡ reply answer.status answer.value }
{
    match answer.value {
        Some(value) => Message::Value(answer.status, value),
        None => Message::Reply(answer.status),
    }
}

/// A request of another core is served, and answered by a reply. Its error calls no ErrorHook on this core.
pub fn serve_request<const P: usize, const J: usize, const OUT: usize>(
    state: &mut CoreState<'_, P, J, OUT>,
    from: CoreId,
    call: RemoteCall,
    marks: &mut Vec<Mark>,
)
    requires served { IsTrue (is_served state.old.view call) }
    requires sender { from.number < CORES }
    requires posts { MayPost 1 OUT service_entries service_marks state.old marks.old }
    ensures { Steps service_entries service_marks (serves_request from call) state.old state.new marks.old marks.new }
{
    let answer = serve_for(state, from, call, marks);
    state.queue(from, reply_of(answer));
}

/// An action of another core is served. It gets no reply; its error calls ErrorHook on this core.
pub fn serve_action<const P: usize, const J: usize, const OUT: usize>(
    state: &mut CoreState<'_, P, J, OUT>,
    from: CoreId,
    call: RemoteCall,
    marks: &mut Vec<Mark>,
)
    requires served { IsTrue (is_served state.old.view call) }
    requires begins { MayBegin service_entries service_marks state.old marks.old }
    ensures { Steps service_entries service_marks (serves_action from call) state.old state.new marks.old marks.new }
{
    let answer = serve_for(state, from, call, marks);
    report(state, answer.status, marks);
}
