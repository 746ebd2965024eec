//! ChainTask.

ghost use Rattle.std.specs.Prelude.{◌≡◌, ◌<◌, IsTrue, false};
ghost use Rattle.osbase.specs.{declared.limits.TheConstants.CORES, Objects.task_object, Phases.is_before_live};
ghost use Rattle.osplan.specs.Objects.{may_name};
ghost use Rattle.osjobs.specs.Priorities.{is_own_runner};
ghost use Rattle.osstate.specs.Does.{service_entries, service_marks};
ghost use Rattle.osservice.specs.Terms.{MayAct, MayOperate, MayServe, Offered};
ghost use Rattle.oschain.specs.Chaining.{chain_acts, chains, chains_across, chains_here, chains_if, chains_to, ends_caller, exceeds_limit, resumes};
ghost use Rattle.osacts.specs.{Runs.seen_in, Steps.Steps};

use osbase::{Mark, RemoteCall, Runner, ServiceId, Status, TaskRef};
use oscript::Op;
use osservice::{ServiceResult, Step, ask, finish, is_ok, refuse};
use osservice_tasks::{end, end_task, status_of_holding};
use osstate::CoreState;

// A running job ends itself, and a job of the target task begins (OSEK/VDX OS 2.2.3, section 13.2.3.3). If the task is
// another core's, that core is asked to activate it, and the caller ends once the answer is E_OK. A refused caller runs
// on. An ISR gets E_OS_CALLEVEL, a caller that holds a resource E_OS_RESOURCE, one that holds a spinlock E_OS_SPINLOCK.
// E_OS_ID is for the invalid identifier, E_OS_CORE for a task of a core that was never started, and E_OS_LIMIT for a
// task other than the caller's with as many live jobs as it may have.
fn chain<const P: usize, const J: usize, const OUT: usize>(
    state: &mut CoreState<'_, P, J, OUT>,
    runner: Runner,
    target: Option<TaskRef>,
    marks: &mut Vec<Mark>,
)
    requires { MayOperate 1 OUT state.old runner (Op.ChainTask target) marks.old }
    ensures { Steps service_entries service_marks (chains runner target) state.old state.new marks.old marks.new }
{
    match runner {
        Runner::Task(caller) => chain_if(state, caller, target, marks),
        Runner::Isr(_) => refuse(
            state,
            runner,
            ServiceId::ChainTask,
            Status::EOsCallevel,
            marks,
        ),
    }
}

/// If an operation of a running job of one of the core's tasks or ISRs is ChainTask, it is done, and the answer is yes.
/// Else nothing changes.
pub fn operate<const P: usize, const J: usize, const OUT: usize>(
    state: &mut CoreState<'_, P, J, OUT>,
    step: Step,
    marks: &mut Vec<Mark>,
) -> bool
    requires { MayOperate 1 OUT state.old step.runner step.op marks.old }
    ensures { Offered (chain_acts step.runner step.op) result state.old state.new marks.old marks.new }
{
    let runner = step.runner;
    match step.op {
        Op::ChainTask(target) => {
            chain(state, runner, target, marks);
            true
        }
        _ => false,
    }
}

// Refuses the invalid identifier. Any other target is checked further, and then chained to.
fn chain_if<const P: usize, const J: usize, const OUT: usize>(
    state: &mut CoreState<'_, P, J, OUT>,
    caller: TaskRef,
    target: Option<TaskRef>,
    marks: &mut Vec<Mark>,
)
    requires { MayOperate 1 OUT state.old (Runner.Task caller) (Op.ChainTask target) marks.old }
    ensures { Steps service_entries service_marks (chains_if (Runner.Task caller) target) state.old state.new marks.old marks.new }
{
    let runner = Runner::Task(caller);
    match target {
        Some(task) => chain_across(state, caller, task, marks),
        None => refuse(state, runner, ServiceId::ChainTask, Status::EOsId, marks),
    }
}

// Refuses a task of a core that was never started, and a caller that holds a resource or a spinlock; else chains to the
// task, whichever core has it.
fn chain_across<const P: usize, const J: usize, const OUT: usize>(
    state: &mut CoreState<'_, P, J, OUT>,
    caller: TaskRef,
    task: TaskRef,
    marks: &mut Vec<Mark>,
)
    requires known { IsTrue (may_name state.old.view.own (task_object task)) }
    requires serves { MayServe 1 OUT state.old (Runner.Task caller) marks.old }
    ensures { Steps service_entries service_marks (chains_across (Runner.Task caller) task) state.old state.new marks.old marks.new }
{
    let runner = Runner::Task(caller);
    if !state.knows_started(task.core) {
        return refuse(state, runner, ServiceId::ChainTask, Status::EOsCore, marks);
    }
    let status = status_of_holding(state, runner);
    if is_ok(status) {
        chain_to(state, caller, task, marks);
    } else {
        refuse(state, runner, ServiceId::ChainTask, status, marks);
    }
}

// Chains to the task: here, if it is one of the core's own; else its core is asked to activate it.
fn chain_to<const P: usize, const J: usize, const OUT: usize>(
    state: &mut CoreState<'_, P, J, OUT>,
    caller: TaskRef,
    task: TaskRef,
    marks: &mut Vec<Mark>,
)
    requires known { IsTrue (may_name state.old.view.own (task_object task)) }
    requires receiver { task.core.number < CORES }
    requires serves { MayServe 1 OUT state.old (Runner.Task caller) marks.old }
    ensures { Steps service_entries service_marks (chains_to (Runner.Task caller) task) state.old state.new marks.old marks.new }
{
    if state.is_this_core(task.core) {
        return chain_here(state, caller, task, marks);
    }
    let runner = Runner::Task(caller);
    let call = RemoteCall::ActivateTask(task);
    ask(state, runner, ServiceId::ChainTask, task.core, call, marks);
}

// Refuses a task of the core's own that is at its limit of live jobs, unless it is the caller's; else the caller ends,
// and then the task is activated.
fn chain_here<const P: usize, const J: usize, const OUT: usize>(
    state: &mut CoreState<'_, P, J, OUT>,
    caller: TaskRef,
    task: TaskRef,
    marks: &mut Vec<Mark>,
)
    requires target { IsTrue (is_own_runner state.old.view.own (Runner.Task task)) }
    requires live { is_before_live state.old.progress.phase ≡ false }
    requires acts { MayAct service_entries service_marks state.old (Runner.Task caller) marks.old }
    ensures { Steps service_entries service_marks (chains_here (Runner.Task caller) task) state.old state.new marks.old marks.new }
{
    if exceeds_limit(state, caller, task) {
        let runner = Runner::Task(caller);
        return refuse(state, runner, ServiceId::ChainTask, Status::EOsLimit, marks);
    }
    end_task(state, caller, marks);
    state.activate(task, marks);
}

// Whether the task is not the caller's own, and is at its limit of live jobs. The caller's own task never exceeds the
// limit, since the caller ends first.
fn exceeds_limit<const P: usize, const J: usize, const OUT: usize>(
    state: &CoreState<'_, P, J, OUT>,
    caller: TaskRef,
    task: TaskRef,
) -> bool
    requires own { IsTrue (is_own_runner state.now.view.own (Runner.Task task)) }
    ensures { result ≡ exceeds_limit (seen_in state.now) (Runner.Task caller) task }
{
    !Runner::Task(caller).is(Runner::Task(task)) && state.is_at_limit(task)
}

// Whether the service is ChainTask, and its status is E_OK. Then it does not return: its caller ends.
fn ends_caller(service: ServiceId, status: Status) -> bool
    ensures { result ≡ ends_caller service status }
{
    matches!((service, status), (ServiceId::ChainTask, Status::EOk))
}

/// A service of a job of one of the core's tasks or ISRs gets the reply of another core and returns. If ChainTask was
/// granted, its caller ends instead (OSEK/VDX OS 2.2.3, section 13.2.3.3).
pub fn resume<const P: usize, const J: usize, const OUT: usize>(
    state: &mut CoreState<'_, P, J, OUT>,
    runner: Runner,
    service: ServiceId,
    answer: ServiceResult,
    marks: &mut Vec<Mark>,
)
    requires { MayAct 3 2 state.old runner marks.old }
    ensures { Steps 3 2 (resumes runner service answer.status answer.value) state.old state.new marks.old marks.new }
{
    if ends_caller(service, answer.status) {
        return end(state, runner, marks);
    }
    finish(state, runner, service, answer, marks);
}
