//! The services of tasks.

ghost use Rattle.std.specs.Prelude.{◌≡◌, ◌<◌, IsTrue, false};
ghost use Rattle.osbase.specs.{History.job_count, History.without_oldest, Phases.is_before_live};
ghost use Rattle.osjobs.specs.Priorities.{is_own_runner};
ghost use Rattle.osstate.specs.{Does.service_entries, Does.service_marks, Sound.activation_limit};
ghost use Rattle.osservice.specs.{Terms.MayAct, Terms.Offered, Terms.Serves, Callers.holding_checks, Checks.first_failing};
ghost use Rattle.osservice_tasks.specs.Tasks.{activation, ends, ends_without_terminate, schedules, task_acts, task_checks, terminates};
ghost use Rattle.osacts.specs.{Runs.seen_in, Steps.Steps};

use crate::events::{clear_event, get_event, wait_event};
use crate::interrupts::{report_suspended, resume_interrupts, suspend_interrupts};
use crate::resources::{get_resource, release_resource};
use osbase::{Mark, Runner, ServiceId, Status, TaskRef};
use oscript::Op;
use osservice::{ServiceResult, Step, finish, is_ok, refuse, without_value};
use osstate::CoreState;

/// Activates a task on its own core, where the number of its live jobs is known
/// (OSEK/VDX OS 2.2.3, section 13.2.3.1). If the task has as many live jobs as it may have, the service returns
/// E_OS_LIMIT, and nothing is activated.
pub fn activate<const P: usize, const J: usize, const OUT: usize>(
    state: &mut CoreState<'_, P, J, OUT>,
    task: TaskRef,
    marks: &mut Vec<Mark>,
) -> ServiceResult
    requires live { is_before_live state.old.progress.phase ≡ false }
    requires acts { MayAct 1 1 state.old (Runner.Task task) marks.old }
    ensures { Serves 1 1 (activation task) result state.old state.new marks.old marks.new }
{
    if state.is_at_limit(task) {
        return without_value(Status::EOsLimit);
    }
    state.activate(task, marks);
    without_value(Status::EOk)
}

/// Ends the oldest job of one of the core's tasks; PostTaskHook comes first (OSEK/VDX OS 2.2.3, section 11.5). The task
/// then has fewer jobs than it may have.
pub fn end_task<const P: usize, const J: usize, const OUT: usize>(
    state: &mut CoreState<'_, P, J, OUT>,
    task: TaskRef,
    marks: &mut Vec<Mark>,
)
    requires { MayAct 2 2 state.old (Runner.Task task) marks.old }
    ensures steps { Steps 2 2 (ends (Runner.Task task)) state.old state.new marks.old marks.new }
    ensures jobs { state.new.tasks.jobs ≡ without_oldest (Runner.Task task) state.old.tasks.jobs }
    ensures below { job_count (Runner.Task task) state.new.tasks.jobs < activation_limit state.new.view.own (Runner.Task task) }
{
    state.leave(task, marks);
    state.terminate(task, marks);
}

/// Ends the oldest job of one of the core's tasks or ISRs; for a task, PostTaskHook comes first.
pub fn end<const P: usize, const J: usize, const OUT: usize>(
    state: &mut CoreState<'_, P, J, OUT>,
    runner: Runner,
    marks: &mut Vec<Mark>,
)
    requires { MayAct 2 2 state.old runner marks.old }
    ensures { Steps 2 2 (ends runner) state.old state.new marks.old marks.new }
{
    match runner {
        Runner::Task(task) => end_task(state, task, marks),
        Runner::Isr(isr) => state.leave_isr(isr, marks),
    }
}

/// A job of one of the core's tasks or ISRs reaches the end of its script, and ends. For a task, ErrorHook is first
/// called with E_OS_MISSINGEND (AUTOSAR SWS OS 4.x, SWS_Os_00052 and SWS_Os_00069). For an ISR that has interrupts
/// suspended, it is first called with E_OS_DISABLEDINT (SWS_Os_00368).
pub fn end_without_terminate<const P: usize, const J: usize, const OUT: usize>(
    state: &mut CoreState<'_, P, J, OUT>,
    runner: Runner,
    marks: &mut Vec<Mark>,
)
    requires { MayAct service_entries service_marks state.old runner marks.old }
    ensures { Steps service_entries service_marks (ends_without_terminate runner) state.old state.new marks.old marks.new }
{
    match runner {
        Runner::Task(task) => {
            state.print(Mark::ErrorHook(Status::EOsMissingend), marks);
            end_task(state, task, marks);
        }
        Runner::Isr(_) => {
            report_suspended(state, runner, marks);
            end(state, runner, marks);
        }
    }
}

/// Checks a job that ends itself, waits or gives way: E_OS_RESOURCE if it holds a resource (OSEK/VDX OS 2.2.3, section
/// 8.2), else E_OS_SPINLOCK if it holds a spinlock (AUTOSAR SWS OS 4.x, E_OS_SPINLOCK), else E_OK.
pub fn status_of_holding<const P: usize, const J: usize, const OUT: usize>(
    state: &CoreState<'_, P, J, OUT>,
    runner: Runner,
) -> Status
    requires own { IsTrue (is_own_runner state.now.view.own runner) }
    ensures { result ≡ first_failing (holding_checks (seen_in state.now) runner) }
{
    if state.holds_resource(runner) {
        Status::EOsResource
    } else if state.newest_spinlock(runner).is_some() {
        Status::EOsSpinlock
    } else {
        Status::EOk
    }
}

// The status of the first check that fails for a job that ends itself or gives way, else E_OK: the caller is a task,
// and holds no resource and no spinlock.
fn status_of_task<const P: usize, const J: usize, const OUT: usize>(
    state: &CoreState<'_, P, J, OUT>,
    runner: Runner,
) -> Status
    requires own { IsTrue (is_own_runner state.now.view.own runner) }
    ensures { result ≡ first_failing (task_checks (seen_in state.now) runner) }
{
    match runner {
        Runner::Task(_) => status_of_holding(state, runner),
        Runner::Isr(_) => Status::EOsCallevel,
    }
}

// A running job ends itself (OSEK/VDX OS 2.2.3, section 13.2.3.2). An ISR gets E_OS_CALLEVEL, a job that holds a
// resource E_OS_RESOURCE, one that holds a spinlock E_OS_SPINLOCK; each of them runs on.
fn terminate<const P: usize, const J: usize, const OUT: usize>(
    state: &mut CoreState<'_, P, J, OUT>,
    runner: Runner,
    marks: &mut Vec<Mark>,
)
    requires { MayAct service_entries service_marks state.old runner marks.old }
    ensures { Steps service_entries service_marks (terminates runner) state.old state.new marks.old marks.new }
{
    let status = status_of_task(state, runner);
    if is_ok(status) {
        end(state, runner, marks);
    } else {
        refuse(state, runner, ServiceId::TerminateTask, status, marks);
    }
}

// A running job lets a job of greater priority run, even if its own task cannot be preempted (OSEK/VDX OS 2.2.3,
// section 13.2.3.4). An ISR gets E_OS_CALLEVEL, a job that holds a resource E_OS_RESOURCE, one that holds a spinlock
// E_OS_SPINLOCK; none of them gives way.
fn schedule<const P: usize, const J: usize, const OUT: usize>(
    state: &mut CoreState<'_, P, J, OUT>,
    runner: Runner,
    marks: &mut Vec<Mark>,
)
    requires { MayAct service_entries service_marks state.old runner marks.old }
    ensures { Steps service_entries service_marks (schedules runner) state.old state.new marks.old marks.new }
{
    let answer = ServiceResult {
        status: status_of_task(state, runner),
        value: None,
    };
    finish(state, runner, ServiceId::Schedule, answer, marks);
}

/// If an operation of a running job of one of the core's tasks or ISRs is a service of tasks, resources, events or
/// interrupts that never crosses to another core, it is done, and the answer is yes. Else nothing changes.
pub fn operate<const P: usize, const J: usize, const OUT: usize>(
    state: &mut CoreState<'_, P, J, OUT>,
    step: Step,
    marks: &mut Vec<Mark>,
) -> bool
    requires { MayAct service_entries service_marks state.old step.runner marks.old }
    ensures { Offered (task_acts step.runner step.op) result state.old state.new marks.old marks.new }
{
    let runner = step.runner;
    match step.op {
        Op::TerminateTask => {
            terminate(state, runner, marks);
            true
        }
        Op::Schedule => {
            schedule(state, runner, marks);
            true
        }
        Op::GetResource(target) => {
            get_resource(state, runner, target, marks);
            true
        }
        Op::ReleaseResource(target) => {
            release_resource(state, runner, target, marks);
            true
        }
        Op::ClearEvent(mask) => {
            clear_event(state, runner, mask, marks);
            true
        }
        Op::GetEvent(target, _) => {
            get_event(state, runner, target, marks);
            true
        }
        Op::WaitEvent(mask) => {
            wait_event(state, runner, mask, marks);
            true
        }
        Op::SuspendAllInterrupts => {
            suspend_interrupts(state, runner);
            true
        }
        Op::ResumeAllInterrupts => {
            resume_interrupts(state, runner);
            true
        }
        _ => false,
    }
}
