//! The services of events.

ghost use Rattle.std.specs.Prelude.{◌≡◌, IsTrue, true};
ghost use Rattle.osjobs.specs.Priorities.{is_extended, is_own_runner};
ghost use Rattle.osstate.specs.Does.{service_entries, service_marks};
ghost use Rattle.osservice.specs.{Terms.MayAct, Terms.Serves, Checks.first_failing, Checks.is_ok_status, Service.answer_of};
ghost use Rattle.osservice_tasks.specs.Events.{begins_to_wait, clearing_checks, clears_and_returns, clears_event, event_checks, gets_event, goes_on_or_waits, reading, releases, sets_events, setting, waiting_checks, waits_event};
ghost use Rattle.osacts.specs.{Runs.seen_in, Steps.Steps, Steps.StepsWithin};

use crate::tasks::status_of_holding;
use osbase::{Mark, Runner, ServiceId, Status, TaskRef};
use osservice::{ServiceResult, accept, finish, is_ok, own_of, refuse, without_value};
use osstate::CoreState;

// The status of the first check that fails for the task whose events are set or read, else E_OK.
fn status_of_events<const P: usize, const J: usize, const OUT: usize>(
    state: &CoreState<'_, P, J, OUT>,
    task: TaskRef,
) -> Status
    requires own { IsTrue (is_own_runner state.now.view.own (Runner.Task task)) }
    ensures value { result ≡ first_failing (event_checks (seen_in state.now) task) }
    ensures extended { IsTrue (is_ok_status result) → is_extended state.now.view.own (Runner.Task task) ≡ true }
{
    if !state.is_extended(Runner::Task(task)) {
        Status::EOsAccess
    } else if state.is_suspended(task) {
        Status::EOsState
    } else {
        Status::EOk
    }
}

/// Sets events of a task on its own core, where its state is known. If the task waits for one of them, it is released
/// (OSEK/VDX OS 2.2.3, section 13.5.3.1). Returns E_OS_ACCESS for a task that is not extended, and E_OS_STATE for one
/// that is suspended; then no event is set.
pub fn set_events<const P: usize, const J: usize, const OUT: usize>(
    state: &mut CoreState<'_, P, J, OUT>,
    task: TaskRef,
    mask: u32,
    marks: &mut Vec<Mark>,
) -> ServiceResult
    requires { MayAct 2 2 state.old (Runner.Task task) marks.old }
    ensures { Serves 2 2 (setting task mask) result state.old state.new marks.old marks.new }
{
    let status = status_of_events(state, task);
    if !is_ok(status) {
        return without_value(status);
    }
    set_and_release(state, task, mask, marks);
    without_value(status)
}

// Sets events of a task, and releases the task if it waits for one of them.
fn set_and_release<const P: usize, const J: usize, const OUT: usize>(
    state: &mut CoreState<'_, P, J, OUT>,
    task: TaskRef,
    mask: u32,
    marks: &mut Vec<Mark>,
)
    requires act { MayAct 2 2 state.old (Runner.Task task) marks.old }
    requires extended { is_extended state.old.view.own (Runner.Task task) ≡ true }
    ensures { StepsWithin 2 2 (sets_events task mask) state.old state.new marks.old marks.new }
{
    state.set_events(task, mask, marks);
    release_from(state, task, mask, marks);
}

// Releases the task if it waits for one of these events.
fn release_from<const P: usize, const J: usize, const OUT: usize>(
    state: &mut CoreState<'_, P, J, OUT>,
    task: TaskRef,
    mask: u32,
    marks: &mut Vec<Mark>,
)
    requires act { MayAct 1 1 state.old (Runner.Task task) marks.old }
    requires extended { is_extended state.old.view.own (Runner.Task task) ≡ true }
    ensures { StepsWithin 1 1 (releases task mask) state.old state.new marks.old marks.new }
{
    if osevent::awaits_one_of(state.events(Runner::Task(task)), mask) {
        state.release(task, marks);
    }
}

// What GetEvent answers for one of the core's tasks.
fn read_events<const P: usize, const J: usize, const OUT: usize>(
    state: &CoreState<'_, P, J, OUT>,
    task: TaskRef,
) -> ServiceResult
    requires own { IsTrue (is_own_runner state.now.view.own (Runner.Task task)) }
    ensures { result ≡ answer_of (reading task (seen_in state.now)) }
{
    let status = status_of_events(state, task);
    if !is_ok(status) {
        return without_value(status);
    }
    let events = state.events(Runner::Task(task));
    ServiceResult {
        status,
        value: Some(i64::from(events.set)),
    }
}

/// A running job asks which events of a task are set (OSEK/VDX OS 2.2.3, section 13.5.3.3). The service returns E_OS_ID
/// for the invalid identifier and for a task of another core, E_OS_ACCESS for a task that is not extended, and
/// E_OS_STATE for one that is suspended. It has no other effect then.
pub fn get_event<const P: usize, const J: usize, const OUT: usize>(
    state: &mut CoreState<'_, P, J, OUT>,
    runner: Runner,
    target: Option<TaskRef>,
    marks: &mut Vec<Mark>,
)
    requires { MayAct service_entries service_marks state.old runner marks.old }
    ensures { Steps service_entries service_marks (gets_event runner target) state.old state.new marks.old marks.new }
{
    let answer = match own_of(state, target) {
        Some(task) => read_events(state, task),
        None => without_value(Status::EOsId),
    };
    finish(state, runner, ServiceId::GetEvent, answer, marks);
}

// The status of ClearEvent's first check that fails, else E_OK: the caller is a task, and this task is extended.
fn status_of_caller<const P: usize, const J: usize, const OUT: usize>(
    state: &CoreState<'_, P, J, OUT>,
    runner: Runner,
) -> Status
    ensures value { result ≡ first_failing (clearing_checks (seen_in state.now) runner) }
    ensures extended { IsTrue (is_ok_status result) → is_extended state.now.view.own runner ≡ true }
{
    match runner {
        Runner::Task(_) => {
            if state.is_extended(runner) {
                Status::EOk
            } else {
                Status::EOsAccess
            }
        }
        Runner::Isr(_) => Status::EOsCallevel,
    }
}

/// A running job clears events of its own task (OSEK/VDX OS 2.2.3, section 13.5.3.2). An ISR gets E_OS_CALLEVEL, a task
/// that is not extended E_OS_ACCESS; then no event is cleared.
pub fn clear_event<const P: usize, const J: usize, const OUT: usize>(
    state: &mut CoreState<'_, P, J, OUT>,
    runner: Runner,
    mask: u32,
    marks: &mut Vec<Mark>,
)
    requires { MayAct service_entries service_marks state.old runner marks.old }
    ensures { Steps service_entries service_marks (clears_event runner mask) state.old state.new marks.old marks.new }
{
    let status = status_of_caller(state, runner);
    if is_ok(status) {
        clear(state, runner, mask, marks);
    } else {
        refuse(state, runner, ServiceId::ClearEvent, status, marks);
    }
}

// Clears these events of the caller's task, and ClearEvent returns E_OK. For an ISR, which was refused before, it only
// returns.
fn clear<const P: usize, const J: usize, const OUT: usize>(
    state: &mut CoreState<'_, P, J, OUT>,
    runner: Runner,
    mask: u32,
    marks: &mut Vec<Mark>,
)
    requires { MayAct service_entries service_marks state.old runner marks.old }
    ensures { Steps service_entries service_marks (clears_and_returns runner mask) state.old state.new marks.old marks.new }
{
    match runner {
        Runner::Task(task) => {
            state.clear_events(task, mask, marks);
            accept(state, runner, ServiceId::ClearEvent, marks);
        }
        Runner::Isr(_) => accept(state, runner, ServiceId::ClearEvent, marks),
    }
}

// The status of WaitEvent's first check that fails, else E_OK: the caller is an extended task, and its job holds no
// resource and no spinlock.
fn status_of_waiting<const P: usize, const J: usize, const OUT: usize>(
    state: &CoreState<'_, P, J, OUT>,
    runner: Runner,
) -> Status
    requires own { IsTrue (is_own_runner state.now.view.own runner) }
    ensures value { result ≡ first_failing (waiting_checks (seen_in state.now) runner) }
    ensures extended { IsTrue (is_ok_status result) → is_extended state.now.view.own runner ≡ true }
{
    let status = status_of_caller(state, runner);
    if !is_ok(status) {
        return status;
    }
    status_of_holding(state, runner)
}

/// A running job waits until one of these events of its task is set (OSEK/VDX OS 2.2.3, section 13.5.3.4); if one is
/// set, the job runs on at once. An ISR gets E_OS_CALLEVEL, a task that is not extended E_OS_ACCESS, a job that holds a
/// resource E_OS_RESOURCE, one that holds a spinlock E_OS_SPINLOCK; each of them runs on.
pub fn wait_event<const P: usize, const J: usize, const OUT: usize>(
    state: &mut CoreState<'_, P, J, OUT>,
    runner: Runner,
    mask: u32,
    marks: &mut Vec<Mark>,
)
    requires { MayAct service_entries service_marks state.old runner marks.old }
    ensures { Steps service_entries service_marks (waits_event runner mask) state.old state.new marks.old marks.new }
{
    let status = status_of_waiting(state, runner);
    if is_ok(status) {
        go_on_or_wait(state, runner, mask, marks);
    } else {
        refuse(state, runner, ServiceId::WaitEvent, status, marks);
    }
}

// If one of these events is set, WaitEvent returns E_OK at once, and the job runs on; else it waits. An event stays set
// until the job clears it.
fn go_on_or_wait<const P: usize, const J: usize, const OUT: usize>(
    state: &mut CoreState<'_, P, J, OUT>,
    runner: Runner,
    mask: u32,
    marks: &mut Vec<Mark>,
)
    requires act { MayAct service_entries service_marks state.old runner marks.old }
    requires extended { is_extended state.old.view.own runner ≡ true }
    ensures { Steps service_entries service_marks (goes_on_or_waits runner mask) state.old state.new marks.old marks.new }
{
    let events = state.events(runner);
    if osevent::have_common(mask, events.set) {
        accept(state, runner, ServiceId::WaitEvent, marks);
    } else {
        begin_to_wait(state, runner, mask, marks);
    }
}

// One of the core's tasks leaves the running state and waits: PostTaskHook comes first (OSEK/VDX OS 2.2.3, section
// 4.2.1 and 11.5). WaitEvent has E_OK as its status at once, without a line.
fn begin_to_wait<const P: usize, const J: usize, const OUT: usize>(
    state: &mut CoreState<'_, P, J, OUT>,
    runner: Runner,
    mask: u32,
    marks: &mut Vec<Mark>,
)
    requires act { MayAct service_entries service_marks state.old runner marks.old }
    requires extended { is_extended state.old.view.own runner ≡ true }
    ensures { Steps service_entries service_marks (begins_to_wait runner mask) state.old state.new marks.old marks.new }
{
    match runner {
        Runner::Task(task) => {
            state.leave(task, marks);
            state.wait(task, mask, marks);
            state.complete(Runner::Task(task), Status::EOk, None);
        }
        Runner::Isr(_) => {}
    }
}
