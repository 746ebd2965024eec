//! The services of spinlocks.

ghost use Rattle.std.specs.Prelude.{◌≡◌, IsTrue};
ghost use Rattle.osprogress.specs.Border.{is_lock_known};
ghost use Rattle.osstate.specs.{Does.service_entries, Does.service_marks, Sound.is_awaited_known};
ghost use Rattle.osservice.specs.{Terms.MayAct, Terms.Offered, Checks.first_failing, Checks.is_ok_status, Returning.returns};
ghost use Rattle.osacts.specs.{Acts.when, Runs.all_cores_in, Runs.seen_in, Steps.Steps};
ghost use Rattle.osservice_spins.specs.Spinlocks.{awaits, breaks_order, gets_spinlock, getting_checks, is_not_newest, releases_spinlock, releasing_checks, spin_acts, tries_spinlock};

use osbase::{Awaited, Mark, OpenCall, Runner, ServiceId, SpinlockId, Status};
use oscript::Op;
use osservice::{Step, is_ok, refuse};
use osstate::CoreState;

// Whether the caller holds a spinlock, and spinlock `lock` does not come after the newest that it holds.
fn breaks_order<const P: usize, const J: usize, const OUT: usize>(
    state: &CoreState<'_, P, J, OUT>,
    runner: Runner,
    lock: SpinlockId,
) -> bool
    ensures { result ≡ breaks_order (all_cores_in state.now) (seen_in state.now) runner lock }
{
    match state.newest_spinlock(runner) {
        Some(newest) => !state.comes_after(newest, lock),
        None => false,
    }
}

// The status of the first check that fails when a job asks for a spinlock, else E_OK.
fn status_of_getting<const P: usize, const J: usize, const OUT: usize>(
    state: &CoreState<'_, P, J, OUT>,
    runner: Runner,
    lock: SpinlockId,
) -> Status
    ensures status { result ≡ first_failing (getting_checks runner (all_cores_in state.now) (seen_in state.now) lock) }
    ensures known { IsTrue (is_ok_status result) → IsTrue (is_lock_known lock) }
{
    if !state.knows_spinlock(lock) {
        Status::EOsId
    } else if state.has_spinlock(lock) {
        Status::EOsInterferenceDeadlock
    } else if breaks_order(state, runner, lock) {
        Status::EOsNestingDeadlock
    } else {
        Status::EOk
    }
}

// Whether the spinlock is not the newest that the caller holds, or the caller holds none.
fn is_not_newest<const P: usize, const J: usize, const OUT: usize>(
    state: &CoreState<'_, P, J, OUT>,
    runner: Runner,
    lock: SpinlockId,
) -> bool
    ensures { result ≡ is_not_newest (seen_in state.now) runner lock }
{
    match state.newest_spinlock(runner) {
        Some(newest) => lock != newest,
        None => true,
    }
}

// The status of the first check that fails when a job gives a spinlock back, else E_OK.
fn status_of_releasing<const P: usize, const J: usize, const OUT: usize>(
    state: &CoreState<'_, P, J, OUT>,
    runner: Runner,
    lock: SpinlockId,
) -> Status
    ensures status { result ≡ first_failing (releasing_checks runner (all_cores_in state.now) (seen_in state.now) lock) }
    ensures known { IsTrue (is_ok_status result) → IsTrue (is_lock_known lock) }
{
    if !state.knows_spinlock(lock) {
        Status::EOsId
    } else if !state.holds_spinlock(runner, lock) {
        Status::EOsState
    } else if is_not_newest(state, runner, lock) {
        Status::EOsNofunc
    } else {
        Status::EOk
    }
}

// If the status of the checks is E_OK, the call is open until the spinlock answers. Else the service returns the
// status.
fn ask<const P: usize, const J: usize, const OUT: usize>(
    state: &mut CoreState<'_, P, J, OUT>,
    call: OpenCall,
    service: ServiceId,
    status: Status,
    marks: &mut Vec<Mark>,
)
    requires known { IsTrue (is_ok_status status) → IsTrue (is_awaited_known call.awaits) }
    requires acts { MayAct service_entries service_marks state.old call.runner marks.old }
    ensures { Steps service_entries service_marks (when (is_ok_status status) (awaits call.runner call.awaits) (returns call.runner service status None)) state.old state.new marks.old marks.new }
{
    if is_ok(status) {
        state.open_call(call);
    } else {
        refuse(state, call.runner, service, status, marks);
    }
}

// A running job waits until it has a spinlock (AUTOSAR SWS OS 4.x, SWS_Os_00687). The service returns E_OS_ID for the
// invalid identifier and for a spinlock that is not configured, and E_OS_INTERFERENCE_DEADLOCK for one that a job of
// this core has. It returns E_OS_NESTING_DEADLOCK for one that does not come after the newest that the caller holds. It
// has no other effect then.
fn get_spinlock<const P: usize, const J: usize, const OUT: usize>(
    state: &mut CoreState<'_, P, J, OUT>,
    runner: Runner,
    target: Option<SpinlockId>,
    marks: &mut Vec<Mark>,
)
    requires { MayAct service_entries service_marks state.old runner marks.old }
    ensures { Steps service_entries service_marks (gets_spinlock runner target) state.old state.new marks.old marks.new }
{
    let service = ServiceId::GetSpinlock;
    let Some(lock) = target else {
        return refuse(state, runner, service, Status::EOsId, marks);
    };
    let status = status_of_getting(state, runner, lock);
    let awaits = Awaited::Get(lock);
    ask(state, OpenCall { runner, awaits }, service, status, marks);
}

// A running job of one of the core's tasks or ISRs tries once to take a spinlock, with the checks of GetSpinlock
// (AUTOSAR SWS OS 4.x, SWS_Os_00704).
fn try_spinlock<const P: usize, const J: usize, const OUT: usize>(
    state: &mut CoreState<'_, P, J, OUT>,
    runner: Runner,
    target: Option<SpinlockId>,
    marks: &mut Vec<Mark>,
)
    requires { MayAct service_entries service_marks state.old runner marks.old }
    ensures { Steps service_entries service_marks (tries_spinlock runner target) state.old state.new marks.old marks.new }
{
    let service = ServiceId::TryToGetSpinlock;
    let Some(lock) = target else {
        return refuse(state, runner, service, Status::EOsId, marks);
    };
    let status = status_of_getting(state, runner, lock);
    let awaits = Awaited::Try(lock);
    ask(state, OpenCall { runner, awaits }, service, status, marks);
}

// A running job gives back the newest of the spinlocks that it holds (AUTOSAR SWS OS 4.x, SWS_Os_00696). The service
// returns E_OS_ID for the invalid identifier and for a spinlock that is not configured, E_OS_STATE for one that the
// caller does not hold, and E_OS_NOFUNC for one that is not its newest. It has no other effect then.
fn release_spinlock<const P: usize, const J: usize, const OUT: usize>(
    state: &mut CoreState<'_, P, J, OUT>,
    runner: Runner,
    target: Option<SpinlockId>,
    marks: &mut Vec<Mark>,
)
    requires { MayAct service_entries service_marks state.old runner marks.old }
    ensures { Steps service_entries service_marks (releases_spinlock runner target) state.old state.new marks.old marks.new }
{
    let service = ServiceId::ReleaseSpinlock;
    let Some(lock) = target else {
        return refuse(state, runner, service, Status::EOsId, marks);
    };
    let status = status_of_releasing(state, runner, lock);
    let awaits = Awaited::Release(lock);
    ask(state, OpenCall { runner, awaits }, service, status, marks);
}

/// If an operation of a running job of one of the core's tasks or ISRs is a service of spinlocks, it is done, and the
/// answer is yes. Else nothing changes.
pub fn operate<const P: usize, const J: usize, const OUT: usize>(
    state: &mut CoreState<'_, P, J, OUT>,
    step: Step,
    marks: &mut Vec<Mark>,
) -> bool
    requires { MayAct service_entries service_marks state.old step.runner marks.old }
    ensures { Offered (spin_acts step.runner step.op) result state.old state.new marks.old marks.new }
{
    let runner = step.runner;
    match step.op {
        Op::GetSpinlock(target) => {
            get_spinlock(state, runner, target, marks);
            true
        }
        Op::TryToGetSpinlock(target, _) => {
            try_spinlock(state, runner, target, marks);
            true
        }
        Op::ReleaseSpinlock(target) => {
            release_spinlock(state, runner, target, marks);
            true
        }
        _ => false,
    }
}
