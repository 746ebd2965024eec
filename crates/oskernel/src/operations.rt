//! The operations of a running job.

ghost use Rattle.std.specs.Prelude.{◌≡◌, ◌+◌};
ghost use Rattle.osstate.specs.Does.{service_entries, service_marks};
ghost use Rattle.osplan.specs.Objects.{most_posts_per_tick};
ghost use Rattle.osservice.specs.Terms.{MayAct, MayOperate};
ghost use Rattle.oscript.specs.Calls.{call_of_op};
ghost use Rattle.oskernel.specs.Operations.{acts_alone, acts_on_shared, acts_while_suspended, is_ignored_now, operates, operates_by, refused_now, refused_of};
ghost use Rattle.osacts.specs.{Runs.seen_in, Steps.Steps};

use osbase::{Mark, ServiceId, Status};
use oscall::{call, shutdown, variables};
use oscript::call_of_op;
use osservice::{Step, refuse};
use osstate::CoreState;

/// Does one operation of the running job of one of the core's tasks or ISRs. While the job has suspended interrupts,
/// nearly all services have no effect: those that answer a status answer E_OS_DISABLEDINT, others are ignored (AUTOSAR
/// SWS OS 4.x, SWS_Os_00093).
pub(crate) fn operate<const P: usize, const J: usize, const OUT: usize>(
    state: &mut CoreState<'_, P, J, OUT>,
    step: Step,
    marks: &mut Vec<Mark>,
)
    requires { MayOperate (1 + most_posts_per_tick state.old.view.own) OUT state.old step.runner step.op marks.old }
    ensures { Steps service_entries service_marks (operates step.runner step.op) state.old state.new marks.old marks.new }
{
    if is_ignored_now(state, step) {
        return state.complete(step.runner, Status::EOk, None);
    }
    match refused_now(state, step) {
        Some(service) => refuse(state, step.runner, service, Status::EOsDisabledint, marks),
        None => do_operation(state, step, marks),
    }
}

// Whether the operation is ignored because its job has suspended interrupts.
fn is_ignored_now<const P: usize, const J: usize, const OUT: usize>(
    state: &CoreState<'_, P, J, OUT>,
    step: Step,
) -> bool
    ensures { result ≡ is_ignored_now (seen_in state.now) step.runner step.op }
{
    shutdown::is_ignored(step.op) && state.has_suspended_interrupts(step.runner)
}

// The service of the operation, if it is refused because its job has suspended interrupts.
fn refused_now<const P: usize, const J: usize, const OUT: usize>(
    state: &CoreState<'_, P, J, OUT>,
    step: Step,
) -> Option<ServiceId>
    ensures { result ≡ refused_now (seen_in state.now) step.runner step.op }
{
    if state.has_suspended_interrupts(step.runner) {
        refused_of(step.op.service())
    } else {
        None
    }
}

// The service, if it is refused while interrupts are suspended: each but those of spinlocks.
fn refused_of(service: Option<ServiceId>) -> Option<ServiceId>
    ensures { result ≡ refused_of service }
{
    match service {
        Some(service) if !acts_while_suspended(service) => Some(service),
        _ => None,
    }
}

// Whether the service takes effect even while its caller has suspended interrupts: those of spinlocks do.
fn acts_while_suspended(service: ServiceId) -> bool
    ensures { result ≡ acts_while_suspended service }
{
    matches!(
        service,
        ServiceId::GetSpinlock | ServiceId::TryToGetSpinlock | ServiceId::ReleaseSpinlock
    )
}

// If the operation is a call, makes it, whichever core has the object. Else the family of the operation does it.
#[inline(always)]
fn do_operation<const P: usize, const J: usize, const OUT: usize>(
    state: &mut CoreState<'_, P, J, OUT>,
    step: Step,
    marks: &mut Vec<Mark>,
)
    requires { MayOperate (1 + most_posts_per_tick state.old.view.own) OUT state.old step.runner step.op marks.old }
    ensures { Steps service_entries service_marks (operates_by step.runner step.op (call_of_op step.op)) state.old state.new marks.old marks.new }
{
    match call_of_op(step.op) {
        Some((service, target)) => call(state, step.runner, service, target, marks),
        None => act_alone(state, step, marks),
    }
}

// Does an operation that is no call (`call_of_op`), by its family. Tries the families in turn, those first that scripts
// use most.
fn act_alone<const P: usize, const J: usize, const OUT: usize>(
    state: &mut CoreState<'_, P, J, OUT>,
    step: Step,
    marks: &mut Vec<Mark>,
)
    requires { MayOperate (1 + most_posts_per_tick state.old.view.own) OUT state.old step.runner step.op marks.old }
    ensures { Steps service_entries service_marks (acts_alone step.runner step.op) state.old state.new marks.old marks.new }
{
    if variables::operate(state, step, marks) {
        return;
    }
    if osservice_tasks::operate(state, step, marks) {
        return;
    }
    if oschain::operate(state, step, marks) {
        return;
    }
    if osservice_alarms::operate(state, step, marks) {
        return;
    }
    if osexpiry::operate(state, step, marks) {
        return;
    }
    if osservice_tables::operate(state, step, marks) {
        return;
    }
    act_on_shared(state, step, marks);
}

// Does an operation on spinlocks or on the cores themselves.
fn act_on_shared<const P: usize, const J: usize, const OUT: usize>(
    state: &mut CoreState<'_, P, J, OUT>,
    step: Step,
    marks: &mut Vec<Mark>,
)
    requires { MayAct service_entries service_marks state.old step.runner marks.old }
    ensures { Steps service_entries service_marks (acts_on_shared step.runner step.op) state.old state.new marks.old marks.new }
{
    if osservice_spins::operate(state, step, marks) {
        return;
    }
    shutdown::operate(state, step, marks);
}
