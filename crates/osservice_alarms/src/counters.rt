//! The services of counters.

ghost use Rattle.std.specs.Prelude.{◌≡◌, IsTrue};
ghost use Rattle.osbase.specs.Objects.{counter_object};
ghost use Rattle.osplan.specs.Objects.{is_own_object};
ghost use Rattle.osstate.specs.Does.{service_entries, service_marks};
ghost use Rattle.osservice.specs.{Terms.MayAct, Terms.Offered, Service.answer_of};
ghost use Rattle.osservice_alarms.specs.Counters.{counter_acts, gets_value, value_inquiry};
ghost use Rattle.osacts.specs.{Runs.seen_in, Steps.Steps};

use osbase::{CounterRef, Mark, Runner, ServiceId, Status};
use oscript::Op;
use osservice::{ServiceResult, Step, finish, own_of, without_value};
use osstate::CoreState;

// What GetCounterValue answers for one of the core's counters.
fn read_value<const P: usize, const J: usize, const OUT: usize>(
    state: &CoreState<'_, P, J, OUT>,
    counter: CounterRef,
) -> ServiceResult
    requires own { IsTrue (is_own_object state.now.view.own (counter_object counter)) }
    ensures { result ≡ answer_of (value_inquiry counter (seen_in state.now)) }
{
    let value = state.counter_value(counter);
    ServiceResult {
        status: Status::EOk,
        value: Some(i64::from(value)),
    }
}

// A running job asks for the value of a counter (AUTOSAR SWS OS 4.x, SWS_Os_00377). The service returns E_OS_ID for the
// invalid identifier and for a counter of another core.
fn get_counter_value<const P: usize, const J: usize, const OUT: usize>(
    state: &mut CoreState<'_, P, J, OUT>,
    runner: Runner,
    target: Option<CounterRef>,
    marks: &mut Vec<Mark>,
)
    requires { MayAct service_entries service_marks state.old runner marks.old }
    ensures { Steps service_entries service_marks (gets_value runner target) state.old state.new marks.old marks.new }
{
    let answer = match own_of(state, target) {
        Some(counter) => read_value(state, counter),
        None => without_value(Status::EOsId),
    };
    finish(state, runner, ServiceId::GetCounterValue, answer, marks);
}

/// If an operation of a running job of one of the core's tasks or ISRs is GetCounterValue, it is done, and the answer
/// is yes. Else nothing changes.
pub fn operate<const P: usize, const J: usize, const OUT: usize>(
    state: &mut CoreState<'_, P, J, OUT>,
    step: Step,
    marks: &mut Vec<Mark>,
) -> bool
    requires { MayAct service_entries service_marks state.old step.runner marks.old }
    ensures { Offered (counter_acts step.runner step.op) result state.old state.new marks.old marks.new }
{
    let runner = step.runner;
    match step.op {
        Op::GetCounterValue(target, _) => {
            get_counter_value(state, runner, target, marks);
            true
        }
        _ => false,
    }
}
