//! IncrementCounter, the service that increments a software counter.

ghost use Rattle.std.specs.Prelude.{◌≡◌, Some, IsTrue};
ghost use Rattle.osplan.specs.{Clocked.are_clocks_within, Objects.most_posts_per_tick};
ghost use Rattle.osstate.specs.Does.{service_entries, service_marks};
ghost use Rattle.osservice.specs.Terms.{MayOperate, Offered};
ghost use Rattle.osexpiry.specs.Incrementing.{increment_acts, increments, is_hardware};
ghost use Rattle.osacts.specs.Steps.{Steps};

use crate::advancing::advance;
use osbase::{CounterRef, Mark, Runner, ServiceId, Status};
use oscript::Op;
use osservice::{Step, accept, refuse};
use osstate::CoreState;

// Whether this is a hardware counter of the core, which only ticks advance (AUTOSAR SWS OS 4.x, OsCounterType).
fn is_hardware<const P: usize, const J: usize, const OUT: usize>(
    state: &CoreState<'_, P, J, OUT>,
    counter: CounterRef,
) -> bool
    ensures value { result ≡ is_hardware state.now.view.own counter }
    ensures within { IsTrue (are_clocks_within state.now.view.own) }
{
    match state.counter(Some(counter)) {
        Some(own) => !own.software,
        None => false,
    }
}

// A running job increments a software counter of its core, and then what expires acts (AUTOSAR SWS OS 4.x,
// SWS_Os_00286). The invalid identifier and a hardware counter of the core are refused with E_OS_ID, a counter of
// another core with E_OS_CORE. A refused call increments no counter.
fn increment_counter<const P: usize, const J: usize, const OUT: usize>(
    state: &mut CoreState<'_, P, J, OUT>,
    runner: Runner,
    target: Option<CounterRef>,
    marks: &mut Vec<Mark>,
)
    requires { MayOperate (most_posts_per_tick state.old.view.own) OUT state.old runner (Op.IncrementCounter target) marks.old }
    ensures { Steps service_entries service_marks (increments runner target) state.old state.new marks.old marks.new }
{
    let service = ServiceId::IncrementCounter;
    match target {
        Some(counter) => increment(state, runner, counter, marks),
        None => refuse(state, runner, service, Status::EOsId, marks),
    }
}

// Increments the counter that a call of IncrementCounter names, or refuses the call.
fn increment<const P: usize, const J: usize, const OUT: usize>(
    state: &mut CoreState<'_, P, J, OUT>,
    runner: Runner,
    counter: CounterRef,
    marks: &mut Vec<Mark>,
)
    requires { MayOperate (most_posts_per_tick state.old.view.own) OUT state.old runner (Op.IncrementCounter (Some counter)) marks.old }
    ensures { Steps service_entries service_marks (increments runner (Some counter)) state.old state.new marks.old marks.new }
{
    let service = ServiceId::IncrementCounter;
    if is_hardware(state, counter) {
        refuse(state, runner, service, Status::EOsId, marks);
    } else if state.is_this_core(counter.core) {
        advance(state, counter, marks);
        accept(state, runner, service, marks);
    } else {
        refuse(state, runner, service, Status::EOsCore, marks);
    }
}

/// If the operation of the running job is IncrementCounter, does it and returns `true`. Else changes nothing and
/// returns `false`.
pub fn operate<const P: usize, const J: usize, const OUT: usize>(
    state: &mut CoreState<'_, P, J, OUT>,
    step: Step,
    marks: &mut Vec<Mark>,
) -> bool
    requires { MayOperate (most_posts_per_tick state.old.view.own) OUT state.old step.runner step.op marks.old }
    ensures { Offered (increment_acts step.runner step.op) result state.old state.new marks.old marks.new }
{
    let runner = step.runner;
    match step.op {
        Op::IncrementCounter(target) => {
            increment_counter(state, runner, target, marks);
            true
        }
        _ => false,
    }
}
