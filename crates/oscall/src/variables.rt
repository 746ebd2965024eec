//! The operations of a script that are no services: those that work on its variables, jumps, and work.

ghost use Rattle.std.specs.Prelude.{◌≡◌};
ghost use Rattle.osstate.specs.Does.{service_entries, service_marks};
ghost use Rattle.osservice.specs.Terms.{MayAct, Offered};
ghost use Rattle.oscall.specs.Variables.{adds, adds_variable, script_acts, sets, stores_status, sum_of};
ghost use Rattle.osacts.specs.Steps.{Steps};

use osbase::{Mark, Runner, Status, Variable};
use oscript::Op;
use osservice::Step;
use osstate::CoreState;

/// A variable of the running job of one of the core's tasks or ISRs becomes this number, which is printed.
pub(crate) fn set<const P: usize, const J: usize, const OUT: usize>(
    state: &mut CoreState<'_, P, J, OUT>,
    runner: Runner,
    variable: Variable,
    value: i64,
    marks: &mut Vec<Mark>,
)
    requires { MayAct service_entries service_marks state.old runner marks.old }
    ensures { Steps service_entries service_marks (sets runner variable value) state.old state.new marks.old marks.new }
{
    let mark = Mark::VariableSet {
        runner,
        variable,
        value,
    };
    state.print(mark, marks);
    state.complete(runner, Status::EOk, Some(value));
}

// The sum of two numbers, clamped to the range of `i64`.
fn sum(number: i64, other: i64) -> i64
    ensures { result ≡ sum_of number other }
{
    number.saturating_add(other)
}

// The variable becomes its sum with this number, clamped to the range of `i64`.
fn add<const P: usize, const J: usize, const OUT: usize>(
    state: &mut CoreState<'_, P, J, OUT>,
    runner: Runner,
    variable: Variable,
    number: i64,
    marks: &mut Vec<Mark>,
)
    requires { MayAct service_entries service_marks state.old runner marks.old }
    ensures { Steps service_entries service_marks (adds runner variable number) state.old state.new marks.old marks.new }
{
    let frame = state.frame(runner);
    let value = sum(frame.value(variable), number);
    set(state, runner, variable, value, marks);
}

// The first variable becomes the sum of both, clamped to the range of `i64`.
fn add_variable<const P: usize, const J: usize, const OUT: usize>(
    state: &mut CoreState<'_, P, J, OUT>,
    runner: Runner,
    variable: Variable,
    other: Variable,
    marks: &mut Vec<Mark>,
)
    requires { MayAct service_entries service_marks state.old runner marks.old }
    ensures { Steps service_entries service_marks (adds_variable runner variable other) state.old state.new marks.old marks.new }
{
    let frame = state.frame(runner);
    let value = sum(frame.value(variable), frame.value(other));
    set(state, runner, variable, value, marks);
}

// The variable becomes the number of the job's last status, which is 0 before any service.
fn store_status<const P: usize, const J: usize, const OUT: usize>(
    state: &mut CoreState<'_, P, J, OUT>,
    runner: Runner,
    variable: Variable,
    marks: &mut Vec<Mark>,
)
    requires { MayAct service_entries service_marks state.old runner marks.old }
    ensures { Steps service_entries service_marks (stores_status runner variable) state.old state.new marks.old marks.new }
{
    let frame = state.frame(runner);
    let number = i64::from(frame.status.number());
    set(state, runner, variable, number, marks);
}

/// If an operation of a running job of one of the core's tasks or ISRs is `work`, a jump, or one on the job's variables
/// alone, it is done, and the answer is yes. Else nothing changes.
pub fn operate<const P: usize, const J: usize, const OUT: usize>(
    state: &mut CoreState<'_, P, J, OUT>,
    step: Step,
    marks: &mut Vec<Mark>,
) -> bool
    requires { MayAct service_entries service_marks state.old step.runner marks.old }
    ensures { Offered (script_acts step.runner step.op) result state.old state.new marks.old marks.new }
{
    let runner = step.runner;
    match step.op {
        Op::Work => {
            state.complete(runner, Status::EOk, None);
            true
        }
        Op::Jump(_) => {
            state.complete(runner, Status::EOk, None);
            true
        }
        Op::JumpIfZero(_, _) => {
            state.complete(runner, Status::EOk, None);
            true
        }
        Op::Set(variable, number) => {
            set(state, runner, variable, number, marks);
            true
        }
        Op::Add(variable, number) => {
            add(state, runner, variable, number, marks);
            true
        }
        Op::AddVariable(variable, other) => {
            add_variable(state, runner, variable, other, marks);
            true
        }
        Op::StoreStatus(variable) => {
            store_status(state, runner, variable, marks);
            true
        }
        _ => false,
    }
}
