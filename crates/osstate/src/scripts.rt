//! The scripts of a core's tasks and ISRs, and their budgets.

ghost use Rattle.std.specs.Prelude.{◌≡◌};
ghost use Rattle.osstate.specs.Readings.{budget_of, script_of};

use osbase::Runner;
use oscript::Op;
use osplan::Core;
use osplan::own::{isr_of, task_of};

/// The script of one of the core's tasks or ISRs; an empty one for any other runner.
pub(crate) fn script_of(core: &Core, runner: Runner) -> &[Op]
    ensures { result.now ≡ script_of core.now runner }
{
    match runner {
        Runner::Task(task) => match task_of(core, task) {
            Some(own) => own.script.as_slice(),
            None => &[],
        },
        Runner::Isr(isr) => match isr_of(core, isr) {
            Some(own) => own.script.as_slice(),
            None => &[],
        },
    }
}

/// How many ticks a job of a task or an ISR of the core may use; 0 means any number. A runner of another core has 0
/// (AUTOSAR SWS OS 4.x, OsTaskExecutionBudget and OsIsrExecutionBudget).
pub(crate) fn budget_of(core: &Core, runner: Runner) -> u32
    ensures { result ≡ budget_of core.now runner }
{
    match runner {
        Runner::Task(task) => match task_of(core, task) {
            Some(own) => own.budget,
            None => 0,
        },
        Runner::Isr(isr) => match isr_of(core, isr) {
            Some(own) => own.budget,
            None => 0,
        },
    }
}
