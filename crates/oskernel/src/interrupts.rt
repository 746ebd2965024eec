//! Interrupts.

ghost use Rattle.std.specs.Prelude.{IsTrue};
ghost use Rattle.osjobs.specs.Priorities.{is_own_runner};
ghost use Rattle.osstate.specs.Does.{HasRoom};
ghost use Rattle.osbase.specs.declared.references.Runner.{Runner as RunnerValue};
ghost use Rattle.oskernel.specs.Step.{raises};
ghost use Rattle.osacts.specs.Steps.{Steps};

use osbase::{IsrRef, Mark};
use osstate::CoreState;

/// Takes an interrupt: a job of the ISR becomes pending. If one is pending already, the interrupt is lost (AUTOSAR SWS
/// OS 4.x, section 7.6).
pub(crate) fn raise<const P: usize, const J: usize, const OUT: usize>(
    state: &mut CoreState<'_, P, J, OUT>,
    isr: IsrRef,
    marks: &mut Vec<Mark>,
)
    requires own { IsTrue (is_own_runner state.old.view.own (RunnerValue.Isr isr)) }
    requires room { HasRoom 1 1 state.old marks.old }
    ensures { Steps 1 1 (raises isr) state.old state.new marks.old marks.new }
{
    if state.is_pending(isr) {
        state.print(Mark::InterruptLost(isr), marks);
    } else {
        state.accept(isr, marks);
    }
}
