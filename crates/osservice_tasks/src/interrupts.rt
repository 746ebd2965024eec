//! Suspended interrupts.

ghost use Rattle.std.specs.Prelude.{◌≤◌, ◌+◌, ◌^◌, IsTrue};
ghost use Rattle.osjobs.specs.Priorities.{is_own_runner};
ghost use Rattle.osstate.specs.Does.{HasRoom};
ghost use Rattle.osservice_tasks.specs.Interrupts.{reports_suspended, resumes_interrupts, suspends_interrupts};
ghost use Rattle.osacts.specs.Steps.{QuietSteps, Steps};

use osbase::{Mark, Runner, Status};
use osstate::CoreState;

/// A running job of one of the core's tasks or ISRs suspends interrupts once more (OSEK/VDX OS 2.2.3, section
/// 13.3.2.4).
pub(crate) fn suspend_interrupts<const P: usize, const J: usize, const OUT: usize>(
    state: &mut CoreState<'_, P, J, OUT>,
    runner: Runner,
)
    requires own { IsTrue (is_own_runner state.old.view.own runner) }
    requires count { state.old.progress.entries + 2 ≤ 2 ^ 63 }
    ensures { QuietSteps 2 (suspends_interrupts runner) state.old state.new }
{
    state.suspend_interrupts(runner);
    state.complete(runner, Status::EOk, None);
}

/// A running job of one of the core's tasks or ISRs resumes interrupts once (OSEK/VDX OS 2.2.3, section 13.3.2.3).
pub(crate) fn resume_interrupts<const P: usize, const J: usize, const OUT: usize>(
    state: &mut CoreState<'_, P, J, OUT>,
    runner: Runner,
)
    requires own { IsTrue (is_own_runner state.old.view.own runner) }
    requires count { state.old.progress.entries + 2 ≤ 2 ^ 63 }
    ensures { QuietSteps 2 (resumes_interrupts runner) state.old state.new }
{
    state.resume_interrupts(runner);
    state.complete(runner, Status::EOk, None);
}

/// If an ISR that reaches the end of its script still has interrupts suspended, ErrorHook is called with
/// E_OS_DISABLEDINT (AUTOSAR SWS OS 4.x, SWS_Os_00368).
pub(crate) fn report_suspended<const P: usize, const J: usize, const OUT: usize>(
    state: &mut CoreState<'_, P, J, OUT>,
    runner: Runner,
    marks: &mut Vec<Mark>,
)
    requires { HasRoom 1 1 state.old marks.old }
    ensures { Steps 1 1 (reports_suspended runner) state.old state.new marks.old marks.new }
{
    if state.has_suspended_interrupts(runner) {
        state.print(Mark::ErrorHook(Status::EOsDisabledint), marks);
    }
}
