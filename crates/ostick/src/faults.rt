//! The time fault: a job that has used up its execution budget, or the lock budget of a resource that it holds.

ghost use Rattle.std.specs.Prelude.{◌≡◌, IsTrue};
ghost use Rattle.osjobs.specs.Priorities.{is_own_runner};
ghost use Rattle.osstate.specs.Does.{HasRoom};
ghost use Rattle.osacts.specs.{Acts.look, Runs.seen_in, Steps.PostsNone};
ghost use Rattle.osservice.specs.Terms.{MayAct};
ghost use Rattle.ostick.specs.Faults.{answers_fault, ends_by_force, faults_with, fault_of, protects};

use osbase::{Mark, Runner, Status};
use oscall::shutdown::go_down;
use osplan::Protection;
use osstate::CoreState;

/// If the running job has used up a budget, ProtectionHook is called once. Then the job ends, or the core goes down
/// (AUTOSAR SWS OS 4.x, section 8.6.1 and ProtectionReturnType). No letter joins the outbox.
pub(crate) fn protect<const P: usize, const J: usize, const OUT: usize>(
    state: &mut CoreState<'_, P, J, OUT>,
    marks: &mut Vec<Mark>,
)
    requires { HasRoom 3 2 state.old marks.old }
    ensures { PostsNone 3 2 (look (λ s. protects s s.running)) state.old state.new marks.old marks.new }
{
    if let Some(job) = state.running_job() {
        protect_from(state, job.runner, marks);
    }
}

// If the oldest job of this task or ISR has used up a budget, calls ProtectionHook, and then the core answers.
fn protect_from<const P: usize, const J: usize, const OUT: usize>(
    state: &mut CoreState<'_, P, J, OUT>,
    runner: Runner,
    marks: &mut Vec<Mark>,
)
    requires { MayAct 3 2 state.old runner marks.old }
    ensures { PostsNone 3 2 (look (λ s. faults_with s.core.protection runner (fault_of s runner))) state.old state.new marks.old marks.new }
{
    if let Some(status) = fault_of(state, runner) {
        state.print(Mark::ProtectionHook(status), marks);
        answer(state, runner, status, marks);
    }
}

// The status for the budget that the oldest job of one of the core's tasks or ISRs has reached, if any: its execution
// budget, or else the lock budget of a resource that it holds.
fn fault_of<const P: usize, const J: usize, const OUT: usize>(
    state: &CoreState<'_, P, J, OUT>,
    runner: Runner,
) -> Option<Status>
    requires own { IsTrue (is_own_runner state.now.view.own runner) }
    ensures { result ≡ fault_of (seen_in state.now) runner }
{
    if state.is_spent(runner) {
        Some(Status::EOsProtectionTime)
    } else if state.is_overheld(runner) {
        Some(Status::EOsProtectionLocked)
    } else {
        None
    }
}

// The core's answer to a time fault: by TerminateTaskIsr the runner's job ends; by any other answer the core goes down.
fn answer<const P: usize, const J: usize, const OUT: usize>(
    state: &mut CoreState<'_, P, J, OUT>,
    runner: Runner,
    status: Status,
    marks: &mut Vec<Mark>,
)
    requires { MayAct 2 1 state.old runner marks.old }
    ensures { PostsNone 2 1 (look (λ s. answers_fault s.core.protection runner status)) state.old state.new marks.old marks.new }
{
    match state.protection() {
        Protection::TerminateTaskIsr => end_by_force(state, runner, marks),
        _ => go_down(state, status, marks),
    }
}

// The oldest job of one of the core's tasks or ISRs ends; PostTaskHook is not called.
fn end_by_force<const P: usize, const J: usize, const OUT: usize>(
    state: &mut CoreState<'_, P, J, OUT>,
    runner: Runner,
    marks: &mut Vec<Mark>,
)
    requires { MayAct 1 1 state.old runner marks.old }
    ensures { PostsNone 1 1 (ends_by_force runner) state.old state.new marks.old marks.new }
{
    match runner {
        Runner::Task(task) => state.terminate(task, marks),
        Runner::Isr(isr) => state.leave_isr(isr, marks),
    }
}
