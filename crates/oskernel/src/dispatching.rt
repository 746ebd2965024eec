//! Dispatch.

ghost use Rattle.std.specs.Prelude.{◌≡◌, IfSome, IsTrue, false};
ghost use Rattle.std.specs.Option.{option_map_or};
ghost use Rattle.osbase.specs.History.{same_job};
ghost use Rattle.osjobs.specs.Priorities.{is_own_runner};
ghost use Rattle.osstate.specs.{Does.HasRoom, Queries.running_in};
ghost use Rattle.osservice.specs.Terms.{MayAct};
ghost use Rattle.osacts.specs.Steps.{Steps};
ghost use Rattle.oskernel.specs.Step.{dispatches, enters, goes_to, leaves};

use osawait::may_dispatch;
use osbase::{Job, Mark, Runner, TaskRef};
use osstate::CoreState;

/// Dispatches if the core schedules, is neither down nor halted, has no open call, and owes no spinlock release.
pub(crate) fn dispatch<const P: usize, const J: usize, const OUT: usize>(
    state: &mut CoreState<'_, P, J, OUT>,
    marks: &mut Vec<Mark>,
)
    requires { HasRoom 2 2 state.old marks.old }
    ensures { Steps 2 2 (dispatches state.old) state.old state.new marks.old marks.new }
{
    if may_dispatch(state) {
        let running = state.running_job();
        let best = state.best_job(running);
        go_to(state, running, best, marks);
    }
}

// Switches to the best job, if there is one and it does not run already (OSEK/VDX OS 2.2.3, section 4.4 and 4.6).
fn go_to<const P: usize, const J: usize, const OUT: usize>(
    state: &mut CoreState<'_, P, J, OUT>,
    running: Option<Job>,
    best: Option<Job>,
    marks: &mut Vec<Mark>,
)
    requires running { running ≡ running_in state.old }
    requires own { IfSome best (λ job. IsTrue (is_own_runner state.old.view.own job.runner)) }
    requires room { HasRoom 2 2 state.old marks.old }
    ensures { Steps 2 2 (goes_to state.old best) state.old state.new marks.old marks.new }
{
    if let Some(job) = best {
        if !is_running(running, job) {
            enter(state, job.runner, marks);
        }
    }
}

fn is_running(running: Option<Job>, job: Job) -> bool
    ensures { result ≡ option_map_or (same_job job) running false }
{
    match running {
        Some(running) => job.stamp == running.stamp,
        None => false,
    }
}

// If the runner is a task, calls PostTaskHook of the current task, if there is one, and the runner's PreTaskHook
// (OSEK/VDX OS 2.2.3, section 11.5); else enters the ISR.
fn enter<const P: usize, const J: usize, const OUT: usize>(
    state: &mut CoreState<'_, P, J, OUT>,
    runner: Runner,
    marks: &mut Vec<Mark>,
)
    requires { MayAct 2 2 state.old runner marks.old }
    ensures { Steps 2 2 (enters state.old.tasks.current runner) state.old state.new marks.old marks.new }
{
    match runner {
        Runner::Task(task) => enter_task(state, task, marks),
        Runner::Isr(isr) => state.enter_isr(isr, marks),
    }
}

// Calls PostTaskHook of the current task, if there is one, and then PreTaskHook of this task.
fn enter_task<const P: usize, const J: usize, const OUT: usize>(
    state: &mut CoreState<'_, P, J, OUT>,
    task: TaskRef,
    marks: &mut Vec<Mark>,
)
    requires { HasRoom 2 2 state.old marks.old }
    ensures { Steps 2 2 (enters state.old.tasks.current (Runner.Task task)) state.old state.new marks.old marks.new }
{
    leave_current(state, marks);
    state.enter(task, marks);
}

// Calls PostTaskHook of the current task, if there is one.
fn leave_current<const P: usize, const J: usize, const OUT: usize>(
    state: &mut CoreState<'_, P, J, OUT>,
    marks: &mut Vec<Mark>,
)
    requires { HasRoom 1 1 state.old marks.old }
    ensures { Steps 1 1 (leaves state.old.tasks.current) state.old state.new marks.old marks.new }
{
    if let Some(current) = state.current() {
        state.leave(current, marks);
    }
}
