//! What is kept of a core's tasks for its live jobs.

ghost use Rattle.std.specs.Prelude.{◌≡◌, ◌≤◌, length, map};
ghost use Rattle.osplan.specs.declared.plans.Task.{Task as TaskValue};
ghost use Rattle.osjobs.specs.OwnTasks.{is_own_task, own_tasks, priority_in, priority_of};

use arrayvec::ArrayVec;
use osbase::{CoreId, Runner, TASKS, TaskRef};
use osplan::Core;
use std::marker::Model;

/// A core's number, and the priority of each of its tasks as it is configured.
#[derive(Drop)]
pub(crate) struct OwnTasks {
    core: CoreId,
    priorities: ArrayVec<u8, TASKS>,
}

impl Model for OwnTasks {
    ghost use Rattle.osjobs.specs.OwnTasks.{OwnTasks};

    ghost Value = { OwnTasks };

    ghost view = { λ s. record { core = s.core; priorities = s.priorities.items } };
}

impl OwnTasks {
    pub(crate) fn new(core: &Core) -> Self
        requires { length core.now.tasks ≤ TASKS }
        ensures { result ≡ own_tasks core.now }
    {
        OwnTasks {
            core: core.id,
            priorities: priorities_of(core),
        }
    }

    /// Whether the runner is one of the core's tasks.
    pub(crate) fn has(&self, runner: Runner) -> bool
        ensures { result ≡ is_own_task self.now runner }
    {
        match runner {
            Runner::Task(task) => self.priority_in(task).is_some(),
            Runner::Isr(_) => false,
        }
    }

    /// The static priority of one of the core's tasks; 0 for any other runner (OSEK/VDX OS 2.2.3, section 4.5).
    pub(crate) fn priority(&self, runner: Runner) -> u8
        ensures { result ≡ priority_of self.now runner }
    {
        match runner {
            Runner::Task(task) => self.priority_in(task).unwrap_or(0),
            Runner::Isr(_) => 0,
        }
    }

    // The static priority of a task, if it is one of the core's.
    fn priority_in(&self, task: TaskRef) -> Option<u8>
        ensures { result ≡ priority_in self.now task }
    {
        if task.core != self.core {
            return None;
        }
        self.priorities
            .as_slice()
            .get(usize::from(task.index))
            .copied()
    }
}

// The static priority of each of the core's tasks, in index order.
fn priorities_of(core: &Core) -> ArrayVec<u8, TASKS>
    requires { length core.now.tasks ≤ TASKS }
    ensures { result.items ≡ map (λ (t : TaskValue). t.priority) core.now.tasks }
{
    let mut priorities = ArrayVec::new();
    for task in core.tasks.as_slice() {
        priorities.push(task.priority);
    }
    priorities
}
