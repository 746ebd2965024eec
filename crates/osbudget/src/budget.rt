//! How many ticks a job has used of its budget.

ghost use Rattle.std.specs.Prelude.{◌≡◌, ◌<◌, ◌^◌, suc};
ghost use Rattle.osbudget.specs.Budget.{is_reached};

use std::marker::Model;

/// How many ticks a job has used: those at which it was the running job, since it began or last waited.
#[derive(Drop)]
pub struct Used {
    ticks: u64,
}

impl Model for Used {
    ghost use Rattle.std.specs.Prelude.{ℕ};

    ghost Value = { ℕ };

    ghost view = { λ u. u.ticks };
}

impl Used {
    /// No tick is used.
    pub fn new() -> Self
        ensures { result ≡ 0 }
    {
        Used { ticks: 0 }
    }

    /// The job has used one tick more (AUTOSAR SWS OS 4.x, SWS_Os_00028).
    pub fn charge(&mut self)
        requires { self.old < 2 ^ 63 }
        ensures { self.new ≡ suc self.old }
    {
        self.ticks += 1;
    }

    /// The job has ended or waits: its next tick is the first again (AUTOSAR SWS OS 4.x, SWS_Os_00473 for a task,
    /// SWS_Os_00474 for an ISR, which ends and never waits).
    pub fn reset(&mut self)
        ensures { self.new ≡ 0 }
    {
        self.ticks = 0;
    }

    /// Whether the job has reached this budget in ticks. A budget of 0 is none: no job reaches it (AUTOSAR SWS OS 4.x,
    /// SWS_Os_00064 and SWS_Os_00210).
    pub fn decide(&self, budget: u32) -> bool
        ensures { result ≡ is_reached budget self.now }
    {
        let used = self.ticks;
        0 < budget && u64::from(budget) <= used
    }
}

impl Default for Used {
    fn default() -> Self
        ensures { result ≡ 0 }
    {
        Used::new()
    }
}
