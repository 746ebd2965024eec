//! How many ticks a runner's jobs have used of the lock budgets of resources.

ghost use Rattle.std.specs.Prelude.{◌≡◌, ◌<◌, ◌^◌, map, replicate, slice_index_or, slice_set, suc};
ghost use Rattle.std.specs.List.{All};
ghost use Rattle.osbase.specs.declared.limits.TheConstants.{RESOURCES};
ghost use Rattle.osbudget.specs.Budget.{is_reached};

use osbase::RESOURCES;
use std::marker::Model;

/// For each resource, by its index: the number of ticks at which a job of the runner ran since a job of the runner last
/// took it.
#[derive(Drop)]
pub struct LockUsed {
    // The number of all ticks, and for each resource that number when the resource was last taken. Both wrap, so a
    // tick costs one addition, however many resources there are.
    ticks: u64,
    taken: [u64; RESOURCES],
}

impl Model for LockUsed {
    ghost use Rattle.std.specs.Prelude.{ℕ, ◌<◌, ◌^◌, List, map};
    ghost use Rattle.osbudget.specs.Budget.{ticks_since};

    ghost Value = { List ℕ };

    ghost view = { λ u. map (ticks_since u.ticks) u.taken };

    ghost invariant = { λ u. u.ticks < 2 ^ 64 };
}

impl LockUsed {
    /// No tick is used of any lock budget.
    pub fn new() -> Self
        ensures { result ≡ replicate RESOURCES 0 }
    {
        LockUsed {
            ticks: 0,
            taken: [0; RESOURCES],
        }
    }

    /// The runner's job has used one tick more of each lock budget (the project's own). The ticks of a resource that
    /// the job does not hold are not read; they begin again when the resource is taken.
    pub fn charge(&mut self)
        requires { All (λ ticks. ticks < 2 ^ 63) self.old }
        ensures { self.new ≡ map suc self.old }
    {
        self.ticks = self.ticks.wrapping_add(1);
    }

    /// The runner's job has taken the resource of this index: the resource's ticks begin again (the project's own).
    pub fn restart(&mut self, index: u8)
        requires { index < RESOURCES }
        ensures { self.new ≡ slice_set self.old index 0 }
    {
        self.taken[usize::from(index)] = self.ticks;
    }

    /// Whether the ticks since the resource of this index was last taken have reached its lock budget, `lock`. A lock
    /// budget of 0 is none: no job reaches it.
    pub fn decide(&self, index: u8, lock: u32) -> bool
        ensures { result ≡ is_reached lock (slice_index_or self.now index 0) }
    {
        let used = match self.taken.get(usize::from(index)) {
            Some(taken) => self.ticks.wrapping_sub(*taken),
            None => 0,
        };
        0 < lock && u64::from(lock) <= used
    }
}

impl Default for LockUsed {
    fn default() -> Self
        ensures { result ≡ replicate RESOURCES 0 }
    {
        LockUsed::new()
    }
}
