//! The spinlocks that a core got, as its state has them.

ghost use Rattle.std.specs.Prelude.{◌≡◌, IfSome, IsTrue, length, nat_lt};
ghost use Rattle.osbase.specs.Spins.{has_spinlock, is_owing, newest_of, newest_owed};
ghost use Rattle.osplan.specs.Spinlocks.{comes_after};
ghost use Rattle.osgot.specs.Grants.{is_held_by};
ghost use Rattle.osprogress.specs.Border.{is_lock_known};

use super::CoreState;
use osbase::{Runner, SpinlockId};
use osplan::order_ok;

impl<'a, const P: usize, const J: usize, const OUT: usize> CoreState<'a, P, J, OUT> {
    /// Whether a spinlock of this index is configured.
    pub fn knows_spinlock(&self, lock: SpinlockId) -> bool
        ensures value { result ≡ nat_lt lock.index (length self.now.view.around.links) }
        ensures lock { IsTrue result → IsTrue (is_lock_known lock) }
    {
        usize::from(lock.index) < self.config.plan().spinlocks.len()
    }

    /// Whether `lock` comes after `newest` in the configured order, so that a job whose newest spinlock is `newest` may
    /// ask for `lock` (AUTOSAR SWS OS 4.x, SWS_Os_00661).
    pub fn comes_after(&self, newest: SpinlockId, lock: SpinlockId) -> bool
        ensures { result ≡ comes_after self.now.view.around.links (length self.now.view.around.links) newest lock }
    {
        order_ok(self.config, newest, lock)
    }

    /// Whether the core got the spinlock and did not give it back (AUTOSAR SWS OS 4.x, GetSpinlock).
    pub fn has_spinlock(&self, lock: SpinlockId) -> bool
        ensures { result ≡ has_spinlock lock self.now.border.spins }
    {
        self.border.spins.has(lock)
    }

    /// Whether the job of one of the core's tasks or ISRs has the spinlock (AUTOSAR SWS OS 4.x, ReleaseSpinlock).
    pub fn holds_spinlock(&self, runner: Runner, lock: SpinlockId) -> bool
        ensures { result ≡ is_held_by runner lock self.now.border.spins }
    {
        self.border.spins.is_held(runner, lock)
    }

    /// The newest spinlock that the job of one of the core's tasks or ISRs has, if any (AUTOSAR SWS OS 4.x,
    /// ReleaseSpinlock).
    pub fn newest_spinlock(&self, runner: Runner) -> Option<SpinlockId>
        ensures { result ≡ newest_of runner self.now.border.spins }
    {
        self.border.spins.newest_of(runner)
    }

    /// The newest of the spinlocks whose release is owed, which is given back next; none if no release is owed.
    pub fn owed_spinlock(&self) -> Option<SpinlockId>
        ensures value { result ≡ newest_owed self.now.border.spins }
        ensures lock { IfSome result (λ lock. IsTrue (is_lock_known lock)) }
    {
        self.border.spins.newest_owed()
    }

    /// Whether the release of any spinlock is owed.
    pub fn is_owing(&self) -> bool
        ensures { result ≡ is_owing self.now.border.spins }
    {
        self.border.spins.is_owing()
    }
}
