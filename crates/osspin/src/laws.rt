//! What holds of every history of the spinlocks.

ghost use Rattle.std.specs.Prelude.{◌≡◌, ◌<◌, List, false};
ghost use Rattle.osshared.specs.Histories.{IsLegal, calls_by, state_after};
ghost use Rattle.osbase.specs.{declared.references.CoreId.CoreId, declared.references.SpinlockId.SpinlockId, declared.limits.TheConstants.SPINLOCKS};
ghost use Rattle.osspin.specs.Holding.{holds_by};
ghost use Rattle.osspin.specs.Spins.{SpinEntry, calls_on, holder_of, is_held_by, no_holders, one_lock, spinlocks};

/// If the calls of all spinlocks are a legal history, the calls of each spinlock are a legal history of one lock.
pub fn each_spinlock_has_its_own_history()
    ensures { (log : List SpinEntry) → IsLegal spinlocks tt log → (lock : SpinlockId) → lock.index < SPINLOCKS → IsLegal one_lock tt (calls_on lock log) }
{}

/// A core's own calls alone tell whether the core holds a spinlock, whatever the other cores call: it holds the
/// spinlock from the call that took it until the call that freed it.
pub fn a_core_holds_what_it_took_and_did_not_free()
    ensures { (core : CoreId) (lock : SpinlockId) → lock.index < SPINLOCKS → (log : List SpinEntry) → IsLegal spinlocks tt log
        → is_held_by core (holder_of (state_after spinlocks no_holders log) lock) ≡ holds_by lock (calls_by core log) false }
{}
