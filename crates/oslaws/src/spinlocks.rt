//! Which spinlocks a core has.

ghost use Rattle.std.specs.Prelude.{◌≡◌, Some, List};
ghost use Rattle.osbase.specs.{History.History, declared.items.Item.Item};
ghost use Rattle.osplan.specs.View.{View};
ghost use Rattle.oskernel.specs.Step.{solo};
ghost use Rattle.oslaws.specs.{Holders.HaveTheirHolders, Spinlocks.HasWhatWasGranted};

/// If a core may take each of its items in turn, it has the spinlocks that an item granted it and no later item freed,
/// the newest first (AUTOSAR SWS OS 4.x, GetSpinlock, TryToGetSpinlock and ReleaseSpinlock).
pub fn cores_have_what_was_granted()
    ensures { (v : View) (items : List Item) (h : History) → solo v items ≡ Some h → HasWhatWasGranted h }
{}

/// A spinlock belongs to the job whose call was open when it was granted, until that job ends, or the core goes down or
/// is halted. Then the spinlock's release is owed (AUTOSAR SWS OS 4.x, GetSpinlock, TryToGetSpinlock and
/// ReleaseSpinlock; that a release is owed is the project's own).
pub fn spinlocks_stay_with_their_jobs()
    ensures { (v : View) (items : List Item) (h : History) → solo v items ≡ Some h → HaveTheirHolders h }
{}
