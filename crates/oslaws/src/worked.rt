//! What the laws' definitions say of worked histories, by computation.

ghost use Rattle.std.specs.Prelude.{◌≡◌, true, false, Some, None, [], ◌∷◌, map};
ghost use Rattle.oslaws.specs.{Depth.resumes, Depth.suspends, Depth.were_balanced, Entered.unleft, Held.unreleased, Holders.holder_by, Jobs.how_many, Jobs.since_end, Spinlocks.is_granted, Spinlocks.unfreed, Taken.is_taken, Takes.admits_by, Waits.last_wait};
ghost use Rattle.oslaws.specs.Worked.{a, awaiting, b, entering, first_items, granting, isr, later_items, lock, resource, sharing, suspending, taking, task, view, waiting};

/// A job holds the resources that it took and did not release, and not those that the task's job before it took.
pub fn taken_resources_are_computed()
    ensures first { unreleased a [] (since_end a taking) ≡ resource 0 ∷ resource 1 ∷ [] }
    ensures second { unreleased b [] (since_end b taking) ≡ resource 0 ∷ [] }
    ensures taken { is_taken a 0 taking ≡ true }
    ensures released { is_taken a 3 taking ≡ false }
    ensures earlier { is_taken a 2 taking ≡ false }
{}

/// A job has suspended interrupts twice and resumed them once, and at no time resumed them more often than suspended.
pub fn suspensions_are_computed()
    ensures suspended { how_many (suspends a) (since_end a suspending) ≡ 2 }
    ensures resumed { how_many (resumes a) (since_end a suspending) ≡ 1 }
    ensures between { were_balanced a (since_end a suspending) ≡ true }
{}

/// A task waits for the events that it named last, unless it was released since.
pub fn awaited_events_are_computed()
    ensures released { last_wait (task 0) awaiting ≡ None }
    ensures waiting { last_wait (task 1) awaiting ≡ Some 2 }
{}

/// The ISRs that were entered and have not left, the one that was entered last first.
pub fn entered_isrs_are_computed()
    ensures { unleft [] entering ≡ isr 2 ∷ isr 0 ∷ [] }
{}

/// A core has the spinlocks that it was granted and did not give back. A job has a spinlock that its call was granted
/// until the job ends.
pub fn granted_spinlocks_are_computed()
    ensures all { unfreed [] granting ≡ lock 2 ∷ lock 0 ∷ [] }
    ensures tried { is_granted (lock 3) granting ≡ false }
    ensures freed { is_granted (lock 1) granting ≡ false }
    ensures owed { holder_by (lock 0) sharing ≡ None }
    ensures kept { holder_by (lock 1) sharing ≡ Some b }
{}

/// Which items a core may take at first, and while it waits for a spinlock.
pub fn taken_items_are_computed()
    ensures first { map (admits_by 1 view []) first_items ≡ false ∷ true ∷ false ∷ false ∷ false ∷ [] }
    ensures later { map (admits_by 1 view waiting) later_items ≡ false ∷ true ∷ false ∷ false ∷ false ∷ true ∷ false ∷ false ∷ [] }
{}
