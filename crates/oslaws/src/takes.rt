//! Which item a core may take.

ghost use Rattle.std.specs.Prelude.{ℕ};
ghost use Rattle.osbase.specs.{History.History, declared.items.Item.Item};
ghost use Rattle.osplan.specs.View.{View};
ghost use Rattle.oslaws.specs.Takes.{TakesByTheLines};

/// A core may take an item exactly if it took fewer than 2^48 items, and the item's line in a table of sixteen lines,
/// `admits_by`, says so of the core's history (AUTOSAR SWS OS 4.x, SWS_Os_00579 and SWS_Os_00580, for the two gates of
/// the start; that a core takes items is the project's own).
pub fn items_are_taken_by_the_lines()
    ensures { (places : ℕ) (v : View) (h : History) (item : Item) → TakesByTheLines places v h item }
{}
