//! Spinlocks: what each core prints for its own items, and that the default schedule gives these items.

ghost use Rattle.osexamples.specs.Example.{HasRounds, Prints, Stalls, TakesItems};
ghost use Rattle.osexamples.specs.Spinlocks.{nested, owed};

/// A job requests a spinlock again, requests another one out of order, and tries to end while it holds one. For its
/// items, each core prints the marks that `nested` lists.
pub fn nested_prints_each_block()
    ensures first { Prints nested 0 }
    ensures second { Prints nested 1 }
{}

/// The default schedule of the example has 11 rounds. In these, each core takes the items that `nested` lists for it.
/// Then the run stalls: core 1 waits for its spinlock for ever.
pub fn nested_takes_these_items_by_default()
    ensures rounds { HasRounds nested 11 }
    ensures items { TakesItems nested 11 }
    ensures stalls { Stalls nested 11 }
{}

/// A job reaches the end of its script while it holds a spinlock. For its items, each core prints the marks that `owed`
/// lists.
pub fn owed_prints_each_block()
    ensures first { Prints owed 0 }
    ensures second { Prints owed 1 }
{}

/// The default schedule of the example has 15 rounds. In these, each core takes the items that `owed` lists for it.
pub fn owed_takes_these_items_by_default()
    ensures rounds { HasRounds owed 15 }
    ensures items { TakesItems owed 15 }
{}
