//! Tasks of one core: what the core prints for its items, and that the default schedule gives these items.

ghost use Rattle.osexamples.specs.Example.{HasRounds, Prints, TakesItems};
ghost use Rattle.osexamples.specs.Tasks.{chained, oldest, released, scheduling, variables};

/// The greatest priority comes first, and of equal jobs the oldest. For its items, the core prints the marks that
/// `oldest` lists.
pub fn oldest_prints_its_block()
    ensures { Prints oldest 0 }
{}

/// The default schedule of the example has 11 rounds. In these, the core takes the items that `oldest` lists for it.
pub fn oldest_takes_these_items_by_default()
    ensures rounds { HasRounds oldest 11 }
    ensures items { TakesItems oldest 11 }
{}

/// A task that cannot be preempted, and Schedule. For its items, the core prints the marks that `scheduling` lists.
pub fn scheduling_prints_its_block()
    ensures { Prints scheduling 0 }
{}

/// The default schedule of the example has 11 rounds. In these, the core takes the items that `scheduling` lists for
/// it.
pub fn scheduling_takes_these_items_by_default()
    ensures rounds { HasRounds scheduling 11 }
    ensures items { TakesItems scheduling 11 }
{}

/// A task that waits, is released, and runs on after a job of equal priority that was activated before the release. For
/// its items, the core prints the marks that `released` lists.
pub fn released_prints_its_block()
    ensures { Prints released 0 }
{}

/// The default schedule of the example has 10 rounds. In these, the core takes the items that `released` lists for it.
pub fn released_takes_these_items_by_default()
    ensures rounds { HasRounds released 10 }
    ensures items { TakesItems released 10 }
{}

/// A task that chains to itself. For its items, the core prints the marks that `chained` lists.
pub fn chained_prints_its_block()
    ensures { Prints chained 0 }
{}

/// The default schedule of the example has 6 rounds. In these, the core takes the items that `chained` lists for it.
pub fn chained_takes_these_items_by_default()
    ensures rounds { HasRounds chained 6 }
    ensures items { TakesItems chained 6 }
{}

/// A script with variables and jumps. For its items, the core prints the marks that `variables` lists.
pub fn variables_prints_its_block()
    ensures { Prints variables 0 }
{}

/// The default schedule of the example has 10 rounds. In these, the core takes the items that `variables` lists for it.
pub fn variables_takes_these_items_by_default()
    ensures rounds { HasRounds variables 10 }
    ensures items { TakesItems variables 10 }
{}
