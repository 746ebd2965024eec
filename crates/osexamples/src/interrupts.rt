//! Interrupts and execution budgets: what the core prints for its items, and that the default schedule gives these
//! items.

ghost use Rattle.osexamples.specs.Example.{HasRounds, Prints, TakesItems};
ghost use Rattle.osexamples.specs.Interrupts.{budget, ignored, suspended, unresumed};

/// A job that has used up its budget ends, and the core runs on. For its items, the core prints the marks that `budget`
/// lists.
pub fn budget_prints_its_block()
    ensures { Prints budget 0 }
{}

/// The default schedule of the example has 11 rounds. In these, the core takes the items that `budget` lists for it.
pub fn budget_takes_these_items_by_default()
    ensures rounds { HasRounds budget 11 }
    ensures items { TakesItems budget 11 }
{}

/// Although the configured answer is Ignore, the core goes down when a job has used up its budget. For its items, the
/// core prints the marks that `ignored` lists.
pub fn ignored_prints_its_block()
    ensures { Prints ignored 0 }
{}

/// The default schedule of the example has 10 rounds. In these, the core takes the items that `ignored` lists for it.
pub fn ignored_takes_these_items_by_default()
    ensures rounds { HasRounds ignored 10 }
    ensures items { TakesItems ignored 10 }
{}

/// A task suspends interrupts, and resumes them. For its items, the core prints the marks that `suspended` lists.
pub fn suspended_prints_its_block()
    ensures { Prints suspended 0 }
{}

/// The default schedule of the example has 13 rounds. In these, the core takes the items that `suspended` lists for it.
pub fn suspended_takes_these_items_by_default()
    ensures rounds { HasRounds suspended 13 }
    ensures items { TakesItems suspended 13 }
{}

/// An ISR ends with interrupts suspended. For its items, the core prints the marks that `unresumed` lists.
pub fn unresumed_prints_its_block()
    ensures { Prints unresumed 0 }
{}

/// The default schedule of the example has 8 rounds. In these, the core takes the items that `unresumed` lists for it.
pub fn unresumed_takes_these_items_by_default()
    ensures rounds { HasRounds unresumed 8 }
    ensures items { TakesItems unresumed 8 }
{}
