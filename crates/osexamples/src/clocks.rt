//! Counters, alarms and schedule tables: what the core prints for its items, and that the default schedule gives these
//! items.

ghost use Rattle.osexamples.specs.{Clocks.ending, Clocks.present, Clocks.wrap, Example.HasRounds, Example.Prints, Example.TakesItems};

/// An alarm is set to the value that its counter has. For its items, the core prints the marks that `present` lists.
pub fn present_prints_its_block()
    ensures { Prints present 0 }
{}

/// The default schedule of the example has 12 rounds. In these, the core takes the items that `present` lists for it.
pub fn present_takes_these_items_by_default()
    ensures rounds { HasRounds present 12 }
    ensures items { TakesItems present 12 }
{}

/// A cyclic alarm of a counter that goes past its greatest value. For its items, the core prints the marks that `wrap`
/// lists.
pub fn wrap_prints_its_block()
    ensures { Prints wrap 0 }
{}

/// The default schedule of the example has 15 rounds. In these, the core takes the items that `wrap` lists for it.
pub fn wrap_takes_these_items_by_default()
    ensures rounds { HasRounds wrap 15 }
    ensures items { TakesItems wrap 15 }
{}

/// A schedule table at the end of whose period another one begins. For its items, the core prints the marks that
/// `ending` lists.
pub fn ending_prints_its_block()
    ensures { Prints ending 0 }
{}

/// The default schedule of the example has 17 rounds. In these, the core takes the items that `ending` lists for it.
pub fn ending_takes_these_items_by_default()
    ensures rounds { HasRounds ending 17 }
    ensures items { TakesItems ending 17 }
{}
