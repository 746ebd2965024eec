//! Modes that conflict, and shutdowns: what each core prints for its own items, and that the default schedule gives
//! these items.

ghost use Rattle.osexamples.specs.{Example.HasRounds, Example.Prints, Example.TakesItems, Shutdowns.all_down, Shutdowns.conflict, Shutdowns.one_down};

/// Two cores that name different modes. For its items, each core prints the marks that `conflict` lists.
pub fn conflict_prints_each_block()
    ensures first { Prints conflict 0 }
    ensures second { Prints conflict 1 }
{}

/// The default schedule of the example has 3 rounds. In these, each core takes the items that `conflict` lists for it.
pub fn conflict_takes_these_items_by_default()
    ensures rounds { HasRounds conflict 3 }
    ensures items { TakesItems conflict 3 }
{}

/// One core shuts all cores down. For its items, each core prints the marks that `all_down` lists.
pub fn all_down_prints_each_block()
    ensures first { Prints all_down 0 }
    ensures second { Prints all_down 1 }
{}

/// The default schedule of the example has 9 rounds. In these, each core takes the items that `all_down` lists for it.
pub fn all_down_takes_these_items_by_default()
    ensures rounds { HasRounds all_down 9 }
    ensures items { TakesItems all_down 9 }
{}

/// One core shuts itself down. For its items, each core prints the marks that `one_down` lists.
pub fn one_down_prints_each_block()
    ensures first { Prints one_down 0 }
    ensures second { Prints one_down 1 }
{}

/// The default schedule of the example has 10 rounds. In these, each core takes the items that `one_down` lists for it.
pub fn one_down_takes_these_items_by_default()
    ensures rounds { HasRounds one_down 10 }
    ensures items { TakesItems one_down 10 }
{}
