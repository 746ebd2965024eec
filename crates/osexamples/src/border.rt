//! Two cores: what each core prints for its own items, and that the default schedule gives these items.

ghost use Rattle.osexamples.specs.Border.{activation, asking, distant, limit, refusals, refused, unmoved};
ghost use Rattle.osexamples.specs.Example.{HasRounds, Prints, TakesItems};

/// One activation across the border: task A of core 0 activates task B of core 1. For its items, each core prints the
/// marks that `activation` lists.
pub fn activation_prints_each_block()
    ensures first { Prints activation 0 }
    ensures second { Prints activation 1 }
{}

/// The default schedule of the example has 10 rounds. In these, each core takes the items that `activation` lists for
/// it.
pub fn activation_takes_these_items_by_default()
    ensures rounds { HasRounds activation 10 }
    ensures items { TakesItems activation 10 }
{}

/// The same configuration as in `activation`, without a stimulus. For its items, each core prints the marks that
/// `unmoved` lists.
pub fn unmoved_prints_each_block()
    ensures first { Prints unmoved 0 }
    ensures second { Prints unmoved 1 }
{}

/// The default schedule of the example has 7 rounds. In these, each core takes the items that `unmoved` lists for it.
pub fn unmoved_takes_these_items_by_default()
    ensures rounds { HasRounds unmoved 7 }
    ensures items { TakesItems unmoved 7 }
{}

/// The activation limit across cores: of two activations, the second is refused. For its items, each core prints the
/// marks that `limit` lists.
pub fn limit_prints_each_block()
    ensures first { Prints limit 0 }
    ensures second { Prints limit 1 }
{}

/// The default schedule of the example has 11 rounds. In these, each core takes the items that `limit` lists for it.
pub fn limit_takes_these_items_by_default()
    ensures rounds { HasRounds limit 11 }
    ensures items { TakesItems limit 11 }
{}

/// Refused activations. Core 1 is never started, and prints nothing. For its items, each core prints the marks that
/// `refusals` lists.
pub fn refusals_prints_each_block()
    ensures first { Prints refusals 0 }
    ensures second { Prints refusals 1 }
{}

/// The default schedule of the example has 8 rounds. In these, each core takes the items that `refusals` lists for it.
pub fn refusals_takes_these_items_by_default()
    ensures rounds { HasRounds refusals 8 }
    ensures items { TakesItems refusals 8 }
{}

/// A chain across the border that is refused: the caller goes on. For its items, each core prints the marks that
/// `refused` lists.
pub fn refused_prints_each_block()
    ensures first { Prints refused 0 }
    ensures second { Prints refused 1 }
{}

/// The default schedule of the example has 9 rounds. In these, each core takes the items that `refused` lists for it.
pub fn refused_takes_these_items_by_default()
    ensures rounds { HasRounds refused 9 }
    ensures items { TakesItems refused 9 }
{}

/// An event set across the border. For its items, each core prints the marks that `distant` lists.
pub fn distant_prints_each_block()
    ensures first { Prints distant 0 }
    ensures second { Prints distant 1 }
{}

/// The default schedule of the example has 10 rounds. In these, each core takes the items that `distant` lists for it.
pub fn distant_takes_these_items_by_default()
    ensures rounds { HasRounds distant 10 }
    ensures items { TakesItems distant 10 }
{}

/// An alarm that another core sets, queries and cancels. For its items, each core prints the marks that `asking` lists.
pub fn asking_prints_each_block()
    ensures first { Prints asking 0 }
    ensures second { Prints asking 1 }
{}

/// The default schedule of the example has 13 rounds. In these, each core takes the items that `asking` lists for it.
pub fn asking_takes_these_items_by_default()
    ensures rounds { HasRounds asking 13 }
    ensures items { TakesItems asking 13 }
{}
