//! A job that holds a resource: what the core prints for its items, and that the default schedule gives these items.

ghost use Rattle.osexamples.specs.Example.{HasRounds, Prints, TakesItems};
ghost use Rattle.osexamples.specs.Resources.{ceiling, keeping, overheld, overheld_down, overrunning};

/// A job that holds a resource runs at the resource's ceiling. For its items, the core prints the marks that `ceiling`
/// lists.
pub fn ceiling_prints_its_block()
    ensures { Prints ceiling 0 }
{}

/// The default schedule of the example has 9 rounds. In these, the core takes the items that `ceiling` lists for it.
pub fn ceiling_takes_these_items_by_default()
    ensures rounds { HasRounds ceiling 9 }
    ensures items { TakesItems ceiling 9 }
{}

/// A job that holds a resource does not give way: Schedule is refused. For its items, the core prints the marks that
/// `keeping` lists.
pub fn keeping_prints_its_block()
    ensures { Prints keeping 0 }
{}

/// The default schedule of the example has 10 rounds. In these, the core takes the items that `keeping` lists for it.
pub fn keeping_takes_these_items_by_default()
    ensures rounds { HasRounds keeping 10 }
    ensures items { TakesItems keeping 10 }
{}

/// A job is ended when it has held a resource for too long. For its items, the core prints the marks that `overheld`
/// lists.
pub fn overheld_prints_its_block()
    ensures { Prints overheld 0 }
{}

/// The default schedule of the example has 9 rounds. In these, the core takes the items that `overheld` lists for it.
pub fn overheld_takes_these_items_by_default()
    ensures rounds { HasRounds overheld 9 }
    ensures items { TakesItems overheld 9 }
{}

/// The core goes down when a job has held a resource for too long. For its items, the core prints the marks that
/// `overheld_down` lists.
pub fn overheld_down_prints_its_block()
    ensures { Prints overheld_down 0 }
{}

/// The default schedule of the example has 8 rounds. In these, the core takes the items that `overheld_down` lists for
/// it.
pub fn overheld_down_takes_these_items_by_default()
    ensures rounds { HasRounds overheld_down 8 }
    ensures items { TakesItems overheld_down 8 }
{}

/// If one tick uses up the execution budget and a lock budget, the execution budget comes first. For its items, the
/// core prints the marks that `overrunning` lists.
pub fn overrunning_prints_its_block()
    ensures { Prints overrunning 0 }
{}

/// The default schedule of the example has 9 rounds. In these, the core takes the items that `overrunning` lists for
/// it.
pub fn overrunning_takes_these_items_by_default()
    ensures rounds { HasRounds overrunning 9 }
    ensures items { TakesItems overrunning 9 }
{}
