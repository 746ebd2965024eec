//! Two cores of four as a group: they take the same items and print the same where the others have no objects.

ghost use Rattle.std.specs.Prelude.{◌≡◌, IsTrue};
ghost use Rattle.osgroup.specs.Groups.{is_group};
ghost use Rattle.osrun.specs.Groups.{part_lists};
ghost use Rattle.osexamples.specs.Example.{HasRounds, Prints, TakesItems, core, items_from};
ghost use Rattle.osexamples.specs.{Groups.IsLeastOf, Groups.four, Groups.pair, Parts.both};

/// Cores 0 and 1 are a group, and it is the least group of each of them.
pub fn the_pair_is_the_least_group_of_its_cores()
    ensures group { IsTrue (is_group four.plan both) }
    ensures first { IsLeastOf four.plan (core 0) both }
    ensures second { IsLeastOf four.plan (core 1) both }
{}

/// The whole configuration of four cores. For its items, each core prints the marks that `four` lists.
pub fn four_prints_each_block()
    ensures first { Prints four 0 }
    ensures second { Prints four 1 }
    ensures third { Prints four 2 }
    ensures fourth { Prints four 3 }
{}

/// The default schedule of the example has 13 rounds. In these, each core takes the items that `four` lists for it.
pub fn four_takes_these_items_by_default()
    ensures rounds { HasRounds four 13 }
    ensures items { TakesItems four 13 }
{}

/// The configuration of the group of cores 0 and 1: cores 2 and 3 have no objects. For its items, each core prints the
/// marks that `pair` lists.
pub fn pair_prints_each_block()
    ensures first { Prints pair 0 }
    ensures second { Prints pair 1 }
    ensures third { Prints pair 2 }
    ensures fourth { Prints pair 3 }
{}

/// The default schedule of the example has 13 rounds. In these, each core takes the items that `pair` lists for it.
/// They are the items of `four`; of those of cores 2 and 3, what a core without objects does not take is left out.
pub fn pair_takes_these_items_by_default()
    ensures rounds { HasRounds pair 13 }
    ensures items { TakesItems pair 13 }
    ensures parts { part_lists both (items_from 0 four.blocks) ≡ items_from 0 pair.blocks }
{}
