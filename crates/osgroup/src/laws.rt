//! What holds of groups.

ghost use Rattle.std.specs.{Prelude.◌≡◌, Prelude.IsTrue, Prelude.true, List.list_all};
ghost use Rattle.osbase.specs.{declared.references.CoreId.CoreId, declared.items.CoreSet.CoreSet, Sets.has_core};
ghost use Rattle.osplan.specs.{declared.plans.Plan.Plan, Limits.is_within_limits, View.view_of};
ghost use Rattle.osseparate.specs.Separate.{is_separate};
ghost use Rattle.osgroup.specs.{Apart.keeps_apart, Groups.group_of, Groups.is_group};
ghost use Rattle.osgroup.specs.Laws.{HasAll, HasOne, IsIntersection, IsUnion};

/// All configured cores together are a group.
pub fn all_cores_are_a_group()
    ensures { (plan : Plan) (cores : CoreSet) → HasAll plan cores → IsTrue (is_group plan cores) }
{}

/// A separate core alone is a group. The converse does not hold: a core that is a group alone may start cores, have the
/// mode DONOTCARE, name spinlocks and shut all cores down.
pub fn a_separate_core_is_a_group()
    ensures { (plan : Plan) (id : CoreId) (cores : CoreSet) → IsTrue (is_within_limits plan) → IsTrue (is_separate plan id) → HasOne id cores → IsTrue (is_group plan cores) }
{}

/// The cores of two groups together are a group.
pub fn two_groups_together_are_a_group()
    ensures { (plan : Plan) (one other cores : CoreSet) → IsTrue (is_group plan one) → IsTrue (is_group plan other) → IsUnion one other cores → IsTrue (is_group plan cores) }
{}

/// The cores that two groups have in common are a group, so that each core has a least group.
pub fn what_two_groups_have_in_common_is_a_group()
    ensures { (plan : Plan) (one other cores : CoreSet) → IsTrue (is_group plan one) → IsTrue (is_group plan other) → IsIntersection one other cores → IsTrue (is_group plan cores) }
{}

/// A core of a group sees in the group's configuration what it sees in the whole.
pub fn a_core_of_a_group_sees_the_same()
    ensures { (plan : Plan) (group : CoreSet) (id : CoreId) → has_core group id ≡ true → view_of (group_of plan group) id ≡ view_of plan id }
{}

/// If a group is not empty, its cores and the cores outside name no object of each other and no spinlock in common, and
/// no core outside shuts all cores down. The empty set is a group in any configuration.
pub fn a_group_and_the_other_cores_keep_apart()
    ensures { (plan : Plan) (group : CoreSet) (id : CoreId) → IsTrue (is_within_limits plan) → IsTrue (is_group plan group) → has_core group id ≡ true → IsTrue (list_all (keeps_apart plan group) plan.cores) }
{}
