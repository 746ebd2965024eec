//! Which sets of cores are groups, and the least group of a core.

ghost use Rattle.std.specs.Prelude.{◌≡◌, ◌<◌, ◌&&◌, ◌||◌, not, IsTrue, is_some, true};
ghost use Rattle.std.specs.List.{list_all};
ghost use Rattle.osbase.specs.{Sets.has_core, declared.limits.TheConstants.CORES, declared.references.CoreId.CoreId as IdValue};
ghost use Rattle.osplan.specs.{declared.plans.Core.Core as CoreValue, Limits.is_within_limits, View.core_of};
ghost use Rattle.osgroup.specs.Groups.{are_configured, belongs_within, has_say, is_apart, is_group, is_in_least_group, names_spinlock, share_spinlock};
ghost use Rattle.osgroup.specs.Least.{AreRows, IsLeast, IsRow, is_in_one_row, is_in_row, is_next, has_say_at, has_say_in};

use osbase::{CORE_NUMBERS, CORES, CoreId, CoreSet, SpinlockId};
use osplan::{Config, Core, OpTest, Plan, Side, has_operation};
use osseparate::set_of;

fn names_spinlock(core: &Core, lock: SpinlockId) -> bool
    ensures { result ≡ names_spinlock core.now lock }
{
    has_operation(core, OpTest::Names(Side::Spinlock(lock)))
}

// Whether scripts of both cores name the spinlock.
fn both_name(a: &Core, b: &Core, lock: SpinlockId) -> bool
    ensures { result ≡ (names_spinlock a.now lock && names_spinlock b.now lock) }
{
    names_spinlock(a, lock) && names_spinlock(b, lock)
}

// Whether scripts of both cores name the same spinlock.
fn share_spinlock(plan: &Plan, a: &Core, b: &Core) -> bool
    requires { IsTrue (is_within_limits plan.now) }
    ensures { result ≡ share_spinlock plan.now a.now b.now }
{
    for number in 0..plan.spinlocks.len() {
        let index = number as u8;
        let lock = SpinlockId { index };
        if both_name(a, b, lock) {
            return true;
        }
    }
    false
}

// Whether `other` has a say in what `core` does, by the conditions that `is_group` lists.
fn has_say(plan: &Plan, other: &Core, core: &Core) -> bool
    requires { IsTrue (is_within_limits plan.now) }
    ensures { result ≡ has_say plan.now other.now core.now }
{
    has_operation(other, OpTest::HaltsAll)
        || Side::On(core.id).is_named_by(other)
        || Side::On(other.id).is_named_by(core)
        || share_spinlock(plan, other, core)
}

// Whether the core is in the set, but not configured.
fn is_missing_member(plan: &Plan, cores: &CoreSet, id: CoreId) -> bool
    ensures { result ≡ not (not (has_core cores.now id) || is_some (core_of plan.now id)) }
{
    cores.contains(id) && plan.core(id).is_none()
}

// Whether each core of the set is configured.
fn are_configured(plan: &Plan, cores: &CoreSet) -> bool
    ensures { result ≡ are_configured plan.now cores.now }
{
    for number in 0..CORE_NUMBERS {
        if is_missing_member(plan, cores, CoreId { number }) {
            return false;
        }
    }
    true
}

// Whether no core outside the group, started or not, has a say in what this one does.
fn is_apart(plan: &Plan, group: &CoreSet, core: &Core) -> bool
    requires { IsTrue (is_within_limits plan.now) }
    ensures { result ≡ is_apart plan.now group.now core.now }
{
    plan.cores.as_slice().iter().all(|other| group.contains(other.id)
        || !has_say(plan, other, core))
}

// Whether no core outside the group has a say in what one of its cores does.
fn are_apart(plan: &Plan, group: &CoreSet) -> bool
    requires { IsTrue (is_within_limits plan.now) }
    ensures { result ≡ list_all (λ (core : CoreValue). not (has_core group.now core.id) || is_apart plan.now group.now core) plan.now.cores }
{
    plan.cores.as_slice().iter().all(|core| !group.contains(core.id) || is_apart(plan, group, core))
}

// Whether the cores are a group, by the conditions that `is_group` lists.
fn is_group_in(plan: &Plan, group: &CoreSet) -> bool
    requires { IsTrue (is_within_limits plan.now) }
    ensures { result ≡ is_group plan.now group.now }
{
    are_configured(plan, group) && are_apart(plan, group)
}

/// Whether the cores are a group: each is configured, and no core outside, started or not, has a say in what one of
/// them does. A core has a say in what another one does if a script of it holds ShutdownAllCores, if one of the two
/// names an object of the other by a script, an alarm or a table, or if scripts of both name the same spinlock. The
/// empty set is a group. The call takes no memory.
pub fn is_group(config: &Config, group: CoreSet) -> bool
    ensures { result ≡ is_group config.now group }
{
    let plan = config.plan();
    is_group_in(plan, &group)
}

// Whether the core `id` has a say in what `core` does.
fn has_say_in(plan: &Plan, core: &Core, id: CoreId) -> bool
    requires { IsTrue (is_within_limits plan.now) }
    ensures { result ≡ has_say_in plan.now core.now id }
{
    plan.cores.as_slice().iter().any(|other| other.id.number == id.number
        && has_say(plan, other, core))
}

// Whether the core `id` has a say in what the core `at` does.
fn has_say_at(plan: &Plan, at: CoreId, id: CoreId) -> bool
    requires { IsTrue (is_within_limits plan.now) }
    ensures { result ≡ has_say_at plan.now at id }
{
    plan.cores.as_slice().iter().any(|core| core.id.number == at.number
        && has_say_in(plan, core, id))
}

// The cores that have a say in what the core `at` does.
fn row_of(plan: &Plan, at: CoreId) -> CoreSet
    requires { IsTrue (is_within_limits plan.now) }
    ensures { IsRow plan.now at result }
{
    let mut members = [false; CORES];
    for number in 0..CORE_NUMBERS {
        members[usize::from(number)] = has_say_at(plan, at, CoreId { number });
    }
    CoreSet { members }
}

// For each core number a row: the cores that have a say in what that core does. So no round tests each pair again.
fn rows_of(plan: &Plan) -> [CoreSet; CORES]
    requires { IsTrue (is_within_limits plan.now) }
    ensures { AreRows plan.now result }
{
    let mut rows = [CoreSet {
        members: [false; CORES],
    }; CORES];
    for number in 0..CORE_NUMBERS {
        rows[usize::from(number)] = row_of(plan, CoreId { number });
    }
    rows
}

// Whether the core `id` is in the row of the core `at`.
fn is_in_row(rows: &[CoreSet; CORES], at: CoreId, id: CoreId) -> bool
    ensures { result ≡ is_in_row rows.now at id }
{
    match rows.get(usize::from(at.number)) {
        Some(row) => row.contains(id),
        None => false,
    }
}

// Whether the core `id` is in the row of a core of the set `cores`.
fn is_in_one_row(all: &[Core], rows: &[CoreSet; CORES], cores: &CoreSet, id: CoreId) -> bool
    ensures { result ≡ is_in_one_row all.now rows.now cores.now id }
{
    all.iter().any(|core| cores.contains(core.id) && is_in_row(rows, core.id, id))
}

// Whether the core `id` is in the set `cores`, or has a say in what a core of the set does, by that core's row.
fn is_next(all: &[Core], rows: &[CoreSet; CORES], cores: &CoreSet, id: CoreId) -> bool
    ensures { result ≡ is_next all.now rows.now cores.now id }
{
    cores.contains(id) || is_in_one_row(all, rows, cores, id)
}

// The set after one more round, which adds the cores that have a say in what a core of the set does.
fn after_round(all: &[Core], rows: &[CoreSet; CORES], cores: &CoreSet) -> CoreSet
    ensures { (id : IdValue) → id.number < CORES → has_core result id ≡ is_next all.now rows.now cores.now id }
{
    let mut members = [false; CORES];
    for number in 0..CORE_NUMBERS {
        members[usize::from(number)] = is_next(all, rows, cores, CoreId { number });
    }
    CoreSet { members }
}

// The group before the first round: this core alone, or no core if it is not configured.
fn at_first(plan: &Plan, core: CoreId) -> CoreSet
    requires { IsTrue (is_within_limits plan.now) }
    ensures { (id : IdValue) → has_core result id ≡ belongs_within plan.now core 0 id }
{
    if plan.core(core).is_some() {
        set_of(core)
    } else {
        CoreSet {
            members: [false; CORES],
        }
    }
}

// The least group of the core, as `least_group` describes it.
fn least_of(plan: &Plan, core: CoreId) -> CoreSet
    requires { IsTrue (is_within_limits plan.now) }
    ensures { (id : IdValue) → has_core result id ≡ is_in_least_group plan.now core id }
{
    let all = plan.cores.as_slice();
    let rows = rows_of(plan);
    let mut cores = at_first(plan, core);
    for _round in 0..all.len() {
        cores = after_round(all, &rows, &cores);
    }
    cores
}

/// The least group of a core, which lies in every group that the core is in. It has the core, each core that has a
/// say in what the core does, each core that has a say in what one of these does, and so on. If the core is not
/// configured, the group is empty. The call takes no memory.
pub fn least_group(config: &Config, core: CoreId) -> CoreSet
    ensures members { (id : IdValue) → has_core result id ≡ is_in_least_group config.now core id }
    ensures group { IsTrue (is_group config.now result) }
    ensures own { is_some (core_of config.now core) ≡ true → has_core result core ≡ true }
    ensures least { IsLeast config.now core result }
{
    let plan = config.plan();
    least_of(plan, core)
}
