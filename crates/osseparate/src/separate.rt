//! Which cores are started, and which are separate: no other core has a say in what these print.

ghost use Rattle.std.specs.Prelude.{◌≡◌, ◌<◌, IsTrue};
ghost use Rattle.osbase.specs.{History.same_core, Sets.has_core, declared.limits.TheConstants.CORES};
ghost use Rattle.osplan.specs.Limits.{is_within_limits};
ghost use Rattle.osseparate.specs.Flags.{is_named_by_one_of, is_next, AreStarted};
ghost use Rattle.osseparate.specs.Separate.{agree, halts_somewhere, is_among, is_named_elsewhere, is_agreed_mode, is_separate, is_separate_core, is_started, names_mode, coupling_of};

use osbase::{CORE_NUMBERS, CORES, CoreId, CoreMode, CoreSet};
use osplan::{Config, Core, OpTest, Plan, Side, has_operation};

fn is_among(ids: &[CoreId], id: CoreId) -> bool
    ensures { result ≡ is_among ids.now id }
{
    ids.iter().any(|other| other.number == id.number)
}

// Whether a core of the set `started` names this one in its start list.
fn is_named_by(cores: &[Core], started: &CoreSet, id: CoreId) -> bool
    ensures { result ≡ is_named_by_one_of cores.now started.now id }
{
    cores.iter().any(|core| started.contains(core.id) && is_among(core.start.as_slice(), id))
}

// Whether the core is in the set `started`, or in the start list of a core of the set.
fn is_next(cores: &[Core], started: &CoreSet, id: CoreId) -> bool
    ensures { result ≡ is_next cores.now started.now id }
{
    started.contains(id) || is_named_by(cores, started, id)
}

// The cores that are started after one more round of start lists.
fn after_round(cores: &[Core], started: &CoreSet) -> CoreSet
    ensures { (id : CoreId) → id.number < CORES → has_core result id ≡ is_next cores.now started.now id }
{
    let mut members = [false; CORES];
    for number in 0..CORE_NUMBERS {
        members[usize::from(number)] = is_next(cores, started, CoreId { number });
    }
    CoreSet { members }
}

/// The set of this core alone.
pub fn set_of(core: CoreId) -> CoreSet
    requires { core.number < CORES }
    ensures { (id : CoreId) → id.number < CORES → has_core result id ≡ same_core id core }
{
    let mut members = [false; CORES];
    members[usize::from(core.number)] = true;
    CoreSet { members }
}

// The master, and all cores that start lists reach from the master.
fn started_cores(plan: &Plan) -> CoreSet
    requires { IsTrue (is_within_limits plan.now) }
    ensures { AreStarted plan.now result }
{
    let cores = plan.cores.as_slice();
    let mut started = set_of(plan.master);
    for _round in 0..cores.len() {
        started = after_round(cores, &started);
    }
    started
}

// Whether the core is configured and in the set `started`.
fn is_started(plan: &Plan, started: &CoreSet, id: CoreId) -> bool
    requires { AreStarted plan.now started.now }
    ensures { result ≡ is_started plan.now id }
{
    plan.core(id).is_some() && started.contains(id)
}

// Whether this is a mode other than DONOTCARE.
fn names_mode(mode: CoreMode) -> bool
    ensures { result ≡ names_mode mode }
{
    match mode {
        CoreMode::Named(_) => true,
        CoreMode::DontCare => false,
    }
}

// Whether one of the two is DONOTCARE, or both are the same mode.
fn agree(mode: CoreMode, other: CoreMode) -> bool
    ensures { result ≡ agree mode other }
{
    match (mode, other) {
        (CoreMode::Named(mode), CoreMode::Named(other)) => mode.index == other.index,
        (CoreMode::Named(_), CoreMode::DontCare) => true,
        (CoreMode::DontCare, _) => true,
    }
}

// Whether the mode of each started core agrees with this one.
fn is_agreed_mode(plan: &Plan, started: &CoreSet, mode: CoreMode) -> bool
    requires { AreStarted plan.now started.now }
    ensures { result ≡ is_agreed_mode plan.now mode }
{
    plan.cores.as_slice().iter().all(|core| !is_started(plan, started, core.id)
        || agree(mode, core.mode))
}

// Whether a core of another number, started or not, names an object of this core.
fn is_named_elsewhere(plan: &Plan, id: CoreId) -> bool
    ensures { result ≡ is_named_elsewhere plan.now id }
{
    plan.cores.as_slice().iter().any(|other| other.id.number != id.number
        && Side::On(id).is_named_by(other))
}

// Whether a script of some core, started or not, shuts all cores down.
fn halts_somewhere(plan: &Plan) -> bool
    ensures { result ≡ halts_somewhere plan.now }
{
    plan.cores
        .as_slice()
        .iter()
        .any(|core| has_operation(core, OpTest::HaltsAll))
}

// Whether the core is separate, by the conditions that `is_separate` lists.
pub(crate) fn is_separate_core(plan: &Plan, core: &Core) -> bool
    requires { IsTrue (is_within_limits plan.now) }
    ensures { result ≡ is_separate_core plan.now core.now }
{
    let started = started_cores(plan);
    is_started(plan, &started, core.id)
        && names_mode(core.mode)
        && is_agreed_mode(plan, &started, core.mode)
        && core.start.len() == 0
        && !Side::Off(core.id).is_named_by(core)
        && !is_named_elsewhere(plan, core.id)
        && !has_operation(core, OpTest::AsksShared)
        && !halts_somewhere(plan)
}

/// Whether the core of this number is separate, that is, whether all of this holds. Start lists reach it from the
/// master. It names a mode other than DONOTCARE, and no started core names another. Its start list is empty, and its
/// scripts neither start nor count cores. Its scripts, alarms and tables name no spinlock and no object of another
/// core. No other core, started or not, names an object of it. No script of any core, started or not, holds
/// ShutdownAllCores. A core that is not configured is not separate. The call takes no memory.
pub fn is_separate(config: &Config, core: CoreId) -> bool
    ensures { result ≡ is_separate config.now core }
{
    let plan = config.plan();
    match plan.core(core) {
        Some(found) => is_separate_core(plan, found),
        None => false,
    }
}

/// What a core is to the other cores of its configuration.
#[derive(Clone, Copy, PartialEq, Eq)]
pub enum Coupling {
    /// Started, and no other core has a say in what it prints.
    Separate,
    /// Started, and not separate.
    Bound,
    /// Not started: no start list reaches it.
    Off,
}

/// Whether a core is separate and, if it is not, whether it is started. A core that is not configured is off.
pub fn coupling_of(config: &Config, core: CoreId) -> Coupling
    ensures { result ≡ coupling_of config.now core }
{
    let plan = config.plan();
    if is_separate(config, core) {
        Coupling::Separate
    } else if is_started(plan, &started_cores(plan), core) {
        Coupling::Bound
    } else {
        Coupling::Off
    }
}
