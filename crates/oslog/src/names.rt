//! The objects that the names of a configuration refer to, found by an index.

ghost use Rattle.std.specs.Prelude.{◌≡◌, ◌≤◌, ◌++◌, IfOk, IsTrue, OnOk};
ghost use Rattle.osplan.specs.{Representable.is_representable, Limits.is_within_limits, declared.plans.TheConstants.COMMON};
ghost use Rattle.oslog.specs.Naming.{HasFew, HasFewCommon, Indexes, all_named, common_in, isr_named, mode_named, name_of_object, named_in, object_under, objects_under, spinlock_named};
ghost use Rattle.std.specs.List.{flat_map};

use osbase::{
    CoreId, IsrRef, List, ModeId, NOBODY, Object, ObjectKind, Place, Reference, SpinlockId,
};
use osplan::{COMMON, Config, Core, KINDS, Plan};
use ossyntax::{Names, Places};
use std::alloc::{AllocError, Global};
use std::collections::HashMap;

/// The names of a plan.
#[derive(Clone, Copy)]
pub struct PlanNames<'p> {
    pub plan: &'p Plan,
}

impl<'p> PlanNames<'p> {
    fn name_of(&self, object: Object) -> &'p str
        ensures { result.now ≡ name_of_object self.now.plan.now object }
    {
        self.plan.name_of(object.kind, object.place)
    }
}

impl Names for PlanNames<'_> {
    ghost use Rattle.osplan.specs.Names.{name_of};

    ghost name = { λ names. name_of names.plan.now };

    fn name(&self, kind: ObjectKind, place: Place) -> &str {
        self.plan.name_of(kind, place)
    }
}

// The object of this kind and index. `core` is the object's core, or `NOBODY` if all cores have it in common.
fn object_under(core: CoreId, kind: ObjectKind, index: u8) -> Object
    ensures { result ≡ object_under core kind index }
{
    let place = Place { core, index };
    Object { kind, place }
}

// Adds the objects of this kind at the first `count` indices. `core` is their core, or `NOBODY` if all cores have them
// in common.
fn push_objects(
    named: &mut List<Object>,
    core: CoreId,
    kind: ObjectKind,
    count: usize,
) -> Result<(), AllocError>
    requires { count ≤ 255 }
    ensures { OnOk result (named.new ≡ named.old ++ objects_under core kind count) }
{
    let mut index = 0;
    while usize::from(index) < count {
        named.push(object_under(core, kind, index))?;
        index += 1;
    }
    Ok(())
}

// Adds the objects that all cores have in common, kind by kind.
fn push_common(named: &mut List<Object>, plan: &Plan) -> Result<(), AllocError>
    requires { HasFewCommon plan.now }
    ensures { OnOk result (named.new ≡ named.old ++ flat_map (common_in plan.now) COMMON) }
{
    for kind in COMMON.iter() {
        push_objects(named, NOBODY, *kind, plan.common_count(*kind))?;
    }
    Ok(())
}

// Adds all objects of a core, kind by kind.
fn push_core(named: &mut List<Object>, core: &Core) -> Result<(), AllocError>
    requires { HasFew core.now }
    ensures { OnOk result (named.new ≡ named.old ++ named_in core.now) }
{
    for kind in KINDS.iter() {
        push_objects(named, core.id, *kind, core.count(*kind))?;
    }
    Ok(())
}

// All objects that have a name: those that all cores have in common, and then those of each core.
fn all_named(alloc: Global, plan: &Plan) -> Result<List<Object>, AllocError>
    requires { IsTrue (is_within_limits plan.now) }
    ensures { IfOk result (λ named. named ≡ all_named plan.now) }
{
    let mut named = List::new(alloc);
    push_common(&mut named, plan)?;
    for core in plan.cores.as_slice() {
        push_core(&mut named, core)?;
    }
    Ok(named)
}

// An index that has, for each name, the first of these objects with that name.
fn index_of<'p>(
    alloc: Global,
    names: &PlanNames<'p>,
    named: &[Object],
) -> Result<HashMap<&'p str, Object>, AllocError>
    ensures { IfOk result (λ index. Indexes names.now.plan.now index named.now) }
{
    let mut index = HashMap::new(alloc);
    let mut place = named.len();
    // From the last object to the first, so that the first object of each name stays.
    while place > 0 {
        place -= 1;
        let _later = index.insert(names.name_of(named[place]), named[place])?;
    }
    Ok(index)
}

/// What the names of a configuration refer to.
#[derive(Drop)]
pub struct NameIndex<'p> {
    config: &'p Config,
    index: HashMap<&'p str, Object>,
    ghost limits: { IsTrue (is_within_limits config.now) },
    ghost config_representable: { IsTrue (is_representable config.now) },
    ghost indexed: { Indexes config.now index (all_named config.now) },
}

impl<'p> NameIndex<'p> {
    pub fn new(alloc: Global, config: &'p Config) -> Result<Self, AllocError>
        ensures { IfOk result (λ names. names.config.now ≡ config.now) }
    {
        let plan = config.plan();
        let named = all_named(alloc, plan)?;
        let index = index_of(alloc, &PlanNames { plan }, named.as_slice())?;
        Ok(NameIndex { config, index })
    }

    /// The application mode of this name, if there is one.
    pub fn mode(&self, name: &str) -> Option<ModeId>
        ensures { result ≡ mode_named self.now.config.now name.now }
    {
        match self.place(ObjectKind::Mode, name) {
            Some(place) => Some(ModeId::at(place)),
            None => None,
        }
    }

    /// The spinlock of this name, if there is one.
    pub fn spinlock(&self, name: &str) -> Option<SpinlockId>
        ensures { result ≡ spinlock_named self.now.config.now name.now }
    {
        match self.place(ObjectKind::Spinlock, name) {
            Some(place) => Some(SpinlockId::at(place)),
            None => None,
        }
    }

    /// The ISR of this name, on whichever core, if there is one.
    pub fn isr(&self, name: &str) -> Option<IsrRef>
        ensures { result ≡ isr_named self.now.config.now name.now }
    {
        match self.place(ObjectKind::Isr, name) {
            Some(place) => Some(IsrRef::at(place)),
            None => None,
        }
    }
}

impl Places for NameIndex<'_> {
    ghost use Rattle.oslog.specs.Naming.{place_named};

    ghost place = { λ names. place_named names.config.now };

    fn place(&self, kind: ObjectKind, name: &str) -> Option<Place> {
        match self.index.get(name) {
            Some(object) if object.kind.is(kind) => Some(object.place),
            _ => None,
        }
    }
}
