//! The names of objects, as a core's block needs them.

ghost use Rattle.std.specs.Prelude.{◌≡◌, option_copied};
ghost use Rattle.osbase.specs.declared.objects.ObjectKind.{ObjectKind};
ghost use Rattle.osplan.specs.Names.{alarm_name, isr_name, name_in, name_of, runner_name, table_name, task_name};
ghost use Rattle.osplan.specs.View.{core_of};

use osbase::{AlarmRef, CoreId, IsrRef, ObjectKind, Place, Runner, TableRef, TaskRef};
use osplan::{Core, Plan};
use std::marker::Model;

/// The names of a plan's objects. One core is at hand: its objects are named without a search for the core.
#[derive(Drop)]
pub struct BlockNames<'a> {
    plan: &'a Plan,
    id: CoreId,
    own: Option<&'a Core>,
}

impl<'a> Model for BlockNames<'a> {
    ghost use Rattle.std.specs.Prelude.{◌≡◌, option_copied};
    ghost use Rattle.osplan.specs.{declared.plans.Plan.Plan, View.core_of};

    ghost Value = { Plan };

    ghost view = { λ n. n.plan.now };

    ghost invariant = { λ n. option_copied n.own ≡ core_of n.plan.now n.id };
}

/// Each name is the empty text where the plan lacks the object.
impl<'a> BlockNames<'a> {
    /// The plan's names, with this core at hand.
    pub fn new(plan: &'a Plan, id: CoreId) -> BlockNames<'a>
        ensures { result ≡ plan.now }
    {
        BlockNames {
            plan,
            id,
            own: plan.core(id),
        }
    }

    // The core of this number, without a search if it is the core at hand.
    #[inline(always)]
    fn core(&self, id: CoreId) -> Option<&Core>
        ensures { option_copied result ≡ core_of self.now id }
    {
        if id.number == self.id.number {
            self.own
        } else {
            self.plan.core(id)
        }
    }

    #[inline(always)]
    pub fn task_name(&self, task: TaskRef) -> &str
        ensures { result.now ≡ task_name self.now task }
    {
        match self.core(task.core) {
            Some(core) => task_in(core, task.index),
            None => "",
        }
    }

    #[inline]
    pub fn isr_name(&self, isr: IsrRef) -> &str
        ensures { result.now ≡ isr_name self.now isr }
    {
        match self.core(isr.core) {
            Some(core) => isr_in(core, isr.index),
            None => "",
        }
    }

    #[inline]
    pub fn alarm_name(&self, alarm: AlarmRef) -> &str
        ensures { result.now ≡ alarm_name self.now alarm }
    {
        match self.core(alarm.core) {
            Some(core) => alarm_in(core, alarm.index),
            None => "",
        }
    }

    #[inline]
    pub fn table_name(&self, table: TableRef) -> &str
        ensures { result.now ≡ table_name self.now table }
    {
        match self.core(table.core) {
            Some(core) => table_in(core, table.index),
            None => "",
        }
    }

    /// The name of a task or an ISR.
    #[inline]
    pub fn runner_name(&self, runner: Runner) -> &str
        ensures { result.now ≡ runner_name self.now runner }
    {
        match runner {
            Runner::Task(task) => self.task_name(task),
            Runner::Isr(isr) => self.isr_name(isr),
        }
    }

    /// The name of the object of this kind at this place, by a search for its core.
    pub fn name_of(&self, kind: ObjectKind, place: Place) -> &str
        ensures { result.now ≡ name_of self.now kind place }
    {
        self.plan.name_of(kind, place)
    }
}

// The name of the core's task of this index, or the empty text.
#[inline(always)]
fn task_in(core: &Core, index: u8) -> &str
    ensures { result.now ≡ name_in ObjectKind.Task core.now index }
{
    match core.tasks.as_slice().get(usize::from(index)) {
        Some(task) => task.name.as_str(),
        None => "",
    }
}

// The name of the core's ISR of this index, or the empty text.
#[inline]
fn isr_in(core: &Core, index: u8) -> &str
    ensures { result.now ≡ name_in ObjectKind.Isr core.now index }
{
    match core.isrs.as_slice().get(usize::from(index)) {
        Some(isr) => isr.name.as_str(),
        None => "",
    }
}

// The name of the core's alarm of this index, or the empty text.
#[inline]
fn alarm_in(core: &Core, index: u8) -> &str
    ensures { result.now ≡ name_in ObjectKind.Alarm core.now index }
{
    match core.alarms.as_slice().get(usize::from(index)) {
        Some(alarm) => alarm.name.as_str(),
        None => "",
    }
}

// The name of the core's schedule table of this index, or the empty text.
#[inline]
fn table_in(core: &Core, index: u8) -> &str
    ensures { result.now ≡ name_in ObjectKind.Table core.now index }
{
    match core.tables.as_slice().get(usize::from(index)) {
        Some(table) => table.name.as_str(),
        None => "",
    }
}
