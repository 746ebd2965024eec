//! The names of modes and objects, by their places.

ghost use Rattle.std.specs.Prelude.{◌≡◌};
ghost use Rattle.osplan.specs.Names.{alarm_name, common_name, isr_name, name_of_mode, name_in, name_of, resource_name, runner_name, spinlock_name, table_name, task_name};

use crate::plans::{Core, Plan};
use osbase::{
    AlarmRef, IsrRef, ModeId, NOBODY, ObjectKind, Place, Reference, ResourceRef, Runner,
    SpinlockId, TableRef, TaskRef,
};

impl Core {
    // The name of the core's object of this kind and index; empty if the core has none.
    fn name_in(&self, kind: ObjectKind, index: u8) -> &str
        ensures { result.now ≡ name_in kind self.now index }
    {
        self.name_at(kind, usize::from(index)).unwrap_or("")
    }
}

/// If the plan lacks the mode or the object, its name is the empty text.
impl Plan {
    /// The name of an application mode.
    pub fn name_of_mode(&self, mode: ModeId) -> &str
        ensures { result.now ≡ name_of_mode self.now mode }
    {
        match self.modes.as_slice().get(usize::from(mode.index)) {
            Some(name) => name.as_str(),
            None => "",
        }
    }

    /// The name of the object of this kind at this place.
    pub fn name_of(&self, kind: ObjectKind, place: Place) -> &str
        ensures { result.now ≡ name_of self.now kind place }
    {
        match self.core(place.core) {
            Some(core) => core.name_in(kind, place.index),
            None => self.common_name(kind, place),
        }
    }

    // The name of a mode or a spinlock, which all cores have in common; empty for any other kind or place.
    #[tactic(auto, using(crate::proofs::Tests::get_mapped))]
    fn common_name(&self, kind: ObjectKind, place: Place) -> &str
        ensures { result.now ≡ common_name self.now kind place }
    {
        if place.core.number != NOBODY.number {
            return "";
        }
        match kind {
            ObjectKind::Mode => self.name_of_mode(ModeId::at(place)),
            ObjectKind::Spinlock => match self.spinlocks.as_slice().get(usize::from(place.index)) {
                Some(spinlock) => spinlock.name.as_str(),
                None => "",
            },
            _ => "",
        }
    }

    pub fn spinlock_name(&self, lock: SpinlockId) -> &str
        ensures { result.now ≡ spinlock_name self.now lock }
    {
        self.name_of(ObjectKind::Spinlock, lock.place())
    }

    pub fn task_name(&self, task: TaskRef) -> &str
        ensures { result.now ≡ task_name self.now task }
    {
        self.name_of(ObjectKind::Task, task.place())
    }

    pub fn resource_name(&self, resource: ResourceRef) -> &str
        ensures { result.now ≡ resource_name self.now resource }
    {
        self.name_of(ObjectKind::Resource, resource.place())
    }

    pub fn alarm_name(&self, alarm: AlarmRef) -> &str
        ensures { result.now ≡ alarm_name self.now alarm }
    {
        self.name_of(ObjectKind::Alarm, alarm.place())
    }

    pub fn isr_name(&self, isr: IsrRef) -> &str
        ensures { result.now ≡ isr_name self.now isr }
    {
        self.name_of(ObjectKind::Isr, isr.place())
    }

    pub fn table_name(&self, table: TableRef) -> &str
        ensures { result.now ≡ table_name self.now table }
    {
        self.name_of(ObjectKind::Table, table.place())
    }

    /// The name of a task or an ISR.
    pub fn runner_name(&self, runner: Runner) -> &str
        ensures { result.now ≡ runner_name self.now runner }
    {
        match runner {
            Runner::Task(task) => self.task_name(task),
            Runner::Isr(isr) => self.isr_name(isr),
        }
    }
}
