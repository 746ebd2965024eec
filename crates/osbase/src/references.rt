//! References to cores and objects, as numbers. A reference has the object's core and its index among that
//! core's objects of its kind, in the order of the configuration.

ghost use Rattle.std.specs.Prelude.{◌≡◌};
ghost use Rattle.osbase.specs.{declared.references.Runner.Runner as RunnerValue, History.same_runner, Sets.slot_of};

use crate::limits::TASKS;

/// The number of a core, configured or not (AUTOSAR SWS OS 4.x, CoreIdType).
#[derive(Clone, Copy, Debug, Default, PartialEq, Eq)]
pub struct CoreId {
    pub number: u8,
}

/// A task (OSEK/VDX OS 2.2.3, TaskType).
#[derive(Clone, Copy, Debug, Default, PartialEq, Eq)]
pub struct TaskRef {
    pub core: CoreId,
    pub index: u8,
}

/// A category 2 interrupt service routine (AUTOSAR SWS OS 4.x, ISRType).
#[derive(Clone, Copy, Debug, Default, PartialEq, Eq)]
pub struct IsrRef {
    pub core: CoreId,
    pub index: u8,
}

/// A resource (OSEK/VDX OS 2.2.3, ResourceType).
#[derive(Clone, Copy, Debug, PartialEq, Eq)]
pub struct ResourceRef {
    pub core: CoreId,
    pub index: u8,
}

/// A counter (AUTOSAR SWS OS 4.x, CounterType).
#[derive(Clone, Copy, Debug, PartialEq, Eq)]
pub struct CounterRef {
    pub core: CoreId,
    pub index: u8,
}

/// An alarm (OSEK/VDX OS 2.2.3, AlarmType).
#[derive(Clone, Copy, Debug, Default, PartialEq, Eq)]
pub struct AlarmRef {
    pub core: CoreId,
    pub index: u8,
}

/// A schedule table (AUTOSAR SWS OS 4.x, ScheduleTableType).
#[derive(Clone, Copy, Debug, Default, PartialEq, Eq)]
pub struct TableRef {
    pub core: CoreId,
    pub index: u8,
}

/// A spinlock, which belongs to no core (AUTOSAR SWS OS 4.x, SpinlockIdType).
#[derive(Clone, Copy, Debug, Default, PartialEq, Eq)]
pub struct SpinlockId {
    pub index: u8,
}

/// An application mode other than DONOTCARE (AUTOSAR SWS OS 4.x, AppModeType).
#[derive(Clone, Copy, Debug, PartialEq, Eq)]
pub struct ModeId {
    pub index: u8,
}

/// One of the eight variables `v0` to `v7` of a task or an ISR.
#[derive(Clone, Copy, Debug, PartialEq, Eq)]
pub struct Variable {
    pub index: u8,
}

/// What a job runs: a task or an ISR.
#[derive(Clone, Copy, Debug, PartialEq, Eq)]
pub enum Runner {
    Task(TaskRef),
    Isr(IsrRef),
}

impl Runner {
    /// The runner's place among its core's tasks and ISRs: the index of a task, or `TASKS` plus the index of an ISR.
    pub fn slot(self) -> usize
        ensures { result ≡ slot_of self }
    {
        match self {
            Runner::Task(task) => usize::from(task.index),
            Runner::Isr(isr) => TASKS + usize::from(isr.index),
        }
    }

    /// Whether both are the same task or the same ISR.
    pub fn is(self, other: Runner) -> bool
        ensures { result ≡ same_runner self other }
    {
        match (self, other) {
            (Runner::Task(task), Runner::Task(other)) => task == other,
            (Runner::Isr(isr), Runner::Isr(other)) => isr == other,
            _ => false,
        }
    }
}

impl Default for Runner {
    /// The first task of core 0. It fills the unused places of a list.
    fn default() -> Self
        ensures { result ≡ RunnerValue.Task (record { core = record { number = 0 }; index = 0 }) }
    {
        Runner::Task(TaskRef::default())
    }
}
