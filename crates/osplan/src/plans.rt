//! The parts of a configuration, and the configuration that keeps its limits.

ghost use Rattle.std.specs.Prelude.{◌≡◌, IsTrue, length, option_copied, slice_get};
ghost use Rattle.osplan.specs.Objects.{common_names, is_own_object, names_in, object_count};
ghost use Rattle.osplan.specs.{Stimuli.knows_stimulus, View.core_of, Representable.is_representable};
ghost use Rattle.osplan.specs.Limits.{is_within_limits};

use crate::own::isr_of;
use crate::protection::Protection;
use osbase::{
    CoreId, CoreMode, CounterRef, List, ModeId, Name, Object, ObjectKind, Reference, RemoteCall,
    SpinlockId, Stimulus,
};
use oscript::Script;
use std::marker::Model;

/// A task (OSEK/VDX OS 2.2.3, section 4).
#[derive(Clone, Debug, Drop)]
pub struct Task {
    pub name: Name,
    /// The static priority, 0 to 31.
    pub priority: u8,
    /// The application modes in which the task is autostarted.
    pub auto: List<ModeId>,
    /// How many jobs of the task may be live at once.
    pub activations: u8,
    /// Whether the task is extended, so that it can wait for events (OSEK/VDX OS 2.2.3, section 4.2.1).
    pub extended: bool,
    /// Whether a task of greater priority can preempt this one before it ends or gives way
    /// (OSEK/VDX OS 2.2.3, section 4.6).
    pub preemptable: bool,
    /// How many ticks a job may run until it ends or waits (AUTOSAR SWS OS 4.x, OsTaskExecutionBudget); 0 for any
    /// number.
    pub budget: u32,
    pub script: Script,
}

/// A resource (OSEK/VDX OS 2.2.3, section 8).
#[derive(Clone, Debug, Drop)]
pub struct Resource {
    pub name: Name,
    /// The ceiling priority, 0 to 31: whoever holds the resource has at least this priority.
    pub ceiling: u8,
    /// The lock budget, in ticks, 0 to 1,000,000,000: how long a job may hold the resource while it runs; 0 means none
    /// (AUTOSAR SWS OS 4.x, OsTaskResourceLockBudget). The resource has one budget for all its
    /// holders; this is the project's own.
    pub lock: u32,
}

/// A category 2 ISR (AUTOSAR SWS OS 4.x, OsIsr).
#[derive(Clone, Debug, Drop)]
pub struct Isr {
    pub name: Name,
    /// The level, 1 to 16: an ISR interrupts those of a lower level.
    pub level: u8,
    /// How many ticks a job may run (OsIsrExecutionBudget); 0 for any number.
    pub budget: u32,
    pub script: Script,
}

/// A counter (AUTOSAR SWS OS 4.x, OsCounter).
#[derive(Clone, Debug, Drop)]
pub struct Counter {
    pub name: Name,
    /// The greatest value, 1 to 1,000,000,000 (OsCounterMaxAllowedValue).
    pub max: u32,
    /// The least cycle of an alarm, 1 to the greatest value (OsCounterMinCycle).
    pub min: u32,
    /// Whether only IncrementCounter advances it, and no tick does.
    pub software: bool,
}

/// How an alarm is autostarted: in which application modes, after how many counts it first expires, and with which
/// cycle (AUTOSAR SWS OS 4.x, OsAlarmAutostart).
#[derive(Clone, Debug, Drop)]
pub struct AlarmStart {
    pub modes: List<ModeId>,
    /// 1 to the counter's greatest value.
    pub start: u32,
    /// The counter's least cycle to its greatest value; 0 if the alarm expires once.
    pub cycle: u32,
}

/// An alarm (OSEK/VDX OS 2.2.3, section 9.2).
#[derive(Clone, Debug, Drop)]
pub struct Alarm {
    pub name: Name,
    /// The counter, which is on the same core.
    pub counter: CounterRef,
    /// The action when the alarm expires (OsAlarmAction). The task of the action may be on another core.
    pub action: RemoteCall,
    pub auto: Option<AlarmStart>,
}

/// What a schedule table does at one offset of its period (AUTOSAR SWS OS 4.x, OsScheduleTableExpiryPoint).
#[derive(Clone, Debug, Drop)]
pub struct ExpiryPoint {
    /// 0 to the table's duration, greater than that of the point before.
    pub offset: u32,
    /// 1 to 8 actions. All activations come before all settings of events.
    pub actions: List<RemoteCall>,
}

/// How a schedule table is autostarted: in which application modes, and after how many counts its first period begins
/// (AUTOSAR SWS OS 4.x, OsScheduleTableAutostart).
#[derive(Clone, Debug, Drop)]
pub struct TableStart {
    pub modes: List<ModeId>,
    /// 1 to the counter's greatest value less the offset of the first point.
    pub offset: u32,
}

/// A schedule table (AUTOSAR SWS OS 4.x, OsScheduleTable).
#[derive(Clone, Debug, Drop)]
pub struct Table {
    pub name: Name,
    /// The counter, which is on the same core.
    pub counter: CounterRef,
    /// The counts of a period, 1 to 1,000,000,000 (OsScheduleTableDuration).
    pub duration: u32,
    /// Whether another period follows each (OsScheduleTableRepeating).
    pub repeating: bool,
    /// 1 to 16 points by ascending offset.
    pub points: List<ExpiryPoint>,
    pub auto: Option<TableStart>,
}

/// A core and its objects, each kind in the order of the configuration.
#[derive(Clone, Debug, Drop)]
pub struct Core {
    pub id: CoreId,
    pub mode: CoreMode,
    /// The cores that it starts before StartOS, configured or not.
    pub start: List<CoreId>,
    /// What it does when a job has used up its execution budget, or the lock budget of a resource.
    pub protection: Protection,
    pub tasks: List<Task>,
    pub isrs: List<Isr>,
    pub resources: List<Resource>,
    pub counters: List<Counter>,
    pub alarms: List<Alarm>,
    pub tables: List<Table>,
}

/// A spinlock, which all cores have in common (AUTOSAR SWS OS 4.x, OsSpinlock).
#[derive(Debug, Drop)]
pub struct Spinlock {
    pub name: Name,
    /// The spinlock that comes next after this one: a job that holds this one may ask for the next and those after it
    /// (OsSpinlockSuccessor).
    pub next: Option<SpinlockId>,
}

/// A configuration as data, within the limits or not.
#[derive(Debug, Drop)]
pub struct Plan {
    /// The version of the format: 1, or 2, which allows 16 cores in place of 8.
    pub version: u8,
    /// How many envelopes the mailbox of an ordered pair of cores holds.
    pub cap: u8,
    /// The core that runs from the beginning.
    pub master: CoreId,
    /// The application modes by name.
    pub modes: List<Name>,
    pub spinlocks: List<Spinlock>,
    pub cores: List<Core>,
}

/// A configuration that is within the limits and that a text can represent: its names are well-formed and all
/// different. All its references name objects of it.
#[derive(Debug, Drop)]
pub struct Config {
    plan: Plan,
}

impl Model for Config {
    ghost use Rattle.std.specs.Prelude.{IsTrue};
    ghost use Rattle.osplan.specs.{declared.plans.Plan.Plan, Limits.is_within_limits, Representable.is_representable};

    ghost Value = { Plan };

    ghost view = { λ c. c.plan };

    ghost invariant = { λ c. IsTrue (is_within_limits c.plan) × IsTrue (is_representable c.plan) };
}

impl Config {
    /// The configuration of a plan that is within the limits and representable.
    pub fn new(plan: Plan) -> Self
        requires limits { IsTrue (is_within_limits plan) }
        requires representable { IsTrue (is_representable plan) }
        ensures { result ≡ plan }
    {
        Config { plan }
    }

    /// The configuration's data.
    pub fn plan(&self) -> &Plan
        ensures value { result.now ≡ self.now }
        ensures limits { IsTrue (is_within_limits self.now) }
        ensures representable { IsTrue (is_representable self.now) }
    {
        &self.plan
    }
}

/// The kinds of a core's objects, in the order in which a configuration names them.
pub const KINDS: [ObjectKind; 6] = [
    ObjectKind::Task,
    ObjectKind::Isr,
    ObjectKind::Resource,
    ObjectKind::Counter,
    ObjectKind::Alarm,
    ObjectKind::Table,
];

/// The kinds of the objects that all cores have in common.
pub const COMMON: [ObjectKind; 2] = [ObjectKind::Mode, ObjectKind::Spinlock];

impl Core {
    /// Whether the object is one of the core's own.
    pub fn has(&self, object: Object) -> bool
        ensures { result ≡ is_own_object self.now object }
    {
        object.place.core.number == self.id.number
            && usize::from(object.place.index) < self.count(object.kind)
    }

    /// Whether the core knows the stimulus: an operation or a tick always, an interrupt if the ISR is one of its own.
    pub fn knows(&self, stimulus: Stimulus) -> bool
        ensures { result ≡ knows_stimulus self.now stimulus }
    {
        match stimulus {
            Stimulus::Op => true,
            Stimulus::Tick => true,
            Stimulus::Irq(isr) => isr_of(self, isr).is_some(),
        }
    }

    /// How many objects of a kind the core has.
    pub fn count(&self, kind: ObjectKind) -> usize
        ensures { result ≡ object_count kind self.now }
    {
        match kind {
            ObjectKind::Mode | ObjectKind::Spinlock => 0,
            ObjectKind::Task => self.tasks.len(),
            ObjectKind::Isr => self.isrs.len(),
            ObjectKind::Resource => self.resources.len(),
            ObjectKind::Counter => self.counters.len(),
            ObjectKind::Alarm => self.alarms.len(),
            ObjectKind::Table => self.tables.len(),
        }
    }

    /// The name of the core's object of this kind and index, if there is one.
    #[tactic(auto, using(crate::proofs::Tests::get_mapped))]
    pub(crate) fn name_at(&self, kind: ObjectKind, index: usize) -> Option<&str>
        ensures { option_copied result ≡ slice_get (names_in kind self.now) index }
    {
        match kind {
            ObjectKind::Mode | ObjectKind::Spinlock => None,
            ObjectKind::Task => match self.tasks.as_slice().get(index) {
                Some(task) => Some(task.name.as_str()),
                None => None,
            },
            ObjectKind::Isr => match self.isrs.as_slice().get(index) {
                Some(isr) => Some(isr.name.as_str()),
                None => None,
            },
            ObjectKind::Resource => match self.resources.as_slice().get(index) {
                Some(resource) => Some(resource.name.as_str()),
                None => None,
            },
            ObjectKind::Counter => match self.counters.as_slice().get(index) {
                Some(counter) => Some(counter.name.as_str()),
                None => None,
            },
            ObjectKind::Alarm => match self.alarms.as_slice().get(index) {
                Some(alarm) => Some(alarm.name.as_str()),
                None => None,
            },
            ObjectKind::Table => match self.tables.as_slice().get(index) {
                Some(table) => Some(table.name.as_str()),
                None => None,
            },
        }
    }
}

impl Plan {
    /// The core of this number, if one is configured.
    pub fn core(&self, id: CoreId) -> Option<&Core>
        ensures { option_copied result ≡ core_of self.now id }
    {
        self.cores
            .as_slice()
            .iter()
            .find(|core| core.id.number == id.number)
    }

    /// How many objects of a kind all cores have in common.
    pub fn common_count(&self, kind: ObjectKind) -> usize
        ensures { result ≡ length (common_names kind self.now) }
    {
        match kind {
            ObjectKind::Mode => self.modes.len(),
            ObjectKind::Spinlock => self.spinlocks.len(),
            _ => 0,
        }
    }
}
