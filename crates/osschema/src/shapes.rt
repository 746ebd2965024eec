//! The shape of a configuration: its members and their types, and the limits of its numbers. Limits, and what names
//! refer to, are judged after the shape. Texts are borrowed from the value that is read.

ghost use Rattle.std.specs.Prelude.{◌≡◌, [], ◌∷◌, IfOk, IsTrue, codes, map, option_copied, option_map, true};
ghost use Rattle.std.specs.List.{list_all};
ghost use Rattle.osbase.specs.Names.{is_name};
ghost use Rattle.osplan.specs.Limits.{is_counter_within, is_isr_within, is_resource_within, is_start_within, is_task_within};
ghost use Rattle.osjson.specs.{Json.each_of, Json.member_or, Reading.Gives};
ghost use Rattle.serde_json.specs.View.{view};
ghost use Rattle.osschema.specs.{Declarations.declared_sizes, declared.shapes.Named.Named as NamedValue};
ghost use Rattle.osschema.specs.Shape.{task_sizes, isr_sizes, resource_sizes, counter_sizes, start_numbers, task_shape, isr_shape, resource_shape, counter_shape, alarm_start_shape, alarm_shape, common_in, core_shape, config_shape, has_named_objects, is_named, mode_shape, numbered, objects_in, protection_of, settings_shape, spinlock_shape, unnumbered};

use crate::declarations::Declaration;
use crate::numbers::{is_between, is_budget, most_activations};
use crate::table_shapes::{TableReader, TableText};
use osbase::{GREATEST_VALUE, LEVELS, List, ObjectKind};
use osjson::{
    BoolReader, JsonReader, ListOf, NameReader, OrNull, Refusal, Text, TextReader, Whole,
    WholeReader, at, at_or, only_members,
};
use osplan::Protection;
use serde_json::Value;
use std::alloc::{AllocError, Global};

/// A task as a text has it.
#[derive(Drop)]
pub struct TaskText<'v> {
    pub name: Text<'v>,
    pub prio: Whole,
    pub auto: List<Text<'v>>,
    pub activations: Whole,
    pub extended: bool,
    pub preemptable: bool,
    pub budget: Whole,
    pub script: Text<'v>,
}

impl TaskText<'_> {
    /// Whether the task's numbers keep their limits.
    pub fn is_within(&self) -> bool
        ensures { result ≡ is_task_within (task_sizes self.now) }
    {
        is_between(0, 31, self.prio)
            && is_between(1, most_activations(self.extended), self.activations)
            && is_budget(self.budget)
    }
}

/// An ISR as a text has it.
#[derive(Drop)]
pub struct IsrText<'v> {
    pub name: Text<'v>,
    pub level: Whole,
    pub budget: Whole,
    pub script: Text<'v>,
}

impl IsrText<'_> {
    /// Whether the ISR's numbers keep their limits.
    pub fn is_within(&self) -> bool
        ensures { result ≡ is_isr_within (isr_sizes self.now) }
    {
        is_between(1, LEVELS, self.level) && is_budget(self.budget)
    }
}

/// A resource as a text has it.
#[derive(Drop)]
pub struct ResourceText<'v> {
    pub name: Text<'v>,
    pub ceiling: Whole,
    pub lock: Whole,
}

impl ResourceText<'_> {
    /// Whether the resource's numbers keep their limits.
    pub fn is_within(&self) -> bool
        ensures { result ≡ is_resource_within (resource_sizes self.now) }
    {
        is_between(0, 31, self.ceiling) && is_budget(self.lock)
    }
}

/// A counter as a text has it.
#[derive(Drop)]
pub struct CounterText<'v> {
    pub name: Text<'v>,
    pub max: Whole,
    pub min: Whole,
    pub software: bool,
}

impl CounterText<'_> {
    /// Whether the counter's numbers keep their limits.
    pub fn is_within(&self) -> bool
        ensures { result ≡ is_counter_within (counter_sizes self.now) }
    {
        is_between(1, GREATEST_VALUE, self.max) && is_between(1, self.max.unwrap_or(0), self.min)
    }
}

/// How an alarm is autostarted, as a text has it.
#[derive(Drop)]
pub struct AlarmStartText<'v> {
    pub modes: List<Text<'v>>,
    pub start: Whole,
    pub cycle: Whole,
}

impl AlarmStartText<'_> {
    /// Whether the start and the cycle are within the limits that this counter sets. Without a counter, any numbers
    /// pass.
    pub fn is_within(&self, counter: Option<&Declaration>) -> bool
        ensures { result ≡ is_start_within (start_numbers (option_map declared_sizes (option_copied counter.entry)) self.now) }
    {
        match counter {
            Some(counter) => {
                let (least, greatest) = (counter.min.unwrap_or(0), counter.max.unwrap_or(0));
                is_between(1, greatest, self.start)
                    && (is_between(0, 0, self.cycle) || is_between(least, greatest, self.cycle))
            }
            None => true,
        }
    }
}

/// An alarm as a text has it.
#[derive(Drop)]
pub struct AlarmText<'v> {
    pub name: Text<'v>,
    pub counter: Text<'v>,
    pub action: Text<'v>,
    pub auto: Option<AlarmStartText<'v>>,
}

/// A core as a text has it.
#[derive(Drop)]
pub struct CoreText<'v> {
    pub id: Whole,
    /// None if the text does not give it.
    pub mode: Option<Text<'v>>,
    pub start: List<Whole>,
    pub protection: Protection,
    pub tasks: List<TaskText<'v>>,
    pub isrs: List<IsrText<'v>>,
    pub resources: List<ResourceText<'v>>,
    pub counters: List<CounterText<'v>>,
    pub alarms: List<AlarmText<'v>>,
    pub tables: List<TableText<'v>>,
}

/// A spinlock as a text has it.
#[derive(Drop)]
pub struct SpinlockText<'v> {
    pub name: Text<'v>,
    /// The name of its successor in the order in which spinlocks may be got, if it has one.
    pub next: Option<Text<'v>>,
}

/// An object of any kind as it is declared: its name, and for a counter its greatest value and its least cycle.
#[derive(Drop)]
pub struct Named<'v> {
    pub name: Text<'v>,
    pub max: Whole,
    pub min: Whole,
}

/// A part of a text that declares an object.
trait Declared<'v> {
    ghost named: { Self → NamedValue };

    // The object that the part declares.
    fn named(&self) -> Named<'v>
        ensures { result ≡ named self.now };
}

// An object of this name that is no counter, so it has no numbers.
fn unnumbered<'v>(name: &Text<'v>) -> Named<'v>
    ensures { result ≡ unnumbered name.now }
{
    Named {
        name: Text::of(name.as_str()),
        max: None,
        min: None,
    }
}

/// A mode has only a name.
impl<'v> Declared<'v> for Text<'v> {
    ghost named = { unnumbered };

    fn named(&self) -> Named<'v> {
        unnumbered(self)
    }
}

impl<'v> Declared<'v> for SpinlockText<'v> {
    ghost named = { λ spinlock. unnumbered spinlock.name };

    fn named(&self) -> Named<'v> {
        unnumbered(&self.name)
    }
}

impl<'v> Declared<'v> for TaskText<'v> {
    ghost named = { λ task. unnumbered task.name };

    fn named(&self) -> Named<'v> {
        unnumbered(&self.name)
    }
}

impl<'v> Declared<'v> for IsrText<'v> {
    ghost named = { λ isr. unnumbered isr.name };

    fn named(&self) -> Named<'v> {
        unnumbered(&self.name)
    }
}

impl<'v> Declared<'v> for ResourceText<'v> {
    ghost named = { λ resource. unnumbered resource.name };

    fn named(&self) -> Named<'v> {
        unnumbered(&self.name)
    }
}

impl<'v> Declared<'v> for CounterText<'v> {
    ghost named = { numbered };

    fn named(&self) -> Named<'v> {
        Named {
            name: Text::of(self.name.as_str()),
            max: self.max,
            min: self.min,
        }
    }
}

impl<'v> Declared<'v> for AlarmText<'v> {
    ghost named = { λ alarm. unnumbered alarm.name };

    fn named(&self) -> Named<'v> {
        unnumbered(&self.name)
    }
}

impl<'v> Declared<'v> for TableText<'v> {
    ghost named = { λ table. unnumbered table.name };

    fn named(&self) -> Named<'v> {
        unnumbered(&self.name)
    }
}

// The objects that these parts of a text declare, one for each part, in the order of the parts.
fn each_named<'v, T: Declared<'v>>(
    alloc: Global,
    objects: &List<T>,
) -> Result<List<Named<'v>>, AllocError>
    ensures { IfOk result (λ each. each ≡ map T.named objects.now) }
{
    let mut each = List::new(alloc);
    for object in objects.as_slice() {
        each.push(object.named())?;
    }
    Ok(each)
}

impl<'v> CoreText<'v> {
    /// The core's objects of this kind as they are declared, in the order of the text. Modes and spinlocks are no
    /// core's own.
    pub(crate) fn objects(
        &self,
        alloc: Global,
        kind: ObjectKind,
    ) -> Result<List<Named<'v>>, AllocError>
        ensures { IfOk result (λ objects. objects ≡ objects_in kind self.now) }
    {
        match kind {
            ObjectKind::Mode | ObjectKind::Spinlock => Ok(List::new(alloc)),
            ObjectKind::Task => each_named(alloc, &self.tasks),
            ObjectKind::Isr => each_named(alloc, &self.isrs),
            ObjectKind::Resource => each_named(alloc, &self.resources),
            ObjectKind::Counter => each_named(alloc, &self.counters),
            ObjectKind::Alarm => each_named(alloc, &self.alarms),
            ObjectKind::Table => each_named(alloc, &self.tables),
        }
    }
}

/// A configuration as a text has it.
#[derive(Drop)]
pub struct ConfigText<'v> {
    pub version: Whole,
    pub cap: Whole,
    pub master: Whole,
    pub modes: List<Text<'v>>,
    pub spinlocks: List<SpinlockText<'v>>,
    pub cores: List<CoreText<'v>>,
}

impl<'v> ConfigText<'v> {
    /// The objects of this kind that all cores have in common, as they are declared, in the order of the text. Only
    /// modes and spinlocks are such.
    pub(crate) fn common(
        &self,
        alloc: Global,
        kind: ObjectKind,
    ) -> Result<List<Named<'v>>, AllocError>
        ensures { IfOk result (λ objects. objects ≡ common_in kind self.now) }
    {
        match kind {
            ObjectKind::Mode => each_named(alloc, &self.modes),
            ObjectKind::Spinlock => each_named(alloc, &self.spinlocks),
            _ => Ok(List::new(alloc)),
        }
    }
}

// The list that is the member with this key, each element as the reader reads it. The list is empty if the member is
// left out. `Unfit` if the member is no list, or an element does not have the reader's shape.
fn list_at<'v, U: Drop, R: JsonReader<'v, U> + Copy>(
    alloc: Global,
    value: &'v Value,
    key: &str,
    reader: R,
) -> Result<List<U>, Refusal>
    ensures shape { Gives (λ x. x) result (member_or (each_of (R.shape reader)) [] key.now (view value.now)) }
    ensures passes { IfOk result (λ xs. IsTrue (list_all (R.passes reader) xs)) }
{
    at_or(alloc, value, key, &ListOf { of: reader }, List::new(alloc))
}

// Reads a task.
#[derive(Clone, Copy)]
struct TaskReader;

impl<'v> JsonReader<'v, TaskText<'v>> for TaskReader {
    ghost shape = { λ _ d. task_shape d };

    ghost passes = { λ _ task. is_name task.name };

    #[tactic(auto, unfolding(crate::specs::Shape::task_shape))]
    fn read(&self, alloc: Global, value: &'v Value) -> Result<TaskText<'v>, Refusal> {
        only_members(
            value,
            &[
                "name",
                "prio",
                "auto",
                "activations",
                "extended",
                "preemptable",
                "budget",
                "script",
            ],
        )?;
        Ok(TaskText {
            name: at(alloc, value, "name", &NameReader)?,
            prio: at(alloc, value, "prio", &WholeReader)?,
            auto: list_at(alloc, value, "auto", NameReader)?,
            activations: at_or(alloc, value, "activations", &WholeReader, Some(1))?,
            extended: at_or(alloc, value, "extended", &BoolReader, false)?,
            preemptable: at_or(alloc, value, "preemptable", &BoolReader, true)?,
            budget: at_or(alloc, value, "budget", &WholeReader, Some(0))?,
            script: at(alloc, value, "script", &TextReader)?,
        })
    }
}

// Reads an ISR.
#[derive(Clone, Copy)]
struct IsrReader;

impl<'v> JsonReader<'v, IsrText<'v>> for IsrReader {
    ghost shape = { λ _ d. isr_shape d };

    ghost passes = { λ _ isr. is_name isr.name };

    #[tactic(auto, unfolding(crate::specs::Shape::isr_shape))]
    fn read(&self, alloc: Global, value: &'v Value) -> Result<IsrText<'v>, Refusal> {
        only_members(value, &["name", "level", "budget", "script"])?;
        Ok(IsrText {
            name: at(alloc, value, "name", &NameReader)?,
            level: at(alloc, value, "level", &WholeReader)?,
            budget: at_or(alloc, value, "budget", &WholeReader, Some(0))?,
            script: at(alloc, value, "script", &TextReader)?,
        })
    }
}

// Reads a resource.
#[derive(Clone, Copy)]
struct ResourceReader;

impl<'v> JsonReader<'v, ResourceText<'v>> for ResourceReader {
    ghost shape = { λ _ d. resource_shape d };

    ghost passes = { λ _ resource. is_name resource.name };

    #[tactic(auto, unfolding(crate::specs::Shape::resource_shape))]
    fn read(&self, alloc: Global, value: &'v Value) -> Result<ResourceText<'v>, Refusal> {
        only_members(value, &["name", "ceiling", "lock"])?;
        Ok(ResourceText {
            name: at(alloc, value, "name", &NameReader)?,
            ceiling: at(alloc, value, "ceiling", &WholeReader)?,
            lock: at_or(alloc, value, "lock", &WholeReader, Some(0))?,
        })
    }
}

// Reads a counter.
#[derive(Clone, Copy)]
struct CounterReader;

impl<'v> JsonReader<'v, CounterText<'v>> for CounterReader {
    ghost shape = { λ _ d. counter_shape d };

    ghost passes = { λ _ counter. is_name counter.name };

    #[tactic(auto, unfolding(crate::specs::Shape::counter_shape))]
    fn read(&self, alloc: Global, value: &'v Value) -> Result<CounterText<'v>, Refusal> {
        only_members(value, &["name", "max", "min", "software"])?;
        Ok(CounterText {
            name: at(alloc, value, "name", &NameReader)?,
            max: at(alloc, value, "max", &WholeReader)?,
            min: at_or(alloc, value, "min", &WholeReader, Some(1))?,
            software: at_or(alloc, value, "software", &BoolReader, false)?,
        })
    }
}

// Reads how an alarm is autostarted.
#[derive(Clone, Copy)]
struct AlarmStartReader;

impl<'v> JsonReader<'v, AlarmStartText<'v>> for AlarmStartReader {
    ghost shape = { λ _ d. alarm_start_shape d };

    ghost passes = { λ _ _. true };

    #[tactic(auto, unfolding(crate::specs::Shape::alarm_start_shape))]
    fn read(&self, alloc: Global, value: &'v Value) -> Result<AlarmStartText<'v>, Refusal> {
        only_members(value, &["modes", "start", "cycle"])?;
        Ok(AlarmStartText {
            modes: at(alloc, value, "modes", &ListOf { of: NameReader })?,
            start: at(alloc, value, "start", &WholeReader)?,
            cycle: at(alloc, value, "cycle", &WholeReader)?,
        })
    }
}

// Reads an alarm.
#[derive(Clone, Copy)]
struct AlarmReader;

impl<'v> JsonReader<'v, AlarmText<'v>> for AlarmReader {
    ghost shape = { λ _ d. alarm_shape d };

    ghost passes = { λ _ alarm. is_name alarm.name };

    #[tactic(auto, unfolding(crate::specs::Shape::alarm_shape))]
    fn read(&self, alloc: Global, value: &'v Value) -> Result<AlarmText<'v>, Refusal> {
        only_members(value, &["name", "counter", "action", "auto"])?;
        Ok(AlarmText {
            name: at(alloc, value, "name", &NameReader)?,
            counter: at(alloc, value, "counter", &NameReader)?,
            action: at(alloc, value, "action", &TextReader)?,
            auto: at_or(
                alloc,
                value,
                "auto",
                &OrNull {
                    of: AlarmStartReader,
                },
                None,
            )?,
        })
    }
}

// Reads a spinlock.
#[derive(Clone, Copy)]
struct SpinlockReader;

impl<'v> JsonReader<'v, SpinlockText<'v>> for SpinlockReader {
    ghost shape = { λ _ d. spinlock_shape d };

    ghost passes = { λ _ spinlock. is_name spinlock.name };

    #[tactic(auto, unfolding(crate::specs::Shape::spinlock_shape))]
    fn read(&self, alloc: Global, value: &'v Value) -> Result<SpinlockText<'v>, Refusal> {
        only_members(value, &["name", "next"])?;
        Ok(SpinlockText {
            name: at(alloc, value, "name", &NameReader)?,
            next: at_or(alloc, value, "next", &OrNull { of: NameReader }, None)?,
        })
    }
}

// Reads how a core answers a time fault.
#[derive(Clone, Copy)]
struct ProtectionReader;

impl<'v> JsonReader<'v, Protection> for ProtectionReader {
    ghost shape = { λ _ d. protection_of d };

    ghost passes = { λ _ _. true };

    fn read(&self, _alloc: Global, value: &'v Value) -> Result<Protection, Refusal> {
        let word = value.as_str().ok_or(Refusal::Unfit)?;
        Protection::named(word).ok_or(Refusal::Unfit)
    }
}

// Reads the mode of a core.
#[derive(Clone, Copy)]
struct ModeReader;

impl<'v> JsonReader<'v, Option<Text<'v>>> for ModeReader {
    ghost shape = { λ _ d. mode_shape d };

    ghost passes = { λ _ _. true };

    fn read(&self, alloc: Global, value: &'v Value) -> Result<Option<Text<'v>>, Refusal> {
        Ok(Some(NameReader.read(alloc, value)?))
    }
}

// The modes of a text that gives none: one mode, `M`.
fn default_modes<'v>(alloc: Global) -> Result<List<Text<'v>>, AllocError>
    ensures { IfOk result (λ modes. modes ≡ codes "M" ∷ []) }
{
    let mut modes = List::new(alloc);
    modes.push(Text::of("M"))?;
    Ok(modes)
}

// What a core's text says of the core itself.
#[derive(Drop)]
struct CoreSettings<'v> {
    id: Whole,
    mode: Option<Text<'v>>,
    start: List<Whole>,
    protection: Protection,
}

// Reads a core's number, its mode, the cores that it starts, and how it answers a time fault.
#[tactic(auto, unfolding(crate::specs::Shape::settings_shape))]
fn read_settings<'v>(alloc: Global, value: &'v Value) -> Result<CoreSettings<'v>, Refusal>
    ensures { Gives (λ x. x) result (settings_shape (view value.now)) }
{
    Ok(CoreSettings {
        id: at(alloc, value, "id", &WholeReader)?,
        mode: at_or(alloc, value, "mode", &ModeReader, None)?,
        start: list_at(alloc, value, "start", WholeReader)?,
        protection: at_or(
            alloc,
            value,
            "protection",
            &ProtectionReader,
            Protection::Shutdown,
        )?,
    })
}

// Reads a core.
#[derive(Clone, Copy)]
struct CoreReader;

impl<'v> JsonReader<'v, CoreText<'v>> for CoreReader {
    ghost shape = { λ _ d. core_shape d };

    ghost passes = { λ _ core. has_named_objects core };

    #[tactic(auto, unfolding(crate::specs::Shape::core_shape), using(crate::proofs::Lists::mapped))]
    fn read(&self, alloc: Global, value: &'v Value) -> Result<CoreText<'v>, Refusal> {
        only_members(
            value,
            &[
                "id",
                "mode",
                "start",
                "protection",
                "tasks",
                "isrs",
                "resources",
                "counters",
                "alarms",
                "tables",
            ],
        )?;
        let settings = read_settings(alloc, value)?;
        Ok(CoreText {
            id: settings.id,
            mode: settings.mode,
            start: settings.start,
            protection: settings.protection,
            tasks: list_at(alloc, value, "tasks", TaskReader)?,
            isrs: list_at(alloc, value, "isrs", IsrReader)?,
            resources: list_at(alloc, value, "resources", ResourceReader)?,
            counters: list_at(alloc, value, "counters", CounterReader)?,
            alarms: list_at(alloc, value, "alarms", AlarmReader)?,
            tables: list_at(alloc, value, "tables", TableReader)?,
        })
    }
}

/// Reads a configuration. `Unfit` where a member is missing, unknown or of another type.
#[derive(Clone, Copy)]
pub struct ConfigReader;

impl<'v> JsonReader<'v, ConfigText<'v>> for ConfigReader {
    ghost shape = { λ _ d. config_shape d };

    ghost passes = { λ _ config. is_named config };

    #[tactic(auto, unfolding(crate::specs::Shape::config_shape), using(crate::proofs::Lists::mapped))]
    fn read(&self, alloc: Global, value: &'v Value) -> Result<ConfigText<'v>, Refusal> {
        only_members(
            value,
            &["version", "cap", "master", "modes", "spinlocks", "cores"],
        )?;
        let names = ListOf { of: NameReader };
        Ok(ConfigText {
            version: at_or(alloc, value, "version", &WholeReader, Some(1))?,
            cap: at_or(alloc, value, "cap", &WholeReader, Some(16))?,
            master: at_or(alloc, value, "master", &WholeReader, Some(0))?,
            modes: at_or(alloc, value, "modes", &names, default_modes(alloc)?)?,
            spinlocks: list_at(alloc, value, "spinlocks", SpinlockReader)?,
            cores: at(alloc, value, "cores", &ListOf { of: CoreReader })?,
        })
    }
}
