//! The tests of a text that has the shape of a configuration: one for each fault, in ascending order.

ghost use Rattle.std.specs.Prelude.{◌≡◌, ◌&&◌, ◌-◌, ◌<◌, ◌≤◌, ◌^◌, true, Some, length, map, sum_by};
ghost use Rattle.std.specs.List.{list_all};
ghost use Rattle.osschema.specs.{declared.shapes.AlarmText.AlarmText as Alarm, declared.shapes.CoreText.CoreText as Core, declared.shapes.CounterText.CounterText as Counter, declared.shapes.IsrText.IsrText as Isr, declared.shapes.ResourceText.ResourceText as Resource, declared.shapes.TaskText.TaskText as Task, Declarations.declarations};
ghost use Rattle.osplan.specs.Limits.{are_alarms_within, are_counters_within, are_isrs_within, are_numbers_distinct, cores_by, has_number, is_alarm_within, is_between, is_core_numbered, is_counter_within, is_isr_within, is_resource_within, is_second_version, is_start, is_task_within, is_versioned, jobs_of, most_cores, most_of, same_number};
ghost use Rattle.osbase.specs.declared.objects.ObjectKind.{ObjectKind};
ghost use Rattle.osplan.specs.Fault.{failing, first_fault};
ghost use Rattle.osplan.specs.Spinlocks as plans;
ghost use Rattle.osvalidate.specs.{Few.are_objects_few, Few.is_core_few, Verdict.text_verdict};
ghost use Rattle.osvalidate.specs.Check.{is_text_numbered, task_sizes, isr_sizes, resource_sizes, counter_sizes, alarm_sizes, bare_sizes, core_sizes, numbers_of, is_text_within, sizes_of, is_unreserved, is_each_once, is_core_mode_known, is_mode_known, is_spinlock_known, alarm_modes, are_timed, links_of, tests_of};

use crate::table_checks::{are_posted_few, are_tables_timed, are_tables_within};
use crate::verdicts::Verdict;
use osbase::{
    ALARMS, CORES, COUNTERS, FIRST_CORES, ISRS, JOBS, MODES, ObjectKind, RESOURCES, SPINLOCKS,
    TABLES, TASKS,
};
use osjson::{Text, Whole};
use osplan::spinlocks::are_links_ordered;
use osplan::{ConfFault, DONT_CARE, Spinlock, is_reserved};
use osschema::{
    AlarmText, ConfigText, CoreText, CounterText, IsrText, Objects, ResourceText, SpinlockText,
    TaskText, is_between,
};
use ossyntax::Places;

fn is_each_isr_within(isrs: &[IsrText]) -> bool
    ensures { result ≡ list_all (λ (isr : Isr). is_isr_within (isr_sizes isr)) isrs.now }
{
    isrs.iter().all(|isr| isr.is_within())
}

// Whether each ISR is within its limits, and there are not too many.
#[tactic(auto, using(crate::proofs::Numbers::mapped))]
fn are_isrs_within(isrs: &[IsrText]) -> bool
    ensures { result ≡ are_isrs_within (map isr_sizes isrs.now) }
{
    isrs.len() <= ISRS && is_each_isr_within(isrs)
}

// Whether each number of a core's start list is 0 to 255. The core of that number need not be configured.
fn are_starts_within(numbers: &[Whole]) -> bool
    ensures { result ≡ list_all is_start numbers.now }
{
    numbers.iter().all(|number| is_between(0, 255, *number))
}

// Whether each task is within its limits.
fn are_tasks_within(tasks: &[TaskText]) -> bool
    ensures { result ≡ list_all (λ (task : Task). is_task_within (task_sizes task)) tasks.now }
{
    tasks.iter().all(|task| task.is_within())
}

// How many jobs of all these tasks there may be at once.
fn jobs_of_all(tasks: &[TaskText]) -> u64
    requires { sum_by (λ (task : Task). jobs_of (task_sizes task)) tasks.now < 2 ^ 64 }
    ensures { result ≡ sum_by (λ (task : Task). jobs_of (task_sizes task)) tasks.now }
{
    tasks.iter().map(|task| task.activations.unwrap_or(0)).sum()
}

// Whether each resource is within its limits.
fn are_resources_within(resources: &[ResourceText]) -> bool
    ensures { result ≡ list_all (λ (resource : Resource). is_resource_within (resource_sizes resource)) resources.now }
{
    resources.iter().all(|resource| resource.is_within())
}

fn is_each_counter_within(counters: &[CounterText]) -> bool
    ensures { result ≡ list_all (λ (counter : Counter). is_counter_within (counter_sizes counter)) counters.now }
{
    counters.iter().all(|counter| counter.is_within())
}

// Whether each counter is within its limits, and there are not too many.
#[tactic(auto, using(crate::proofs::Numbers::mapped))]
fn are_counters_within(counters: &[CounterText]) -> bool
    ensures { result ≡ are_counters_within (map counter_sizes counters.now) }
{
    counters.len() <= COUNTERS && is_each_counter_within(counters)
}

// Whether the alarm's autostart, if it has one, is within the limits that the alarm's counter sets.
fn is_alarm_within(objects: &Objects, alarm: &AlarmText) -> bool
    ensures { result ≡ is_alarm_within (alarm_sizes objects.now.declared alarm.now) }
{
    match &alarm.auto {
        Some(auto) => auto.is_within(objects.counter(alarm.counter.as_str())),
        None => true,
    }
}

fn is_each_alarm_within(objects: &Objects, alarms: &[AlarmText]) -> bool
    ensures { result ≡ list_all (λ (alarm : Alarm). is_alarm_within (alarm_sizes objects.now.declared alarm)) alarms.now }
{
    alarms.iter().all(|alarm| is_alarm_within(objects, alarm))
}

// Whether each alarm is within its limits, and there are not too many.
#[tactic(auto, using(crate::proofs::Numbers::mapped))]
fn are_alarms_within(objects: &Objects, alarms: &[AlarmText]) -> bool
    ensures { result ≡ are_alarms_within (map (alarm_sizes objects.now.declared) alarms.now) }
{
    alarms.len() <= ALARMS && is_each_alarm_within(objects, alarms)
}

// Whether the core's number, start list, tasks, jobs at once, ISRs and resources are within their limits.
#[tactic(auto, using(crate::proofs::Numbers::mapped, crate::proofs::Numbers::few_jobs, crate::proofs::Counting::all_true))]
fn is_bare_core_numbered(core: &CoreText) -> bool
    ensures { result ≡ is_core_numbered (bare_sizes core.now) }
{
    // The sum fits, since the tasks are judged before it.
    let tasks = core.tasks.as_slice();
    is_between(0, 15, core.id)
        && are_starts_within(core.start.as_slice())
        && tasks.len() <= TASKS
        && are_tasks_within(tasks)
        && jobs_of_all(tasks) <= JOBS
        && are_isrs_within(core.isrs.as_slice())
        && core.resources.len() <= RESOURCES
        && are_resources_within(core.resources.as_slice())
}

// Whether the core is within its limits, apart from the lengths of its scripts.
#[tactic(auto, using(crate::proofs::Counting::bare_split))]
fn is_core_numbered(objects: &Objects, core: &CoreText) -> bool
    ensures { result ≡ is_core_numbered (core_sizes objects.now.declared core.now) }
{
    is_bare_core_numbered(core)
        && are_counters_within(core.counters.as_slice())
        && are_alarms_within(objects, core.alarms.as_slice())
        && are_tables_within(objects, core.tables.as_slice())
        && are_posted_few(objects, core)
}

// Whether each core is within its limits, apart from the lengths of its scripts.
fn are_cores_numbered(objects: &Objects, cores: &[CoreText]) -> bool
    ensures { result ≡ list_all (λ (core : Core). is_core_numbered (core_sizes objects.now.declared core)) cores.now }
{
    cores.iter().all(|core| is_core_numbered(objects, core))
}

// Whether there are 1 to 16 cores, and each is within its limits, apart from the lengths of its scripts.
fn are_cores_within(objects: &Objects, cores: &[CoreText]) -> bool
    ensures { result ≡ (is_between 1 most_cores (Some (length cores.now)) && list_all (λ (core : Core). is_core_numbered (core_sizes objects.now.declared core)) cores.now) }
{
    1 <= cores.len() && cores.len() <= CORES && are_cores_numbered(objects, cores)
}

// Whether the core has no more objects of each kind than it may have.
#[tactic(auto, using(crate::proofs::Numbers::mapped))]
fn is_core_few(core: &CoreText) -> bool
    ensures { result ≡ is_core_few core.now }
{
    core.tasks.len() <= TASKS
        && core.isrs.len() <= ISRS
        && core.resources.len() <= RESOURCES
        && core.counters.len() <= COUNTERS
        && core.alarms.len() <= ALARMS
        && core.tables.len() <= TABLES
}

// Whether no core has more objects of a kind than it may have.
fn are_cores_few(cores: &[CoreText]) -> bool
    ensures { result ≡ list_all is_core_few cores.now }
{
    cores.iter().all(is_core_few)
}

/// Whether the text has no more modes, spinlocks and cores than it may have, and each core no more objects of each
/// kind.
#[tactic(auto, using(crate::proofs::Numbers::mapped))]
pub fn are_objects_few(text: &ConfigText) -> bool
    ensures { result ≡ are_objects_few text.now }
{
    text.modes.len() <= MODES
        && text.spinlocks.len() <= SPINLOCKS
        && text.cores.len() <= CORES
        && are_cores_few(text.cores.as_slice())
}

// Whether the text has an application mode, and not too many.
fn are_modes_within(text: &ConfigText) -> bool
    ensures { result ≡ is_between 1 (most_of ObjectKind.Mode) (Some (length text.now.modes)) }
{
    1 <= text.modes.len() && text.modes.len() <= MODES
}

// Whether this is the second version of the format.
fn is_second_version(version: Whole) -> bool
    ensures { result ≡ is_second_version version }
{
    match version {
        Some(version) => version == 2,
        None => false,
    }
}

// How many cores a configuration of this version may have. A number that is no version counts as the first.
fn cores_by(version: Whole) -> usize
    ensures count { result ≡ cores_by version }
    ensures some { 1 ≤ result }
{
    if is_second_version(version) {
        CORES
    } else {
        FIRST_CORES
    }
}

// Whether each core has a number from 0 to `last`.
fn are_ids_within(cores: &[CoreText], last: u64) -> bool
    ensures { result ≡ list_all (λ (core : Core). is_between 0 last core.id) cores.now }
{
    cores.iter().all(|core| is_between(0, last, core.id))
}

// Whether there are cores, at most `most` of them, and each has a number below `most`.
fn are_cores_below(cores: &[CoreText], most: usize) -> bool
    requires { 1 ≤ most }
    ensures { result ≡ (is_between 1 most (Some (length cores.now)) && list_all (λ (core : Core). is_between 0 (most - 1) core.id) cores.now) }
{
    1 <= cores.len() && cores.len() <= most && are_ids_within(cores, most as u64 - 1)
}

// Whether the text's version exists, and allows as many cores as the text has, and the number of each.
fn is_versioned(text: &ConfigText) -> bool
    ensures { result ≡ is_versioned (sizes_of text.now) }
{
    let most = cores_by(text.version);
    is_between(1, 2, text.version) && are_cores_below(text.cores.as_slice(), most)
}

/// Whether the version of the text exists, and the text is within the limits of this version and of all versions. The
/// operations of its scripts are not counted here, but where they are read.
pub fn is_numbered(text: &ConfigText, objects: &Objects) -> bool
    requires objects { objects.now.declared ≡ declarations text.now }
    ensures { result ≡ is_text_numbered text.now }
{
    is_versioned(text)
        && are_modes_within(text)
        && text.spinlocks.len() <= SPINLOCKS
        && is_between(1, 16, text.cap)
        && are_cores_within(objects, text.cores.as_slice())
}

// Whether both numbers are given, and they are the same.
fn same_number(number: Whole, other: Whole) -> bool
    ensures { result ≡ same_number number other }
{
    match (number, other) {
        (Some(number), Some(other)) => number == other,
        _ => false,
    }
}

// Whether one of these cores has this number.
fn has_core(cores: &[CoreText], number: Whole) -> bool
    ensures { result ≡ has_number (numbers_of cores.now) number }
{
    cores
        .iter()
        .map(|core| core.id)
        .any(|id| same_number(id, number))
}

// Whether no two of these cores have the same number.
fn are_numbers_distinct(cores: &[CoreText]) -> bool
    ensures { result ≡ are_numbers_distinct (numbers_of cores.now) }
{
    let mut cores = cores;
    while let [core, later @ ..] = cores {
        if has_core(later, core.id) {
            return false;
        }
        cores = later;
    }
    true
}

// Whether none of these modes has a reserved name.
fn are_modes_unreserved(modes: &[Text]) -> bool
    ensures { result ≡ list_all is_unreserved modes.now }
{
    modes.iter().all(|name| !is_reserved(name.as_str()))
}

// Whether no core number and no name occurs twice, and no mode has a reserved name.
fn is_each_once(text: &ConfigText, objects: &Objects) -> bool
    requires objects { objects.now.declared ≡ declarations text.now }
    ensures { result ≡ is_each_once text.now }
{
    are_numbers_distinct(text.cores.as_slice())
        && objects.are_named_apart()
        && are_modes_unreserved(text.modes.as_slice())
}

// Whether the name is that of an application mode.
fn is_mode_known(objects: &Objects, name: &str) -> bool
    ensures { result ≡ is_mode_known objects.now.declared name.now }
{
    objects.place(ObjectKind::Mode, name).is_some()
}

/// Whether each name is that of an application mode.
pub fn are_modes_known(objects: &Objects, names: &[Text]) -> bool
    ensures { result ≡ list_all (is_mode_known objects.now.declared) names.now }
{
    names
        .iter()
        .all(|name| is_mode_known(objects, name.as_str()))
}

/// Whether the mode that a core names exists. A core that gives no mode, or `DONOTCARE`, names none.
pub fn is_core_mode_known(objects: &Objects, mode: &Option<Text>) -> bool
    ensures { result ≡ is_core_mode_known objects.now.declared mode.now }
{
    match mode {
        Some(name) => name.as_str() == DONT_CARE || is_mode_known(objects, name.as_str()),
        None => true,
    }
}

/// Whether the successor that this spinlock names exists, if it names one.
pub fn is_spinlock_known(objects: &Objects, spinlock: &SpinlockText) -> bool
    ensures { result ≡ is_spinlock_known objects.now.declared spinlock.now }
{
    match &spinlock.next {
        Some(next) => objects.place(ObjectKind::Spinlock, next.as_str()).is_some(),
        None => true,
    }
}

/// Whether the modes in which the alarm is autostarted exist.
pub fn are_alarm_modes_known(objects: &Objects, alarm: &AlarmText) -> bool
    ensures { result ≡ list_all (is_mode_known objects.now.declared) (alarm_modes alarm.now) }
{
    match &alarm.auto {
        Some(auto) => are_modes_known(objects, auto.modes.as_slice()),
        None => true,
    }
}

// Whether the points of each table come in order, none past the table's duration. The table's counter, if it is known,
// must admit the delays before, between and after them.
fn are_timed(text: &ConfigText, objects: &Objects) -> bool
    requires objects { objects.now.declared ≡ declarations text.now }
    ensures { result ≡ are_timed text.now }
{
    text.cores
        .as_slice()
        .iter()
        .all(|core| are_tables_timed(objects, core.tables.as_slice()))
}

/// The fault of smallest number of a text that is within its limits, or None if the text has no fault. `spinlocks` are
/// the plans of the text's spinlocks, and `found` is the verdict on the text.
pub fn fault_of(
    text: &ConfigText,
    objects: &Objects,
    found: Verdict,
    spinlocks: &[Spinlock],
) -> Option<ConfFault>
    requires objects { objects.now.declared ≡ declarations text.now }
    requires within { is_text_within text.now ≡ true }
    requires found { found ≡ text_verdict text.now }
    requires links { plans.links_of spinlocks.now ≡ links_of text.now }
    ensures { result ≡ first_fault (failing (tests_of text.now)) }
{
    if !is_each_once(text, objects) {
        Some(ConfFault::DuplicateName)
    } else if !(has_core(text.cores.as_slice(), text.master) && found.known) {
        Some(ConfFault::UnknownName)
    } else if !found.near {
        Some(ConfFault::WrongCore)
    } else if !are_links_ordered(spinlocks) {
        Some(ConfFault::SpinOrder)
    } else if !found.masked {
        Some(ConfFault::BadMask)
    } else if !are_timed(text, objects) {
        Some(ConfFault::BadTable)
    } else if !found.formed {
        Some(ConfFault::BadScript)
    } else {
        None
    }
}
