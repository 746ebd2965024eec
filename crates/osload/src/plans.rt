//! The plan of a text, which is made while its names and operations are judged.

ghost use Rattle.std.specs.Prelude.{◌≡◌, IfOk, map, option_map, true};
ghost use Rattle.osschema.specs.Declarations.{declarations, mode_ref, number_id};
ghost use Rattle.osvalidate.specs.Check.{are_scripts_short, is_core_short, is_script_short, successor};
ghost use Rattle.osvalidate.specs.Verdict.{Judges, alarm_verdict, all_right, both, core_verdict, each, isr_verdict, spinlock_verdict, table_verdict, task_verdict, text_verdict};
ghost use Rattle.osload.specs.Meaning.{core_mode, spinlock_plan, task_plan, isr_plan, resource_plan, counter_plan, start_plan, alarm_plan, table_plan, core_plan, plan_of};

use crate::planners::{Planner, plan_each};
use osbase::{CoreId, CoreMode, List, ModeId, Name, SpinlockId};
use osjson::{Text, Whole};
use osplan::{
    Alarm, AlarmStart, ConfFault, Core, Counter, DONT_CARE, Isr, Plan, Resource, Spinlock, Table,
    Task,
};
use osschema::{
    AlarmStartText, AlarmText, ConfigText, CoreText, CounterText, IsrText, Objects, ResourceText,
    SpinlockText, TaskText, byte_of, number_id, word_of,
};
use osvalidate::{
    Judged, Verdict, are_alarm_modes_known, are_modes_known, is_core_mode_known, is_spinlock_known,
    judge_action, judge_counter, judge_isr_script, judge_script,
};
use std::alloc::{AllocError, Global};

/// The first mode, which a core has if its text gives none.
const FIRST_MODE: ModeId = ModeId { index: 0 };

/// The modes of these names; the first mode for a name that is no mode's.
pub fn modes_of(alloc: Global, objects: &Objects, names: &[Text]) -> Result<Vec<ModeId>, AllocError>
    ensures { IfOk result (λ modes. modes.items ≡ map (mode_ref objects.now.declared) names.now) }
{
    names
        .iter()
        .map(|name| objects.mode(name.as_str()))
        .collect(alloc)
}

// A core's mode: the first mode if the core's text gives none, any mode for `DONOTCARE`, otherwise the mode of this
// name (the first if there is none).
fn core_mode(objects: &Objects, mode: &Option<Text>) -> CoreMode
    ensures { result ≡ core_mode objects.now.declared mode.now }
{
    match mode {
        None => CoreMode::Named(FIRST_MODE),
        Some(name) => {
            if name.as_str() == DONT_CARE {
                CoreMode::DontCare
            } else {
                CoreMode::Named(objects.mode(name.as_str()))
            }
        }
    }
}

// A name for each of these texts.
fn names_of(alloc: Global, texts: &[Text]) -> Result<List<Name>, AllocError>
    ensures { IfOk result (λ names. names ≡ texts.now) }
{
    let mut names = List::new(alloc);
    for text in texts {
        names.push(Name::new(alloc, text.as_str())?)?;
    }
    Ok(names)
}

/// Makes the plans of the objects of a core.
#[derive(Clone, Copy)]
pub struct CorePlanner<'o, 'e> {
    pub objects: &'o Objects<'e>,
    pub core: CoreId,
}

impl<'e> Planner<'e, TaskText<'e>, Task> for CorePlanner<'_, 'e> {
    ghost made = { λ planner. task_plan planner.objects.now.declared };

    ghost right = { λ planner. task_verdict planner.objects.now.declared planner.core };

    ghost is_short = { λ _ task. is_script_short task.script };

    fn plan(&self, alloc: Global, task: &'e TaskText<'e>) -> Result<Judged<Task>, ConfFault> {
        let script = judge_script(alloc, self.objects, self.core, task.script.as_str())?;
        Ok(Judged {
            value: Task {
                name: Name::new(alloc, task.name.as_str())?,
                priority: byte_of(task.prio),
                auto: List::from_vec(modes_of(alloc, self.objects, task.auto.as_slice())?),
                activations: byte_of(task.activations),
                extended: task.extended,
                preemptable: task.preemptable,
                budget: word_of(task.budget),
                script: script.value,
            },
            verdict: script
                .verdict
                .with_names(are_modes_known(self.objects, task.auto.as_slice())),
        })
    }
}

impl<'e> Planner<'e, IsrText<'e>, Isr> for CorePlanner<'_, 'e> {
    ghost made = { λ planner. isr_plan planner.objects.now.declared };

    ghost right = { λ planner isr. isr_verdict planner.objects.now.declared planner.core isr.script };

    ghost is_short = { λ _ isr. is_script_short isr.script };

    fn plan(&self, alloc: Global, isr: &'e IsrText<'e>) -> Result<Judged<Isr>, ConfFault> {
        let script = judge_isr_script(alloc, self.objects, self.core, isr.script.as_str())?;
        Ok(Judged {
            value: Isr {
                name: Name::new(alloc, isr.name.as_str())?,
                level: byte_of(isr.level),
                budget: word_of(isr.budget),
                script: script.value,
            },
            verdict: script.verdict,
        })
    }
}

impl<'e> Planner<'e, ResourceText<'e>, Resource> for CorePlanner<'_, 'e> {
    ghost made = { λ _ resource. resource_plan resource };

    ghost right = { λ _ _. all_right };

    ghost is_short = { λ _ _. true };

    fn plan(
        &self,
        alloc: Global,
        resource: &'e ResourceText<'e>,
    ) -> Result<Judged<Resource>, ConfFault> {
        Ok(Judged {
            value: Resource {
                name: Name::new(alloc, resource.name.as_str())?,
                ceiling: byte_of(resource.ceiling),
                lock: word_of(resource.lock),
            },
            verdict: Verdict::all_right(),
        })
    }
}

impl<'e> Planner<'e, CounterText<'e>, Counter> for CorePlanner<'_, 'e> {
    ghost made = { λ _ counter. counter_plan counter };

    ghost right = { λ _ _. all_right };

    ghost is_short = { λ _ _. true };

    fn plan(
        &self,
        alloc: Global,
        counter: &'e CounterText<'e>,
    ) -> Result<Judged<Counter>, ConfFault> {
        Ok(Judged {
            value: Counter {
                name: Name::new(alloc, counter.name.as_str())?,
                max: word_of(counter.max),
                min: word_of(counter.min),
                software: counter.software,
            },
            verdict: Verdict::all_right(),
        })
    }
}

// How an alarm is autostarted, as the text `auto` means it.
fn start_of(
    alloc: Global,
    objects: &Objects,
    auto: &AlarmStartText,
) -> Result<AlarmStart, AllocError>
    ensures { IfOk result (λ start. start ≡ start_plan objects.now.declared auto.now) }
{
    Ok(AlarmStart {
        modes: List::from_vec(modes_of(alloc, objects, auto.modes.as_slice())?),
        start: word_of(auto.start),
        cycle: word_of(auto.cycle),
    })
}

// How an alarm is autostarted, as the text `auto` means it. None if the alarm is not autostarted.
fn auto_of(
    alloc: Global,
    objects: &Objects,
    auto: &Option<AlarmStartText>,
) -> Result<Option<AlarmStart>, AllocError>
    ensures { IfOk result (λ start. start ≡ option_map (start_plan objects.now.declared) auto.now) }
{
    match auto {
        Some(auto) => Ok(Some(start_of(alloc, objects, auto)?)),
        None => Ok(None),
    }
}

impl<'e> Planner<'e, AlarmText<'e>, Alarm> for CorePlanner<'_, 'e> {
    ghost made = { λ planner. alarm_plan planner.objects.now.declared planner.core };

    ghost right = { λ planner. alarm_verdict planner.objects.now.declared planner.core };

    ghost is_short = { λ _ _. true };

    fn plan(&self, alloc: Global, alarm: &'e AlarmText<'e>) -> Result<Judged<Alarm>, ConfFault> {
        let counter = judge_counter(self.objects, self.core, alarm.counter.as_str());
        let action = judge_action(self.objects, alarm.action.as_str());
        Ok(Judged {
            value: Alarm {
                name: Name::new(alloc, alarm.name.as_str())?,
                counter: counter.value,
                action: action.value,
                auto: auto_of(alloc, self.objects, &alarm.auto)?,
            },
            verdict: Verdict {
                known: counter.verdict.known
                    && action.verdict.known
                    && are_alarm_modes_known(self.objects, alarm),
                near: counter.verdict.near,
                masked: action.verdict.masked,
                formed: action.verdict.formed,
            },
        })
    }
}

// The tasks and ISRs of a core.
#[derive(Drop)]
struct Runners {
    tasks: List<Task>,
    isrs: List<Isr>,
}

// The counters, alarms and schedule tables of a core.
#[derive(Drop)]
struct Timers {
    counters: List<Counter>,
    alarms: List<Alarm>,
    tables: List<Table>,
}

impl<'e> CorePlanner<'_, 'e> {
    // The plans of a core's tasks and ISRs, and the verdict on them. `Limit` if a script has too many operations.
    #[tactic(auto, using(osvalidate::proofs::Counting::core_shorts))]
    fn runners(&self, alloc: Global, core: &'e CoreText<'e>) -> Result<Judged<Runners>, ConfFault>
        ensures { Judges result (is_core_short core.now)
            (record { tasks = map (task_plan self.now.objects.now.declared) core.now.tasks; isrs = map (isr_plan self.now.objects.now.declared) core.now.isrs })
            (both (each (task_verdict self.now.objects.now.declared self.now.core) core.now.tasks) (each (λ isr. isr_verdict self.now.objects.now.declared self.now.core isr.script) core.now.isrs)) }
    {
        let tasks = plan_each(alloc, self, core.tasks.as_slice())?;
        let isrs = plan_each(alloc, self, core.isrs.as_slice())?;
        Ok(Judged {
            value: Runners {
                tasks: tasks.value,
                isrs: isrs.value,
            },
            verdict: tasks.verdict.and(isrs.verdict),
        })
    }

    // The plans of a core's counters, alarms and schedule tables, and the verdict on them.
    #[tactic(auto, using(crate::proofs::Loops::always))]
    fn timers(&self, alloc: Global, core: &'e CoreText<'e>) -> Result<Judged<Timers>, ConfFault>
        ensures { Judges result true
            (record { counters = map counter_plan core.now.counters; alarms = map (alarm_plan self.now.objects.now.declared self.now.core) core.now.alarms; tables = map (table_plan self.now.objects.now.declared self.now.core) core.now.tables })
            (both (each (alarm_verdict self.now.objects.now.declared self.now.core) core.now.alarms) (each (table_verdict self.now.objects.now.declared self.now.core) core.now.tables)) }
    {
        let counters = plan_each(alloc, self, core.counters.as_slice())?;
        let alarms = plan_each(alloc, self, core.alarms.as_slice())?;
        let tables = plan_each(alloc, self, core.tables.as_slice())?;
        Ok(Judged {
            value: Timers {
                counters: counters.value,
                alarms: alarms.value,
                tables: tables.value,
            },
            verdict: alarms.verdict.and(tables.verdict),
        })
    }
}

// The cores of these numbers; core 0 for a number that is no byte.
fn ids_of(alloc: Global, numbers: &[Whole]) -> Result<Vec<CoreId>, AllocError>
    ensures { IfOk result (λ ids. ids.items ≡ map number_id numbers.now) }
{
    numbers
        .iter()
        .map(|number| number_id(*number))
        .collect(alloc)
}

// The successor of a spinlock, if it has one and its name is known.
fn successor(objects: &Objects, spinlock: &SpinlockText) -> Option<SpinlockId>
    ensures { result ≡ successor objects.now.declared spinlock.now }
{
    match &spinlock.next {
        Some(next) => objects.spinlock(next.as_str()),
        None => None,
    }
}

// Makes the plans of the spinlocks and the cores of a text.
#[derive(Clone, Copy)]
struct TextPlanner<'o, 'e> {
    objects: &'o Objects<'e>,
}

impl<'e> Planner<'e, SpinlockText<'e>, Spinlock> for TextPlanner<'_, 'e> {
    ghost made = { λ planner. spinlock_plan planner.objects.now.declared };

    ghost right = { λ planner. spinlock_verdict planner.objects.now.declared };

    ghost is_short = { λ _ _. true };

    fn plan(
        &self,
        alloc: Global,
        spinlock: &'e SpinlockText<'e>,
    ) -> Result<Judged<Spinlock>, ConfFault> {
        Ok(Judged {
            value: Spinlock {
                name: Name::new(alloc, spinlock.name.as_str())?,
                next: successor(self.objects, spinlock),
            },
            verdict: Verdict::all_right().with_names(is_spinlock_known(self.objects, spinlock)),
        })
    }
}

impl<'e> Planner<'e, CoreText<'e>, Core> for TextPlanner<'_, 'e> {
    ghost made = { λ planner. core_plan planner.objects.now.declared };

    ghost right = { λ planner. core_verdict planner.objects.now.declared };

    ghost is_short = { λ _ core. is_core_short core };

    #[tactic(auto, using(crate::proofs::Loops::always))]
    fn plan(&self, alloc: Global, core: &'e CoreText<'e>) -> Result<Judged<Core>, ConfFault> {
        let id = number_id(core.id);
        let planner = CorePlanner {
            objects: self.objects,
            core: id,
        };
        let runners = planner.runners(alloc, core)?;
        let resources = plan_each(alloc, &planner, core.resources.as_slice())?;
        let timers = planner.timers(alloc, core)?;
        Ok(Judged {
            value: Core {
                id,
                mode: core_mode(self.objects, &core.mode),
                start: List::from_vec(ids_of(alloc, core.start.as_slice())?),
                protection: core.protection,
                tasks: runners.value.tasks,
                isrs: runners.value.isrs,
                resources: resources.value,
                counters: timers.value.counters,
                alarms: timers.value.alarms,
                tables: timers.value.tables,
            },
            verdict: runners
                .verdict
                .and(timers.verdict)
                .with_names(is_core_mode_known(self.objects, &core.mode)),
        })
    }
}

/// The plan that a text means, whether the text has faults or not, and the verdict on the text's names, masks and
/// operations. `Limit` if a script has too many operations.
#[tactic(auto, using(crate::proofs::Loops::always))]
pub fn plan_of<'e>(
    alloc: Global,
    text: &'e ConfigText<'e>,
    objects: &Objects<'e>,
) -> Result<Judged<Plan>, ConfFault>
    requires objects { objects.now.declared ≡ declarations text.now }
    ensures { Judges result (are_scripts_short text.now) (plan_of text.now) (text_verdict text.now) }
{
    let planner = TextPlanner { objects };
    let spinlocks = plan_each(alloc, &planner, text.spinlocks.as_slice())?;
    let cores = plan_each(alloc, &planner, text.cores.as_slice())?;
    Ok(Judged {
        value: Plan {
            version: byte_of(text.version),
            cap: byte_of(text.cap),
            master: number_id(text.master),
            modes: names_of(alloc, text.modes.as_slice())?,
            spinlocks: spinlocks.value,
            cores: cores.value,
        },
        verdict: cores.verdict.with_names(spinlocks.verdict.known),
    })
}
