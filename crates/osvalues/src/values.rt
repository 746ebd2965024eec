//! The JSON values of a plan's parts, each by its own writer.

ghost use Rattle.std.specs.Prelude.{◌≡◌, IfOk, string_bytes};
ghost use Rattle.serde_json.specs.{Data.Data, View.view};
ghost use Rattle.osvalues.specs.Data.{core_mode_word, name_data, script_text, id_data, mode_data, list_data, start_data, or_null_data, alarm_data, action_data, point_data, table_start_data, table_data, counter_data, resource_data, spinlock_data, spinlock_name_data, isr_data, task_data, core_data};

use osbase::{
    CoreId, CoreMode, ModeId, Name, ObjectKind, Place, Reference, RemoteCall, SpinlockId,
};
use oscript::{Op, op_of_call};
use osplan::{
    Alarm, AlarmStart, Core, Counter, DONT_CARE, ExpiryPoint, Isr, Plan, Resource, Spinlock, Table,
    TableStart, Task,
};
use ossyntax::{Names, op_text};
use serde_json::{Value, json};
use std::alloc::{AllocError, Global};

// Makes the JSON value of an element.
trait Writer<T> {
    ghost written: { Self → T → Data };

    fn value(&self, alloc: Global, element: &T) -> Result<Value, AllocError>
        ensures { IfOk result (λ value. view value ≡ written self.now element.now) };
}

// The array of the elements' values, each made by the writer.
fn list_value<T, W: Writer<T>>(
    alloc: Global,
    writer: &W,
    elements: &[T],
) -> Result<Value, AllocError>
    ensures { IfOk result (λ value. view value ≡ list_data (W.written writer.now) elements.now) }
{
    let mut values = Vec::new(alloc);
    for element in elements {
        values.push(writer.value(alloc, element)?)?;
    }
    Ok(Value::Array(values))
}

// The element's value, or null if there is no element.
fn or_null_value<T, W: Writer<T>>(
    alloc: Global,
    writer: &W,
    element: &Option<T>,
) -> Result<Value, AllocError>
    ensures { IfOk result (λ value. view value ≡ or_null_data (W.written writer.now) element.now) }
{
    match element {
        Some(element) => writer.value(alloc, element),
        None => Ok(Value::Null),
    }
}

// Writes the parts of a plan, by the names of its modes and objects.
#[derive(Clone, Copy)]
struct PlanWriter<'p> {
    plan: &'p Plan,
}

impl Names for PlanWriter<'_> {
    ghost use Rattle.osplan.specs.Names.{name_of};

    ghost name = { λ writer. name_of writer.plan.now };

    fn name(&self, kind: ObjectKind, place: Place) -> &str {
        self.plan.name_of(kind, place)
    }
}

// The text of a script: its operations, divided by `;`.
fn script_text(alloc: Global, writer: &PlanWriter, script: &[Op]) -> Result<String, AllocError>
    ensures { IfOk result (λ text. string_bytes text ≡ script_text writer.now.plan.now script.now) }
{
    let mut texts = Vec::new(alloc);
    for op in script {
        texts.push(op_text(alloc, writer, *op)?)?;
    }
    texts.join(alloc, ";")
}

impl Writer<ModeId> for PlanWriter<'_> {
    ghost written = { λ writer. mode_data writer.plan.now };

    fn value(&self, alloc: Global, mode: &ModeId) -> Result<Value, AllocError> {
        Ok(Value::String(String::from_str(alloc, self.plan.name_of_mode(*mode))?))
    }
}

impl Writer<Name> for PlanWriter<'_> {
    ghost written = { λ _. name_data };

    fn value(&self, alloc: Global, name: &Name) -> Result<Value, AllocError> {
        Ok(Value::String(String::from_str(alloc, name.as_str())?))
    }
}

// The word for a core's mode: the mode's name, or `DONOTCARE` if any mode will do.
fn mode_word<'p>(writer: &PlanWriter<'p>, mode: CoreMode) -> &'p str
    ensures { result.now ≡ core_mode_word writer.now.plan.now mode }
{
    match mode {
        CoreMode::Named(mode) => writer.plan.name_of_mode(mode),
        CoreMode::DontCare => DONT_CARE,
    }
}

impl Writer<CoreId> for PlanWriter<'_> {
    ghost written = { λ _. id_data };

    fn value(&self, alloc: Global, id: &CoreId) -> Result<Value, AllocError> {
        Ok(Value::from(u64::from(id.number)))
    }
}

impl Writer<Task> for PlanWriter<'_> {
    ghost written = { λ writer. task_data writer.plan.now };

    fn value(&self, alloc: Global, task: &Task) -> Result<Value, AllocError> {
        json!(in alloc; {
            "activations": u64::from(task.activations),
            "auto": list_value(alloc, self, task.auto.as_slice())?,
            "budget": u64::from(task.budget),
            "extended": task.extended,
            "name": task.name.as_str(),
            "preemptable": task.preemptable,
            "prio": u64::from(task.priority),
            "script": script_text(alloc, self, task.script.as_slice())?
        })
    }
}

impl Writer<Isr> for PlanWriter<'_> {
    ghost written = { λ writer. isr_data writer.plan.now };

    fn value(&self, alloc: Global, isr: &Isr) -> Result<Value, AllocError> {
        json!(in alloc; {
            "budget": u64::from(isr.budget),
            "level": u64::from(isr.level),
            "name": isr.name.as_str(),
            "script": script_text(alloc, self, isr.script.as_slice())?
        })
    }
}

impl Writer<Resource> for PlanWriter<'_> {
    ghost written = { λ _. resource_data };

    fn value(&self, alloc: Global, resource: &Resource) -> Result<Value, AllocError> {
        json!(in alloc; {
            "ceiling": u64::from(resource.ceiling),
            "lock": u64::from(resource.lock),
            "name": resource.name.as_str()
        })
    }
}

impl Writer<Counter> for PlanWriter<'_> {
    ghost written = { λ _. counter_data };

    fn value(&self, alloc: Global, counter: &Counter) -> Result<Value, AllocError> {
        json!(in alloc; {
            "max": u64::from(counter.max),
            "min": u64::from(counter.min),
            "name": counter.name.as_str(),
            "software": counter.software
        })
    }
}

impl Writer<AlarmStart> for PlanWriter<'_> {
    ghost written = { λ writer. start_data writer.plan.now };

    fn value(&self, alloc: Global, auto: &AlarmStart) -> Result<Value, AllocError> {
        json!(in alloc; {
            "cycle": u64::from(auto.cycle),
            "modes": list_value(alloc, self, auto.modes.as_slice())?,
            "start": u64::from(auto.start)
        })
    }
}

impl Writer<Alarm> for PlanWriter<'_> {
    ghost written = { λ writer. alarm_data writer.plan.now };

    fn value(&self, alloc: Global, alarm: &Alarm) -> Result<Value, AllocError> {
        json!(in alloc; {
            "action": op_text(alloc, self, op_of_call(alarm.action))?,
            "auto": or_null_value(alloc, self, &alarm.auto)?,
            "counter": self.plan.name_of(ObjectKind::Counter, alarm.counter.place()),
            "name": alarm.name.as_str()
        })
    }
}

impl Writer<RemoteCall> for PlanWriter<'_> {
    ghost written = { λ writer. action_data writer.plan.now };

    fn value(&self, alloc: Global, action: &RemoteCall) -> Result<Value, AllocError> {
        Ok(Value::String(op_text(alloc, self, op_of_call(*action))?))
    }
}

impl Writer<ExpiryPoint> for PlanWriter<'_> {
    ghost written = { λ writer. point_data writer.plan.now };

    fn value(&self, alloc: Global, point: &ExpiryPoint) -> Result<Value, AllocError> {
        json!(in alloc; {
            "actions": list_value(alloc, self, point.actions.as_slice())?,
            "offset": u64::from(point.offset)
        })
    }
}

impl Writer<TableStart> for PlanWriter<'_> {
    ghost written = { λ writer. table_start_data writer.plan.now };

    fn value(&self, alloc: Global, auto: &TableStart) -> Result<Value, AllocError> {
        json!(in alloc; {
            "modes": list_value(alloc, self, auto.modes.as_slice())?,
            "offset": u64::from(auto.offset)
        })
    }
}

impl Writer<Table> for PlanWriter<'_> {
    ghost written = { λ writer. table_data writer.plan.now };

    fn value(&self, alloc: Global, table: &Table) -> Result<Value, AllocError> {
        json!(in alloc; {
            "auto": or_null_value(alloc, self, &table.auto)?,
            "counter": self.plan.name_of(ObjectKind::Counter, table.counter.place()),
            "duration": u64::from(table.duration),
            "name": table.name.as_str(),
            "points": list_value(alloc, self, table.points.as_slice())?,
            "repeating": table.repeating
        })
    }
}

impl Writer<Core> for PlanWriter<'_> {
    ghost written = { λ writer. core_data writer.plan.now };

    fn value(&self, alloc: Global, core: &Core) -> Result<Value, AllocError> {
        json!(in alloc; {
            "alarms": list_value(alloc, self, core.alarms.as_slice())?,
            "counters": list_value(alloc, self, core.counters.as_slice())?,
            "id": u64::from(core.id.number),
            "isrs": list_value(alloc, self, core.isrs.as_slice())?,
            "mode": mode_word(self, core.mode),
            "protection": core.protection.word(),
            "resources": list_value(alloc, self, core.resources.as_slice())?,
            "start": list_value(alloc, self, core.start.as_slice())?,
            "tables": list_value(alloc, self, core.tables.as_slice())?,
            "tasks": list_value(alloc, self, core.tasks.as_slice())?
        })
    }
}

impl Writer<SpinlockId> for PlanWriter<'_> {
    ghost written = { λ writer. spinlock_name_data writer.plan.now };

    fn value(&self, alloc: Global, spinlock: &SpinlockId) -> Result<Value, AllocError> {
        Ok(Value::String(String::from_str(alloc, self.plan.spinlock_name(*spinlock))?))
    }
}

impl Writer<Spinlock> for PlanWriter<'_> {
    ghost written = { λ writer. spinlock_data writer.plan.now };

    fn value(&self, alloc: Global, spinlock: &Spinlock) -> Result<Value, AllocError> {
        json!(in alloc; {
            "name": spinlock.name.as_str(),
            "next": or_null_value(alloc, self, &spinlock.next)?
        })
    }
}

/// The JSON array of the names of the plan's modes, in their order. `AllocError` where memory runs out, here and below.
pub fn modes_value(alloc: Global, plan: &Plan) -> Result<Value, AllocError>
    ensures { IfOk result (λ value. view value ≡ list_data name_data plan.now.modes) }
{
    list_value(alloc, &PlanWriter { plan }, plan.modes.as_slice())
}

/// The JSON array of the values of the plan's spinlocks, in their order.
pub fn spinlocks_value(alloc: Global, plan: &Plan) -> Result<Value, AllocError>
    ensures { IfOk result (λ value. view value ≡ list_data (spinlock_data plan.now) plan.now.spinlocks) }
{
    list_value(alloc, &PlanWriter { plan }, plan.spinlocks.as_slice())
}

/// The JSON array of the values of the plan's cores, in their order.
pub fn cores_value(alloc: Global, plan: &Plan) -> Result<Value, AllocError>
    ensures { IfOk result (λ value. view value ≡ list_data (core_data plan.now) plan.now.cores) }
{
    list_value(alloc, &PlanWriter { plan }, plan.cores.as_slice())
}
