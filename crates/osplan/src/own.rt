//! A core's own objects, by their references.

ghost use Rattle.std.specs.Prelude.{◌≡◌, None, if◌then◌else◌, option_copied, slice_get};
ghost use Rattle.osbase.specs.History.{same_core};
ghost use Rattle.osplan.specs.View.{own_alarm, own_counter, own_isr, own_resource, own_table, own_task};

use crate::plans::{Alarm, Core, Counter, Isr, Resource, Table, Task};
use osbase::{
    AlarmRef, CoreId, CounterRef, IsrRef, Place, Reference, ResourceRef, TableRef, TaskRef,
};

// The object at this place in a list of the core's objects, if the place is on this core.
fn own_at<'t, T>(core: CoreId, objects: &'t [T], place: Place) -> Option<&'t T>
    ensures { option_copied result ≡ (if same_core place.core core then slice_get objects.now place.index else None) }
{
    if place.core == core {
        return objects.get(usize::from(place.index));
    }
    None
}

/// The task of this reference, if it is one of this core's.
pub fn task_of(core: &Core, task: TaskRef) -> Option<&Task>
    ensures { option_copied result ≡ own_task core.now task }
{
    own_at(core.id, core.tasks.as_slice(), task.place())
}

/// The ISR of this reference, if it is one of this core's.
pub fn isr_of(core: &Core, isr: IsrRef) -> Option<&Isr>
    ensures { option_copied result ≡ own_isr core.now isr }
{
    own_at(core.id, core.isrs.as_slice(), isr.place())
}

/// The resource of this reference, if it is one of this core's.
pub fn resource_of(core: &Core, resource: ResourceRef) -> Option<&Resource>
    ensures { option_copied result ≡ own_resource core.now resource }
{
    own_at(core.id, core.resources.as_slice(), resource.place())
}

/// The counter of this reference, if it is one of this core's.
pub fn counter_of(core: &Core, counter: CounterRef) -> Option<&Counter>
    ensures { option_copied result ≡ own_counter core.now counter }
{
    own_at(core.id, core.counters.as_slice(), counter.place())
}

/// The alarm of this reference, if it is one of this core's.
pub fn alarm_of(core: &Core, alarm: AlarmRef) -> Option<&Alarm>
    ensures { option_copied result ≡ own_alarm core.now alarm }
{
    own_at(core.id, core.alarms.as_slice(), alarm.place())
}

/// The schedule table of this reference, if it is one of this core's.
pub fn table_of(core: &Core, table: TableRef) -> Option<&Table>
    ensures { option_copied result ≡ own_table core.now table }
{
    own_at(core.id, core.tables.as_slice(), table.place())
}
