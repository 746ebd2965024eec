//! What scripts, alarms and tables name: objects of one core, or of another, or a spinlock.

ghost use Rattle.std.specs.{Prelude.◌≡◌, Prelude.false, List.list_any, Option.option_map_or};
ghost use Rattle.osbase.specs.Objects.{object_of_call};
ghost use Rattle.osplan.specs.{Limits.is_local_to, declared.plans.Alarm.Alarm as AlarmValue, declared.plans.ExpiryPoint.ExpiryPoint as PointValue, declared.plans.Table.Table as TableValue};
ghost use Rattle.osplan.specs.Naming.{acts_on, is_at, is_on, is_that_spinlock, names_object, op_names};

use crate::operations::{OpTest, has_operation};
use crate::plans::{Core, Table};
use osbase::{CoreId, Object, ObjectKind, Reference, RemoteCall, SpinlockId};
use oscript::Op;

/// Whether the object is on this core.
pub fn is_on(id: CoreId, object: Object) -> bool
    ensures { result ≡ is_on id object }
{
    object.place.core.number == id.number
}

// Whether the object is this spinlock.
fn is_that_spinlock(lock: SpinlockId, object: Object) -> bool
    ensures { result ≡ is_that_spinlock lock object }
{
    object.kind.is(ObjectKind::Spinlock) && object.place.index == lock.index
}

/// The objects on a core, the objects not on it, or one spinlock, which is on no core.
#[derive(Clone, Copy)]
pub enum Side {
    On(CoreId),
    Off(CoreId),
    Spinlock(SpinlockId),
}

impl Side {
    // Whether the object is on this side, or is this spinlock.
    fn has(self, object: Object) -> bool
        ensures { result ≡ is_at self object }
    {
        match self {
            Side::On(id) => is_on(id, object),
            Side::Off(id) => !is_on(id, object),
            Side::Spinlock(lock) => is_that_spinlock(lock, object),
        }
    }

    // Whether there is an object, and it is on this side.
    fn has_present(self, object: Option<Object>) -> bool
        ensures { result ≡ option_map_or (is_at self) object false }
    {
        match object {
            Some(object) => self.has(object),
            None => false,
        }
    }

    // Whether one of the objects is on this side.
    fn has_any(self, objects: &[Option<Object>]) -> bool
        ensures { result ≡ list_any (λ object. option_map_or (is_at self) object false) objects.now }
    {
        objects.iter().any(|object| self.has_present(*object))
    }

    /// Whether the operation names an object on this side.
    pub fn is_named_by_op(self, op: Op) -> bool
        ensures { result ≡ op_names (is_at self) op }
    {
        self.has_any(&op.objects())
    }

    // Whether one of the actions is for an object on this side.
    fn is_called_by(self, actions: &[RemoteCall]) -> bool
        ensures { result ≡ list_any (λ action. is_at self (object_of_call action)) actions.now }
    {
        actions.iter().any(|action| self.has(action.object()))
    }

    // Whether the action of one of the core's alarms is for an object on this side.
    fn is_called_by_alarm(self, core: &Core) -> bool
        ensures { result ≡ list_any (λ (alarm : AlarmValue). is_at self (object_of_call alarm.action)) core.now.alarms }
    {
        core.alarms
            .as_slice()
            .iter()
            .any(|alarm| self.has(alarm.action.object()))
    }

    // Whether an action of one of the table's expiry points is for an object on this side.
    fn is_called_by_point(self, table: &Table) -> bool
        ensures { result ≡ list_any (λ (point : PointValue). list_any (λ action. is_at self (object_of_call action)) point.actions) table.now.points }
    {
        table
            .points
            .as_slice()
            .iter()
            .any(|point| self.is_called_by(point.actions.as_slice()))
    }

    // Whether an action of one of the core's schedule tables is for an object on this side.
    fn is_called_by_table(self, core: &Core) -> bool
        ensures { result ≡ list_any (λ (table : TableValue). list_any (λ (point : PointValue). list_any (λ action. is_at self (object_of_call action)) point.actions) table.points) core.now.tables }
    {
        core.tables
            .as_slice()
            .iter()
            .any(|table| self.is_called_by_point(table))
    }

    // Whether an alarm or a schedule table of the core acts on an object on this side.
    #[tactic(auto, using(crate::proofs::Acting::any_pointed))]
    fn is_acted_on(self, core: &Core) -> bool
        ensures { result ≡ acts_on (is_at self) core.now }
    {
        self.is_called_by_alarm(core) || self.is_called_by_table(core)
    }

    /// Whether a script, an alarm or a table of the core names an object on this side.
    pub fn is_named_by(self, core: &Core) -> bool
        ensures { result ≡ names_object (is_at self) core.now }
    {
        has_operation(core, OpTest::Names(self)) || self.is_acted_on(core)
    }
}

/// Whether the operation, if it may name only the core's own objects, names no object of another core.
pub fn is_local_to(id: CoreId, op: Op) -> bool
    ensures { result ≡ is_local_to id op }
{
    !(op.refers_to_own_only() && Side::Off(id).is_named_by_op(op))
}
