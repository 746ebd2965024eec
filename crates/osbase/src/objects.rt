//! Objects of every kind, as the operations of scripts and the calls across cores name them.

ghost use Rattle.std.specs.Prelude.{◌≡◌};
ghost use Rattle.osbase.specs.Objects.{alarm_of, alarm_place, counter_of, counter_place, isr_of, isr_place, mode_of, mode_place, object_at, resource_of, resource_place, same_kind, spinlock_of, spinlock_place, table_of, table_place, task_of, task_place};
ghost use Rattle.osbase.specs.{declared.objects.ObjectKind.ObjectKind as KindValue, declared.objects.Place.Place as PlaceValue};
ghost use Rattle.osbase.specs.declared.objects.ObjectKind.TheVariants as kinds;

use crate::references::{
    AlarmRef, CoreId, CounterRef, IsrRef, ModeId, ResourceRef, SpinlockId, TableRef, TaskRef,
};

/// The kinds of objects. All cores have the application modes and the spinlocks in common; each core has its own
/// objects of the other kinds. Operations and calls refer to objects of every kind but ISRs.
#[derive(Clone, Copy, PartialEq, Eq)]
pub enum ObjectKind {
    Mode,
    Spinlock,
    Task,
    Isr,
    Resource,
    Counter,
    Alarm,
    Table,
}

impl ObjectKind {
    /// Whether both are the same kind.
    pub fn is(self, other: ObjectKind) -> bool
        ensures { result ≡ same_kind self other }
    {
        self == other
    }
}

/// The core number of the objects that all cores have in common. No configured core has it.
pub const NOBODY: CoreId = CoreId { number: 255 };

/// Where an object is: its core, or `NOBODY`, and its place among the objects of its kind there.
#[derive(Clone, Copy, PartialEq, Eq)]
pub struct Place {
    pub core: CoreId,
    pub index: u8,
}

/// An object of any kind.
#[derive(Clone, Copy, PartialEq, Eq)]
pub struct Object {
    pub kind: ObjectKind,
    pub place: Place,
}

/// A reference to an object of one kind (OSEK/VDX OS 2.2.3, section 13, the types of objects).
pub trait Reference: Copy {
    /// The kind of the objects that the reference type names.
    const KIND: ObjectKind;

    ghost KIND: { KindValue };

    ghost place_of: { Self → PlaceValue };

    ghost ref_of: { PlaceValue → Self };

    /// The reference to the object at this place.
    fn at(place: Place) -> Self
        ensures { result ≡ ref_of place };

    /// The place of the object that the reference names.
    fn place(self) -> Place
        ensures { result ≡ place_of self };

    /// The object that the reference names, with its kind.
    fn object(self) -> Object
        ensures { result ≡ object_at KIND (place_of self) }
    {
        Object {
            kind: Self::KIND,
            place: self.place(),
        }
    }
}

impl Reference for ModeId {
    const KIND: ObjectKind = ObjectKind::Mode;

    ghost KIND = { kinds.Mode };

    ghost place_of = { mode_place };

    ghost ref_of = { mode_of };

    fn at(place: Place) -> Self {
        let Place { index, .. } = place;
        ModeId { index }
    }

    fn place(self) -> Place {
        let ModeId { index } = self;
        Place {
            core: NOBODY,
            index,
        }
    }
}

impl Reference for SpinlockId {
    const KIND: ObjectKind = ObjectKind::Spinlock;

    ghost KIND = { kinds.Spinlock };

    ghost place_of = { spinlock_place };

    ghost ref_of = { spinlock_of };

    fn at(place: Place) -> Self {
        let Place { index, .. } = place;
        SpinlockId { index }
    }

    fn place(self) -> Place {
        let SpinlockId { index } = self;
        Place {
            core: NOBODY,
            index,
        }
    }
}

impl Reference for TaskRef {
    const KIND: ObjectKind = ObjectKind::Task;

    ghost KIND = { kinds.Task };

    ghost place_of = { task_place };

    ghost ref_of = { task_of };

    fn at(place: Place) -> Self {
        let Place { core, index } = place;
        TaskRef { core, index }
    }

    fn place(self) -> Place {
        let TaskRef { core, index } = self;
        Place { core, index }
    }
}

impl Reference for IsrRef {
    const KIND: ObjectKind = ObjectKind::Isr;

    ghost KIND = { kinds.Isr };

    ghost place_of = { isr_place };

    ghost ref_of = { isr_of };

    fn at(place: Place) -> Self {
        let Place { core, index } = place;
        IsrRef { core, index }
    }

    fn place(self) -> Place {
        let IsrRef { core, index } = self;
        Place { core, index }
    }
}

impl Reference for ResourceRef {
    const KIND: ObjectKind = ObjectKind::Resource;

    ghost KIND = { kinds.Resource };

    ghost place_of = { resource_place };

    ghost ref_of = { resource_of };

    fn at(place: Place) -> Self {
        let Place { core, index } = place;
        ResourceRef { core, index }
    }

    fn place(self) -> Place {
        let ResourceRef { core, index } = self;
        Place { core, index }
    }
}

impl Reference for CounterRef {
    const KIND: ObjectKind = ObjectKind::Counter;

    ghost KIND = { kinds.Counter };

    ghost place_of = { counter_place };

    ghost ref_of = { counter_of };

    fn at(place: Place) -> Self {
        let Place { core, index } = place;
        CounterRef { core, index }
    }

    fn place(self) -> Place {
        let CounterRef { core, index } = self;
        Place { core, index }
    }
}

impl Reference for AlarmRef {
    const KIND: ObjectKind = ObjectKind::Alarm;

    ghost KIND = { kinds.Alarm };

    ghost place_of = { alarm_place };

    ghost ref_of = { alarm_of };

    fn at(place: Place) -> Self {
        let Place { core, index } = place;
        AlarmRef { core, index }
    }

    fn place(self) -> Place {
        let AlarmRef { core, index } = self;
        Place { core, index }
    }
}

impl Reference for TableRef {
    const KIND: ObjectKind = ObjectKind::Table;

    ghost KIND = { kinds.Table };

    ghost place_of = { table_place };

    ghost ref_of = { table_of };

    fn at(place: Place) -> Self {
        let Place { core, index } = place;
        TableRef { core, index }
    }

    fn place(self) -> Place {
        let TableRef { core, index } = self;
        Place { core, index }
    }
}
