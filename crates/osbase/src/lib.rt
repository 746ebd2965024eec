//! The types that every layer shares: references, statuses, items, marks, letters and turns.
//!
//! Only `List` and `Name` take memory.
#![tactic(auto)]

pub mod histories;
pub mod items;
pub mod limits;
pub mod lists;
pub mod marks;
pub mod messages;
pub mod names;
pub mod objects;
pub mod references;
pub mod statuses;
pub mod turns;

pub use histories::{
    Awaited, Course, GotSpinlock, HeldResource, Job, OpenCall, Phase, Sent, TaskEvents,
};
pub use items::{Agreement, CoreMode, CoreSet, Item, Stimulus};
pub use limits::{
    ACTIONS, ALARMS, CALLS_AT_ONCE, CORE_NUMBERS, CORES, COUNTERS, FIRST_CORES, GREATEST_BUDGET,
    GREATEST_DURATION, GREATEST_VALUE, INTERRUPTS, ISRS, JOBS, LEVELS, MAILBOX, MODES, OPERATIONS,
    OUTBOX, POINTS, POSTED, RESOURCES, RUNNERS, SPINLOCKS, TABLES, TASKS,
};
pub use lists::{List, Name};
pub use marks::Mark;
pub use messages::{Envelope, Letter, MailKind, Message, RemoteCall};
pub use names::is_name;
pub use objects::{NOBODY, Object, ObjectKind, Place, Reference};
pub use references::{
    AlarmRef, CoreId, CounterRef, IsrRef, ModeId, ResourceRef, Runner, SpinlockId, TableRef,
    TaskRef, Variable,
};
pub use statuses::{STATUS_LIST, ServiceId, Status};
pub use turns::{Choice, CoreStimuli, Report, Schedule, Stimuli, Turn, stimuli_for};
