//! The configuration of an operating system, and what one core sees of it.
//!
//! A `Config` is within the limits, and a text can represent it. Every reference in it names one of its objects,
//! and, where no other is allowed, one of the same core. The layers above do not test this again.
#![tactic(auto)]

mod copies;
pub mod faults;
mod modes;
mod names;
mod operations;
pub mod own;
pub mod plans;
mod protection;
mod sides;
pub mod spinlocks;

pub use copies::{copied_core, copied_modes};
pub use faults::ConfFault;
pub use modes::{DONT_CARE, is_reserved};
pub use operations::{OpTest, has_operation};
pub use plans::{
    Alarm, AlarmStart, COMMON, Config, Core, Counter, ExpiryPoint, Isr, KINDS, Plan, Resource,
    Spinlock, Table, TableStart, Task,
};
pub use protection::Protection;
pub use sides::{Side, is_local_to};
pub use spinlocks::order_ok;
