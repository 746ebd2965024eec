//! The texts of configurations, stimuli and schedules: reading and writing them.
//!
//! The crates above use only this crate for the readers, the writer and the types of a configuration.
#![tactic(auto)]

#[cfg(test)]
mod tests;

pub use osbase::{Schedule, Stimuli};
pub use osinput::{read_schedule, read_stimuli};
pub use osload::read_config;
pub use osplan::{
    Alarm, AlarmStart, ConfFault, Config, Core, Counter, ExpiryPoint, Isr, Plan, Protection,
    Resource, Spinlock, Table, TableStart, Task, order_ok,
};
pub use osseparate::{Coupling, coupling_of, cut, is_separate};
pub use oswrite::config_text;
