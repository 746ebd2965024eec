//! The counters and alarms of a core.
//!
//! Nothing here takes memory.
#![tactic(auto)]

pub mod clocks;

pub use clocks::{AlarmList, Clocks};
