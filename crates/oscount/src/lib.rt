//! Counters and alarms: the value of a counter, and the value at which an alarm is due next.
//!
//! Nothing here takes memory.
#![tactic(auto)]

pub mod alarms;
pub mod counters;
pub mod laws;

pub use alarms::{Alarm, Expiry};
pub use counters::{Counter, counts_to};
