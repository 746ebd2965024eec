//! The services of alarms and counters.
//!
//! No function here takes memory. Each asks for room for the entries and marks that it adds.
#![tactic(auto)]

pub mod alarms;
pub mod counters;

pub use alarms::{ask_left, cancel, set_absolute, set_relative};
pub use counters::operate;
