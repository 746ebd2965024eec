//! The services of tasks, resources, events and interrupts.
//!
//! No function here takes memory. Each asks for room for the entries and marks that it adds.
#![tactic(auto)]

pub mod events;
mod interrupts;
pub mod resources;
pub mod tasks;

pub use events::set_events;
pub use tasks::{activate, end, end_task, end_without_terminate, operate, status_of_holding};
