//! A tick of a core: the budget of the running job, and the core's hardware counters.
//!
//! No function here takes memory. Each asks for room for the entries and marks that it adds.
#![tactic(auto)]

mod faults;
mod ticks;

pub use ticks::tick;
