//! The row of each task and ISR of a core: its events, the resources that its oldest job holds, the place of that job
//! in its script, how often it has suspended interrupts, and how much of its budget it has used.
//!
//! Nothing here takes memory.
#![tactic(auto)]

pub mod laws;
pub mod rows;

pub use rows::Rows;
