//! Worked examples as theorems: what the definitions say of them, by computation. And laws of every history.
#![tactic(auto)]

pub mod border;
pub mod clocks;
pub mod groups;
pub mod interrupts;
pub mod laws;
pub mod logs;
pub mod resources;
pub mod shutdowns;
pub mod spinlocks;
pub mod tasks;
