//! The execution budget of one job, and the lock budgets of resources: how many ticks were used of each.
//!
//! Nothing here takes memory.
#![tactic(auto)]

pub mod budget;
pub mod locks;

pub use budget::Used;
pub use locks::LockUsed;
