//! The resources that one job holds, and how often it has suspended interrupts.
//!
//! Nothing here takes memory.
#![tactic(auto)]

pub mod held;
pub mod suspensions;

pub use held::{Held, greater};
pub use suspensions::Suspensions;
