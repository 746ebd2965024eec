//! The services of spinlocks.
//!
//! No function here takes memory. Each asks for room for the entries and marks that it adds.
#![tactic(auto)]

pub mod spinlocks;

pub use spinlocks::operate;
