//! The objects of a core that use its counters.
//!
//! Nothing here takes memory.
#![tactic(auto)]

pub mod attached;

pub use attached::Attached;
