//! The spinlocks that a core got.
//!
//! Nothing here takes memory.
#![tactic(auto)]

pub mod grants;

pub use grants::Grants;
