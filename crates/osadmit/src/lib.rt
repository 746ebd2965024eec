//! Which items a core may take.
//!
//! Each function only reads the core's state. None takes memory.
#![tactic(auto)]

mod admission;

pub use admission::is_admitted;
