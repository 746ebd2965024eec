//! The whole state of a core, one function for each kind of entry of its history, and what is read off it.
//!
//! No function here takes memory.
#![tactic(auto)]

mod scripts;
pub mod state;

pub use state::CoreState;
