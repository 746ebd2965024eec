//! Services that may cross to another core, on either side; those of whole cores; and a script's variables.
//!
//! No function here takes memory. Each asks for room for the entries and marks that it adds.
#![tactic(auto)]

pub mod border;
pub mod shutdown;
pub mod variables;

pub use border::{call, serve, serve_action, serve_request};
