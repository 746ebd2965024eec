//! ChainTask, and how a service goes on with the answer of another core.
//!
//! No function here takes memory. Each asks for room for the entries and marks that it adds.
#![tactic(auto)]

mod chaining;

pub use chaining::{operate, resume};
