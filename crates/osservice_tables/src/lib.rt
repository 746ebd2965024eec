//! The services of schedule tables.
//!
//! No function here takes memory. Each asks for room for the entries and marks that it adds.
#![tactic(auto)]

pub mod tables;

pub use tables::operate;
