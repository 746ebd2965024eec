//! Schedule tables: the next expiry point or end of period of each, and how many counts lead to it.
//!
//! Nothing here takes memory.
#![tactic(auto)]

pub mod laws;
pub mod table;
pub mod tables;

pub use table::{Ahead, Due, Table, TableStatus};
pub use tables::{DueTable, DueTables, Tables};
