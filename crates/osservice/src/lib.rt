//! What all services share: what they may read and do, what a script names, how they return, and how they ask another
//! core.
//!
//! No function here takes memory. Each asks for room for the entries and marks that it adds.
#![tactic(auto)]

pub mod naming;
pub mod returning;
pub mod steps;

pub use naming::own_of;
pub use returning::{ServiceResult, accept, ask, finish, is_ok, refuse, report, without_value};
pub use steps::Step;
