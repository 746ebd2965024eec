//! Reading configurations.
//!
//! A text is judged in passes: whether it is JSON, its shape, and then a table of tests in ascending order of
//! their faults. So the fault that is returned is the one of smallest number. This crate makes the plan that a text
//! without a fault means, and runs the passes in order. The plan is made part by part where the parts are
//! judged. Running out of memory is never taken for a fault of the text.
#![tactic(auto)]

mod configs;
mod planners;
mod plans;
mod table_plans;

pub use configs::read_config;
