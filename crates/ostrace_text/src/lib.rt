//! What the text of a run's reports is, and how objects are named in it.
#![tactic(auto)]

mod names;

pub use names::BlockNames;
