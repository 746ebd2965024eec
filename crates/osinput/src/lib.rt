//! Reading what a run is given: each core's stimuli, and a schedule.
//!
//! A text is judged in passes: whether it is JSON, its limit, and then all else under one fault. So the fault
//! that is returned has the smallest number. A failed allocation is never taken for a fault of the text.
#![tactic(auto)]

mod given;
mod walks;
mod words;

pub use given::{read_schedule, read_stimuli};
