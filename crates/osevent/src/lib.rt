//! The events of a task.
//!
//! Nothing here takes memory.
#![tactic(auto)]

pub mod events;

pub use events::{
    awaits_one_of, have_common, is_waiting, no_events, with_awaited, with_cleared, with_none_set,
    with_set,
};
