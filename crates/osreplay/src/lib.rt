//! Replaying items: what one core does by itself with the items that another run gave it.
#![tactic(auto)]

mod replays;

pub use replays::{ReplayFault, replay};
