//! The live jobs of a core: which there are, which one runs, who gives way, and what belongs to their tasks and ISRs.
//!
//! Nothing here takes memory.
#![tactic(auto)]

mod current;
mod entered;
pub mod jobs;
mod live;
mod locks;
mod own_tasks;
mod priorities;

pub use jobs::Jobs;
pub use priorities::{is_extended, static_priority};
