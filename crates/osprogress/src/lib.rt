//! A core's progress, and what crosses its border: the parts of its state that refer to none of its objects.
//!
//! No function here takes memory.
#![tactic(auto)]

pub mod border;
pub mod progress;

pub use border::Border;
pub use progress::Progress;
