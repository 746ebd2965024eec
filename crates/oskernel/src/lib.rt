//! The kernel of one core: a machine that takes one item at a time and prints its marks.
#![tactic(auto)]

mod dispatching;
mod effects;
mod interrupts;
pub mod kernel;
mod operations;
mod starting;
pub mod wants;

pub use kernel::{Kernel, STEP_MARKS};
pub use wants::{SpinWish, Want, Watch};
