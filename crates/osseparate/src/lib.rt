//! Which cores are started, which are separate, and the configuration of a separate core alone.
//!
//! No other core has a say in what a separate core prints.
#![tactic(auto)]

mod cuts;
mod separate;

pub use cuts::cut;
pub use separate::{Coupling, coupling_of, is_separate, set_of};
