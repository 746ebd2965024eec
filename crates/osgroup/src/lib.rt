//! Which sets of cores are groups, the least group of a core, and the configuration of a group by itself.
//!
//! No core outside a group has a say in what one inside does.
#![tactic(auto)]

mod groups;
pub mod laws;
mod parts;

pub use groups::{is_group, least_group};
pub use parts::group_config;
