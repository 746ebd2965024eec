//! When a core may drain, take its next stimulus or dispatch, and which messages it expects.
//!
//! Each function only reads the core's state. None takes memory.
#![tactic(auto)]

mod free;
mod messages;

pub use free::{is_settled, may_dispatch, may_go_on, may_look_halt};
pub use messages::is_awaited;
