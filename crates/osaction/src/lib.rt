//! What alarms and expiry points of schedule tables do. An alarm does one action, on a task of this core or of another
//! core. An expiry point does all its actions.
//!
//! No function here takes memory. Each asks for room for the entries and marks that it adds, and for places in the
//! outbox.
#![tactic(auto)]

mod actions;
mod points;

pub use actions::act;
pub use points::do_point;
