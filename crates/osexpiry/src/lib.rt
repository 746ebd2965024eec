//! What expires when a counter of a core is incremented: its alarms act, and its schedule tables reach their points and
//! the ends of their periods.
//!
//! No function here takes memory. Each asks for room for the entries and marks that it adds, and for places in the
//! outbox.
#![tactic(auto)]

pub mod advancing;
mod expiring;
mod expiry_points;
pub mod incrementing;

pub use advancing::advance;
pub use incrementing::operate;
