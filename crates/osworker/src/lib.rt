//! A core's worker: it serves the other cores, does its core's own work and looks at the board, turn by turn.
//!
//! Two workers share the words of the board and of the spinlocks, and a ring or a mailbox for each direction, and
//! nothing else. This crate does not decide who starts a thread for each.
#![tactic(auto)]

pub mod gates;
pub mod run;
pub mod seats;
pub mod shifts;
mod stamps;
pub mod turns;
pub mod wakers;
pub mod worker;
mod workers;

pub use gates::Gate;
pub use run::Run;
pub use seats::Seats;
pub use shifts::core_worker;
pub use turns::Stop;
pub use wakers::{AWAKE, ROUND, Wakers};
pub use worker::Worked;
