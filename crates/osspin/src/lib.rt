//! Spinlocks: which core holds each, for cores on threads of their own and for listed runs.
//!
//! Both forms answer what one lock answers to one caller after another. Cores on threads also have logical clocks here.
#![tactic(auto)]

pub mod bank;
pub mod calls;
pub mod clocks;
pub mod laws;
pub mod list;

pub use bank::{SpinBank, SpinSeat};
pub use calls::{SpinAction, SpinCall, SpinReply, Spinlocks};
pub use clocks::{ClockSeat, Clocked, Clocks};
pub use list::SpinList;
