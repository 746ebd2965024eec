//! Words that several cores share, and the one history of all calls by which the cores use them.
//!
//! An object is what one caller after another sees: what it is at first, what a call makes of it and what it
//! answers. Here its state lies in words that change in single atomic steps, each core makes its calls from a
//! seat of its own, and every reply is the object's at one point of one history.
#![tactic(auto)]

pub mod histories;
pub mod words;

pub use histories::{Entry, Plan, SharedObject};
pub use words::{Asked, CoreSeat, SharedWords};
