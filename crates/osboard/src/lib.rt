//! The start and shutdown board: what the cores tell one another at the start, at the end and on a shutdown of
//! all cores, for cores on threads of their own and for listed runs.
//!
//! Both forms answer what one board answers to one caller after another.
#![tactic(auto)]

pub mod board;
pub mod calls;
pub mod list;
mod views;
mod words;

pub use board::{Board, BoardSeat};
pub use calls::{BoardCall, BoardReply, BoardState, BoardView, BoardWords, ModeSet};
pub use list::BoardList;
pub use views::have_all;
