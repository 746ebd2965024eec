//! The cores of a configuration, each on a thread of its own.
//!
//! Each core has a worker (`osworker`). This crate gives the workers their seats and their ends of the mail, starts and
//! joins them, and gathers what they hand back.
#![tactic(auto)]

pub mod ending;
pub mod runs;
pub mod threads;

pub use ending::{Ending, Kept};
pub use osbase::MailKind;
pub use osworker::{AWAKE, Gate, ROUND, Run, Seats, Stop, Wakers, Worked, core_worker};
pub use runs::{ThreadFault, ThreadReason, run_threads};
