//! Worked examples for tests: tables of the texts that jobs read, and of the texts that they print.
//!
//! If something is not as expected, the answer is a `Difference`, and a test only passes it on.
#![tactic(auto)]

mod differences;
pub mod examples;
mod files;
mod jobs;
mod prints;
mod repeats;
mod scenes;
mod shorts;
pub mod sixteen;
mod tables;

pub use differences::Difference;
pub use files::files_of;
pub use jobs::{check_of, cut_of, group_of, groups_of, replay_of, run_of, threads_of};
pub use prints::{blocks_of, compare, result_from, result_of, result_over, result_text, same};
pub use tables::{given, play_table};
