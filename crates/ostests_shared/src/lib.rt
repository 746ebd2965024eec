//! Tests of what the cores share: spinlocks, the board, mailboxes; and of the queue of jobs.
//!
//! The crate has no code. The crates that it tests have no tests of their own, so each of them is proved once.
#![tactic(auto)]

#[cfg(test)]
mod tests;
