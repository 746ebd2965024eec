//! A ready job with its priority.

use osbase::Job;

/// How many priorities there are at most: a word has a bit for each.
pub const PRIORITIES: u8 = 32;

/// A job that is ready to run, with the priority at which it waits to run.
#[derive(Clone, Copy)]
pub struct Ready {
    pub priority: u8,
    pub job: Job,
}
