//! The program's command line: the job that its words ask for.
#![tactic(auto)]

pub mod jobs;

pub use jobs::{Job, Print, job_of};
