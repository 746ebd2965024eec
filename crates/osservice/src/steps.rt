//! Operations of jobs.

use osbase::Runner;
use oscript::Op;

/// An operation of a runner's oldest job.
#[derive(Clone, Copy)]
pub struct Step {
    pub runner: Runner,
    pub op: Op,
}
