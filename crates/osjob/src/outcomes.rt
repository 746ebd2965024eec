//! How a job ends, and the exit status for it.

ghost use Rattle.std.specs.Prelude.{◌≡◌};
ghost use Rattle.osjob.specs.Performs.{outcome_of, outcome_status};

/// The exit status of a job that was done, or of a run in which every started core ended.
pub const DONE: u8 = 0;

/// The exit status of a fault.
pub const FAULT: u8 = 1;

/// The exit status if the words name no job, as in `clap`.
pub const USAGE: u8 = 2;

/// The exit status of a run in which a started core did not end.
pub const STALLED: u8 = 3;

/// How a job without a fault ends.
#[derive(Clone, Copy, Debug, PartialEq, Eq)]
pub enum Outcome {
    /// The job was done. If the job was a run, every started core ended.
    Done,
    /// A started core did not end.
    Stalled,
}

impl Outcome {
    /// The outcome of a run: done if every started core ended, and else stalled.
    pub fn of_run(ended: bool) -> Outcome
        ensures { result ≡ outcome_of ended }
    {
        if ended {
            Outcome::Done
        } else {
            Outcome::Stalled
        }
    }

    /// The exit status.
    pub fn status(self) -> u8
        ensures { result ≡ outcome_status self }
    {
        match self {
            Outcome::Done => DONE,
            Outcome::Stalled => STALLED,
        }
    }
}
