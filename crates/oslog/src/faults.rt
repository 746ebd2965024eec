//! Why a log was not read, or not written.

ghost use Rattle.std.specs.Prelude.{◌≡◌};
ghost use Rattle.oslog.specs.declared.faults.LogFault.TheVariants as faults;

use std::alloc::AllocError;
use thiserror::Error;

/// Why a log was not read, or not written.
#[derive(Clone, Copy, Debug, PartialEq, Eq, Error)]
pub enum LogFault {
    /// A line is not that of an item.
    #[error("a line is not that of an item")]
    BadLog,
    /// Memory ran out.
    #[error("out of memory")]
    NoMemory,
}

impl From<AllocError> for LogFault {
    ghost from_gives = { λ _ fault. fault ≡ faults.NoMemory };

    fn from(_refused: AllocError) -> LogFault {
        LogFault::NoMemory
    }
}
