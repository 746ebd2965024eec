//! What is not as expected.

ghost use Rattle.std.specs.Prelude.{◌≡◌};
ghost use Rattle.osplay.specs.declared.differences.Difference.TheVariants.{Lacks, NoMemory};

use ostrace::WriteFailed;
use std::alloc::AllocError;

/// Why a table or a text is not as expected. A test passes it on, or checks which it is and drops it.
#[derive(Debug, Drop)]
pub enum Difference {
    /// Memory ran out.
    NoMemory,
    /// This expected part is missing.
    Lacks(&'static str),
    /// A table has more repeated parts than a table may have.
    TooManyParts,
    /// The first line that differs, with the line that is expected there.
    Line(String),
    /// The table has this number of jobs, which is not the expected one.
    Jobs(usize),
}

impl From<AllocError> for Difference {
    ghost from_gives = { λ _ difference. difference ≡ NoMemory };

    fn from(_refused: AllocError) -> Difference {
        Difference::NoMemory
    }
}

/// A write to memory fails only where memory runs out.
impl From<WriteFailed> for Difference {
    ghost from_gives = { λ _ difference. difference ≡ NoMemory };

    fn from(_failed: WriteFailed) -> Difference {
        Difference::NoMemory
    }
}

impl From<&'static str> for Difference {
    ghost from_gives = { λ part difference. difference ≡ Lacks part };

    fn from(part: &'static str) -> Difference {
        Difference::Lacks(part)
    }
}
