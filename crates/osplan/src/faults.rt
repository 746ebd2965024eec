//! Why a configuration, stimuli or a schedule was not read, or why a core's configuration was not cut from the whole.

ghost use Rattle.std.specs.Prelude.{◌≡◌};
ghost use Rattle.osplan.specs.{Fault.fault_number, Fault.fault_name, declared.faults.ConfFault.TheVariants.NoMemory};

use std::alloc::{AllocError, AllocFailed};
use std::error::Error;
use std::fmt;

/// Why a text was not read, or why a core's configuration was not cut from the whole.
#[derive(Clone, Copy, Debug, PartialEq, Eq)]
pub enum ConfFault {
    /// The text is not JSON.
    NotJson,
    /// A member is missing, unknown or of another type, or a fixed word is unknown.
    Shape,
    /// A count or a number is outside its limit.
    Limit,
    /// A name or a core number occurs twice.
    DuplicateName,
    /// There is no such object of the required kind, no such mode or no such core.
    UnknownName,
    /// An object of another core, where none is allowed.
    WrongCore,
    /// The spinlocks' successors have a cycle.
    SpinOrder,
    /// An event mask that is not 1 to 4294967295.
    BadMask,
    /// A schedule table's points are out of order, past its duration, or at delays that its counter does not allow.
    BadTable,
    /// An operation or an action is not well-formed, or has a number out of its range that is no mask.
    BadScript,
    /// Memory ran out while reading or cutting.
    NoMemory,
    /// The stimuli are faulty.
    BadStimulus,
    /// The listed turns are faulty.
    BadSchedule,
    /// The core is not separate.
    NotSeparate,
}

impl ConfFault {
    /// The number that a program prints.
    pub fn number(self) -> u8
        ensures { result ≡ fault_number self }
    {
        match self {
            ConfFault::NotJson => 1,
            ConfFault::Shape => 2,
            ConfFault::Limit => 3,
            ConfFault::DuplicateName => 4,
            ConfFault::UnknownName => 5,
            ConfFault::WrongCore => 6,
            ConfFault::SpinOrder => 7,
            ConfFault::BadMask => 8,
            ConfFault::BadTable => 9,
            ConfFault::BadScript => 10,
            ConfFault::NoMemory => 11,
            ConfFault::BadStimulus => 12,
            ConfFault::BadSchedule => 13,
            ConfFault::NotSeparate => 20,
        }
    }

    /// The word that a program prints.
    pub fn name(self) -> &'static str
        ensures { result.now ≡ fault_name self }
    {
        match self {
            ConfFault::NotJson => "NotJson",
            ConfFault::Shape => "Shape",
            ConfFault::Limit => "Limit",
            ConfFault::DuplicateName => "DuplicateName",
            ConfFault::UnknownName => "UnknownName",
            ConfFault::WrongCore => "WrongCore",
            ConfFault::SpinOrder => "SpinOrder",
            ConfFault::BadMask => "BadMask",
            ConfFault::BadTable => "BadTable",
            ConfFault::BadScript => "BadScript",
            ConfFault::NoMemory => "NoMemory",
            ConfFault::BadStimulus => "BadStimulus",
            ConfFault::BadSchedule => "BadSchedule",
            ConfFault::NotSeparate => "NotSeparate",
        }
    }
}

impl fmt::Display for ConfFault {
    fn fmt<W: fmt::Write>(&self, f: &mut fmt::Formatter<W>) -> fmt::Result {
        write!(f, "fault {} {}", self.number(), self.name())
    }
}

impl Error for ConfFault {}

impl From<AllocError> for ConfFault {
    ghost from_gives = { λ _ fault. fault ≡ NoMemory };

    fn from(_refused: AllocError) -> ConfFault {
        ConfFault::NoMemory
    }
}

impl<T: Drop> From<AllocFailed<T>> for ConfFault {
    ghost from_gives = { λ _ fault. fault ≡ NoMemory };

    fn from(_refused: AllocFailed<T>) -> ConfFault {
        ConfFault::NoMemory
    }
}
