//! The faults that the program prints.

ghost use Rattle.std.specs.Prelude.{◌≡◌};
ghost use Rattle.osjob.specs.Faults.{fault_number, fault_name, of_log, of_threads};
ghost use Rattle.osplan.specs.declared.faults.ConfFault.TheVariants.{NoMemory};
ghost use Rattle.osjob.specs.declared.faults.Fault.TheVariants.{NoMemoryToRun, Text, WriteFailed};

use osconf::ConfFault;
use oslog::LogFault;
use osthreads::{ThreadFault, ThreadReason};
use ostrace::WriteFailed;
use osworld::RunFault;
use std::alloc::AllocError;

/// Why a job was not done. The program prints `fault N Name` and exits with status 1.
#[derive(Clone, Copy, Debug, PartialEq, Eq)]
pub enum Fault {
    /// A text is not what it has to be, the core to cut is not separate, or memory ran out before a run: for the
    /// words, a file's bytes or a configuration.
    Text(ConfFault),
    /// A log is no text, or one of its lines is not the line of an item.
    BadLog,
    /// The item of this number, counted from 1, may not be taken.
    ItemRefused(u64),
    /// Memory ran out in a run or a replay, or for the items or the text of a log.
    NoMemoryToRun,
    /// A core's thread could not be started.
    NoThread,
    /// A core could not take an envelope, or what one core took is not what the other core sent.
    MailBreak,
    /// A write to the output, or its flush, was refused.
    WriteFailed,
    /// A file could not be read.
    Unreadable,
}

impl Fault {
    /// The number that is printed.
    pub fn number(self) -> u8
        ensures { result ≡ fault_number self }
    {
        self.printed().0
    }

    /// The word that is printed.
    pub fn name(self) -> &'static str
        ensures { result.now ≡ fault_name self }
    {
        self.printed().1
    }

    // The number and the word that are printed.
    fn printed(self) -> (u8, &'static str)
        ensures number { result.0 ≡ fault_number self }
        ensures name { result.1.now ≡ fault_name self }
    {
        match self {
            Fault::Text(fault) => (fault.number(), fault.name()),
            Fault::BadLog => (14, "BadLog"),
            Fault::ItemRefused(_) => (15, "ItemRefused"),
            Fault::NoMemoryToRun => (16, "NoMemory"),
            Fault::NoThread => (17, "NoThread"),
            Fault::MailBreak => (18, "MailBreak"),
            Fault::WriteFailed => (19, "WriteFailed"),
            Fault::Unreadable => (21, "Unreadable"),
        }
    }
}

impl From<ConfFault> for Fault {
    ghost from_gives = { λ text fault. fault ≡ Text text };

    fn from(fault: ConfFault) -> Fault {
        Fault::Text(fault)
    }
}

impl From<AllocError> for Fault {
    ghost from_gives = { λ _ fault. fault ≡ Text NoMemory };

    fn from(_refused: AllocError) -> Fault {
        Fault::Text(ConfFault::NoMemory)
    }
}

impl From<RunFault> for Fault {
    ghost from_gives = { λ _ fault. fault ≡ NoMemoryToRun };

    fn from(_refused: RunFault) -> Fault {
        Fault::NoMemoryToRun
    }
}

impl From<LogFault> for Fault {
    ghost from_gives = { λ log fault. fault ≡ of_log log };

    fn from(fault: LogFault) -> Fault {
        match fault {
            LogFault::BadLog => Fault::BadLog,
            LogFault::NoMemory => Fault::NoMemoryToRun,
        }
    }
}

impl From<ThreadFault> for Fault {
    ghost from_gives = { λ broken fault. fault ≡ of_threads broken.reason };

    fn from(broken: ThreadFault) -> Fault {
        match broken.reason {
            ThreadReason::NotBegun | ThreadReason::NoMemory => Fault::NoMemoryToRun,
            ThreadReason::NoThread => Fault::NoThread,
            ThreadReason::MailBreak => Fault::MailBreak,
        }
    }
}

impl From<WriteFailed> for Fault {
    ghost from_gives = { λ _ fault. fault ≡ WriteFailed };

    fn from(_failed: WriteFailed) -> Fault {
        Fault::WriteFailed
    }
}
