//! Items: the only inputs of a core. A core is a machine that takes one item at a time.

ghost use Rattle.std.specs.Prelude.{◌≡◌, ◌<◌, IsTrue};
ghost use Rattle.osbase.specs.Sets.{has_core};

use crate::limits::CORES;
use crate::messages::Message;
use crate::references::{CoreId, IsrRef, ModeId, SpinlockId};
use crate::statuses::Status;

/// An input from a core's environment.
#[derive(Clone, Copy, Debug, PartialEq, Eq)]
pub enum Stimulus {
    /// The running job does its next operation.
    Op,
    /// Every hardware counter of the core advances by one.
    Tick,
    /// An interrupt for this ISR occurs.
    Irq(IsrRef),
}

/// A set of cores: a flag for each core number.
#[derive(Clone, Copy, Debug, PartialEq, Eq)]
pub struct CoreSet {
    pub members: [bool; CORES],
}

impl CoreSet {
    /// Whether the core is in the set.
    pub fn contains(&self, core: CoreId) -> bool
        ensures value { result ≡ has_core self.now core }
        ensures number { IsTrue result → core.number < CORES }
    {
        match self.members.get(usize::from(core.number)) {
            Some(is_member) => *is_member,
            None => false,
        }
    }
}

/// The application mode with which a core calls StartOS (AUTOSAR SWS OS 4.x, SWS_Os_00608 to SWS_Os_00610).
#[derive(Clone, Copy, Debug, PartialEq, Eq)]
pub enum CoreMode {
    Named(ModeId),
    DontCare,
}

/// The result of comparing the started cores' application modes at the first synchronisation point of
/// StartOS (AUTOSAR SWS OS 4.x, SWS_Os_00608 to SWS_Os_00610).
#[derive(Clone, Copy, Debug, PartialEq, Eq)]
pub enum Agreement {
    /// Two cores name different modes.
    Conflict,
    /// The one mode that is named.
    Mode(ModeId),
    /// Every core says DONOTCARE.
    NoMode,
}

/// One atomic step of a core's input.
#[derive(Clone, Copy, Debug, PartialEq, Eq)]
pub enum Item {
    /// The core was started by another core.
    On,
    /// The core calls StartCore for the next core of the start list before StartOS, and gets this status.
    Began {
        core: CoreId,
        status: Status,
    },
    /// The start list is done, and the board knows the core's mode.
    Entered,
    /// The first gate is passed.
    Pass1(Agreement),
    /// StartupHook has run.
    Readied,
    /// The second gate is passed: these cores were started.
    Pass2(CoreSet),
    /// A stimulus.
    Stim(Stimulus),
    /// The first letter of the outbox goes to this core's mailbox.
    Posted(CoreId),
    /// The core receives a letter from another core. A log writes `in`.
    Received {
        from: CoreId,
        number: u64,
        message: Message,
    },
    /// An open call of GetSpinlock gets its spinlock.
    Granted(SpinlockId),
    /// An open call of TryToGetSpinlock is answered.
    Tried {
        spinlock: SpinlockId,
        taken: bool,
    },
    /// A spinlock was given back.
    Freed(SpinlockId),
    /// A shutdown of all cores: which core requested it first, and with which status.
    Halt {
        core: CoreId,
        status: Status,
    },
    /// The core takes no further stimulus: none is left, or it is down or halted.
    Drained,
    /// Every started core has drained.
    PassEnd,
    /// The core's end. If a core requested a shutdown of all cores, it has that core and its status.
    Last(Option<(CoreId, Status)>),
}
