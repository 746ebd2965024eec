//! The types that the definitions over a core's history share with the kernel.

ghost use Rattle.std.specs.Prelude.{◌≡◌};
ghost use Rattle.osbase.specs.Phases.{halted_from, is_down, is_going, is_scheduling, same_phase};

use crate::messages::Letter;
use crate::references::{CoreId, Runner, SpinlockId};
use crate::statuses::{ServiceId, Status};

/// The phase of a core, from before its start to its end.
#[derive(Clone, Copy, PartialEq, Eq)]
pub enum Phase {
    Off,
    Boot,
    FirstGate,
    BetweenGates,
    SecondGate,
    /// The core schedules, and takes stimuli.
    Live,
    /// The core takes no more stimuli. It schedules, and serves other cores.
    Drained,
    Closing,
    Ended,
}

impl Phase {
    /// Whether this phase and the phase `asked` are the same.
    pub fn is(self, asked: Phase) -> bool
        ensures { result ≡ same_phase asked self }
    {
        self as u8 == asked as u8
    }

    /// Whether a core in this phase schedules jobs, serves other cores and posts letters, as it does from the second
    /// gate of StartOS to its end.
    pub fn is_scheduling(self) -> bool
        ensures { result ≡ is_scheduling self }
    {
        matches!(self, Phase::Live | Phase::Drained | Phase::Closing)
    }
}

/// Whether a core runs, is down after its own shutdown, or was halted with all others. A core that is down or halted
/// schedules nothing any more and serves no other core, whatever its phase is (AUTOSAR SWS OS 4.x, ShutdownOS and
/// ShutdownAllCores).
#[derive(Clone, Copy, PartialEq, Eq)]
pub enum Course {
    Going,
    Down,
    Halted,
}

impl Course {
    /// Whether the core is neither down nor halted.
    pub fn is_going(self) -> bool
        ensures { result ≡ is_going self }
    {
        matches!(self, Course::Going)
    }

    /// Whether the core is down.
    pub fn is_down(self) -> bool
        ensures { result ≡ is_down self }
    {
        matches!(self, Course::Down)
    }

    /// The course after a halt of all cores: a core that is down stays down.
    pub fn halted(self) -> Course
        ensures { result ≡ halted_from self }
    {
        match self {
            Course::Down => Course::Down,
            Course::Going | Course::Halted => Course::Halted,
        }
    }
}

/// A job of a task or an ISR. Its stamp is the place in the history where the job began, or was
/// last released from waiting. Of two jobs, the one with the smaller stamp is older.
#[derive(Clone, Copy, Default, PartialEq, Eq)]
pub struct Job {
    pub runner: Runner,
    pub stamp: u64,
}

/// A resource that a job holds: its index among the core's resources, and its ceiling priority. A job holds only
/// resources of its own core (OSEK/VDX OS 2.2.3, section 8.5).
#[derive(Clone, Copy, Default, PartialEq, Eq)]
pub struct HeldResource {
    pub index: u8,
    pub ceiling: u8,
}

/// The events of a task, each a bit of a mask: those that are set, and those that the task waits for, if it waits
/// (OSEK/VDX OS 2.2.3, section 7).
#[derive(Clone, Copy, PartialEq, Eq)]
pub struct TaskEvents {
    pub set: u32,
    pub awaited: Option<u32>,
}

/// What a call of a job waits for.
#[derive(Clone, Copy, PartialEq, Eq)]
pub enum Awaited {
    /// The reply of another core to this service.
    Reply { service: ServiceId, core: CoreId },
    /// GetSpinlock waits until it has taken the spinlock.
    Get(SpinlockId),
    /// TryToGetSpinlock waits for the answer to one try.
    Try(SpinlockId),
    /// ReleaseSpinlock waits until the spinlock is given back.
    Release(SpinlockId),
    /// ShutdownAllCores with this status waits until it is known which core requested a shutdown first.
    Halt(Status),
}

/// A call of a job that is not done yet.
#[derive(Clone, Copy, PartialEq, Eq)]
pub struct OpenCall {
    pub runner: Runner,
    pub awaits: Awaited,
}

/// A spinlock that the core got, and the runner whose oldest job has it. If its release is owed, it has no holder
/// (AUTOSAR SWS OS 4.x, GetSpinlock).
#[derive(Clone, Copy, Default, PartialEq, Eq)]
pub struct GotSpinlock {
    pub lock: SpinlockId,
    pub holder: Option<Runner>,
}

/// A letter of the outbox, and the core that it is for.
#[derive(Clone, Copy, Default, PartialEq, Eq)]
pub struct Sent {
    pub to: CoreId,
    pub letter: Letter,
}
