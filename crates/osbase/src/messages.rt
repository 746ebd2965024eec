//! The messages between cores.

ghost use Rattle.std.specs.Prelude.{◌≡◌};
ghost use Rattle.osbase.specs.{declared.messages.Message.Message as MessageValue, declared.statuses.Status.TheVariants.EOk, Objects.object_of_call};

use crate::objects::{Object, Reference};
use crate::references::{AlarmRef, TaskRef, Variable};
use crate::statuses::Status;

/// A service that a core calls for another core's object (AUTOSAR SWS OS 4.x, SWS_Os_00596 and SWS_Os_00602).
#[derive(Clone, Copy, Debug, PartialEq, Eq)]
pub enum RemoteCall {
    ActivateTask(TaskRef),
    SetEvent {
        task: TaskRef,
        mask: u32,
    },
    SetRelAlarm {
        alarm: AlarmRef,
        increment: u32,
        cycle: u32,
    },
    SetAbsAlarm {
        alarm: AlarmRef,
        start: u32,
        cycle: u32,
    },
    CancelAlarm(AlarmRef),
    /// The variable is one of the caller's, which gets the value. The called core only prints the variable.
    GetAlarm {
        alarm: AlarmRef,
        variable: Variable,
    },
}

impl RemoteCall {
    /// The object that the call is for.
    pub fn object(self) -> Object
        ensures { result ≡ object_of_call self }
    {
        match self {
            RemoteCall::ActivateTask(task) => task.object(),
            RemoteCall::SetEvent { task, .. } => task.object(),
            RemoteCall::SetRelAlarm { alarm, .. } => alarm.object(),
            RemoteCall::SetAbsAlarm { alarm, .. } => alarm.object(),
            RemoteCall::CancelAlarm(alarm) => alarm.object(),
            RemoteCall::GetAlarm { alarm, .. } => alarm.object(),
        }
    }
}

/// A request is answered by one reply. An action of an alarm or a schedule table has no reply.
#[derive(Clone, Copy, Debug, PartialEq, Eq)]
pub enum Message {
    Request(RemoteCall),
    Action(RemoteCall),
    Reply(Status),
    /// A reply with a value: the reply to a GetAlarm that returns E_OK.
    Value(Status, i64),
}

impl Default for Message {
    /// A reply with E_OK. It fills the unused places of a list.
    fn default() -> Self
        ensures { result ≡ MessageValue.Reply EOk }
    {
        Message::Reply(Status::EOk)
    }
}

/// A message with its number. The letters from one core to another have the numbers 0, 1, 2 and so on. The steps of a
/// core deal with letters only, not with envelopes.
#[derive(Clone, Copy, Debug, Default, PartialEq, Eq)]
pub struct Letter {
    pub number: u64,
    pub message: Message,
}

/// A letter on its way from one core to another, with the clock that its transport needs.
#[derive(Clone, Copy, Debug, PartialEq, Eq)]
pub struct Envelope {
    pub letter: Letter,
    /// The logical clock of the sender's item, if the envelope goes from one thread to another; otherwise 0.
    pub clock: u64,
}

/// How envelopes go from one core to another where each core runs on a thread of its own.
#[derive(Clone, Copy, Debug, PartialEq, Eq)]
pub enum MailKind {
    /// Through a ring for each direction, without a lock.
    Ring,
    /// Through mailboxes under locks.
    Locked,
}
