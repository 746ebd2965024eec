//! Whether two letters, messages or statuses are the same.

ghost use Rattle.std.specs.Prelude.{◌≡◌, ◌↔◌, IsTrue};

use osbase::{AlarmRef, Letter, Message, RemoteCall, Status, TaskRef};

/// Whether these letters are the same.
pub fn is_same_letter(left: &Letter, right: &Letter) -> bool
    ensures { IsTrue result ↔ left.now ≡ right.now }
{
    left.number == right.number && is_same_message(left.message, right.message)
}

/// Whether these messages are the same.
pub fn is_same_message(left: Message, right: Message) -> bool
    ensures { IsTrue result ↔ left ≡ right }
{
    match (left, right) {
        (Message::Request(one), Message::Request(other)) => is_same_call(one, other),
        (Message::Action(one), Message::Action(other)) => is_same_call(one, other),
        (Message::Reply(one), Message::Reply(other)) => is_same_status(one, other),
        (Message::Value(status, value), Message::Value(other_status, other_value)) => {
            value == other_value && is_same_status(status, other_status)
        }
        (_, _) => false,
    }
}

/// Whether these statuses are the same.
#[tactic(auto, using(osbase::proofs::StatusNumbers::status_same))]
pub fn is_same_status(left: Status, right: Status) -> bool
    ensures { IsTrue result ↔ left ≡ right }
{
    left.number() == right.number()
}

fn is_same_call(left: RemoteCall, right: RemoteCall) -> bool
    ensures { IsTrue result ↔ left ≡ right }
{
    match (left, right) {
        (RemoteCall::ActivateTask(one), RemoteCall::ActivateTask(other)) => {
            is_same_task(one, other)
        }
        (
            RemoteCall::SetEvent { task, mask },
            RemoteCall::SetEvent {
                task: other,
                mask: other_mask,
            },
        ) => mask == other_mask && is_same_task(task, other),
        (
            RemoteCall::SetRelAlarm {
                alarm,
                increment,
                cycle,
            },
            RemoteCall::SetRelAlarm {
                alarm: other,
                increment: other_increment,
                cycle: other_cycle,
            },
        ) => increment == other_increment && cycle == other_cycle && is_same_alarm(alarm, other),
        (
            RemoteCall::SetAbsAlarm {
                alarm,
                start,
                cycle,
            },
            RemoteCall::SetAbsAlarm {
                alarm: other,
                start: other_start,
                cycle: other_cycle,
            },
        ) => start == other_start && cycle == other_cycle && is_same_alarm(alarm, other),
        (RemoteCall::CancelAlarm(one), RemoteCall::CancelAlarm(other)) => {
            is_same_alarm(one, other)
        }
        (
            RemoteCall::GetAlarm { alarm, variable },
            RemoteCall::GetAlarm {
                alarm: other,
                variable: other_variable,
            },
        ) => variable.index == other_variable.index && is_same_alarm(alarm, other),
        (_, _) => false,
    }
}

fn is_same_task(left: TaskRef, right: TaskRef) -> bool
    ensures { IsTrue result ↔ left ≡ right }
{
    left.core.number == right.core.number && left.index == right.index
}

fn is_same_alarm(left: AlarmRef, right: AlarmRef) -> bool
    ensures { IsTrue result ↔ left ≡ right }
{
    left.core.number == right.core.number && left.index == right.index
}
