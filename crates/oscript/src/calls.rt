//! Operations, and the calls across cores that belong to them.

ghost use Rattle.std.specs.Prelude.{◌≡◌, Some};
ghost use Rattle.oscript.specs.Calls.{action_of_op, call_of_op, is_action, is_activation, named_call, op_of_call};

use crate::Op;
use osbase::{RemoteCall, ServiceId};

/// The service that an operation calls for an object of any core, and the call for that object; no call for the invalid
/// identifier (AUTOSAR SWS OS 4.x, SWS_Os_00596 and SWS_Os_00602). `None` for an operation of another kind.
#[inline(always)]
pub fn call_of_op(op: Op) -> Option<(ServiceId, Option<RemoteCall>)>
    ensures { result ≡ call_of_op op }
{
    match op {
        Op::ActivateTask(target) => {
            Some((
                ServiceId::ActivateTask,
                target.map(RemoteCall::ActivateTask),
            ))
        }
        Op::SetEvent(target, mask) => {
            let call = target.map(|task| RemoteCall::SetEvent { task, mask });
            Some((ServiceId::SetEvent, call))
        }
        Op::SetRelAlarm(target, increment, cycle) => {
            let call = target.map(|alarm| RemoteCall::SetRelAlarm {
                alarm,
                increment,
                cycle,
            });
            Some((ServiceId::SetRelAlarm, call))
        }
        Op::SetAbsAlarm(target, start, cycle) => {
            let call = target.map(|alarm| RemoteCall::SetAbsAlarm {
                alarm,
                start,
                cycle,
            });
            Some((ServiceId::SetAbsAlarm, call))
        }
        Op::CancelAlarm(target) => {
            Some((ServiceId::CancelAlarm, target.map(RemoteCall::CancelAlarm)))
        }
        Op::GetAlarm(target, variable) => {
            let call = target.map(|alarm| RemoteCall::GetAlarm { alarm, variable });
            Some((ServiceId::GetAlarm, call))
        }
        _ => None,
    }
}

/// The operation that a script has for a call. The call of that operation is the given call.
pub fn op_of_call(call: RemoteCall) -> Op
    ensures op { result ≡ op_of_call call }
    ensures back { named_call result ≡ Some call }
{
    match call {
        RemoteCall::ActivateTask(task) => Op::ActivateTask(Some(task)),
        RemoteCall::SetEvent { task, mask } => Op::SetEvent(Some(task), mask),
        RemoteCall::SetRelAlarm {
            alarm,
            increment,
            cycle,
        } => Op::SetRelAlarm(Some(alarm), increment, cycle),
        RemoteCall::SetAbsAlarm {
            alarm,
            start,
            cycle,
        } => Op::SetAbsAlarm(Some(alarm), start, cycle),
        RemoteCall::CancelAlarm(alarm) => Op::CancelAlarm(Some(alarm)),
        RemoteCall::GetAlarm { alarm, variable } => Op::GetAlarm(Some(alarm), variable),
    }
}

/// Whether an alarm or an expiry point may make the call: it activates a task or sets events of one (AUTOSAR
/// SWS OS 4.x, OsAlarmAction and OsScheduleTableExpiryPoint).
pub fn is_action(call: RemoteCall) -> bool
    ensures { result ≡ is_action call }
{
    matches!(
        call,
        RemoteCall::ActivateTask(_) | RemoteCall::SetEvent { .. }
    )
}

/// Whether an action activates a task. The other actions set events (AUTOSAR SWS OS 4.x, OsAlarmAction and
/// OsScheduleTableExpiryPoint).
pub fn is_activation(call: RemoteCall) -> bool
    ensures { result ≡ is_activation call }
{
    matches!(call, RemoteCall::ActivateTask(_))
}

/// The call of an operation, if the call is an action, which an alarm or an expiry point may make.
pub fn action_of_op(op: Op) -> Option<RemoteCall>
    ensures { result ≡ action_of_op op }
{
    match call_of_op(op) {
        Some((_, Some(call))) => { if is_action(call) { Some(call) } else { None } }
        _ => None,
    }
}
