//! Which messages a core expects.

ghost use Rattle.std.specs.{Prelude.◌≡◌, Prelude.false, Option.option_map_or};
ghost use Rattle.osawait.specs.Messages.{answers_value, is_awaited, is_reply_to};

use osbase::{Awaited, CoreId, Message, OpenCall, ServiceId, Status};
use oscript::is_action;
use osservice::is_ok;
use osstate::CoreState;

/// The core expects the message of core `from`. A request has to be for an object of this core, with a place left in
/// the outbox for the reply. An action has to activate a task of this core or set its events. A reply has to be the
/// one that the open call awaits.
pub fn is_awaited<const P: usize, const J: usize, const OUT: usize>(
    state: &CoreState<'_, P, J, OUT>,
    from: CoreId,
    message: &Message,
) -> bool
    ensures { result ≡ is_awaited OUT state.now from message.now }
{
    match message {
        Message::Request(call) => state.has(call.object()) & state.has_place(),
        Message::Action(call) => is_action(*call) & state.has(call.object()),
        Message::Reply(status) => is_awaited_reply(state, from, *status, false),
        Message::Value(status, _) => is_awaited_reply(state, from, *status, true),
    }
}

// A call is open and awaits a reply of core `from` with this status, and with a value exactly if `has_value` says so.
fn is_awaited_reply<const P: usize, const J: usize, const OUT: usize>(
    state: &CoreState<'_, P, J, OUT>,
    from: CoreId,
    status: Status,
    has_value: bool,
) -> bool
    ensures { result ≡ option_map_or (is_reply_to from status has_value) state.now.border.open_call false }
{
    match state.awaited_call() {
        Some(call) => is_reply(from, status, has_value, call),
        None => false,
    }
}

// The call awaits a reply of core `from`, and the reply has the right form: it has a value (`has_value`) exactly if the
// awaited service is GetAlarm and `status` is E_OK.
fn is_reply(from: CoreId, status: Status, has_value: bool, call: OpenCall) -> bool
    ensures { result ≡ is_reply_to from status has_value call }
{
    match call.awaits {
        Awaited::Reply { service, core } => {
            let wants_value = gives_value(service) & is_ok(status);
            let is_wanted = if wants_value { has_value } else { !has_value };
            (core == from) & is_wanted
        }
        _ => false,
    }
}

// The service is GetAlarm: only its reply carries a value, and only with E_OK.
fn gives_value(service: ServiceId) -> bool
    ensures { result ≡ answers_value service }
{
    matches!(service, ServiceId::GetAlarm)
}
