//! Actions: the operations that an alarm or an expiry point can make.

ghost use Rattle.std.specs.Prelude.{◌≡◌};
ghost use Rattle.ossyntax.specs.Action.{is_action};

use crate::parsing::op_of_text;
use crate::places::AnyName;
use oscript::action_of_op;

/// Whether a text is a well-formed action: an operation that activates a task or sets events of one, and has a name,
/// not `?`. Whether there is a task of this name is not checked (AUTOSAR SWS OS 4.x, OsAlarmAction).
pub fn is_action(text: &str) -> bool
    ensures { result ≡ is_action text.now }
{
    match op_of_text(&AnyName, text) {
        Some(op) => action_of_op(op).is_some(),
        None => false,
    }
}
