//! What an expiry point of a schedule table does.

ghost use Rattle.std.specs.Prelude.{◌≡◌, ◌*◌, IsTrue, count_by, length};
ghost use Rattle.std.specs.List.{list_all};
ghost use Rattle.osplan.specs.Objects.{is_posting, may_act, posted_at};
ghost use Rattle.osservice.specs.Terms.{MayPost};
ghost use Rattle.osaction.specs.Points.{acts_each, does_point, is_known_point, is_of_kind, of_kind};
ghost use Rattle.osacts.specs.Steps.{Posts};

use crate::actions::act;
use osbase::{Mark, RemoteCall, TableRef};
use oscript::is_activation;
use osplan::ExpiryPoint;
use osstate::CoreState;

/// Prints the point's line, and then does its actions: all activations before all settings of events (AUTOSAR SWS OS
/// 4.x, SWS_Os_00407 and SWS_Os_00412).
pub fn do_point<const P: usize, const J: usize, const OUT: usize>(
    state: &mut CoreState<'_, P, J, OUT>,
    table: TableRef,
    point: &ExpiryPoint,
    marks: &mut Vec<Mark>,
)
    requires known { IsTrue (is_known_point state.old.view.own point.now) }
    requires posts { MayPost (posted_at state.old.view.own point.now) OUT 17 17 state.old marks.old }
    ensures { Posts (posted_at state.old.view.own point.now) 17 17 (does_point table point.now) state.old state.new marks.old marks.new }
{
    let offset = point.offset;
    let actions = point.actions.as_slice();
    state.print(Mark::ExpiryPoint { table, offset }, marks);
    act_each(state, actions, true, marks);
    act_each(state, actions, false, marks);
}

// Does the actions that activate a task or, if `activating` is false, those that set events.
fn act_each<const P: usize, const J: usize, const OUT: usize>(
    state: &mut CoreState<'_, P, J, OUT>,
    actions: &[RemoteCall],
    activating: bool,
    marks: &mut Vec<Mark>,
)
    requires known { IsTrue (list_all (may_act state.old.view.own) actions.now) }
    requires posts { MayPost (count_by (is_posting state.old.view.own) (of_kind activating actions.now)) OUT (2 * length (of_kind activating actions.now)) (2 * length (of_kind activating actions.now)) state.old marks.old }
    ensures { Posts (count_by (is_posting state.old.view.own) (of_kind activating actions.now)) (2 * length (of_kind activating actions.now)) (2 * length (of_kind activating actions.now)) (acts_each (of_kind activating actions.now)) state.old state.new marks.old marks.new }
{
    for action in actions {
        if is_of_kind(action, activating) {
            act(state, *action, marks);
        }
    }
}

// Whether the action is an activation or, if `activating` is false, a setting of events.
fn is_of_kind(action: &RemoteCall, activating: bool) -> bool
    ensures { result ≡ is_of_kind activating action.now }
{
    is_activation(*action) == activating
}
