//! What an alarm does when it expires.

ghost use Rattle.std.specs.Prelude.{IsTrue};
ghost use Rattle.osbase.specs.Objects.{alarm_object};
ghost use Rattle.osplan.specs.Objects.{is_own_object};
ghost use Rattle.osservice.specs.Terms.{MayPost};
ghost use Rattle.osexpiry.specs.{Advancing.posted_for, Expiring.expires};
ghost use Rattle.osacts.specs.Steps.{Posts};

use osaction::act;
use osbase::{AlarmRef, Mark};
use osstate::CoreState;

// Prints the alarm's line, and then does its action.
pub(crate) fn expire<const P: usize, const J: usize, const OUT: usize>(
    state: &mut CoreState<'_, P, J, OUT>,
    alarm: AlarmRef,
    marks: &mut Vec<Mark>,
)
    requires own { IsTrue (is_own_object state.old.view.own (alarm_object alarm)) }
    requires posts { MayPost (posted_for state.old.view.own alarm) OUT 3 3 state.old marks.old }
    ensures { Posts (posted_for state.old.view.own alarm) 3 3 (expires alarm) state.old state.new marks.old marks.new }
{
    let action = state.alarm_action(alarm);
    state.print(Mark::AlarmExpired(alarm), marks);
    act(state, action, marks);
}
