//! What an action of an alarm or of a schedule table does.

ghost use Rattle.std.specs.Prelude.{◌≡◌, ◌<◌, IsTrue, length, suc};
ghost use Rattle.osservice.specs.Terms.{MayBegin, MayQueue};
ghost use Rattle.oscall.specs.Border.{core_of_call};
ghost use Rattle.osstate.specs.Readings.{is_served};
ghost use Rattle.osaction.specs.{Actions.acts_here, Actions.posts, Terms.MayTakeAction, Terms.TakesAction};
ghost use Rattle.osacts.specs.Steps.{Steps, StepsWithin};

use osbase::{Mark, Message, RemoteCall, Status};
use oscall::serve;
use osservice::is_ok;
use osstate::CoreState;

/// Does an action on a task of this core at once, and puts an action on another core's task into the outbox. If that
/// core was never started, ErrorHook is called here with E_OS_CORE instead (AUTOSAR SWS OS 4.x, SWS_Os_00632 and
/// SWS_Os_00633).
#[inline(always)]
pub fn act<const P: usize, const J: usize, const OUT: usize>(
    state: &mut CoreState<'_, P, J, OUT>,
    call: RemoteCall,
    marks: &mut Vec<Mark>,
)
    requires { MayTakeAction OUT call state.old marks.old }
    ensures { TakesAction call state.old state.new marks.old marks.new }
{
    let core = call.object().place.core;
    if state.is_this_core(core) {
        act_here(state, call, marks);
    } else if state.knows_started(core) {
        post(state, call, marks);
    } else {
        state.print(Mark::ErrorHook(Status::EOsCore), marks);
    }
}

// Does an action on a task of this core. If the action is refused, only ErrorHook is called.
#[inline(always)]
fn act_here<const P: usize, const J: usize, const OUT: usize>(
    state: &mut CoreState<'_, P, J, OUT>,
    call: RemoteCall,
    marks: &mut Vec<Mark>,
)
    requires served { IsTrue (is_served state.old.view call) }
    requires begins { MayBegin 2 2 state.old marks.old }
    ensures { StepsWithin 2 2 (acts_here call) state.old state.new marks.old marks.new }
{
    let answer = serve(state, call, marks);
    if !is_ok(answer.status) {
        state.print(Mark::ErrorHook(answer.status), marks);
    }
}

// Prints the line of an action on another core's task, and puts the action into the outbox.
fn post<const P: usize, const J: usize, const OUT: usize>(
    state: &mut CoreState<'_, P, J, OUT>,
    call: RemoteCall,
    marks: &mut Vec<Mark>,
)
    requires { MayQueue OUT 2 1 (core_of_call call) state.old marks.old }
    ensures steps { Steps 2 1 (posts call) state.old state.new marks.old marks.new }
    ensures outbox { length state.new.border.outbox ≡ suc (length state.old.border.outbox) }
{
    let core = call.object().place.core;
    state.print(Mark::CallQueued { core, call }, marks);
    state.queue(core, Message::Action(call));
}
