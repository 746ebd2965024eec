//! When a core may drain, take its next stimulus, dispatch, or look for a shutdown of all cores.

ghost use Rattle.std.specs.Prelude.{◌≡◌};
ghost use Rattle.osawait.specs.Free.{is_active, is_free, is_get, is_settled, may_dispatch, may_go_on, may_look_halt};

use osbase::Awaited;
use osstate::CoreState;

// No call is open, and no spinlock release is owed.
fn is_free<const P: usize, const J: usize, const OUT: usize>(
    state: &CoreState<'_, P, J, OUT>,
) -> bool
    ensures { result ≡ is_free state.now }
{
    state.awaited_call().is_none() & !state.is_owing()
}

/// A core drains only if no call is open, no spinlock release is owed, and its outbox is empty.
pub fn is_settled<const P: usize, const J: usize, const OUT: usize>(
    state: &CoreState<'_, P, J, OUT>,
) -> bool
    ensures { result ≡ is_settled state.now }
{
    is_free(state) & state.is_outbox_empty()
}

// The core is active: it is neither down nor halted, no call is open, and no spinlock release is owed.
fn is_active<const P: usize, const J: usize, const OUT: usize>(
    state: &CoreState<'_, P, J, OUT>,
) -> bool
    ensures { result ≡ is_active state.now }
{
    is_free(state) & state.course().is_going()
}

/// The core may take its next stimulus: it is active (`is_active`), and its outbox is empty.
pub fn may_go_on<const P: usize, const J: usize, const OUT: usize>(
    state: &CoreState<'_, P, J, OUT>,
) -> bool
    ensures { result ≡ may_go_on state.now }
{
    is_active(state) & state.is_outbox_empty()
}

/// The core may dispatch: it is active (`is_active`), and in a phase in which it schedules (OSEK/VDX OS 2.2.3, section
/// 4.6).
pub fn may_dispatch<const P: usize, const J: usize, const OUT: usize>(
    state: &CoreState<'_, P, J, OUT>,
) -> bool
    ensures { result ≡ may_dispatch state.now }
{
    state.phase().is_scheduling() & is_active(state)
}

// The call is GetSpinlock, which waits until it has taken its spinlock.
fn is_get(awaits: Awaited) -> bool
    ensures { result ≡ is_get awaits }
{
    matches!(awaits, Awaited::Get(_))
}

/// The core may look for a shutdown of all cores: it is neither down nor halted, owes no spinlock release, and has no
/// open call but GetSpinlock.
pub fn may_look_halt<const P: usize, const J: usize, const OUT: usize>(
    state: &CoreState<'_, P, J, OUT>,
) -> bool
    ensures { result ≡ may_look_halt state.now }
{
    if !state.course().is_going() | state.is_owing() {
        return false;
    }
    match state.awaited_call() {
        Some(call) => is_get(call.awaits),
        None => true,
    }
}
