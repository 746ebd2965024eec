//! What a core's own turn would do, and what its look at the board waits for.

ghost use Rattle.std.specs.{Prelude.◌≡◌, Option.option_map_or};
ghost use Rattle.oskernel.specs.declared.wants.SpinWish.TheVariants as Wish;
ghost use Rattle.oskernel.specs.declared.wants.Want.TheVariants.{Spin};
ghost use Rattle.oskernel.specs.Wants.{go_on_by, start_or_enter as next_or_enter, want_call, want_for};

use osbase::{Awaited, CoreId, CoreSet, Course, OpenCall, SpinlockId, Status};

/// What a core wants of a spinlock.
#[derive(Clone, Copy, Debug, PartialEq, Eq)]
pub enum SpinWish {
    /// GetSpinlock tries once more to take the spinlock, and returns once it took it.
    Get(SpinlockId),
    /// TryToGetSpinlock tries to take the spinlock, and returns with either answer.
    Try(SpinlockId),
    /// The spinlock is given back.
    Free(SpinlockId),
}

/// What a core's own turn would do.
#[derive(Clone, Copy, Debug, PartialEq, Eq)]
pub enum Want {
    /// Starts the next core of its start list.
    Start(CoreId),
    /// Tells the board its mode, since its start list is done.
    Enter,
    /// Tells the board that it is ready.
    Ready,
    /// Sends the front of its outbox to this core.
    Post(CoreId),
    /// Asks this of a spinlock (AUTOSAR SWS OS 4.x, GetSpinlock, TryToGetSpinlock and ReleaseSpinlock).
    Spin(SpinWish),
    /// Asks, with this status, for the shutdown of all cores (AUTOSAR SWS OS 4.x, ShutdownAllCores).
    AskHalt(Status),
    /// Takes its next stimulus, or drains if there is none.
    GoOn,
    /// Drains, whatever stimuli are left: it is down, or was halted.
    Drain,
    /// Nothing.
    Nothing,
}

/// What a core's look at the board waits for.
#[derive(Clone, Copy, PartialEq, Eq)]
pub enum Watch {
    /// That the core is started.
    On,
    /// That all started cores have entered StartOS.
    FirstGate,
    /// That all started cores are ready.
    SecondGate,
    /// A shutdown of all cores.
    Halt,
    /// That these have drained: the cores that were started when the second gate opened.
    PassEnd(CoreSet),
    /// The end, and which core requested a shutdown of all cores.
    Last,
    /// Nothing.
    Nothing,
}

/// The next core of the start list is started. If none is left, the core enters StartOS.
pub(crate) fn start_or_enter(next: Option<CoreId>) -> Want
    ensures { result ≡ next_or_enter next }
{
    match next {
        Some(core) => Want::Start(core),
        None => Want::Enter,
    }
}

/// If a call is open, the core does what the call needs; else what it would do without one.
pub(crate) fn want_call(open_call: Option<OpenCall>, want: Want) -> Want
    ensures { result ≡ want_call open_call want }
{
    match open_call {
        Some(call) => want_for(call.awaits),
        None => want,
    }
}

// What the core does for an open call: it requests the spinlock, gives it back, or requests the shutdown of all cores.
// If the call awaits a reply, the core only waits.
fn want_for(awaits: Awaited) -> Want
    ensures { result ≡ want_for awaits }
{
    match awaits {
        Awaited::Reply {
            service: _,
            core: _,
        } => Want::Nothing,
        Awaited::Get(lock) => Want::Spin(SpinWish::Get(lock)),
        Awaited::Try(lock) => Want::Spin(SpinWish::Try(lock)),
        Awaited::Release(lock) => Want::Spin(SpinWish::Free(lock)),
        Awaited::Halt(status) => Want::AskHalt(status),
    }
}

/// If the release of a spinlock is owed, the core frees that spinlock. Else it does what it would do otherwise, `want`.
pub(crate) fn want_owed(owed: Option<SpinlockId>, want: Want) -> Want
    ensures { result ≡ option_map_or (λ l. Spin (Wish.Free l)) owed want }
{
    match owed {
        Some(lock) => Want::Spin(SpinWish::Free(lock)),
        None => want,
    }
}

/// A core goes on with its next stimulus. One that is down or halted drains, whatever stimuli are left.
pub(crate) fn go_on_by(course: Course) -> Want
    ensures { result ≡ go_on_by course }
{
    match course {
        Course::Going => Want::GoOn,
        Course::Down | Course::Halted => Want::Drain,
    }
}
