//! Which items may be taken.

ghost use Rattle.std.specs.Prelude.{◌≡◌, ◌||◌, false, not};
ghost use Rattle.std.specs.{List.list_all, Option.option_map_or};
ghost use Rattle.osbase.specs.{Sets.core_ids, Sets.has_core, Spins.newest_owed, Spins.same_spinlock};
ghost use Rattle.osplan.specs.View.{is_configured};
ghost use Rattle.osstate.specs.Readings.{next_start};
ghost use Rattle.osadmit.specs.Admission.{admits, are_started_cores, is_agreement, is_for, is_front_for, is_next_from, is_start_answer, is_started_now_or_before, is_unknown_core, asks_halt, awaits_get, awaits_try, has_asked_halt, is_get_of, is_next_release, is_release_of, is_try_of, may_halt};

use osawait::{is_awaited, is_settled, may_go_on, may_look_halt};
use osbase::{
    Agreement, Awaited, CORE_NUMBERS, CoreId, CoreMode, CoreSet, Item, Message, ModeId, Phase,
    SpinlockId, Status,
};
use osstate::CoreState;

/// Whether an item may be taken, apart from the limit on the number of items.
pub fn is_admitted<const P: usize, const J: usize, const OUT: usize>(
    state: &CoreState<'_, P, J, OUT>,
    item: &Item,
) -> bool
    ensures { result ≡ admits OUT state.now item.now }
{
    let phase = state.phase();
    match item {
        Item::On => phase.is(Phase::Off),
        Item::Began { core, status } => {
            let is_next = is_next_start(state, *core);
            phase.is(Phase::Boot) & is_next & is_start_answer(state, *core, *status)
        }
        Item::Entered => phase.is(Phase::Boot) & state.next_start().is_none(),
        Item::Pass1(agreement) => phase.is(Phase::FirstGate) & is_agreed(state, *agreement),
        Item::Readied => phase.is(Phase::BetweenGates),
        Item::Pass2(cores) => phase.is(Phase::SecondGate) & are_started(state, cores),
        Item::Stim(stimulus) => {
            phase.is(Phase::Live) & state.knows(*stimulus) & may_go_on(state)
        }
        Item::Posted(core) => phase.is_scheduling() & is_front(state, *core),
        Item::Received {
            from,
            number,
            message,
        } => phase.is_scheduling() & is_next_letter(state, *from, *number, message),
        Item::Granted(lock) => phase.is(Phase::Live) & awaits_get(state, *lock),
        Item::Tried { spinlock, taken: _ } => {
            phase.is(Phase::Live) & awaits_try(state, *spinlock)
        }
        Item::Freed(lock) => phase.is(Phase::Live) & is_next_release(state, *lock),
        Item::Halt { core: _, status: _ } => phase.is(Phase::Live) & may_halt(state),
        Item::Drained => phase.is(Phase::Live) & is_settled(state),
        Item::PassEnd => phase.is(Phase::Drained),
        Item::Last(_) => phase.is(Phase::Closing),
    }
}

// The outbox has a letter, and the one at its front goes to `core`.
fn is_front<const P: usize, const J: usize, const OUT: usize>(
    state: &CoreState<'_, P, J, OUT>,
    core: CoreId,
) -> bool
    ensures { result ≡ is_front_for core state.now.border.outbox }
{
    match state.front() {
        Some(sent) => sent.to == core,
        None => false,
    }
}

// The core is the next one in the start list.
fn is_next_start<const P: usize, const J: usize, const OUT: usize>(
    state: &CoreState<'_, P, J, OUT>,
    core: CoreId,
) -> bool
    ensures { result ≡ is_for core (next_start state.now.view state.now.progress.began) }
{
    match state.next_start() {
        Some(next) => core == next,
        None => false,
    }
}

// StartCore may return this status for this core: E_OK or E_OS_STATE if the core is configured, else E_OS_ID.
fn is_start_answer<const P: usize, const J: usize, const OUT: usize>(
    state: &CoreState<'_, P, J, OUT>,
    core: CoreId,
    status: Status,
) -> bool
    ensures { result ≡ is_start_answer state.now.view core status }
{
    if state.is_configured(core) {
        return is_started_now_or_before(status);
    }
    is_unknown_core(status)
}

// The status is E_OK, since StartCore starts the core now, or E_OS_STATE, since the core was started before.
fn is_started_now_or_before(status: Status) -> bool
    ensures { result ≡ is_started_now_or_before status }
{
    matches!(status, Status::EOk | Status::EOsState)
}

// The status is E_OS_ID: there is no such core.
fn is_unknown_core(status: Status) -> bool
    ensures { result ≡ is_unknown_core status }
{
    matches!(status, Status::EOsId)
}

// The first gate may have this result for this core: a conflict, the core's own mode, or, if the core says DONOTCARE,
// any configured mode or none.
fn is_agreed<const P: usize, const J: usize, const OUT: usize>(
    state: &CoreState<'_, P, J, OUT>,
    agreement: Agreement,
) -> bool
    ensures { result ≡ is_agreement state.now.view state.now.view.own.mode agreement }
{
    match agreement {
        Agreement::Conflict => true,
        Agreement::Mode(mode) => is_agreed_mode(state, mode),
        Agreement::NoMode => match state.mode() {
            CoreMode::Named(_) => false,
            CoreMode::DontCare => true,
        },
    }
}

// The first gate may result in this mode: it is the core's own or, if the core says DONOTCARE, any configured mode.
fn is_agreed_mode<const P: usize, const J: usize, const OUT: usize>(
    state: &CoreState<'_, P, J, OUT>,
    mode: ModeId,
) -> bool
    ensures { result ≡ is_agreement state.now.view state.now.view.own.mode (Agreement.Mode mode) }
{
    match state.mode() {
        CoreMode::Named(own) => own.index == mode.index,
        CoreMode::DontCare => usize::from(mode.index) < state.mode_count(),
    }
}

// These may be the started cores: this core is among them, and each of them is configured.
fn are_started<const P: usize, const J: usize, const OUT: usize>(
    state: &CoreState<'_, P, J, OUT>,
    cores: &CoreSet,
) -> bool
    ensures { result ≡ are_started_cores state.now.view cores.now }
{
    let has_own = cores.contains(state.id());
    has_own & are_configured(state, cores)
}

// Each core of the set is configured.
fn are_configured<const P: usize, const J: usize, const OUT: usize>(
    state: &CoreState<'_, P, J, OUT>,
    cores: &CoreSet,
) -> bool
    ensures { result ≡ list_all (λ id. not (has_core cores.now id) || is_configured state.now.view id) core_ids }
{
    for number in 0..CORE_NUMBERS {
        if !is_absent_or_configured(state, cores, CoreId { number }) {
            return false;
        }
    }
    true
}

// The core is not in the set, or it is configured.
fn is_absent_or_configured<const P: usize, const J: usize, const OUT: usize>(
    state: &CoreState<'_, P, J, OUT>,
    cores: &CoreSet,
    id: CoreId,
) -> bool
    ensures { result ≡ (not (has_core cores.now id) || is_configured state.now.view id) }
{
    if cores.contains(id) {
        return state.is_configured(id);
    }
    true
}

// A letter may be taken if its sender is another core that was started, its number is the next one from that sender,
// and its message is expected.
fn is_next_letter<const P: usize, const J: usize, const OUT: usize>(
    state: &CoreState<'_, P, J, OUT>,
    from: CoreId,
    number: u64,
    message: &Message,
) -> bool
    ensures { result ≡ is_next_from OUT state.now from number message.now }
{
    if !state.knows_started(from) {
        return false;
    }
    let is_foreign = !state.is_this_core(from);
    let is_in_order = number == state.received_from(from);
    is_foreign & is_in_order & is_awaited(state, from, message)
}

// The open call is GetSpinlock of this spinlock.
fn awaits_get<const P: usize, const J: usize, const OUT: usize>(
    state: &CoreState<'_, P, J, OUT>,
    lock: SpinlockId,
) -> bool
    ensures { result ≡ awaits_get state.now lock }
{
    match state.awaited_call() {
        Some(call) => is_get_of(call.awaits, lock),
        None => false,
    }
}

// The call is GetSpinlock of this spinlock.
fn is_get_of(awaits: Awaited, lock: SpinlockId) -> bool
    ensures { result ≡ is_get_of lock awaits }
{
    match awaits {
        Awaited::Get(wanted) => wanted == lock,
        _ => false,
    }
}

// The open call is TryToGetSpinlock of this spinlock.
fn awaits_try<const P: usize, const J: usize, const OUT: usize>(
    state: &CoreState<'_, P, J, OUT>,
    lock: SpinlockId,
) -> bool
    ensures { result ≡ awaits_try state.now lock }
{
    match state.awaited_call() {
        Some(call) => is_try_of(call.awaits, lock),
        None => false,
    }
}

// The call is TryToGetSpinlock of this spinlock.
fn is_try_of(awaits: Awaited, lock: SpinlockId) -> bool
    ensures { result ≡ is_try_of lock awaits }
{
    match awaits {
        Awaited::Try(wanted) => wanted == lock,
        _ => false,
    }
}

// The core gives this spinlock back next: the open call releases it, or no call is open and this spinlock is the newest
// of those whose release is owed.
fn is_next_release<const P: usize, const J: usize, const OUT: usize>(
    state: &CoreState<'_, P, J, OUT>,
    lock: SpinlockId,
) -> bool
    ensures { result ≡ is_next_release state.now lock }
{
    match state.awaited_call() {
        Some(call) => is_release_of(call.awaits, lock),
        None => is_owed_next(state, lock),
    }
}

// The call is ReleaseSpinlock of this spinlock.
fn is_release_of(awaits: Awaited, lock: SpinlockId) -> bool
    ensures { result ≡ is_release_of lock awaits }
{
    match awaits {
        Awaited::Release(given) => given == lock,
        _ => false,
    }
}

// Of the spinlocks whose release is owed, this one is the newest.
fn is_owed_next<const P: usize, const J: usize, const OUT: usize>(
    state: &CoreState<'_, P, J, OUT>,
    lock: SpinlockId,
) -> bool
    ensures { result ≡ option_map_or (same_spinlock lock) (newest_owed state.now.border.spins) false }
{
    match state.owed_spinlock() {
        Some(owed) => lock == owed,
        None => false,
    }
}

// A core may be halted if it requested the shutdown of all cores itself, or may look for one.
fn may_halt<const P: usize, const J: usize, const OUT: usize>(
    state: &CoreState<'_, P, J, OUT>,
) -> bool
    ensures { result ≡ may_halt state.now }
{
    has_asked_halt(state) | may_look_halt(state)
}

// The open call asks for a shutdown of all cores.
fn has_asked_halt<const P: usize, const J: usize, const OUT: usize>(
    state: &CoreState<'_, P, J, OUT>,
) -> bool
    ensures { result ≡ has_asked_halt state.now }
{
    match state.awaited_call() {
        Some(call) => asks_halt(call.awaits),
        None => false,
    }
}

// The call is ShutdownAllCores.
fn asks_halt(awaits: Awaited) -> bool
    ensures { result ≡ asks_halt awaits }
{
    matches!(awaits, Awaited::Halt(_))
}
