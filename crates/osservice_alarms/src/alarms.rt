//! The services of alarms, on the alarm's own core.

ghost use Rattle.std.specs.Prelude.{◌≡◌, ◌<◌, ◌≤◌, ◌^◌, Some, IsTrue, false, option_copied};
ghost use Rattle.osbase.specs.Objects.{alarm_object};
ghost use Rattle.osplan.specs.{Limits.counter_sizes, Limits.is_cycle, Objects.is_own_object};
ghost use Rattle.osclock.specs.Clocks.{max_for};
ghost use Rattle.osservice.specs.{Terms.ServesQuietly, Checks.first_failing, Checks.is_ok_status, Service.answer_of};
ghost use Rattle.osservice_alarms.specs.Alarms.{IsWithin, absolute_setting, cancellation, counter_for, inquiry, is_increment, is_setting, is_start, relative_setting, setting_checks, use_checks};
ghost use Rattle.osacts.specs.Runs.{seen_in};

use osbase::{AlarmRef, Status};
use osplan::Counter;
use osservice::{ServiceResult, is_ok, without_value};
use osstate::CoreState;

// The counter of one of the core's alarms; none for an alarm that is not the core's own.
fn counter_for<'a, const P: usize, const J: usize, const OUT: usize>(
    state: &CoreState<'a, P, J, OUT>,
    alarm: AlarmRef,
) -> Option<&'a Counter>
    ensures { option_copied result ≡ counter_for state.now.view.own alarm }
{
    let own = state.alarm(Some(alarm))?;
    state.counter(Some(own.counter))
}

// Whether the counter admits the cycle: 0, or one from its least cycle to its greatest value.
fn is_cycle(counter: &Counter, cycle: u32) -> bool
    ensures { result ≡ is_cycle (counter_sizes counter.now) (Some cycle) }
{
    cycle == 0 || (counter.min <= cycle && cycle <= counter.max)
}

// Whether the alarm's counter admits this increment, which is from 1 to the counter's greatest value, and this cycle.
fn admits_increment<const P: usize, const J: usize, const OUT: usize>(
    state: &CoreState<'_, P, J, OUT>,
    alarm: AlarmRef,
    increment: u32,
    cycle: u32,
) -> bool
    ensures value { result ≡ is_setting (is_increment increment) cycle state.now.view.own alarm }
    ensures within { IsTrue result → IsWithin (max_for state.now.view.own alarm) increment cycle }
{
    match counter_for(state, alarm) {
        Some(counter) => 1 <= increment && increment <= counter.max && is_cycle(counter, cycle),
        None => false,
    }
}

// Whether the alarm's counter admits this start, which is one of the counter's values, and this cycle.
fn admits_start<const P: usize, const J: usize, const OUT: usize>(
    state: &CoreState<'_, P, J, OUT>,
    alarm: AlarmRef,
    start: u32,
    cycle: u32,
) -> bool
    ensures value { result ≡ is_setting (is_start start) cycle state.now.view.own alarm }
    ensures within { IsTrue result → (start ≤ max_for state.now.view.own alarm) × (cycle ≤ max_for state.now.view.own alarm) }
{
    match counter_for(state, alarm) {
        Some(counter) => start <= counter.max && is_cycle(counter, cycle),
        None => false,
    }
}

// The status of the first check that fails, else E_OK. The checks are that the alarm is not in use, and then that its
// counter admits the setting, as `is_admitted` says.
fn status_of_setting<const P: usize, const J: usize, const OUT: usize>(
    state: &CoreState<'_, P, J, OUT>,
    alarm: AlarmRef,
    is_admitted: bool,
) -> Status
    requires own { IsTrue (is_own_object state.now.view.own (alarm_object alarm)) }
    ensures status { result ≡ first_failing (setting_checks (seen_in state.now) alarm is_admitted) }
    ensures admitted { IsTrue (is_ok_status result) → IsTrue is_admitted }
{
    if state.is_alarm_in_use(alarm) {
        Status::EOsState
    } else if is_admitted {
        Status::EOk
    } else {
        Status::EOsValue
    }
}

/// Sets one of the core's alarms to expire after `increment` counts, and again after each cycle, unless the cycle is 0
/// (OSEK/VDX OS 2.2.3, section 13.6.3.3). Returns E_OS_STATE if the alarm is in use. Returns E_OS_VALUE if
/// `increment` is 0 or greater than the counter's greatest value, or if the counter does not admit the cycle. A refused
/// alarm stays as it was.
pub fn set_relative<const P: usize, const J: usize, const OUT: usize>(
    state: &mut CoreState<'_, P, J, OUT>,
    alarm: AlarmRef,
    increment: u32,
    cycle: u32,
) -> ServiceResult
    requires own { IsTrue (is_own_object state.old.view.own (alarm_object alarm)) }
    requires count { state.old.progress.entries < 2 ^ 63 }
    ensures { ServesQuietly 1 (relative_setting alarm increment cycle) result state.old state.new }
{
    let is_admitted = admits_increment(state, alarm, increment, cycle);
    let status = status_of_setting(state, alarm, is_admitted);
    if !is_ok(status) {
        return without_value(status);
    }
    state.set_alarm(alarm, increment, cycle);
    without_value(status)
}

/// Sets one of the core's alarms to expire when its counter has the value `start`, and again after each cycle, unless
/// the cycle is 0 (OSEK/VDX OS 2.2.3, section 13.6.3.4). If the counter has it now, a full turn passes first. Returns
/// E_OS_STATE if the alarm is in use, and E_OS_VALUE for a start or a cycle that the counter does not admit. A refused
/// alarm stays as it was.
pub fn set_absolute<const P: usize, const J: usize, const OUT: usize>(
    state: &mut CoreState<'_, P, J, OUT>,
    alarm: AlarmRef,
    start: u32,
    cycle: u32,
) -> ServiceResult
    requires own { IsTrue (is_own_object state.old.view.own (alarm_object alarm)) }
    requires count { state.old.progress.entries < 2 ^ 63 }
    ensures { ServesQuietly 1 (absolute_setting alarm start cycle) result state.old state.new }
{
    let is_admitted = admits_start(state, alarm, start, cycle);
    let status = status_of_setting(state, alarm, is_admitted);
    if !is_ok(status) {
        return without_value(status);
    }
    let first = state.counts_to(alarm, start);
    state.set_alarm(alarm, first, cycle);
    without_value(status)
}

// The status of the check that the alarm is in use: E_OK or E_OS_NOFUNC.
fn status_of_use<const P: usize, const J: usize, const OUT: usize>(
    state: &CoreState<'_, P, J, OUT>,
    alarm: AlarmRef,
) -> Status
    requires own { IsTrue (is_own_object state.now.view.own (alarm_object alarm)) }
    ensures { result ≡ first_failing (use_checks (seen_in state.now) alarm) }
{
    if state.is_alarm_in_use(alarm) {
        Status::EOk
    } else {
        Status::EOsNofunc
    }
}

/// Cancels one of the core's alarms: it is then no longer in use (OSEK/VDX OS 2.2.3, section 13.6.3.5). Returns
/// E_OS_NOFUNC if the alarm is not in use.
pub fn cancel<const P: usize, const J: usize, const OUT: usize>(
    state: &mut CoreState<'_, P, J, OUT>,
    alarm: AlarmRef,
) -> ServiceResult
    requires own { IsTrue (is_own_object state.old.view.own (alarm_object alarm)) }
    requires count { state.old.progress.entries < 2 ^ 63 }
    ensures { ServesQuietly 1 (cancellation alarm) result state.old state.new }
{
    let status = status_of_use(state, alarm);
    if !is_ok(status) {
        return without_value(status);
    }
    state.cancel_alarm(alarm);
    without_value(status)
}

/// How many counts are left until one of the core's alarms expires (OSEK/VDX OS 2.2.3, section 13.6.3.2). Returns
/// E_OS_NOFUNC if the alarm is not in use.
pub fn ask_left<const P: usize, const J: usize, const OUT: usize>(
    state: &CoreState<'_, P, J, OUT>,
    alarm: AlarmRef,
) -> ServiceResult
    requires own { IsTrue (is_own_object state.now.view.own (alarm_object alarm)) }
    ensures { result ≡ answer_of (inquiry alarm (seen_in state.now)) }
{
    match state.counts_left(alarm) {
        Some(left) => ServiceResult {
            status: Status::EOk,
            value: Some(i64::from(left)),
        },
        None => without_value(Status::EOsNofunc),
    }
}
