//! The services of schedule tables.

ghost use Rattle.std.specs.Prelude.{◌≡◌, ◌<◌, ◌≤◌, ◌+◌, ◌^◌, IfSome, IsTrue, map};
ghost use Rattle.osbase.specs.{Counting.same_counter, Objects.table_object};
ghost use Rattle.osplan.specs.{Limits.first_offset, Limits.point_sizes, Objects.is_own_object};
ghost use Rattle.ostable.specs.Waiting.{are_of_one_counter};
ghost use Rattle.osstate.specs.Does.{service_entries, service_marks};
ghost use Rattle.osservice.specs.{Terms.MayAct, Terms.Offered, Checks.first_failing, Checks.is_ok_status, Service.carries_out, Service.answer_of};
ghost use Rattle.osservice_tables.specs.Tables.{absolute_start, counts_to_start, gets_table_status, is_offset, is_value, own_pair, quits_next, relative_start, starting_checks, starts_table_absolute, starts_table_relative, status_inquiry, stop, stops_table, suits, switch, switches_tables, table_acts};
ghost use Rattle.osacts.specs.{Runs.seen_in, Steps.QuietSteps, Steps.Steps};

use osbase::{CounterRef, Mark, Runner, ServiceId, Status, TableRef};
use oscript::Op;
use osplan::{Counter, Table};
use osservice::{ServiceResult, Step, finish, is_ok, own_of, without_value};
use osstate::CoreState;

// The status of the first check that fails, else E_OK. The checks are that the table is stopped, and then that its
// counter admits the start, as `is_admitted` says.
fn status_of_start<const P: usize, const J: usize, const OUT: usize>(
    state: &CoreState<'_, P, J, OUT>,
    table: TableRef,
    is_admitted: bool,
) -> Status
    requires own { IsTrue (is_own_object state.now.view.own (table_object table)) }
    ensures status { result ≡ first_failing (starting_checks (seen_in state.now) table is_admitted) }
    ensures admitted { IsTrue (is_ok_status result) → IsTrue is_admitted }
{
    if !state.table_status(table).is_stopped() {
        Status::EOsState
    } else if is_admitted {
        Status::EOk
    } else {
        Status::EOsValue
    }
}

// The offset of a table's first expiry point; 0 if it has none.
fn first_offset(table: &Table) -> u32
    ensures { result ≡ first_offset (map point_sizes table.now.points) }
{
    match table.points.as_slice().first() {
        Some(point) => point.offset,
        None => 0,
    }
}

// Whether the table may start after `offset` counts: at least 1, and at most the counter's greatest value less the
// offset of the first expiry point.
fn admits_offset<const P: usize, const J: usize, const OUT: usize>(
    state: &CoreState<'_, P, J, OUT>,
    table: TableRef,
    offset: u32,
) -> bool
    ensures value { result ≡ suits (is_offset state.now.view.own offset) state.now.view.own table }
    ensures within { IsTrue result → offset ≤ 1000000000 }
{
    let Some(own) = state.table(Some(table)) else {
        return false;
    };
    match state.counter(Some(own.counter)) {
        Some(counter) => 1 <= offset && offset <= counter.max.saturating_sub(first_offset(own)),
        None => false,
    }
}

// Whether `start` is one of the values of the table's counter.
fn admits_value<const P: usize, const J: usize, const OUT: usize>(
    state: &CoreState<'_, P, J, OUT>,
    table: TableRef,
    start: u32,
) -> bool
    ensures { result ≡ suits (is_value start) state.now.view.own table }
{
    let Some(own) = state.table(Some(table)) else {
        return false;
    };
    match state.counter(Some(own.counter)) {
        Some(counter) => start <= counter.max,
        None => false,
    }
}

// After how many counts the table's counter has the value `start`. If the counter has it now, a full turn.
fn counts_to_start<const P: usize, const J: usize, const OUT: usize>(
    state: &CoreState<'_, P, J, OUT>,
    table: TableRef,
    start: u32,
) -> u32
    requires own { IsTrue (is_own_object state.now.view.own (table_object table)) }
    requires admitted { IsTrue (suits (is_value start) state.now.view.own table) }
    ensures value { result ≡ counts_to_start (seen_in state.now) table start }
    ensures turn { result ≤ 1000000001 }
{
    match state.table(Some(table)) {
        Some(own) => state.counts_to_value(own.counter, start),
        None => unreachable!(),
    }
}

// What StartScheduleTableRel does and answers for one of the core's tables.
fn start_relative<const P: usize, const J: usize, const OUT: usize>(
    state: &mut CoreState<'_, P, J, OUT>,
    table: TableRef,
    offset: u32,
) -> ServiceResult
    requires own { IsTrue (is_own_object state.old.view.own (table_object table)) }
    requires count { state.old.progress.entries < 2 ^ 63 }
    ensures answer { result ≡ answer_of (relative_start offset table (seen_in state.old)) }
    ensures steps { QuietSteps 1 (carries_out (relative_start offset table)) state.old state.new }
{
    let is_admitted = admits_offset(state, table, offset);
    let status = status_of_start(state, table, is_admitted);
    if !is_ok(status) {
        return without_value(status);
    }
    state.start_table(table, offset);
    without_value(status)
}

// What StartScheduleTableAbs does and answers for one of the core's tables.
fn start_absolute<const P: usize, const J: usize, const OUT: usize>(
    state: &mut CoreState<'_, P, J, OUT>,
    table: TableRef,
    start: u32,
) -> ServiceResult
    requires own { IsTrue (is_own_object state.old.view.own (table_object table)) }
    requires count { state.old.progress.entries < 2 ^ 63 }
    ensures answer { result ≡ answer_of (absolute_start start table (seen_in state.old)) }
    ensures steps { QuietSteps 1 (carries_out (absolute_start start table)) state.old state.new }
{
    let is_admitted = admits_value(state, table, start);
    let status = status_of_start(state, table, is_admitted);
    if !is_ok(status) {
        return without_value(status);
    }
    let wait = counts_to_start(state, table, start);
    state.start_table(table, wait);
    without_value(status)
}

// The table that waits for the end of a period of this one, if there is one, waits no longer.
fn quit_next<const P: usize, const J: usize, const OUT: usize>(
    state: &mut CoreState<'_, P, J, OUT>,
    table: TableRef,
)
    requires count { state.old.progress.entries < 2 ^ 63 }
    ensures { QuietSteps 1 (quits_next table) state.old state.new }
{
    if let Some(next) = state.next_table(table) {
        state.stop_table(next);
    }
}

// What NextScheduleTable does and answers for two of the core's tables with the same counter.
fn switch<const P: usize, const J: usize, const OUT: usize>(
    state: &mut CoreState<'_, P, J, OUT>,
    from: TableRef,
    to: TableRef,
) -> ServiceResult
    requires from { IsTrue (is_own_object state.old.view.own (table_object from)) }
    requires to { IsTrue (is_own_object state.old.view.own (table_object to)) }
    requires counter { IsTrue (are_of_one_counter state.old.view.own from to) }
    requires count { state.old.progress.entries + 2 ≤ 2 ^ 63 }
    ensures answer { result ≡ answer_of (switch (from, to) (seen_in state.old)) }
    ensures steps { QuietSteps 2 (carries_out (switch (from, to))) state.old state.new }
{
    if !state.table_status(to).is_stopped() {
        return without_value(Status::EOsState);
    }
    if !state.table_status(from).is_running() {
        return without_value(Status::EOsNofunc);
    }
    quit_next(state, from);
    state.set_next_table(from, to);
    without_value(Status::EOk)
}

// What StopScheduleTable does and answers for one of the core's tables.
fn stop<const P: usize, const J: usize, const OUT: usize>(
    state: &mut CoreState<'_, P, J, OUT>,
    table: TableRef,
) -> ServiceResult
    requires own { IsTrue (is_own_object state.old.view.own (table_object table)) }
    requires count { state.old.progress.entries + 2 ≤ 2 ^ 63 }
    ensures answer { result ≡ answer_of (stop table (seen_in state.old)) }
    ensures steps { QuietSteps 2 (carries_out (stop table)) state.old state.new }
{
    if state.table_status(table).is_stopped() {
        return without_value(Status::EOsNofunc);
    }
    quit_next(state, table);
    state.stop_table(table);
    without_value(Status::EOk)
}

// A running job starts a schedule table; its first period begins after `offset` counts (AUTOSAR SWS OS 4.x,
// SWS_Os_00278). The service returns E_OS_ID for the invalid identifier and for a table of another core, and E_OS_STATE
// for a table that is not stopped. It returns E_OS_VALUE if `offset` is 0, or if it is greater than the counter's
// greatest value less the offset of the first expiry point.
fn start_schedule_table_rel<const P: usize, const J: usize, const OUT: usize>(
    state: &mut CoreState<'_, P, J, OUT>,
    runner: Runner,
    target: Option<TableRef>,
    offset: u32,
    marks: &mut Vec<Mark>,
)
    requires { MayAct service_entries service_marks state.old runner marks.old }
    ensures { Steps service_entries service_marks (starts_table_relative runner target offset) state.old state.new marks.old marks.new }
{
    let answer = match own_of(state, target) {
        Some(table) => start_relative(state, table, offset),
        None => without_value(Status::EOsId),
    };
    finish(
        state,
        runner,
        ServiceId::StartScheduleTableRel,
        answer,
        marks,
    );
}

// A running job starts a schedule table; its first period begins when its counter has the value `start` (AUTOSAR SWS OS
// 4.x, SWS_Os_00351). If the counter has it now, a full turn passes first. The refusals are those of
// `start_schedule_table_rel`, but E_OS_VALUE is returned for a value above the counter's greatest.
fn start_schedule_table_abs<const P: usize, const J: usize, const OUT: usize>(
    state: &mut CoreState<'_, P, J, OUT>,
    runner: Runner,
    target: Option<TableRef>,
    start: u32,
    marks: &mut Vec<Mark>,
)
    requires { MayAct service_entries service_marks state.old runner marks.old }
    ensures { Steps service_entries service_marks (starts_table_absolute runner target start) state.old state.new marks.old marks.new }
{
    let answer = match own_of(state, target) {
        Some(table) => start_absolute(state, table, start),
        None => without_value(Status::EOsId),
    };
    finish(
        state,
        runner,
        ServiceId::StartScheduleTableAbs,
        answer,
        marks,
    );
}

// Table `to` waits to begin when a period of `from` ends; a table that already waited for `from` stops (AUTOSAR SWS OS
// 4.x, SWS_Os_00284 and SWS_Os_00324). Returns E_OS_ID for the invalid identifier, for a table of another core and for
// tables of two counters, E_OS_STATE if `to` is not stopped, and E_OS_NOFUNC if `from` does not run. Refused tables
// stay as they were.
fn next_schedule_table<const P: usize, const J: usize, const OUT: usize>(
    state: &mut CoreState<'_, P, J, OUT>,
    runner: Runner,
    from: Option<TableRef>,
    to: Option<TableRef>,
    marks: &mut Vec<Mark>,
)
    requires { MayAct service_entries service_marks state.old runner marks.old }
    ensures { Steps service_entries service_marks (switches_tables runner from to) state.old state.new marks.old marks.new }
{
    let answer = match own_pair(state, from, to) {
        Some((from, to)) => switch(state, from, to),
        None => without_value(Status::EOsId),
    };
    finish(state, runner, ServiceId::NextScheduleTable, answer, marks);
}

// A table stops, or waits no longer; a table that waits for it stops too (AUTOSAR SWS OS 4.x, SWS_Os_00281). Returns
// E_OS_ID for the invalid identifier and for a table of another core, and E_OS_NOFUNC for a table that is stopped
// already.
fn stop_schedule_table<const P: usize, const J: usize, const OUT: usize>(
    state: &mut CoreState<'_, P, J, OUT>,
    runner: Runner,
    target: Option<TableRef>,
    marks: &mut Vec<Mark>,
)
    requires { MayAct service_entries service_marks state.old runner marks.old }
    ensures { Steps service_entries service_marks (stops_table runner target) state.old state.new marks.old marks.new }
{
    let answer = match own_of(state, target) {
        Some(table) => stop(state, table),
        None => without_value(Status::EOsId),
    };
    finish(state, runner, ServiceId::StopScheduleTable, answer, marks);
}

// The status of a table: 0 if it is stopped, 1 if it waits for another one, 2 if it runs (AUTOSAR SWS OS 4.x,
// SWS_Os_00289 to SWS_Os_00291; the numbers: own). Returns E_OS_ID for the invalid identifier and for a table of
// another core.
fn get_schedule_table_status<const P: usize, const J: usize, const OUT: usize>(
    state: &mut CoreState<'_, P, J, OUT>,
    runner: Runner,
    target: Option<TableRef>,
    marks: &mut Vec<Mark>,
)
    requires { MayAct service_entries service_marks state.old runner marks.old }
    ensures { Steps service_entries service_marks (gets_table_status runner target) state.old state.new marks.old marks.new }
{
    let answer = match own_of(state, target) {
        Some(table) => tell_status(state, table),
        None => without_value(Status::EOsId),
    };
    finish(
        state,
        runner,
        ServiceId::GetScheduleTableStatus,
        answer,
        marks,
    );
}

// What GetScheduleTableStatus answers for one of the core's tables.
fn tell_status<const P: usize, const J: usize, const OUT: usize>(
    state: &CoreState<'_, P, J, OUT>,
    table: TableRef,
) -> ServiceResult
    requires own { IsTrue (is_own_object state.now.view.own (table_object table)) }
    ensures { result ≡ answer_of (status_inquiry table (seen_in state.now)) }
{
    let status = state.table_status(table);
    ServiceResult {
        status: Status::EOk,
        value: Some(i64::from(status.number())),
    }
}

// The two tables that a script names, if both are the core's own and have the same counter.
fn own_pair<const P: usize, const J: usize, const OUT: usize>(
    state: &CoreState<'_, P, J, OUT>,
    from: Option<TableRef>,
    to: Option<TableRef>,
) -> Option<(TableRef, TableRef)>
    ensures value { result ≡ own_pair state.now.view.own from to }
    ensures from { IfSome result (λ pair. IsTrue (is_own_object state.now.view.own (table_object pair.0))) }
    ensures to { IfSome result (λ pair. IsTrue (is_own_object state.now.view.own (table_object pair.1))) }
    ensures counter { IfSome result (λ pair. IsTrue (are_of_one_counter state.now.view.own pair.0 pair.1)) }
{
    let from = own_of(state, from)?;
    let to = own_of(state, to)?;
    if are_of_one_counter(state, from, to) {
        return Some((from, to));
    }
    None
}

// Whether both are the core's own tables, and have the same counter.
fn are_of_one_counter<const P: usize, const J: usize, const OUT: usize>(
    state: &CoreState<'_, P, J, OUT>,
    table: TableRef,
    other: TableRef,
) -> bool
    ensures { result ≡ are_of_one_counter state.now.view.own table other }
{
    match (state.table(Some(table)), state.table(Some(other))) {
        (Some(table), Some(other)) => is_same_counter(table.counter, other.counter),
        _ => false,
    }
}

fn is_same_counter(counter: CounterRef, other: CounterRef) -> bool
    ensures { result ≡ same_counter counter other }
{
    counter == other
}

/// If an operation of a running job of one of the core's tasks or ISRs is a service of schedule tables, it is done, and
/// the answer is yes. Else nothing changes.
pub fn operate<const P: usize, const J: usize, const OUT: usize>(
    state: &mut CoreState<'_, P, J, OUT>,
    step: Step,
    marks: &mut Vec<Mark>,
) -> bool
    requires { MayAct service_entries service_marks state.old step.runner marks.old }
    ensures { Offered (table_acts step.runner step.op) result state.old state.new marks.old marks.new }
{
    let runner = step.runner;
    match step.op {
        Op::StartScheduleTableRel(target, offset) => {
            start_schedule_table_rel(state, runner, target, offset, marks);
            true
        }
        Op::StartScheduleTableAbs(target, start) => {
            start_schedule_table_abs(state, runner, target, start, marks);
            true
        }
        Op::NextScheduleTable(from, to) => {
            next_schedule_table(state, runner, from, to, marks);
            true
        }
        Op::StopScheduleTable(target) => {
            stop_schedule_table(state, runner, target, marks);
            true
        }
        Op::GetScheduleTableStatus(target, _) => {
            get_schedule_table_status(state, runner, target, marks);
            true
        }
        _ => false,
    }
}
