//! What a schedule table does at a count.

ghost use Rattle.std.specs.Prelude.{◌≡◌, IfSome, IsTrue, option_copied, slice_get};
ghost use Rattle.osbase.specs.Objects.{table_object};
ghost use Rattle.osplan.specs.Objects.{is_own_object};
ghost use Rattle.ostable.specs.Waiting.{are_own, repeats};
ghost use Rattle.osstate.specs.Does.{HasRoom};
ghost use Rattle.osservice.specs.Terms.{MayPost};
ghost use Rattle.osaction.specs.Points.{is_known_point};
ghost use Rattle.osexpiry.specs.ExpiryPoints.{begins, due_point, ends, first_point, processes_table, posted_by_end, posted_by_point, posted_by_table, processes_point, stops};
ghost use Rattle.osacts.specs.Steps.{Posts, StepsWithin};

use osaction::do_point;
use osbase::{Mark, TableRef};
use osplan::{ExpiryPoint, Table};
use osstate::CoreState;
use ostable::DueTable;

// Processes the point that is due, if there is one, and then the end of the period, if it is reached.
pub(crate) fn process_table<const P: usize, const J: usize, const OUT: usize>(
    state: &mut CoreState<'_, P, J, OUT>,
    due: DueTable,
    marks: &mut Vec<Mark>,
)
    requires own { IsTrue (are_own state.old.view.own due) }
    requires posts { MayPost (posted_by_table state.old.view.own due) OUT 38 36 state.old marks.old }
    ensures { Posts (posted_by_table state.old.view.own due) 38 36 (processes_table due) state.old state.new marks.old marks.new }
{
    let point = due_point(state, due);
    process_point(state, due.table, point, marks);
    if due.due.ends {
        end(state, due.table, due.next, marks);
    }
}

// A period of `table` ends. If another table, `next`, waits for that, `table` stops and `next` starts. Else a repeating
// table begins its next period, and a single-shot table stops.
fn end<const P: usize, const J: usize, const OUT: usize>(
    state: &mut CoreState<'_, P, J, OUT>,
    table: TableRef,
    next: Option<TableRef>,
    marks: &mut Vec<Mark>,
)
    requires own { IsTrue (is_own_object state.old.view.own (table_object table)) }
    requires next { IfSome next (λ u. IsTrue (is_own_object state.old.view.own (table_object u))) }
    requires posts { MayPost (posted_by_end state.old.view.own table next) OUT 21 19 state.old marks.old }
    ensures { Posts (posted_by_end state.old.view.own table next) 21 19 (ends table next) state.old state.new marks.old marks.new }
{
    if let Some(next) = next {
        stop(state, table, marks);
        begin(state, next, marks);
    } else if repeats(state, table) {
        let point = first_point(state, table);
        process_point(state, table, point, marks);
    } else {
        stop(state, table, marks);
    }
}

fn repeats<const P: usize, const J: usize, const OUT: usize>(
    state: &CoreState<'_, P, J, OUT>,
    table: TableRef,
) -> bool
    ensures { result ≡ repeats state.now.view.own table }
{
    match state.table(Some(table)) {
        Some(table) => table.repeating,
        None => false,
    }
}

// Prints that the schedule table stops, and stops it.
fn stop<const P: usize, const J: usize, const OUT: usize>(
    state: &mut CoreState<'_, P, J, OUT>,
    table: TableRef,
    marks: &mut Vec<Mark>,
)
    requires own { IsTrue (is_own_object state.old.view.own (table_object table)) }
    requires room { HasRoom 2 1 state.old marks.old }
    ensures { StepsWithin 2 1 (stops table) state.old state.new marks.old marks.new }
{
    state.print(Mark::TableStopped(table), marks);
    state.stop_table(table);
}

// Prints that the schedule table begins, starts the table, and begins its first period at once.
fn begin<const P: usize, const J: usize, const OUT: usize>(
    state: &mut CoreState<'_, P, J, OUT>,
    table: TableRef,
    marks: &mut Vec<Mark>,
)
    requires own { IsTrue (is_own_object state.old.view.own (table_object table)) }
    requires posts { MayPost (posted_by_point state.old.view.own (first_point state.old.view.own table)) OUT 19 18 state.old marks.old }
    ensures { Posts (posted_by_point state.old.view.own (first_point state.old.view.own table)) 19 18 (begins table) state.old state.new marks.old marks.new }
{
    state.print(Mark::TableBegun(table), marks);
    state.start_table(table, 0);
    let point = first_point(state, table);
    process_point(state, table, point, marks);
}

// The point of the due table that expires at this count, if there is one.
fn due_point<'a, const P: usize, const J: usize, const OUT: usize>(
    state: &CoreState<'a, P, J, OUT>,
    due: DueTable,
) -> Option<&'a ExpiryPoint>
    ensures value { option_copied result ≡ due_point state.now.view.own due }
    ensures known { IfSome (option_copied result) (λ point. IsTrue (is_known_point state.now.view.own point)) }
{
    let number = due.due.point?;
    let table = state.table(Some(due.table))?;
    point_at(table, number)
}

// The point of this number in the table.
fn point_at(table: &Table, number: u8) -> Option<&ExpiryPoint>
    ensures { option_copied result ≡ slice_get table.now.points number }
{
    table.points.as_slice().get(usize::from(number))
}

// The point with which a period of the table begins: the table's first point, if its offset is 0.
fn first_point<'a, const P: usize, const J: usize, const OUT: usize>(
    state: &CoreState<'a, P, J, OUT>,
    table: TableRef,
) -> Option<&'a ExpiryPoint>
    ensures value { option_copied result ≡ first_point state.now.view.own table }
    ensures known { IfSome (option_copied result) (λ point. IsTrue (is_known_point state.now.view.own point)) }
{
    let table = state.table(Some(table))?;
    let point = table.points.as_slice().first()?;
    if point.offset == 0 {
        return Some(point);
    }
    None
}

// If there is a point, prints its line and does its actions.
fn process_point<const P: usize, const J: usize, const OUT: usize>(
    state: &mut CoreState<'_, P, J, OUT>,
    table: TableRef,
    point: Option<&ExpiryPoint>,
    marks: &mut Vec<Mark>,
)
    requires known { IfSome (option_copied point) (λ x. IsTrue (is_known_point state.old.view.own x)) }
    requires posts { MayPost (posted_by_point state.old.view.own (option_copied point)) OUT 17 17 state.old marks.old }
    ensures { Posts (posted_by_point state.old.view.own (option_copied point.entry)) 17 17 (processes_point table (option_copied point.entry)) state.old state.new marks.old marks.new }
{
    if let Some(point) = point {
        do_point(state, table, point, marks);
    }
}
