//! What expires when a counter is incremented.

ghost use Rattle.std.specs.Prelude.{◌*◌, IsTrue, length, sum_by};
ghost use Rattle.std.specs.List.{list_all};
ghost use Rattle.osbase.specs.{declared.references.AlarmRef.AlarmRef as AlarmRefValue, Objects.alarm_object, Objects.counter_object};
ghost use Rattle.osplan.specs.Objects.{is_own_object};
ghost use Rattle.ostable.specs.Waiting.{are_own};
ghost use Rattle.osservice.specs.Terms.{MayPost};
ghost use Rattle.osexpiry.specs.Advancing.{count_entries, count_marks, counts, posted_by, posted_for};
ghost use Rattle.osexpiry.specs.{Expiring.expire_each, ExpiryPoints.process_tables, ExpiryPoints.posted_by_table};
ghost use Rattle.osacts.specs.Steps.{Posts};

use crate::expiring::expire;
use crate::expiry_points::process_table;
use osbase::{AlarmRef, CounterRef, Mark};
use osstate::CoreState;
use ostable::DueTable;

/// One of the core's counters is incremented. Then the alarms that expire at this count act, in index order, and then
/// the schedule tables that are due (OSEK/VDX OS 2.2.3, section 9.1 and 9.2; AUTOSAR SWS OS
/// 4.x, section 7.3).
pub fn advance<const P: usize, const J: usize, const OUT: usize>(
    state: &mut CoreState<'_, P, J, OUT>,
    counter: CounterRef,
    marks: &mut Vec<Mark>,
)
    requires own { IsTrue (is_own_object state.old.view.own (counter_object counter)) }
    requires posts { MayPost (posted_by state.old.view.own counter) OUT (count_entries state.old.view.own counter) (count_marks state.old.view.own counter) state.old marks.old }
    ensures { Posts (posted_by state.old.view.own counter) (count_entries state.old.view.own counter) (count_marks state.old.view.own counter) (counts counter) state.old state.new marks.old marks.new }
{
    let alarms = state.due_next(counter);
    let due_alarms = alarms.as_slice();
    let tables = state.due_tables(counter);
    let due_tables = tables.as_slice();
    state.count(counter);
    expire_each(state, due_alarms, marks);
    process_tables(state, due_tables, marks);
}

fn expire_each<const P: usize, const J: usize, const OUT: usize>(
    state: &mut CoreState<'_, P, J, OUT>,
    due: &[AlarmRef],
    marks: &mut Vec<Mark>,
)
    requires own { IsTrue (list_all (λ (a : AlarmRefValue). is_own_object state.old.view.own (alarm_object a)) due.now) }
    requires posts { MayPost (sum_by (posted_for state.old.view.own) due.now) OUT (3 * length due.now) (3 * length due.now) state.old marks.old }
    ensures { Posts (sum_by (posted_for state.old.view.own) due.now) (3 * length due.now) (3 * length due.now) (expire_each due.now) state.old state.new marks.old marks.new }
{
    for alarm in due {
        expire(state, *alarm, marks);
    }
}

fn process_tables<const P: usize, const J: usize, const OUT: usize>(
    state: &mut CoreState<'_, P, J, OUT>,
    due: &[DueTable],
    marks: &mut Vec<Mark>,
)
    requires own { IsTrue (list_all (are_own state.old.view.own) due.now) }
    requires posts { MayPost (sum_by (posted_by_table state.old.view.own) due.now) OUT (38 * length due.now) (36 * length due.now) state.old marks.old }
    ensures { Posts (sum_by (posted_by_table state.old.view.own) due.now) (38 * length due.now) (36 * length due.now) (process_tables due.now) state.old state.new marks.old marks.new }
{
    for table in due {
        process_table(state, *table, marks);
    }
}
