//! A tick: the budget of the running job, and the core's hardware counters.

ghost use Rattle.std.specs.Prelude.{◌+◌, IsTrue};
ghost use Rattle.osbase.specs.Objects.{counter_object};
ghost use Rattle.osplan.specs.Objects.{is_own_object, most_posts_per_tick};
ghost use Rattle.osstate.specs.Does.{service_entries, service_marks};
ghost use Rattle.osservice.specs.Terms.{MayPost};
ghost use Rattle.osacts.specs.{Acts.nothing, Acts.when, Steps.Posts, Steps.Steps};
ghost use Rattle.osexpiry.specs.Advancing.{count_entries, count_marks, counts, posted_by};
ghost use Rattle.ostick.specs.Ticks.{counted_entries, counted_marks, counts_each, ticks};

use crate::faults::protect;
use osbase::{CounterRef, Mark};
use osplan::Counter;
use osstate::CoreState;

/// Prints the tick's line, which charges the running job one tick of its budgets. If a budget is reached, the core
/// answers. Then, unless the core is down or halted, each of its hardware counters is incremented, in index order, and
/// what expires acts (OSEK/VDX OS 2.2.3, section 9.1).
pub fn tick<const P: usize, const J: usize, const OUT: usize>(
    state: &mut CoreState<'_, P, J, OUT>,
    marks: &mut Vec<Mark>,
)
    requires { MayPost (most_posts_per_tick state.old.view.own) OUT service_entries service_marks state.old marks.old }
    ensures { Steps service_entries service_marks ticks state.old state.new marks.old marks.new }
{
    state.tick(marks);
    protect(state, marks);
    if state.course().is_going() {
        count_each(state, marks);
    }
}

// Increments each hardware counter of the core, in index order. What expires at it acts.
fn count_each<const P: usize, const J: usize, const OUT: usize>(
    state: &mut CoreState<'_, P, J, OUT>,
    marks: &mut Vec<Mark>,
)
    requires { MayPost (most_posts_per_tick state.old.view.own) OUT counted_entries counted_marks state.old marks.old }
    ensures { Steps counted_entries counted_marks counts_each state.old state.new marks.old marks.new }
{
    let core = state.id();
    let counters = state.counters();
    let mut index: u8 = 0;
    for counter in counters {
        let reference = CounterRef { core, index };
        count_by_tick(state, counter, reference, marks);
        index += 1;
    }
}

// Increments the counter, unless it is a software counter. What expires acts.
fn count_by_tick<const P: usize, const J: usize, const OUT: usize>(
    state: &mut CoreState<'_, P, J, OUT>,
    counter: &Counter,
    reference: CounterRef,
    marks: &mut Vec<Mark>,
)
    requires own { IsTrue (is_own_object state.old.view.own (counter_object reference)) }
    requires posts { MayPost (posted_by state.old.view.own reference) OUT (count_entries state.old.view.own reference) (count_marks state.old.view.own reference) state.old marks.old }
    ensures { Posts (posted_by state.old.view.own reference) (count_entries state.old.view.own reference) (count_marks state.old.view.own reference) (when counter.now.software nothing (counts reference)) state.old state.new marks.old marks.new }
{
    if !counter.software {
        osexpiry::advance(state, reference, marks);
    }
}
