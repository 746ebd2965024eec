//! The schedule tables of a core, as its state has them.

ghost use Rattle.std.specs.Prelude.{◌≡◌, ◌<◌, ◌≤◌, ◌^◌, ℕ, IsTrue, IfSome, length, option_copied, suc, sum_by};
ghost use Rattle.std.specs.List.{list_all};
ghost use Rattle.osbase.specs.{declared.references.TableRef.TableRef as TableRefValue, Objects.counter_object, Objects.table_object};
ghost use Rattle.osbase.specs.History.{Noted, TableNext, TableStopped, TableStarted};
ghost use Rattle.osplan.specs.{Clocked.are_clocks_within, Objects.is_own_object, Objects.may_act, Objects.table_actions};
ghost use Rattle.osclock.specs.Clocks.{counts_to_value_in, max_of};
ghost use Rattle.ostable.specs.Tables.{due_tables_in, next_in, status_in, table_in, timed_by};
ghost use Rattle.ostable.specs.Waiting.{are_of_one_counter, are_own, ends_alone, with_next};
ghost use Rattle.osstate.specs.{Readings.table_named, Steps.state_after};

use super::CoreState;
use osbase::{CounterRef, TableRef};
use osplan::{Table, own};
use ostable::{DueTables, TableStatus};

impl<'a, const P: usize, const J: usize, const OUT: usize> CoreState<'a, P, J, OUT> {
    /// One of the core's tables is started: its first period begins after `wait` counts, at most a full turn of its
    /// counter (AUTOSAR SWS OS 4.x, SWS_Os_00278 and SWS_Os_00351).
    pub fn start_table(&mut self, table: TableRef, wait: u32)
        requires own { IsTrue (is_own_object self.old.view.own (table_object table)) }
        requires turn { wait ≤ 1000000001 }
        requires count { self.old.progress.entries < 2 ^ 63 }
        ensures { self.new ≡ state_after (Noted (TableStarted table wait)) self.old }
    {
        self.tables.start(self.core, table, wait);
        self.progress.entries += 1;
    }

    /// One of the core's tables is stopped, or waits no longer (AUTOSAR SWS OS 4.x, SWS_Os_00281).
    pub fn stop_table(&mut self, table: TableRef)
        requires own { IsTrue (is_own_object self.old.view.own (table_object table)) }
        requires count { self.old.progress.entries < 2 ^ 63 }
        ensures { self.new ≡ state_after (Noted (TableStopped table)) self.old }
    {
        self.tables.stop(self.core, table);
        self.progress.entries += 1;
    }

    /// Of two of the core's tables with the same counter, `next` waits for the end of a period of `table` (AUTOSAR SWS
    /// OS 4.x, SWS_Os_00284).
    pub fn set_next_table(&mut self, table: TableRef, next: TableRef)
        requires own { IsTrue (is_own_object self.old.view.own (table_object next)) }
        requires counter { IsTrue (are_of_one_counter self.old.view.own table next) }
        requires count { self.old.progress.entries < 2 ^ 63 }
        ensures { self.new ≡ state_after (Noted (TableNext table next)) self.old }
    {
        self.tables.wait_for(self.core, table, next);
        self.progress.entries += 1;
    }

    /// The core's own schedule table that a script names; `None` for the invalid identifier, and for another core's.
    pub fn table(&self, target: Option<TableRef>) -> Option<&'a Table>
        ensures value { option_copied result ≡ table_named self.now.view.own target }
        ensures within { IsTrue (are_clocks_within self.now.view.own) }
        ensures known { IfSome (option_copied result) (λ table. IsTrue (list_all (may_act self.now.view.own) (table_actions table))) }
    {
        let core = self.core;
        own::table_of(core, target?)
    }

    /// The core's schedule tables, in index order.
    pub fn tables(&self) -> &'a [Table]
        ensures value { result.now ≡ self.now.view.own.tables }
        ensures few { length result.now ≤ 8 }
        ensures within { IsTrue (are_clocks_within self.now.view.own) }
    {
        let core = self.core;
        core.tables.as_slice()
    }

    /// Whether one of the core's tables is stopped, waits or runs (AUTOSAR SWS OS 4.x, SWS_Os_00289 to SWS_Os_00291).
    pub fn table_status(&self, table: TableRef) -> TableStatus
        requires own { IsTrue (is_own_object self.now.view.own (table_object table)) }
        ensures { result ≡ status_in (table_in table self.now.tables) }
    {
        self.tables.status(table)
    }

    /// The table of the core that waits for the end of a period of this one, if any (AUTOSAR SWS OS 4.x, SWS_Os_00284).
    pub fn next_table(&self, table: TableRef) -> Option<TableRef>
        ensures value { result ≡ next_in self.now.view.own table self.now.tables }
        ensures own { IfSome result (λ next. IsTrue (is_own_object self.now.view.own (table_object next))) }
    {
        self.tables.next(self.core, table)
    }

    /// What the tables of one of the core's counters do at its next count, in index order (AUTOSAR SWS OS 4.x, section
    /// 7.3.3).
    pub fn due_tables(&self, counter: CounterRef) -> DueTables
        requires own { IsTrue (is_own_object self.now.view.own (counter_object counter)) }
        ensures value { result.items ≡ due_tables_in self.now.view.own counter self.now.tables }
        ensures own { IsTrue (list_all (are_own self.now.view.own) result.items) }
        ensures ends { IsTrue (list_all (ends_alone self.now.view.own) result.items) }
        ensures few { length result.items ≤ length (timed_by self.now.view.own counter) }
        ensures once { (f : TableRefValue → ℕ) → sum_by (with_next f) result.items ≤ sum_by f (timed_by self.now.view.own counter) }
    {
        self.tables.due_next(self.core, counter)
    }

    /// After how many counts one of the core's counters has the value `start`. If the counter has it now, a full turn
    /// (AUTOSAR SWS OS 4.x, SWS_Os_00351).
    pub fn counts_to_value(&self, counter: CounterRef, start: u32) -> u32
        requires own { IsTrue (is_own_object self.now.view.own (counter_object counter)) }
        requires turn { start ≤ max_of self.now.view.own counter }
        ensures value { result ≡ counts_to_value_in counter start self.now.clocks }
        ensures within { result ≤ suc (max_of self.now.view.own counter) }
    {
        self.clocks.counts_to_value(self.core, counter, start)
    }
}
