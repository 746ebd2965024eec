//! The schedule tables of a core.

ghost use Rattle.std.specs.Prelude.{◌≡◌, ◌<◌, ◌≤◌, None, [], All, IsTrue, length, option_map, replicate};
ghost use Rattle.std.specs.List.{slice_set};
ghost use Rattle.osbase.specs.{declared.references.TableRef.TableRef, Objects.counter_object, Objects.table_object};
ghost use Rattle.osbase.specs.History.{Noted, CounterIncremented, TableStarted, TableStopped, TableNext};
ghost use Rattle.osplan.specs.{Clocked.are_clocks_within, Objects.is_own_object, Counters.IsObject, Counters.each_by};
ghost use Rattle.ostable.specs.Tables.{AreTables, due_in, due_table, due_tables_in, each_moved, next_in, started, status_in, table_family, table_in, table_refs, tables_by, tables_of};
ghost use Rattle.ostable.specs.declared.table.Table.{Table as TableValue};

use crate::table::{Due, Table, TableStatus};
use arrayvec::ArrayVec;
use osattached::Attached;
use osbase::{CoreId, CounterRef, TABLES, TableRef};
use osplan::{Core, own};
use std::marker::Model;

/// What a table does at a count and, if its period ends, which table begins in its place.
#[derive(Clone, Copy, Default, PartialEq, Eq)]
pub struct DueTable {
    pub table: TableRef,
    pub due: Due,
    pub next: Option<TableRef>,
}

/// What some tables do at a count, in index order.
pub type DueTables = ArrayVec<DueTable, TABLES>;

/// The state of each schedule table of a core, by index.
#[derive(Drop)]
pub struct Tables {
    tables: ArrayVec<Table, TABLES>,
    timed: Attached<TableRef, TABLES>,
}

impl Model for Tables {
    ghost use Rattle.ostable.specs.Tables.{TableStates};

    ghost Value = { TableStates };

    ghost view = { λ c. record { tables = c.tables.items; timed = c.timed } };
}

impl Tables {
    /// Each table is stopped.
    pub fn new(core: &Core) -> Self
        requires { IsTrue (are_clocks_within core.now) }
        ensures { result ≡ tables_of core.now [] }
    {
        Tables {
            tables: new_tables(core.tables.len()),
            timed: new_timed(core),
        }
    }

    /// A counter of the core is incremented, and each of its tables moves on by one count (AUTOSAR SWS OS 4.x, section
    /// 7.3).
    pub fn count(&mut self, core: &Core, counter: CounterRef)
        requires tables { AreTables core.now self.old }
        requires own { IsTrue (is_own_object core.now (counter_object counter)) }
        ensures { self.new ≡ tables_by core.now (Noted (CounterIncremented counter)) self.old }
    {
        move_tables(core, &mut self.tables, self.timed.of(counter));
    }

    /// Starts a table of the core. Its first period begins after `wait` counts, at most a full turn of its counter
    /// (AUTOSAR SWS OS 4.x, SWS_Os_00278 and SWS_Os_00351).
    pub fn start(&mut self, core: &Core, table: TableRef, wait: u32)
        requires tables { AreTables core.now self.old }
        requires own { IsTrue (is_own_object core.now (table_object table)) }
        requires turn { wait ≤ 1000000001 }
        ensures { self.new ≡ tables_by core.now (Noted (TableStarted table wait)) self.old }
    {
        set_table(&mut self.tables, table, started(core, table, wait));
    }

    /// A table of the core is stopped, or waits no longer (AUTOSAR SWS OS 4.x, SWS_Os_00281).
    pub fn stop(&mut self, core: &Core, table: TableRef)
        requires tables { AreTables core.now self.old }
        requires own { IsTrue (is_own_object core.now (table_object table)) }
        ensures { self.new ≡ tables_by core.now (Noted (TableStopped table)) self.old }
    {
        stop(&mut self.tables, table);
    }

    /// The core's table `next` waits for the end of a period of `table` (AUTOSAR SWS OS 4.x, SWS_Os_00284).
    pub fn wait_for(&mut self, core: &Core, table: TableRef, next: TableRef)
        requires tables { AreTables core.now self.old }
        requires own { IsTrue (is_own_object core.now (table_object next)) }
        ensures { self.new ≡ tables_by core.now (Noted (TableNext table next)) self.old }
    {
        wait(&mut self.tables, next, table);
    }

    /// Whether a table of the core is stopped, waits or runs (AUTOSAR SWS OS 4.x, SWS_Os_00289 to SWS_Os_00291).
    pub fn status(&self, table: TableRef) -> TableStatus
        requires { table.index < length self.now.tables }
        ensures { result ≡ status_in (table_in table self.now) }
    {
        self.table(table).status()
    }

    /// The table of the core that waits for the end of a period of `table`; `None` if none waits.
    pub fn next(&self, core: &Core, table: TableRef) -> Option<TableRef>
        requires { length self.now.tables ≡ length core.now.tables }
        ensures { result ≡ next_in core.now table self.now }
    {
        for index in 0..self.tables.len() {
            let other = reference(core.id, index);
            if self.table(other).awaits(table) {
                return Some(other);
            }
        }
        None
    }

    /// What the tables of a counter of the core do at its next count, without those that do nothing.
    pub fn due_next(&self, core: &Core, counter: CounterRef) -> DueTables
        requires tables { AreTables core.now self.now }
        requires own { IsTrue (is_own_object core.now (counter_object counter)) }
        ensures { result.items ≡ due_tables_in core.now counter self.now }
    {
        let mut due = ArrayVec::new();
        for table in self.timed.of(counter) {
            if let Some(table) = self.due_table(core, *table) {
                due.push(table);
            }
        }
        due
    }

    // What a table of the core does at its counter's next count and, if its period ends, which table begins in its
    // place. `None` if it does nothing.
    fn due_table(&self, core: &Core, table: TableRef) -> Option<DueTable>
        requires tables { AreTables core.now self.now }
        requires own { IsTrue (is_own_object core.now (table_object table)) }
        ensures { result ≡ option_map (due_table table (next_in core.now table self.now)) (due_in core.now table self.now) }
    {
        let plan = own::table_of(core, table)?;
        let due = self.table(table).due_next(plan)?;
        let next = if due.ends {
            self.next(core, table)
        } else {
            None
        };
        Some(DueTable { table, due, next })
    }

    fn table(&self, table: TableRef) -> Table
        requires { table.index < length self.now.tables }
        ensures { result ≡ table_in table self.now }
    {
        self.tables.as_slice()[usize::from(table.index)]
    }
}

fn new_tables(count: usize) -> ArrayVec<Table, TABLES>
    requires { count ≤ TABLES }
    ensures { result.items ≡ replicate count TableValue.Stopped }
{
    let mut tables = ArrayVec::new();
    for _table in 0..count {
        tables.push(Table::new());
    }
    tables
}

// The tables of each counter of the core, in index order.
fn new_timed(core: &Core) -> Attached<TableRef, TABLES>
    requires { IsTrue (are_clocks_within core.now) }
    ensures { result ≡ each_by core.now (table_family core.now) (table_refs core.now) }
{
    let counters = core.counters.len();
    Attached::new(counters, core.tables.len(), |index| object_at(core, index))
}

// The core's table of this index: its counter, and a reference to the table.
fn object_at(core: &Core, index: usize) -> (CounterRef, TableRef)
    requires within { IsTrue (are_clocks_within core.now) }
    requires inside { index < length core.now.tables }
    ensures { IsObject core.now (table_family core.now) index result.0 result.1 }
{
    let counter = core.tables.as_slice()[index].counter;
    (counter, reference(core.id, index))
}

fn reference(core: CoreId, index: usize) -> TableRef
    requires { index < TABLES }
    ensures { result ≡ record { core = core; index = index } }
{
    let index = index as u8;
    TableRef { core, index }
}

// Moves each of these tables on by one count.
fn move_tables(core: &Core, tables: &mut ArrayVec<Table, TABLES>, timed: &[TableRef])
    requires within { IsTrue (are_clocks_within core.now) }
    requires places { All (λ (s : TableRef). s.index < length tables.old.items) timed.now }
    ensures { tables.new.items ≡ each_moved core.now timed.now tables.old.items }
{
    for table in timed {
        if let Some(plan) = own::table_of(core, *table) {
            tables.as_mut_slice()[usize::from(table.index)].advance(plan);
        }
    }
}

// A table of the core that starts now: its first period begins after `wait` counts. A table that is not the core's own
// is stopped.
fn started(core: &Core, table: TableRef, wait: u32) -> Table
    requires within { IsTrue (are_clocks_within core.now) }
    requires turn { wait ≤ 1000000001 }
    ensures { result ≡ started core.now table wait }
{
    let mut started = Table::new();
    if let Some(plan) = own::table_of(core, table) {
        started.start_rel(plan, wait);
    }
    started
}

fn set_table(tables: &mut ArrayVec<Table, TABLES>, table: TableRef, value: Table)
    requires { table.index < length tables.old.items }
    ensures { tables.new.items ≡ slice_set tables.old.items table.index value }
{
    tables.as_mut_slice()[usize::from(table.index)] = value;
}

fn stop(tables: &mut ArrayVec<Table, TABLES>, table: TableRef)
    requires { table.index < length tables.old.items }
    ensures { tables.new.items ≡ slice_set tables.old.items table.index TableValue.Stopped }
{
    tables.as_mut_slice()[usize::from(table.index)].stop();
}

// The table `table` waits for the end of a period of the table `other`.
fn wait(tables: &mut ArrayVec<Table, TABLES>, table: TableRef, other: TableRef)
    requires { table.index < length tables.old.items }
    ensures { tables.new.items ≡ slice_set tables.old.items table.index (TableValue.NextOf other) }
{
    tables.as_mut_slice()[usize::from(table.index)].next(other);
}
