//! How a schedule table moves on with the counts of its counter.

ghost use Rattle.std.specs.Prelude.{◌≡◌, ◌≤◌};
ghost use Rattle.osbase.specs.Counting.{TableState, Stopped, NextOf, counted_once, started_after};
ghost use Rattle.osplan.specs.declared.plans.Table.{Table as TablePlan};
ghost use Rattle.ostable.specs.{Status.is_running, Status.is_stopped, Status.number_of, Tables.is_next_in, Tables.status_in, declared.table.Table.Table as TableValue};
ghost use Rattle.ostable.specs.Ahead.{IsTimed, ahead_beyond, ahead_in, beyond_next, count_of_next, due_at, due_next, due_of_next, status_of, table_at, table_beyond};

use osbase::TableRef;

/// What comes next in a table that runs: the expiry point number `next` or, past the last one, the end of the period.
/// It comes after `distance` counts.
#[derive(Clone, Copy, PartialEq, Eq)]
pub struct Ahead {
    pub next: u8,
    pub distance: u32,
}

/// What a table does at a count: the expiry point that is due, by its number, and whether a period ends.
#[derive(Clone, Copy, Default, PartialEq, Eq)]
pub struct Due {
    pub point: Option<u8>,
    pub ends: bool,
}

/// Whether a table is stopped, waits for the end of another table's period, or runs (AUTOSAR SWS OS 4.x,
/// ScheduleTableStatusType).
#[derive(Clone, Copy, PartialEq, Eq)]
pub enum TableStatus {
    Stopped,
    Next,
    Running,
}

/// A schedule table (AUTOSAR SWS OS 4.x, section 7.3).
#[derive(Clone, Copy, PartialEq, Eq)]
pub enum Table {
    Stopped,
    NextOf(TableRef),
    Running(Ahead),
}

impl TableStatus {
    /// Whether the table is stopped.
    pub fn is_stopped(self) -> bool
        ensures { result ≡ is_stopped self }
    {
        matches!(self, TableStatus::Stopped)
    }

    /// Whether the table runs.
    pub fn is_running(self) -> bool
        ensures { result ≡ is_running self }
    {
        matches!(self, TableStatus::Running)
    }

    /// 0 for a table that is stopped, 1 for one that waits, 2 for one that runs (AUTOSAR SWS OS 4.x, SWS_Os_00289 to
    /// SWS_Os_00291; the numbers: own).
    pub fn number(self) -> u8
        ensures { result ≡ number_of self }
    {
        match self {
            TableStatus::Stopped => 0,
            TableStatus::Next => 1,
            TableStatus::Running => 2,
        }
    }
}

impl Table {
    /// A table that is stopped.
    pub fn new() -> Self
        ensures state { result ≡ TableValue.Stopped }
        ensures counts { (t : TablePlan) → result ≡ table_at t Stopped }
    {
        Table::Stopped
    }

    /// Starts the table. Its first period begins after `wait` counts. If the period begins at once, an expiry point of
    /// offset 0 is not due any more: the caller processes this point.
    pub fn start_rel(&mut self, plan: &osplan::Table, wait: u32)
        requires timed { IsTimed plan.now }
        requires turn { wait ≤ 1000000001 }
        ensures { self.new ≡ table_at plan.now (started_after wait) }
    {
        *self = Table::Running(if wait == 0 {
            beginning(plan)
        } else {
            Ahead {
                next: 0,
                distance: wait + count_of_next(plan, 0),
            }
        });
    }

    /// The table is stopped, or waits no longer.
    pub fn stop(&mut self)
        ensures state { self.new ≡ TableValue.Stopped }
        ensures counts { (t : TablePlan) → self.new ≡ table_at t Stopped }
    {
        *self = Table::Stopped;
    }

    /// The table waits for the end of a period of another one.
    pub fn next(&mut self, table: TableRef)
        ensures state { self.new ≡ TableValue.NextOf table }
        ensures counts { (t : TablePlan) → self.new ≡ table_at t (NextOf table) }
    {
        *self = Table::NextOf(table);
    }

    /// Whether the table is stopped, waits, or runs.
    pub fn status(self) -> TableStatus
        ensures state { result ≡ status_in self }
        ensures counts { (t : TablePlan) (state : TableState) → self ≡ table_at t state → result ≡ status_of state }
    {
        match self {
            Table::Stopped => TableStatus::Stopped,
            Table::NextOf(_) => TableStatus::Next,
            Table::Running(_) => TableStatus::Running,
        }
    }

    /// Whether the table waits for the end of a period of `table`, another one.
    pub fn awaits(self, table: TableRef) -> bool
        ensures { result ≡ is_next_in table self }
    {
        match self {
            Table::NextOf(other) => other == table,
            _ => false,
        }
    }

    /// What the table does at the next count of its counter; `None` if nothing is due.
    pub fn due_next(self, plan: &osplan::Table) -> Option<Due>
        requires timed { IsTimed plan.now }
        ensures state { result ≡ due_next plan.now self }
        ensures counts { (state : TableState) → self ≡ table_at plan.now state → result ≡ due_at plan.now (counted_once state) }
    {
        match self {
            Table::Running(ahead) if ahead.distance <= 1 => Some(due_of(plan, ahead.next)),
            _ => None,
        }
    }

    /// If the table runs, moves it on by one count of its counter. If a period ends, the next one begins. An expiry
    /// point of offset 0 is not due in the next period, as in `start_rel`.
    pub fn advance(&mut self, plan: &osplan::Table)
        requires timed { IsTimed plan.now }
        ensures state { self.new ≡ table_beyond plan.now self.old }
        ensures counts { (state : TableState) → self.old ≡ table_at plan.now state → self.new ≡ table_at plan.now (counted_once state) }
    {
        if let Table::Running(ahead) = *self {
            *self = Table::Running(beyond(plan, ahead));
        }
    }
}

// At which count of a period the expiry point of this number is due; past the last one, the end of the period.
fn count_of_next(plan: &osplan::Table, next: u8) -> u32
    ensures { result ≡ count_of_next plan.now next }
{
    match plan.points.as_slice().get(usize::from(next)) {
        Some(point) => point.offset,
        None => plan.duration,
    }
}

// What comes next at the beginning of a period, once an expiry point of offset 0, if there is one, is done.
fn beginning(plan: &osplan::Table) -> Ahead
    requires timed { IsTimed plan.now }
    ensures { result ≡ ahead_in plan.now 0 }
{
    let next = if count_of_next(plan, 0) == 0 { 1 } else { 0 };
    Ahead {
        next,
        distance: count_of_next(plan, next),
    }
}

// What the table does when `next` is due: the expiry point of this number, if there is one, and whether a period ends.
fn due_of(plan: &osplan::Table, next: u8) -> Due
    ensures { result ≡ due_of_next plan.now next }
{
    let point = if plan.points.as_slice().get(usize::from(next)).is_some() {
        Some(next)
    } else {
        None
    };
    Due {
        point,
        ends: count_of_next(plan, next) == plan.duration,
    }
}

// What comes next, and after how many counts, once one more count of the table's counter has passed.
fn beyond(plan: &osplan::Table, ahead: Ahead) -> Ahead
    requires timed { IsTimed plan.now }
    ensures { result ≡ ahead_beyond plan.now ahead }
{
    if ahead.distance > 1 {
        return Ahead {
            distance: ahead.distance - 1,
            ..ahead
        };
    }
    beyond_next(plan, ahead.next)
}

// What comes next, and after how many counts, after the count at which `next` is due.
fn beyond_next(plan: &osplan::Table, next: u8) -> Ahead
    requires timed { IsTimed plan.now }
    ensures { result ≡ beyond_next plan.now next }
{
    let count = count_of_next(plan, next);
    if count == plan.duration {
        return beginning(plan);
    }
    Ahead {
        next: next + 1,
        distance: count_of_next(plan, next + 1) - count,
    }
}

impl Default for Table {
    fn default() -> Self
        ensures { result ≡ TableValue.Stopped }
    {
        Table::new()
    }
}
