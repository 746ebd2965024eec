//! What holds of each schedule table, and of all tables of a core.

ghost use Rattle.std.specs.Prelude.{ℕ, ◌≡◌, ◌≤◌, ◌++◌, ◌∷◌, IsTrue, not, sum_by};
ghost use Rattle.std.specs.List.{list_all};
ghost use Rattle.osbase.specs.{declared.references.CounterRef.CounterRef, declared.references.TableRef.TableRef, Counting.counts_of, Counting.table_state};
ghost use Rattle.osbase.specs.History.{History, Entry, Noted, TableStarted};
ghost use Rattle.osplan.specs.{declared.plans.Core.Core, declared.plans.Table.Table as TablePlan};
ghost use Rattle.ostable.specs.{Ahead.IsTimed, Formulas.IsPeriodic, Formulas.concerns, Formulas.running_for, Waiting.all_wait_by_counter, Waiting.ends_alone, Waiting.with_next};
ghost use Rattle.ostable.specs.Tables.{AreTables, TableStates, due_tables_in, timed_by};

/// If a table was started, and since then neither stopped, started again nor made to wait, it has run for all counts
/// that its counter had since then (AUTOSAR SWS OS 4.x, section 7.3).
pub fn a_table_runs_with_its_counter()
    ensures { (c : CounterRef) (s : TableRef) (wait : ℕ) (later h : History) → IsTrue (list_all (λ (e : Entry). not (concerns s e)) later) → table_state c s (later ++ Noted (TableStarted s wait) ∷ h) ≡ running_for wait (counts_of c later) }
{}

/// An expiry point of offset 1 or more is due at its offset of each period. One of offset 0 is due only where the first
/// period begins. A period ends a duration after it began (AUTOSAR SWS OS 4.x, section 7.3.3).
pub fn points_are_due_at_their_offsets()
    ensures { (t : TablePlan) (wait counts : ℕ) → IsTimed t → IsPeriodic t wait counts }
{}

/// If tables wait only for tables of their own counter, no table is processed twice at one count, whether it is due or
/// begins where another one's period ends. So the sum of `amount` over these tables is at most the sum over all tables
/// of the counter.
pub fn no_table_is_done_twice_at_a_count()
    ensures { (core : Core) (c : CounterRef) (x : TableStates) (amount : TableRef → ℕ) → IsTrue (all_wait_by_counter core x) → sum_by (with_next amount) (due_tables_in core c x) ≤ sum_by amount (timed_by core c) }
{}

/// If a table repeats, none of its expiry points is due where a period ends. So the table processes at most one expiry
/// point at one count (AUTOSAR SWS OS 4.x, SWS_Os_00444).
pub fn a_table_does_one_point_at_a_count()
    ensures { (core : Core) (c : CounterRef) (x : TableStates) → AreTables core x → IsTrue (list_all (ends_alone core) (due_tables_in core c x)) }
{}
