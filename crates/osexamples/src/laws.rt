//! What holds of every history, and of every operation.

ghost use Rattle.std.specs.Prelude.{IsTrue};
ghost use Rattle.osbase.specs.{History.History, History.live_jobs, declared.references.Runner.Runner};
ghost use Rattle.oscript.specs.declared.Op.{Op};
ghost use Rattle.osexamples.specs.Laws.{are_ascending, does_something};

/// Live jobs are in the order of their activation, in every history.
pub fn live_jobs_ascend()
    ensures { (h : History) → IsTrue (are_ascending (live_jobs h)) }
{}

/// Each operation of a script does something: it is a call, such as ActivateTask, or the table of a family of services
/// has it.
pub fn each_operation_does_something()
    ensures { (r : Runner) (op : Op) → IsTrue (does_something r op) }
{}
