//! What holds of the events and the budgets of every history.

ghost use Rattle.osbase.specs.{declared.references.TaskRef.TaskRef, History.History, declared.references.Runner.Runner};
ghost use Rattle.osrunner.specs.Laws.{IsLastWord, LocksTicksSince, UsesTicksSince};

/// If all event masks of a history fit in 32 bits, the last entry that sets or clears a task's event decides whether
/// the event is set (OSEK/VDX OS 2.2.3, section 7). An activation clears all events of its task.
pub fn events_are_as_last_said()
    ensures { (t : TaskRef) → (h : History) → IsLastWord t h }
{}

/// The used ticks of a job's budget are those at which it was the running job since it began or last waited (AUTOSAR
/// SWS OS 4.x, SWS_Os_00028, SWS_Os_00473 and, of an ISR, SWS_Os_00474).
pub fn budgets_are_the_ticks_since()
    ensures { (r : Runner) → (h : History) → UsesTicksSince r h }
{}

/// If a job holds a resource, it has used one tick of the lock budget for each tick at which it was the running job
/// since it last took the resource (the project's own). While another job or an ISR runs, no tick counts. If the job
/// gives the resource back and takes it again, the count starts from zero.
pub fn locks_are_the_ticks_since()
    ensures { (r : Runner) → (h : History) → LocksTicksSince r h }
{}
