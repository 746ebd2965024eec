//! What a task waits for.

ghost use Rattle.osbase.specs.{History.History, declared.references.TaskRef.TaskRef};
ghost use Rattle.oslaws.specs.Waits.{WaitsAsLastSaid};

/// In every history, a task waits for the events that it named when it last began to wait, unless it was released since
/// (OSEK/VDX OS 2.2.3, section 4.2.1 and 13.5.3.4).
pub fn tasks_wait_as_last_said()
    ensures { (t : TaskRef) (h : History) → WaitsAsLastSaid t h }
{}
