//! What a program decides while workers run.

use osbase::CoreId;

/// Decisions of a program about the workers' threads, and what it does around their turns.
pub trait Gate {
    /// Whether this core's thread may start. It is called before each start, and `false` counts as a thread that
    /// could not be started.
    fn starts(&self, core: CoreId) -> bool;

    /// Called before each turn.
    fn before(&self, core: CoreId);

    /// Called after a turn that changed nothing.
    fn idle(&self, core: CoreId);
}
