//! What a job holds.

ghost use Rattle.osbase.specs.{History.History, declared.references.Runner.Runner};
ghost use Rattle.oslaws.specs.{Held.HoldsWhatItTook, Taken.HoldsByLastWord};

/// In every history, a runner's oldest job holds the resources that were taken, and not released, since the runner's
/// last job ended, the newest first (OSEK/VDX OS 2.2.3, section 8.2).
pub fn jobs_hold_what_they_took()
    ensures { (r : Runner) (h : History) → HoldsWhatItTook r h }
{}

/// If a runner's jobs never take a resource that is still taken, its oldest job holds a resource exactly if one of them
/// took it, and since then none of them released it or ended (OSEK/VDX OS 2.2.3, section 8.2).
pub fn resources_are_held_as_last_said()
    ensures { (r : Runner) (h : History) → HoldsByLastWord r h }
{}
