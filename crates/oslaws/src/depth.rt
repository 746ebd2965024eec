//! How often a job has suspended interrupts.

ghost use Rattle.osbase.specs.{History.History, declared.references.Runner.Runner};
ghost use Rattle.oslaws.specs.Depth.{CountsSuspensions};

/// A job's depth is its suspensions of interrupts less its resumptions, since the last job of its task or ISR ended
/// (OSEK/VDX OS 2.2.3, section 13.3.2.3 and 13.3.2.4). This holds if the resumptions are never more than the
/// suspensions, and the suspensions never over 255 more than the resumptions. In any case the depth is 255 at most.
pub fn suspensions_are_counted()
    ensures { (r : Runner) (h : History) → CountsSuspensions r h }
{}
