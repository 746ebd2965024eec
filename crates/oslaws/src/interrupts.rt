//! Which job runs while ISRs do.

ghost use Rattle.osbase.specs.History.{History};
ghost use Rattle.oslaws.specs.Entered.{RunsTheLastEntered};

/// In every history, the running job is that of the ISR that was entered last and has not left since, or else the
/// current task's (OSEK/VDX OS 2.2.3, section 4.2 and 6).
pub fn the_last_entered_isr_runs()
    ensures { (h : History) → RunsTheLastEntered h }
{}
