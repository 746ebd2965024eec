//! Which fault a configuration's text has, if it has the shape of a configuration.
//!
//! The tests are a table in ascending order of their faults, each defined apart from the others. So the fault that is
//! returned is the one of smallest number. Names, masks and operations are judged part by part, where they are
//! read (`Judged`). So the parts of a text without a fault are ready for its plan.
#![tactic(auto)]

mod checks;
mod judging;
mod table_checks;
mod verdicts;

pub use checks::{
    are_alarm_modes_known, are_modes_known, are_objects_few, fault_of, is_core_mode_known,
    is_numbered, is_spinlock_known,
};
pub use judging::{judge_action, judge_counter, judge_isr_script, judge_script};
pub use table_checks::are_table_modes_known;
pub use verdicts::{Judged, Verdict};
