//! One order of the items of a run by threads: the turns by which a listed run has the same reports.

ghost use Rattle.std.specs.Prelude.{◌≡◌, ◌↔◌, IsTrue, IfSome, List, map};
ghost use Rattle.std.specs.List.{AllByRecursion};
ghost use Rattle.osbase.specs.declared.turns.Report.{Report as ReportValue};
ghost use Rattle.osplan.specs.Stimuli.{AreKnown};
ghost use Rattle.osrun.specs.Sound.{IsOwn, lists_in, unclocked};
ghost use Rattle.osworld.specs.Runs.{AreReports};

use crate::runs::run_world;
use crate::seeking::turns_sought;
use osbase::{Report, Schedule, Stimuli};
use osplan::Config;
use ossame::are_same_items;
use std::alloc::Global;

/// Turns by which `run_world` has exactly these reports, except for the clocks of the items. So what holds of a listed
/// run holds of the run by threads that had these reports. `None` if no such turns were found, or if an allocation
/// failed. Every answer is checked by a listed run.
pub fn order(
    alloc: Global,
    config: &Config,
    stimuli: &Stimuli,
    reports: &[Report],
) -> Option<Schedule>
    requires known { AreKnown config.now stimuli.now }
    requires own { AllByRecursion (IsOwn config.now) reports.now }
    ensures reports { IfSome result (λ schedule. AreReports config.now stimuli.now schedule (map unclocked reports.now)) }
    ensures no_others { IfSome result (λ schedule. (others : List ReportValue) → AreReports config.now stimuli.now schedule others → others ≡ map unclocked reports.now) }
{
    let schedule = turns_sought(alloc, config, stimuli, reports)?;
    let Ok(listed) = run_world(alloc, config, stimuli, schedule.as_slice()) else {
        return None;
    };
    if are_same(listed.as_slice(), reports) {
        Some(schedule)
    } else {
        None
    }
}

// Whether these reports are of the same cores with the same items.
fn are_same(left: &[Report], right: &[Report]) -> bool
    ensures { IsTrue result ↔ lists_in left.now ≡ lists_in right.now }
{
    if left.len() != right.len() {
        return false;
    }
    for i in 0..left.len() {
        if !is_same(&left[i], &right[i]) {
            return false;
        }
    }
    true
}

// Whether these reports are of the same core with the same items.
fn is_same(left: &Report, right: &Report) -> bool
    ensures { IsTrue result ↔ (left.now.core ≡ right.now.core) × (left.now.items ≡ right.now.items) }
{
    left.core.number == right.core.number
        && are_same_items(left.items.as_slice(), right.items.as_slice())
}
