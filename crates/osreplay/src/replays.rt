//! A core by itself, item by item.

ghost use Rattle.std.specs.Prelude.{IsSome};
ghost use Rattle.osplan.specs.View.{core_of};
ghost use Rattle.osreplay.specs.Replays.{IsReplayResult};

use osbase::{CoreId, Item, Report};
use osplan::Config;
use osrun::CoreRun;
use std::alloc::Global;
use thiserror::Error;

/// Why not all items were replayed.
#[derive(Debug, Drop, Error)]
pub enum ReplayFault {
    /// An allocation failed. The report is that of the items before that point.
    #[error("out of memory")]
    NoMemory { report: Report },
    /// The item of this number, counted from 1, may not be taken. The report is that of the items before it.
    #[error("item {number} may not be taken")]
    ItemRefused { number: u64, report: Report },
}

/// Plays a configured core alone: it takes the items in their order, up to the first that it may not take, or for which
/// an allocation fails. The report, also that of a fault, is that of the items taken.
pub fn replay(
    alloc: Global,
    config: &Config,
    core: CoreId,
    items: &[Item],
) -> Result<Report, ReplayFault>
    requires { IsSome (core_of config.now core) }
    ensures { IsReplayResult config.now core items.now result }
{
    let mut core_run = CoreRun::new(alloc, config, core, &[]);
    let mut taken = 0;
    for item in items {
        if !core_run.kernel.may_take(item) {
            return Err(ReplayFault::ItemRefused {
                number: taken + 1,
                report: core_run.report(),
            });
        }
        if core_run.make_room().is_err() {
            return Err(ReplayFault::NoMemory {
                report: core_run.report(),
            });
        }
        core_run.take(*item);
        taken += 1;
    }
    Ok(core_run.report())
}
