//! Whether a run came to its end.

ghost use Rattle.std.specs.{Prelude.◌≡◌, Prelude.◌||◌, List.list_any};
ghost use Rattle.osrun.specs.Ends.{have_all_ended, starts, was_started};

use osbase::{CoreId, Item, Report, Status};
use osplan::Plan;

/// Whether every started core has ended: the master, and each core that an item of some core started. A core that
/// was never started is not waited for.
pub fn have_all_ended(plan: &Plan, reports: &[Report]) -> bool
    ensures { result ≡ have_all_ended plan.now reports.now }
{
    reports.iter().all(|report| report.ended || !was_started(plan, reports, report.core))
}

// Whether the core is the master or some core started it.
fn was_started(plan: &Plan, reports: &[Report], core: CoreId) -> bool
    ensures { result ≡ was_started plan.now reports.now core }
{
    core.number == plan.master.number || was_started_by_any(reports, core)
}

// Whether an item of some report started the core.
fn was_started_by_any(reports: &[Report], core: CoreId) -> bool
    ensures { result ≡ list_any (λ r. list_any (starts core) r.items) reports.now }
{
    reports.iter().any(|report| has_started(report, core))
}

// Whether one of the report's items started the core.
fn has_started(report: &Report, core: CoreId) -> bool
    ensures { result ≡ list_any (starts core) report.now.items }
{
    report
        .items
        .as_slice()
        .iter()
        .any(|item| is_start_of(item, core))
}

// Whether the item is a StartCore of the core that returned E_OK.
fn is_start_of(item: &Item, core: CoreId) -> bool
    ensures { result ≡ starts core item.now }
{
    match item {
        Item::Began {
            core: started,
            status: Status::EOk,
        } => started.number == core.number,
        _ => false,
    }
}
