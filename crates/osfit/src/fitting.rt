//! Whether a kernel is large enough for a core.

ghost use Rattle.std.specs.Prelude.{◌≡◌, ◌<◌, ◌≤◌, ◌^◌, count_by, nat_lt, sum_by};
ghost use Rattle.std.specs.List.{list_all};
ghost use Rattle.osbase.specs.declared.limits.TheConstants.{JOBS, POSTED};
ghost use Rattle.osplan.specs.{declared.plans.Alarm.Alarm as AlarmValue, declared.plans.Resource.Resource as ResourceValue, declared.plans.Task.Task as TaskValue, View.core_of};
ghost use Rattle.osfit.specs.Fits.{fits_core, fits_in};
ghost use Rattle.osplan.specs.Objects.{most_posts_of_table, is_posting, outbox_needed, posted_at, most_posts_per_tick};

use osbase::{CALLS_AT_ONCE, CoreId, RemoteCall};
use osplan::{Config, Core, ExpiryPoint, Resource, Table, Task};

// Whether the action is for another core's object, so that a letter goes into the outbox.
fn is_posting(core: &Core, action: RemoteCall) -> bool
    ensures { result ≡ is_posting core.now action }
{
    action.object().place.core.number != core.id.number
}

// How many actions of the expiry point are for other cores.
fn posted_at(core: &Core, point: &ExpiryPoint) -> usize
    ensures { result ≡ posted_at core.now point.now }
{
    point
        .actions
        .as_slice()
        .iter()
        .filter(|action| is_posting(core, **action))
        .count()
}

// The most actions for other cores that any point of the table has.
fn most_posts_of_table(core: &Core, table: &Table) -> usize
    ensures { result ≡ most_posts_of_table core.now table.now }
{
    let mut greatest = 0;
    for point in table.points.as_slice() {
        let posted = posted_at(core, point);
        if posted > greatest {
            greatest = posted;
        }
    }
    greatest
}

// How many of the core's alarms act on another core.
fn posted_by_alarms(core: &Core) -> usize
    ensures { result ≡ count_by (λ (alarm : AlarmValue). is_posting core.now alarm.action) core.now.alarms }
{
    core.alarms
        .as_slice()
        .iter()
        .filter(|alarm| is_posting(core, alarm.action))
        .count()
}

// How many letters the core's schedule tables may add to the outbox at once: of each table those of one point.
fn posted_by_tables(core: &Core) -> usize
    requires { sum_by (most_posts_of_table core.now) core.now.tables < 2 ^ 64 }
    ensures { result ≡ sum_by (most_posts_of_table core.now) core.now.tables }
{
    core.tables
        .as_slice()
        .iter()
        .map(|table| most_posts_of_table(core, table))
        .sum()
}

// How many places the core's outbox needs at least: for its calls, and for all that its alarms and schedule tables may
// add at once.
fn outbox_needed(core: &Core) -> usize
    requires { most_posts_per_tick core.now ≤ POSTED }
    ensures { result ≡ outbox_needed core.now }
{
    CALLS_AT_ONCE + (posted_by_alarms(core) + posted_by_tables(core))
}

// How many jobs these tasks may have at once.
fn jobs_of(tasks: &[Task]) -> usize
    requires { sum_by (λ (t : TaskValue). t.activations) tasks.now < 2 ^ 64 }
    ensures { result ≡ sum_by (λ (t : TaskValue). t.activations) tasks.now }
{
    let mut jobs = 0;
    for task in tasks {
        jobs += usize::from(task.activations);
    }
    jobs
}

// Whether each task's priority is below this bound.
fn are_tasks_below(tasks: &[Task], priorities: usize) -> bool
    ensures { result ≡ list_all (λ (t : TaskValue). nat_lt t.priority priorities) tasks.now }
{
    tasks
        .iter()
        .all(|task| usize::from(task.priority) < priorities)
}

// Whether each resource's ceiling is below this bound.
fn are_ceilings_below(resources: &[Resource], priorities: usize) -> bool
    ensures { result ≡ list_all (λ (r : ResourceValue). nat_lt r.ceiling priorities) resources.now }
{
    resources
        .iter()
        .all(|resource| usize::from(resource.ceiling) < priorities)
}

// Whether the core's priorities and ceilings are below `priorities`, its tasks have at most `jobs` jobs at once, and
// its outbox needs at most `places` places.
fn fits_core(core: &Core, priorities: usize, jobs: usize, places: usize) -> bool
    requires activations { sum_by (λ (t : TaskValue). t.activations) core.now.tasks ≤ JOBS }
    requires posted { most_posts_per_tick core.now ≤ POSTED }
    ensures { result ≡ fits_core priorities jobs places core.now }
{
    let tasks = core.tasks.as_slice();
    let resources = core.resources.as_slice();
    are_tasks_below(tasks, priorities)
        && are_ceilings_below(resources, priorities)
        && jobs_of(tasks) <= jobs
        && outbox_needed(core) <= places
}

/// Whether a kernel is large enough for the core of this number. The kernel has the priorities and ceilings below
/// `priorities`, room for `jobs` jobs, and `places` places in its outbox. A core that is not configured never fits.
pub fn fits(config: &Config, core: CoreId, priorities: usize, jobs: usize, places: usize) -> bool
    ensures { result ≡ fits_in priorities jobs places (core_of config.now core) }
{
    let plan = config.plan();
    match plan.core(core) {
        Some(own) => fits_core(own, priorities, jobs, places),
        None => false,
    }
}
