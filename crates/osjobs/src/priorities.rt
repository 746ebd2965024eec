//! A job's priority, and the first of the jobs of greatest priority.

ghost use Rattle.std.specs.Prelude.{◌≡◌, ◌≤◌, [], true, false, filter, length, IsTrue, IsSome, IfSome, IfNone};
ghost use Rattle.std.specs.{List.All, Option.option_map_or};
ghost use Rattle.osbase.specs.History.{better_of as better_job, first_greatest as greatest_job, same_runner};
ghost use Rattle.osplan.specs.View.{own_task};
ghost use Rattle.osjobs.specs.Priorities.{highest_of, is_extended, is_own_runner, is_preemptable, level_by, level_of, raised_of, static_priority};
ghost use Rattle.osjobs.specs.{Ranking.is_awake_in, Ranking.rank_by, Jobs.Ascending, Jobs.Each, Live.AreCounted, OwnTasks.is_own_task, OwnTasks.own_tasks};
ghost use Rattle.osjobs.specs.Queue.{AreHolders, IsBestSoFar, IsBetter, OneOf, queued};
ghost use Rattle.osqueue.specs.Ordered.{IsBest};

use crate::live::{self, Counts};
use osbase::{Job, Runner, TASKS, TaskRef};
use osplan::own::{isr_of, task_of};
use osplan::{Core, Task};
use osqueue::Ready;
use osqueue::words::{greatest, unmarked};
use osres::greater;
use osrunner::Rows;

// Whether the runner is not one of the core's non-preemptable tasks.
fn is_preemptable(core: &Core, runner: Runner) -> bool
    ensures { result ≡ is_preemptable core.now runner }
{
    match runner {
        Runner::Task(task) => match task_of(core, task) {
            Some(own) => own.preemptable,
            None => true,
        },
        Runner::Isr(_) => true,
    }
}

/// Whether the runner is one of the core's extended tasks (OSEK/VDX OS 2.2.3, section 4.2.1).
pub fn is_extended(core: &Core, runner: Runner) -> bool
    ensures { result ≡ is_extended core.now runner }
{
    match runner {
        Runner::Task(task) => match task_of(core, task) {
            Some(own) => own.extended,
            None => false,
        },
        Runner::Isr(_) => false,
    }
}

fn is_giving_way(giving_way: Option<Runner>, runner: Runner) -> bool
    ensures { result ≡ option_map_or (same_runner runner) giving_way false }
{
    match giving_way {
        Some(other) => runner.is(other),
        None => false,
    }
}

/// The current job, if it is raised: its task is not preemptable and does not give way.
pub(crate) fn raised_of(
    core: &Core,
    giving_way: Option<Runner>,
    current: Option<Job>,
) -> Option<Job>
    ensures { result ≡ raised_of core.now giving_way current }
{
    let job = current?;
    if is_preemptable(core, job.runner) || is_giving_way(giving_way, job.runner) {
        return None;
    }
    Some(job)
}

// A job with its rank.
#[derive(Clone, Copy)]
struct Ranked {
    job: Job,
    priority: u8,
}

/// The first of the jobs of greatest rank whose tasks do not wait. Here `raised` is the raised job, and `first` the
/// first job by the configured priorities (OSEK/VDX OS 2.2.3, section 4.4 and 4.5). Besides `first`, only the raised
/// job and the oldest jobs of tasks that hold resources can be the best.
pub(crate) fn best_of(
    core: &Core,
    rows: &Rows,
    raised: Option<Job>,
    first: Option<Ready>,
    holders: u32,
    jobs: &[Job],
    counts: &Counts,
) -> Option<Job>
    requires counted { AreCounted jobs.now counts.now }
    requires own { Each (λ j. is_own_task (own_tasks core.now) j.runner ≡ true) jobs.now }
    requires ascending { Ascending jobs.now }
    requires tasks { length (own_tasks core.now).priorities ≤ TASKS }
    requires holders { AreHolders rows.now holders }
    requires first { IfSome first (λ x. IsBest x (queued (own_tasks core.now) (is_awake_in rows.now) jobs.now)) }
    requires none { IfNone first (queued (own_tasks core.now) (is_awake_in rows.now) jobs.now ≡ []) }
    requires raised { IfSome raised (λ j. OneOf j jobs.now) }
    ensures greatest { result ≡ greatest_job (rank_by core.now rows.now raised) (filter (is_awake_in rows.now) jobs.now) }
    ensures own { IfSome result (λ j. IsTrue (is_own_runner core.now j.runner)) }
{
    let front = first?.job;
    let job = front;
    let priority = rank_of(core, rows, raised, job);
    let start = Ranked { job, priority };
    let best = consider(core, rows, raised, raised, start);
    let best = best_holder(core, rows, raised, holders, jobs, counts, front, best);
    Some(best.job)
}

// The best of `best` and of the oldest jobs of tasks that hold resources;
// `best` is the best of the front of the queue and the raised job.
fn best_holder(
    core: &Core,
    rows: &Rows,
    raised: Option<Job>,
    holders: u32,
    jobs: &[Job],
    counts: &Counts,
    _front: Job,
    best: Ranked,
) -> Ranked
    requires counted { AreCounted jobs.now counts.now }
    requires own { Each (λ j. is_own_task (own_tasks core.now) j.runner ≡ true) jobs.now }
    requires ranked { best.priority ≡ rank_by core.now rows.now raised best.job }
    requires so_far { IsBestSoFar core.now rows.now raised holders jobs.now _front best.job holders }
    ensures { IsBestSoFar core.now rows.now raised holders jobs.now _front result.job 0 }
{
    let mut best = best;
    let mut left = holders;
    while left != 0 {
        let index = greatest(left);
        left = unmarked(left, index);
        let task = TaskRef {
            core: core.id,
            index,
        };
        let holder = live::oldest(jobs, counts, Runner::Task(task));
        best = consider(core, rows, raised, holder, best);
    }
    best
}

// The better of `best` and `job`. If there is no `job`, or its task waits, it is `best`.
fn consider(core: &Core, rows: &Rows, raised: Option<Job>, job: Option<Job>, best: Ranked) -> Ranked
    requires own { IfSome job (λ j. is_own_task (own_tasks core.now) j.runner ≡ true) }
    requires ranked { best.priority ≡ rank_by core.now rows.now raised best.job }
    ensures ranked { result.priority ≡ rank_by core.now rows.now raised result.job }
    ensures better { IsBetter (rank_by core.now rows.now raised) (is_awake_in rows.now) best.job job result.job }
{
    let Some(job) = job else {
        return best;
    };
    if !is_awake(rows, job) {
        return best;
    }
    let priority = rank_of(core, rows, raised, job);
    if priority < best.priority {
        return best;
    }
    if priority == best.priority && best.job.stamp <= job.stamp {
        return best;
    }
    Ranked { job, priority }
}

// Whether the job's task does not wait (OSEK/VDX OS 2.2.3, section 4.2.1).
pub(crate) fn is_awake(rows: &Rows, job: Job) -> bool
    ensures { result ≡ is_awake_in rows.now job }
{
    !rows.is_waiting(job.runner)
}

// The rank of a job: the greatest of its task's priority and of the ceilings of what the task's oldest job holds. For
// the raised job, the priorities of all tasks count too.
#[inline(always)]
fn rank_of(core: &Core, rows: &Rows, raised: Option<Job>, job: Job) -> u8
    requires { IsTrue (is_own_runner core.now job.runner) }
    ensures { result ≡ rank_by core.now rows.now raised job }
{
    let priority = greater(static_priority(core, job.runner), rows.ceiling(job.runner));
    match raised {
        Some(other) if job.stamp == other.stamp => {
            greater(priority, highest_of(core.tasks.as_slice()))
        }
        _ => priority,
    }
}

// The greatest static priority of these tasks; 0 if there are none.
fn highest_of(tasks: &[Task]) -> u8
    ensures { result ≡ highest_of tasks.now }
{
    let mut highest = 0;
    let mut place = tasks.len();
    while place > 0 {
        place -= 1;
        highest = greater(tasks[place].priority, highest);
    }
    highest
}

/// The static priority of one of the core's tasks; 0 for an ISR.
pub fn static_priority(core: &Core, runner: Runner) -> u8
    requires { IsTrue (is_own_runner core.now runner) }
    ensures { result ≡ static_priority core.now runner }
{
    match runner {
        Runner::Task(task) => task_priority(core, task),
        Runner::Isr(_) => 0,
    }
}

fn task_priority(core: &Core, task: TaskRef) -> u8
    requires { IsSome (own_task core.now task) }
    ensures { result ≡ static_priority core.now (Runner.Task task) }
{
    let own = &core.tasks.as_slice()[usize::from(task.index)];
    own.priority
}

// The level of one of the core's ISRs; 0 for any other runner.
fn level_of(core: &Core, runner: Runner) -> u8
    ensures { result ≡ level_of core.now runner }
{
    match runner {
        Runner::Task(_) => 0,
        Runner::Isr(isr) => match isr_of(core, isr) {
            Some(own) => own.level,
            None => 0,
        },
    }
}

/// The first of the jobs of greatest level (AUTOSAR SWS OS 4.x, section 7.6).
pub(crate) fn first_of_level(core: &Core, jobs: &[Job]) -> Option<Job>
    requires own { All (λ j. IsTrue (is_own_runner core.now j.runner)) jobs.now }
    ensures greatest { result ≡ greatest_job (level_by core.now) jobs.now }
    ensures own { IfSome result (λ j. IsTrue (is_own_runner core.now j.runner)) }
{
    let mut best: Option<Job> = None;
    let mut place = jobs.len();
    while place > 0 {
        place -= 1;
        best = Some(higher_of(core, jobs[place], best));
    }
    best
}

// The one of greater level of `job` and `best`, which is the best of the jobs behind `job`. If their levels are equal,
// it is `job`.
fn higher_of(core: &Core, job: Job, best: Option<Job>) -> Job
    ensures { result ≡ better_job (level_by core.now) job best }
{
    match best {
        Some(other) if level_of(core, job.runner) < level_of(core, other.runner) => other,
        _ => job,
    }
}
