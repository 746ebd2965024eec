//! The task in the running state, and the current job, which is the oldest live one of this task.

ghost use Rattle.std.specs.Prelude.{◌≡◌, if◌then◌else◌, Some, None};
ghost use Rattle.std.specs.Option.{option_or};
ghost use Rattle.osbase.specs.{History.left_by, History.oldest};
ghost use Rattle.osjobs.specs.{Jobs.is_current, Live.AreCounted};

use crate::live::{self, Counts};
use osbase::{Job, Runner, TaskRef};

/// What becomes of `current`, the task in the running state, once `task` leaves that state: none if the two are the
/// same.
pub(crate) fn left_by(task: TaskRef, current: Option<TaskRef>) -> Option<TaskRef>
    ensures { result ≡ left_by task current }
{
    match current {
        Some(other) if task == other => None,
        _ => current,
    }
}

/// What becomes of `job`, the current job, once `task` leaves the running state: none if `task` is the current task.
pub(crate) fn job_left(task: TaskRef, current: Option<TaskRef>, job: Option<Job>) -> Option<Job>
    ensures { result ≡ (if is_current current (Runner.Task task) then None else job) }
{
    match current {
        Some(other) if task == other => None,
        _ => job,
    }
}

/// The current job, once the job `joined` was put behind all others: `job` if there is one; else `joined` if it is a
/// job of the current task.
pub(crate) fn job_joined(current: Option<TaskRef>, job: Option<Job>, joined: Job) -> Option<Job>
    ensures { result ≡ option_or job (if is_current current joined.runner then Some joined else None) }
{
    if job.is_some() {
        return job;
    }
    let task = current?;
    if joined.runner.is(Runner::Task(task)) {
        return Some(joined);
    }
    None
}

/// The current job, once the oldest job of `task` was put behind all others: the oldest of its jobs now, if `task` is
/// the current task; else `job`.
pub(crate) fn job_anew(
    jobs: &[Job],
    counts: &Counts,
    task: TaskRef,
    current: Option<TaskRef>,
    job: Option<Job>,
) -> Option<Job>
    requires { AreCounted jobs.now counts.now }
    ensures { result ≡ (if is_current current (Runner.Task task) then oldest (Runner.Task task) jobs.now else job) }
{
    match current {
        Some(other) if task == other => live::oldest(jobs, counts, Runner::Task(task)),
        _ => job,
    }
}
