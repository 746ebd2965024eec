//! The list of the live jobs, and how many of them each task and ISR has.

ghost use Rattle.std.specs.Prelude.{◌≡◌, ◌<◌, ◌≤◌, ◌++◌, ◌∷◌, [], length, remove, slice_get, None, IfSome, IfNone};
ghost use Rattle.osbase.specs.History.{job_count, oldest, stamped_anew, without_oldest};
ghost use Rattle.osjobs.specs.Live.{AreCounted};

use arrayvec::ArrayVec;
use osbase::{Job, RUNNERS, Runner};

/// How many live jobs the task or ISR at each place has. A search for a runner's jobs begins with the newest job and
/// ends once all are found.
pub(crate) type Counts = [usize; RUNNERS];

/// Adds a job behind all others, and counts it for its task or ISR.
pub(crate) fn push<const J: usize>(jobs: &mut ArrayVec<Job, J>, counts: &mut Counts, job: Job)
    requires room { length jobs.old.items < J }
    requires counted { AreCounted jobs.old.items counts.old }
    ensures jobs { jobs.new.items ≡ jobs.old.items ++ job ∷ [] }
    ensures counted { AreCounted jobs.new.items counts.new }
{
    jobs.push(job);
    let place = job.runner.slot();
    if place < RUNNERS {
        counts[place] += 1;
    }
}

/// Takes the oldest job of this runner, if it has one, out of the list.
#[inline(always)]
pub(crate) fn take_oldest<const J: usize>(
    jobs: &mut ArrayVec<Job, J>,
    counts: &mut Counts,
    runner: Runner,
) -> Option<Job>
    requires counted { AreCounted jobs.old.items counts.old }
    ensures job { result ≡ oldest runner jobs.old.items }
    ensures rest { jobs.new.items ≡ without_oldest runner jobs.old.items }
    ensures counted { AreCounted jobs.new.items counts.new }
    ensures room { IfSome result (λ j. length jobs.new.items < J) }
    ensures none { IfNone result (jobs.new.items ≡ jobs.old.items) }
{
    let most = most_of(jobs.as_slice(), counts, runner);
    let place = oldest_place(jobs.as_slice(), runner, most)?;
    let job = jobs.remove(place);
    let place = runner.slot();
    if place < RUNNERS {
        counts[place] -= 1;
    }
    Some(job)
}

/// Gives the oldest job of this runner, if it has one, this stamp and a place behind all others. Returns the old job.
pub(crate) fn stamp_anew<const J: usize>(
    jobs: &mut ArrayVec<Job, J>,
    counts: &mut Counts,
    runner: Runner,
    stamp: u64,
) -> Option<Job>
    requires counted { AreCounted jobs.old.items counts.old }
    ensures job { result ≡ oldest runner jobs.old.items }
    ensures jobs { jobs.new.items ≡ stamped_anew runner stamp jobs.old.items }
    ensures counted { AreCounted jobs.new.items counts.new }
{
    let job = take_oldest(jobs, counts, runner)?;
    push(jobs, counts, Job { stamp, ..job });
    Some(job)
}

/// The oldest job of this runner.
pub(crate) fn oldest(jobs: &[Job], counts: &Counts, runner: Runner) -> Option<Job>
    requires counted { AreCounted jobs.now counts.now }
    ensures { result ≡ oldest runner jobs.now }
{
    let place = oldest_place(jobs, runner, most_of(jobs, counts, runner))?;
    Some(jobs[place])
}

/// How many jobs of this runner are live.
pub(crate) fn count(jobs: &[Job], counts: &Counts, runner: Runner) -> usize
    requires counted { AreCounted jobs.now counts.now }
    ensures { result ≡ job_count runner jobs.now }
{
    count_jobs(jobs, runner, most_of(jobs, counts, runner))
}

// How many jobs of this runner there are at most.
#[inline(always)]
fn most_of(jobs: &[Job], counts: &Counts, runner: Runner) -> usize
    requires counted { AreCounted jobs.now counts.now }
    ensures { job_count runner jobs.now ≤ result }
{
    let place = runner.slot();
    if place < RUNNERS {
        counts[place]
    } else {
        jobs.len()
    }
}

// The place of the oldest job of this runner, which has at most `most` jobs.
#[inline(always)]
fn oldest_place(jobs: &[Job], runner: Runner, most: usize) -> Option<usize>
    requires most { job_count runner jobs.now ≤ most }
    ensures found { IfSome result (λ place. remove jobs.now place ≡ without_oldest runner jobs.now) }
    ensures within { IfSome result (λ place. place < length jobs.now) }
    ensures job { IfSome result (λ place. slice_get jobs.now place ≡ oldest runner jobs.now) }
    ensures none { IfNone result (without_oldest runner jobs.now ≡ jobs.now) }
    ensures absent { IfNone result (oldest runner jobs.now ≡ None) }
{
    let mut found = None;
    let mut left = most;
    let mut place = jobs.len();
    while place > 0 && left > 0 {
        place -= 1;
        if jobs[place].runner.is(runner) {
            found = Some(place);
            left -= 1;
        }
    }
    found
}

// How many jobs there are of this runner, which has at most `most` jobs.
fn count_jobs(jobs: &[Job], runner: Runner, most: usize) -> usize
    requires most { job_count runner jobs.now ≤ most }
    ensures { result ≡ job_count runner jobs.now }
{
    let mut count = 0;
    let mut place = jobs.len();
    while place > 0 && count < most {
        place -= 1;
        if jobs[place].runner.is(runner) {
            count += 1;
        }
    }
    count
}
