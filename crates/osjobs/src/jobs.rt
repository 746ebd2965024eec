//! The live jobs of a core.

ghost use Rattle.std.specs.Prelude.{◌≡◌, ℕ, ◌<◌, ◌≤◌, ◌^◌, [], true, false, if◌then◌else◌, length, nat_lt, option_map, List, Some, None, IsTrue, IfSome, IfNone};
ghost use Rattle.std.specs.{List.All, List.Contains, Int.bit_at};
ghost use Rattle.osbase.specs.{declared.histories.Job.Job as JobValue, declared.references.Runner.Runner as RunnerValue, Sets.slot_of, Interrupts.is_pending_among, Interrupts.oldest_entered, Interrupts.without_isr};
ghost use Rattle.osbase.specs.History.{Took, Printed, Noted, ResourceOccupied, ResourceReleased, InterruptsSuspended, InterruptsResumed, Done, giving_way_after, gives_way, job_count};
ghost use Rattle.osbudget.specs.Budget.{is_reached};
ghost use Rattle.oscript.specs.{declared.Op.Op as OpValue, Frames.action_at};
ghost use Rattle.osrunner.specs.Rows.{depth_in, events_in, frame_in, held_in, is_occupied, lock_used_in, row_in, used_in};
ghost use Rattle.osjobs.specs.Jobs.{Each, best_among, best_task_among, current_among, first_jobs, has_suspended_interrupts_in, is_plain, jobs_by, running_among};
ghost use Rattle.osjobs.specs.{Locks.is_overheld, Priorities.holds_any, Priorities.is_newest, Priorities.is_own_runner, OwnTasks.are_below, OwnTasks.is_own_task, OwnTasks.own_tasks, Ranking.is_awake_in};
ghost use Rattle.osjobs.specs.Queue.{AreHolders, dequeued, enqueued, entry_of, have_queues};
ghost use Rattle.osqueue.specs.{Ordered.ComesBefore, Ordered.IsBest, declared.ready.TheConstants.PRIORITIES};

use crate::current::{job_anew, job_joined, job_left, left_by};
use crate::live::{self, Counts};
use crate::own_tasks::OwnTasks;
use crate::{entered, locks, priorities};
use arrayvec::ArrayVec;
use osbase::{
    HeldResource, INTERRUPTS, ISRS, IsrRef, Item, Job, Mark, RESOURCES, RUNNERS, Runner, ServiceId,
    Status, TASKS, TaskEvents, TaskRef,
};
use oscript::{Action, Frame, Op};
use osevent::{with_awaited, with_cleared, with_none_set, with_set};
use osplan::Core;
use osqueue::words::{marked, unmarked};
use osqueue::{Reads, Ready, ReadyQueue};
use osrunner::Rows;
use std::marker::Model;

/// The live jobs of a core: up to `J` jobs of tasks, whose priorities are below `P`, and the jobs of ISRs. Also the
/// task in the running state, the runner that gives way, and the row of each task and ISR.
#[derive(Drop)]
pub struct Jobs<const P: usize, const J: usize> {
    // The core's tasks, so that a call knows their priorities.
    tasks: OwnTasks,
    // The live jobs of ISRs, in the order of their stamps, and how many each ISR has.
    isr_jobs: ArrayVec<Job, INTERRUPTS>,
    isr_counts: Counts,
    // The ISRs whose oldest job was entered, the one entered last in front.
    entered: ArrayVec<IsrRef, ISRS>,
    // The task in the running state, and the oldest of its jobs.
    current: Option<TaskRef>,
    current_job: Option<Job>,
    // The runner that gives way until the next item is taken.
    giving_way: Option<Runner>,
    rows: Rows,
    // A bit for each task whose oldest job holds a resource.
    holders: u32,
    // How many live jobs each task has.
    counts: Counts,
    // The live jobs of tasks, in the order of their stamps. What has no fixed size comes last, which makes proofs about
    // sizes short.
    jobs: ArrayVec<Job, J>,
    // The live jobs whose tasks do not wait, each with its task's configured priority.
    ready: ReadyQueue<P, J>,
}

impl<const P: usize, const J: usize> Model for Jobs<P, J> {
    ghost use Rattle.osjobs.specs.{Jobs.JobState, Live.IsKept};

    ghost Value = { JobState };

    ghost view = { λ s. record { tasks = s.tasks; jobs = s.jobs.items; current = s.current; giving_way = s.giving_way; rows = s.rows; isrs = record { live = s.isr_jobs.items; entered = s.entered.items } } };

    ghost invariant = { λ s. IsKept P J s.tasks s.jobs.items s.counts s.ready s.holders s.isr_jobs.items s.isr_counts s.rows s.current s.current_job };
}

impl<const P: usize, const J: usize> Jobs<P, J> {
    /// The core has no live job yet.
    pub fn new(core: &Core) -> Self
        requires priorities { have_queues P core.now.tasks ≡ true }
        requires marked { have_queues PRIORITIES core.now.tasks ≡ true }
        requires tasks { length core.now.tasks ≤ TASKS }
        ensures { result ≡ first_jobs core.now }
    {
        Jobs {
            tasks: OwnTasks::new(core),
            jobs: ArrayVec::new(),
            counts: [0; RUNNERS],
            ready: ReadyQueue::new(),
            holders: 0,
            isr_jobs: ArrayVec::new(),
            isr_counts: [0; RUNNERS],
            entered: ArrayVec::new(),
            current: None,
            current_job: None,
            giving_way: None,
            rows: Rows::new(),
        }
    }

    /// An item is taken: from now on nobody gives way (OSEK/VDX OS 2.2.3, section 13.2.3.4).
    pub fn take_item(&mut self, _item: &Item)
        ensures { self.new ≡ jobs_by [] (Took _item.now) 0 self.old }
    {
        self.giving_way = None;
    }

    /// The task is activated: a job of it begins, with a stamp greater than all others, and none of its events is set
    /// (OSEK/VDX OS 2.2.3, section 4.3 and 13.2.3.1).
    pub fn activate(&mut self, task: TaskRef, stamp: u64)
        requires room { length self.old.jobs < J }
        requires own { is_own_task self.old.tasks (Runner.Task task) ≡ true }
        requires newest { Each (λ (j : JobValue). j.stamp < stamp) self.old.jobs }
        ensures { self.new ≡ jobs_by [] (Printed (Mark.Activated task)) stamp self.old }
    {
        let runner = Runner::Task(task);
        let job = Job { runner, stamp };
        live::push(&mut self.jobs, &mut self.counts, job);
        self.current_job = job_joined(self.current, self.current_job, job);
        let events = self.rows.events(runner);
        self.rows.put_events(runner, with_none_set(events));
        let job = if_awake(&self.rows, job);
        enqueue(&self.tasks, &mut self.ready, job);
    }

    /// The oldest job of a task has ended, if there is one: it gives back all that it holds, resumes interrupts, and
    /// runs no longer.
    pub fn end(&mut self, task: TaskRef)
        ensures { self.new ≡ jobs_by [] (Printed (Mark.Terminated task)) 0 self.old }
    {
        let runner = Runner::Task(task);
        self.current_job = job_left(task, self.current, self.current_job);
        self.current = left_by(task, self.current);
        let job = live::take_oldest(&mut self.jobs, &mut self.counts, runner);
        dequeue(&self.tasks, &mut self.ready, &self.rows, job);
        self.rows.end(runner);
        self.holders = without_free(&self.rows, self.holders, runner);
    }

    /// An interrupt is accepted: a job of the ISR begins, and is pending (AUTOSAR SWS OS 4.x, section 7.6).
    pub fn accept(&mut self, isr: IsrRef, stamp: u64)
        requires room { length self.old.isrs.live < INTERRUPTS }
        ensures { self.new ≡ jobs_by [] (Printed (Mark.InterruptAccepted isr)) stamp self.old }
    {
        let runner = Runner::Isr(isr);
        live::push(
            &mut self.isr_jobs,
            &mut self.isr_counts,
            Job { runner, stamp },
        );
    }

    /// The oldest job of an ISR is entered: it runs, whatever ran before.
    pub fn enter_isr(&mut self, isr: IsrRef)
        requires room { length (without_isr isr self.old.isrs.entered) < ISRS }
        ensures { self.new ≡ jobs_by [] (Printed (Mark.IsrEntered isr)) 0 self.old }
    {
        entered::enter(&mut self.entered, isr);
    }

    /// The oldest job of an ISR has ended, if there is one: it gives back all that it holds, resumes interrupts, and
    /// runs no longer.
    pub fn end_isr(&mut self, isr: IsrRef)
        ensures { self.new ≡ jobs_by [] (Printed (Mark.IsrLeft isr)) 0 self.old }
    {
        entered::leave(&mut self.entered, isr);
        live::take_oldest(&mut self.isr_jobs, &mut self.isr_counts, Runner::Isr(isr));
        self.rows.end(Runner::Isr(isr));
    }

    /// The oldest job of a runner suspends interrupts once more (OSEK/VDX OS 2.2.3, section 13.3.2.4).
    pub fn suspend_interrupts(&mut self, runner: Runner)
        ensures { self.new ≡ jobs_by [] (Noted (InterruptsSuspended runner)) 0 self.old }
    {
        self.rows.suspend_interrupts(runner);
    }

    /// The oldest job of a runner resumes interrupts once (OSEK/VDX OS 2.2.3, section 13.3.2.3).
    pub fn resume_interrupts(&mut self, runner: Runner)
        ensures { self.new ≡ jobs_by [] (Noted (InterruptsResumed runner)) 0 self.old }
    {
        self.rows.resume_interrupts(runner);
    }

    /// A tick: the running job, if there is one, has used one tick more of its budget (AUTOSAR SWS OS 4.x,
    /// SWS_Os_00028). In the row of that job's task or ISR, one tick more is counted for the lock budget of each
    /// resource, held or not (the project's own).
    pub fn tick(&mut self)
        requires count { (r : RunnerValue) → used_in r self.old.rows < 2 ^ 63 }
        requires locks { (r : RunnerValue) → All (λ ticks. ticks < 2 ^ 63) (lock_used_in r self.old.rows) }
        ensures { (script : List OpValue) → self.new ≡ jobs_by script (Printed Mark.Tick) 0 self.old }
    {
        if let Some(job) = self.running() {
            self.rows.charge(job.runner);
        }
    }

    /// A task enters the running state.
    pub fn enter(&mut self, task: TaskRef)
        ensures { self.new ≡ jobs_by [] (Printed (Mark.PreTaskHook task)) 0 self.old }
    {
        let runner = Runner::Task(task);
        self.current_job = live::oldest(self.jobs.as_slice(), &self.counts, runner);
        self.current = Some(task);
    }

    /// A task leaves the running state.
    pub fn leave(&mut self, task: TaskRef)
        ensures { self.new ≡ jobs_by [] (Printed (Mark.PostTaskHook task)) 0 self.old }
    {
        self.current_job = job_left(task, self.current, self.current_job);
        self.current = left_by(task, self.current);
    }

    /// Events of a task are set (OSEK/VDX OS 2.2.3, section 13.5.3.1).
    pub fn set_events(&mut self, task: TaskRef, mask: u32)
        ensures { self.new ≡ jobs_by [] (Printed (Mark.EventSet task mask)) 0 self.old }
    {
        let events = self.rows.events(Runner::Task(task));
        self.rows
            .put_events(Runner::Task(task), with_set(events, mask));
    }

    /// Events of a task are cleared (OSEK/VDX OS 2.2.3, section 13.5.3.2).
    pub fn clear_events(&mut self, task: TaskRef, mask: u32)
        ensures { self.new ≡ jobs_by [] (Printed (Mark.EventCleared task mask)) 0 self.old }
    {
        let events = self.rows.events(Runner::Task(task));
        self.rows
            .put_events(Runner::Task(task), with_cleared(events, mask));
    }

    /// A task waits for one of the events in `mask`. Once the task is released, its job has its whole budget (OSEK/VDX
    /// OS 2.2.3, section 13.5.3.4; AUTOSAR SWS OS 4.x, SWS_Os_00473).
    pub fn wait(&mut self, task: TaskRef, mask: u32)
        requires own { is_own_task self.old.tasks (Runner.Task task) ≡ true }
        requires single { job_count (Runner.Task task) self.old.jobs ≤ 1 }
        ensures { self.new ≡ jobs_by [] (Printed (Mark.EventAwaited task mask)) 0 self.old }
    {
        let runner = Runner::Task(task);
        let job = live::oldest(self.jobs.as_slice(), &self.counts, runner);
        dequeue(&self.tasks, &mut self.ready, &self.rows, job);
        self.rows.wait(runner, mask);
    }

    /// A task is released from waiting: its oldest job gets a stamp greater than all others, and a place behind them
    /// (OSEK/VDX OS 2.2.3, section 4.2.1 and 4.5).
    pub fn release(&mut self, task: TaskRef, stamp: u64)
        requires own { is_own_task self.old.tasks (Runner.Task task) ≡ true }
        requires single { job_count (Runner.Task task) self.old.jobs ≤ 1 }
        requires newest { Each (λ (j : JobValue). j.stamp < stamp) self.old.jobs }
        ensures { self.new ≡ jobs_by [] (Printed (Mark.Released task)) stamp self.old }
    {
        let runner = Runner::Task(task);
        let job = live::stamp_anew(&mut self.jobs, &mut self.counts, runner, stamp);
        self.current_job = job_anew(
            self.jobs.as_slice(),
            &self.counts,
            task,
            self.current,
            self.current_job,
        );
        dequeue(&self.tasks, &mut self.ready, &self.rows, job);
        let events = self.rows.events(runner);
        self.rows.put_events(runner, with_awaited(events, None));
        enqueue(&self.tasks, &mut self.ready, stamped(job, stamp));
    }

    /// A mark is printed that begins no job, ends none and changes no row. No task enters or leaves the running state,
    /// and no ISR is entered. If the mark says that Schedule returned E_OK, the runner that called it gives way.
    pub fn print(&mut self, mark: &Mark)
        requires { IsTrue (is_plain mark.now) }
        ensures { self.new ≡ jobs_by [] (Printed mark.now) 0 self.old }
    {
        self.giving_way = giving_way_by(mark, self.giving_way);
    }

    /// The oldest job of a runner takes a resource that is free (OSEK/VDX OS 2.2.3, section 8.2).
    pub fn raise(&mut self, runner: Runner, resource: HeldResource)
        requires place { resource.index < RESOURCES }
        requires free { is_occupied resource.index self.old.rows ≡ false }
        ensures { self.new ≡ jobs_by [] (Noted (ResourceOccupied runner resource)) 0 self.old }
    {
        self.rows.raise(runner, resource);
        self.holders = with_holder(self.holders, runner);
    }

    /// The oldest job of a runner gives the newest of its resources back (OSEK/VDX OS 2.2.3, section 8.2).
    pub fn lower(&mut self, runner: Runner, _index: u8)
        requires newest { IsTrue (is_newest _index (held_in runner self.old.rows)) }
        ensures { self.new ≡ jobs_by [] (Noted (ResourceReleased runner _index)) 0 self.old }
    {
        self.rows.lower(runner);
        self.holders = without_free(&self.rows, self.holders, runner);
    }

    /// An operation of the oldest job of a runner is done, with this status and value; the script is the runner's.
    pub fn complete(&mut self, script: &[Op], runner: Runner, status: Status, value: Option<i64>)
        ensures { self.new ≡ jobs_by script.now (Noted (Done runner status value)) 0 self.old }
    {
        self.rows.complete(script, runner, status, value);
    }

    /// The task in the running state.
    pub fn current(&self) -> Option<TaskRef>
        ensures { result ≡ self.now.current }
    {
        self.current
    }

    /// The running job: that of the ISR that was entered last, or else the oldest live job of the task in the running
    /// state (OSEK/VDX OS 2.2.3, section 4.2 and 6).
    #[inline(always)]
    pub fn running(&self) -> Option<Job>
        ensures { result ≡ running_among self.now }
    {
        match self.entered_job() {
            Some(job) => Some(job),
            None => self.current_job,
        }
    }

    // The oldest job of the ISR that was entered last.
    fn entered_job(&self) -> Option<Job>
        ensures { result ≡ oldest_entered self.now.isrs.entered self.now.isrs.live }
    {
        let isr = self.entered.as_slice().first()?;
        live::oldest(
            self.isr_jobs.as_slice(),
            &self.isr_counts,
            Runner::Isr(*isr),
        )
    }

    /// How many live jobs the runner has, if it is one of the core's tasks; 0 for any other runner. This needs no
    /// search: the number is kept for each task.
    pub fn count(&self, runner: Runner) -> usize
        ensures { result ≡ job_count runner self.now.jobs }
    {
        if self.tasks.has(runner) {
            return self.counts[runner.slot()];
        }
        0
    }

    /// Whether a job of this ISR is pending: more of its jobs are live than were entered (AUTOSAR SWS OS 4.x, section
    /// 7.6).
    pub fn is_pending(&self, isr: IsrRef) -> bool
        ensures { result ≡ is_pending_among isr self.now.isrs.entered self.now.isrs.live }
    {
        let started = entered::count(self.entered.as_slice(), isr);
        let live = live::count(self.isr_jobs.as_slice(), &self.isr_counts, Runner::Isr(isr));
        started < live
    }

    /// The job to run: the running job, if it has suspended interrupts; else the oldest ISR job of the greatest level;
    /// else, of the task jobs that may run, the oldest with the greatest current priority (OSEK/VDX OS 2.2.3, section
    /// 4.4, 4.5, 6 and 13.3.2.4). The caller passes the running job, so that no second search for it is needed.
    pub fn dispatch(&mut self, core: &Core, running: Option<Job>) -> Option<Job>
        requires tasks { self.old.tasks ≡ own_tasks core.now }
        requires running { running ≡ running_among self.old }
        requires runner { IfSome running (λ j. IsTrue (is_own_runner core.now j.runner)) }
        requires isrs { All (λ j. IsTrue (is_own_runner core.now j.runner)) self.old.isrs.live }
        ensures best { result ≡ best_among core.now self.old }
        ensures own { IfSome result (λ j. IsTrue (is_own_runner core.now j.runner)) }
        ensures keeps { self.new ≡ self.old }
    {
        if self.has_suspended(running) {
            return running;
        }
        match priorities::first_of_level(core, self.isr_jobs.as_slice()) {
            Some(job) => Some(job),
            None => self.best_task(core, running),
        }
    }

    // Whether there is a job, and it has suspended interrupts.
    fn has_suspended(&self, job: Option<Job>) -> bool
        ensures { result ≡ has_suspended_interrupts_in self.now.rows job }
    {
        match job {
            Some(job) => self.rows.has_suspended_interrupts(job.runner),
            None => false,
        }
    }

    // Of the task jobs that may run, the oldest with the greatest current priority.
    fn best_task(&self, core: &Core, current: Option<Job>) -> Option<Job>
        requires tasks { self.now.tasks ≡ own_tasks core.now }
        requires current { current ≡ current_among self.now }
        ensures best { result ≡ best_task_among core.now self.now }
        ensures own { IfSome result (λ j. IsTrue (is_own_runner core.now j.runner)) }
    {
        let raised = priorities::raised_of(core, self.giving_way, current);
        let first = look_first(&self.ready);
        priorities::best_of(
            core,
            &self.rows,
            raised,
            first,
            self.holders,
            self.jobs.as_slice(),
            &self.counts,
        )
    }

    /// Whether the oldest job of a runner has suspended interrupts (OSEK/VDX OS 2.2.3, section 13.3.2.4).
    pub fn has_suspended_interrupts(&self, runner: Runner) -> bool
        ensures { result ≡ nat_lt 0 (depth_in runner self.now.rows) }
    {
        self.rows.has_suspended_interrupts(runner)
    }

    /// Whether the oldest job of a runner has reached this budget, in ticks; a budget of 0 is none (AUTOSAR SWS OS 4.x,
    /// SWS_Os_00064).
    pub fn is_spent(&self, runner: Runner, budget: u32) -> bool
        ensures { result ≡ is_reached budget (used_in runner self.now.rows) }
    {
        self.rows.is_spent(runner, budget)
    }

    /// Whether the oldest job of a runner has reached the lock budget of a resource that it holds, in ticks since it
    /// took the resource (the project's own).
    pub fn is_overheld(&self, core: &Core, runner: Runner) -> bool
        ensures { result ≡ is_overheld core.now (row_in runner self.now.rows) }
    {
        locks::is_overheld(core, &self.rows, runner)
    }

    /// Whether a job holds the resource of this index.
    pub fn is_occupied(&self, index: u8) -> bool
        requires { index < RESOURCES }
        ensures { result ≡ is_occupied index self.now.rows }
    {
        self.rows.is_occupied(index)
    }

    /// Whether the resource of this index is the newest that the oldest job of a runner holds.
    pub fn is_newest(&self, runner: Runner, index: u8) -> bool
        ensures { result ≡ is_newest index (held_in runner self.now.rows) }
    {
        match self.rows.newest(runner) {
            Some(newest) => newest.index == index,
            None => false,
        }
    }

    /// Whether the oldest job of a runner holds a resource.
    pub fn holds_any(&self, runner: Runner) -> bool
        ensures { result ≡ holds_any (held_in runner self.now.rows) }
    {
        !self.rows.is_free(runner)
    }

    /// The events of a runner's task (OSEK/VDX OS 2.2.3, section 7).
    pub fn events(&self, runner: Runner) -> TaskEvents
        ensures { result ≡ events_in runner self.now.rows }
    {
        self.rows.events(runner)
    }

    /// Where in its script the oldest job of a runner is, with the runner's variables.
    pub fn frame(&self, runner: Runner) -> Frame
        ensures { result ≡ frame_in runner self.now.rows }
    {
        self.rows.frame(runner)
    }

    /// What the oldest job of a runner does next; the script is the runner's.
    pub fn next_action(&self, script: &[Op], runner: Runner) -> Action
        ensures { result ≡ action_at script.now (frame_in runner self.now.rows) }
    {
        self.rows.next_action(script, runner)
    }
}

// Whether a service that returned with this status makes its caller give way (OSEK/VDX OS 2.2.3, section 13.2.3.4).
fn gives_way(service: ServiceId, status: Status) -> bool
    ensures { result ≡ gives_way service status }
{
    matches!((service, status), (ServiceId::Schedule, Status::EOk))
}

// Who gives way once this mark is printed.
fn giving_way_by(mark: &Mark, giving_way: Option<Runner>) -> Option<Runner>
    ensures { result ≡ giving_way_after (Printed mark.now) giving_way }
{
    if let Mark::ServiceReturned {
        runner,
        service,
        status,
    } = mark
    {
        if gives_way(*service, *status) {
            return Some(*runner);
        }
    }
    giving_way
}

// The job, if its task does not wait.
fn if_awake(rows: &Rows, job: Job) -> Option<Job>
    ensures { result ≡ (if is_awake_in rows.now job then Some job else None) }
{
    if rows.is_waiting(job.runner) {
        None
    } else {
        Some(job)
    }
}

// The job, with this stamp instead of its own.
fn stamped(job: Option<Job>, stamp: u64) -> Option<Job>
    ensures { result ≡ option_map (λ (j : JobValue). record j { stamp = stamp }) job }
{
    let job = job?;
    Some(Job { stamp, ..job })
}

// Puts a job, if there is one, into the queue, behind all others of its task's priority.
fn enqueue<const P: usize, const J: usize>(
    tasks: &OwnTasks,
    ready: &mut ReadyQueue<P, J>,
    job: Option<Job>,
)
    requires room { IfSome job (λ j. length ready.old < J) }
    requires own { IfSome job (λ j. is_own_task tasks.now j.runner ≡ true) }
    requires newest { IfSome job (λ j. All (ComesBefore (entry_of tasks.now j)) ready.old) }
    requires low { are_below P tasks.now.priorities ≡ true }
    requires narrow { are_below PRIORITIES tasks.now.priorities ≡ true }
    ensures { ready.new ≡ enqueued tasks.now job ready.old }
{
    if let Some(job) = job {
        let mut reads = Reads::new();
        ready.push_back(ready_of(tasks, job), &mut reads);
    }
}

// Takes a job, if there is one and its task does not wait, out of the queue.
fn dequeue<const P: usize, const J: usize>(
    tasks: &OwnTasks,
    ready: &mut ReadyQueue<P, J>,
    rows: &Rows,
    job: Option<Job>,
)
    requires there { IfSome job (λ j. is_awake_in rows.now j ≡ true → Contains ready.old (entry_of tasks.now j)) }
    ensures { ready.new ≡ dequeued tasks.now (is_awake_in rows.now) job ready.old }
{
    if let Some(job) = job {
        if priorities::is_awake(rows, job) {
            let mut reads = Reads::new();
            ready.remove(ready_of(tasks, job), &mut reads);
        }
    }
}

// A job of one of the core's tasks with that task's priority.
fn ready_of(tasks: &OwnTasks, job: Job) -> Ready
    ensures { result ≡ entry_of tasks.now job }
{
    Ready {
        priority: tasks.priority(job.runner),
        job,
    }
}

// The job that is first in the queue.
fn look_first<const P: usize, const J: usize>(ready: &ReadyQueue<P, J>) -> Option<Ready>
    ensures best { IfSome result (λ x. IsBest x ready.now) }
    ensures none { IfNone result (ready.now ≡ []) }
{
    let mut reads = Reads::new();
    ready.best(&mut reads)
}

// The word `holders`, which has a bit for each task that holds a resource, with the bit of this runner set if it is a
// task.
fn with_holder(holders: u32, runner: Runner) -> u32
    ensures here { slot_of runner < TASKS → bit_at result (slot_of runner) ≡ 1 }
    ensures others { (k : ℕ) → bit_at holders k ≡ 1 → bit_at result k ≡ 1 }
{
    let place = runner.slot();
    if place < TASKS {
        marked(holders, place as u8)
    } else {
        holders
    }
}

// The word `holders`, which has a bit for each task that holds a resource, without the bit of this runner if it is a
// task and holds none.
fn without_free(rows: &Rows, holders: u32, runner: Runner) -> u32
    requires { AreHolders rows.now holders }
    ensures { AreHolders rows.now result }
{
    let place = runner.slot();
    if place < TASKS && rows.is_free(runner) {
        unmarked(holders, place as u8)
    } else {
        holders
    }
}
