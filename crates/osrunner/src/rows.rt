//! What belongs to each task and ISR of a core, as one row for each.

ghost use Rattle.std.specs.Prelude.{◌≡◌, ◌==◌, ◌<◌, ◌^◌, drop, false, length, nat_lt, replicate, slice_get, slice_index_or};
ghost use Rattle.std.specs.List.{All};
ghost use Rattle.osbase.specs.{History.greatest_ceiling, History.is_waiting, Interrupts.deeper, Interrupts.shallower};
ghost use Rattle.osbudget.specs.Budget.{is_reached};
ghost use Rattle.oscript.specs.Frames.{action_at, completed, rewound};
ghost use Rattle.oscript.specs.Runners.{charged, ended, first_row, holding, waiting_for};
ghost use Rattle.osrunner.specs.Rows.{depth_in, events_in, frame_in, held_in, is_occupied, lock_used_in, row_at, used_in, with_row, with_row_at};

use arrayvec::ArrayVec;
use osbase::{HeldResource, RESOURCES, RUNNERS, Runner, Status, TaskEvents};
use osbudget::{LockUsed, Used};
use oscript::{Action, Frame, Op};
use osevent::{no_events, with_awaited};
use osres::{Held, Suspensions};
use std::marker::Model;

// What belongs to one task or ISR.
#[derive(Drop)]
struct RunnerRow {
    held: Held,
    events: TaskEvents,
    frame: Frame,
    suspensions: Suspensions,
    used: Used,
    lock_used: LockUsed,
}

impl Model for RunnerRow {
    ghost use Rattle.oscript.specs.Runners.{Row};

    ghost Value = { Row };

    ghost view = { λ row. record { held = row.held; events = row.events; frame = row.frame; depth = row.suspensions; used = row.used; lock_used = row.lock_used } };
}

impl RunnerRow {
    // The row before the first job.
    fn new() -> Self
        ensures { result ≡ first_row }
    {
        RunnerRow {
            held: Held::new(),
            events: no_events(),
            frame: Frame::new(),
            suspensions: Suspensions::new(),
            used: Used::new(),
            lock_used: LockUsed::new(),
        }
    }
}

impl Default for RunnerRow {
    fn default() -> Self
        ensures { result ≡ first_row }
    {
        RunnerRow::new()
    }
}

/// The rows of a core's tasks and ISRs, by their places. No resource is held twice. A call for a runner that has no row
/// changes nothing.
#[derive(Drop)]
pub struct Rows {
    rows: ArrayVec<RunnerRow, RUNNERS>,
    // Whether a job holds each resource, by the resource's index. It saves a search through all rows.
    occupied: [bool; RESOURCES],
}

impl Model for Rows {
    ghost use Rattle.std.specs.Prelude.{List};
    ghost use Rattle.oscript.specs.Runners.{Row};
    ghost use Rattle.osrunner.specs.Rows.{IsFlagged};

    ghost Value = { List Row };

    ghost view = { λ r. r.rows.items };

    ghost invariant = { λ r. IsFlagged r.rows.items r.occupied };
}

impl Rows {
    /// The rows before any task or ISR had a job.
    pub fn new() -> Self
        ensures { result ≡ replicate RUNNERS first_row }
    {
        let mut rows = ArrayVec::new();
        for _place in 0..RUNNERS {
            rows.push(RunnerRow::new());
        }
        Rows {
            rows,
            occupied: [false; RESOURCES],
        }
    }

    /// The runner's oldest job takes a resource that is free (OSEK/VDX OS 2.2.3, section 8.2). The ticks of the
    /// resource's lock budget count from zero (the project's own).
    pub fn raise(&mut self, runner: Runner, resource: HeldResource)
        requires resource { resource.index < RESOURCES }
        requires free { is_occupied resource.index self.old ≡ false }
        ensures { self.new ≡ with_row runner (holding resource) self.old }
    {
        let place = runner.slot();
        if place >= self.rows.len() {
            return;
        }
        raise_at(&mut self.rows, place, resource);
        self.occupied[usize::from(resource.index)] = true;
    }

    /// If the runner's oldest job holds a resource, it gives back the newest one, which is returned (OSEK/VDX OS 2.2.3,
    /// section 8.2).
    pub fn lower(&mut self, runner: Runner) -> Option<HeldResource>
        ensures newest { result ≡ slice_get (held_in runner self.old) 0 }
        ensures rest { self.new ≡ with_row runner (λ row. record row { held = drop 1 row.held }) self.old }
    {
        let resource = lower_at(&mut self.rows, runner.slot())?;
        self.occupied[usize::from(resource.index)] = false;
        Some(resource)
    }

    /// The runner's oldest job ends, gives back all its resources and resumes interrupts. The runner's next job begins
    /// at the first operation, with its whole budget (AUTOSAR SWS OS 4.x, SWS_Os_00070, for the resources; SWS_Os_00473
    /// and, of an ISR, SWS_Os_00474, for the budget).
    pub fn end(&mut self, runner: Runner)
        ensures { self.new ≡ with_row runner ended self.old }
    {
        while !self.is_free(runner) {
            self.lower(runner);
        }
        rewind_at(&mut self.rows, runner.slot());
    }

    /// The runner's task waits for one of the events in `mask`. Once the task is released, its job has its whole budget
    /// (OSEK/VDX OS 2.2.3, section 13.5.3.4; AUTOSAR SWS OS 4.x, SWS_Os_00473).
    pub fn wait(&mut self, runner: Runner, mask: u32)
        ensures { self.new ≡ with_row runner (waiting_for mask) self.old }
    {
        wait_at(&mut self.rows, runner.slot(), mask);
    }

    /// The runner's oldest job suspends interrupts once more (OSEK/VDX OS 2.2.3, section 13.3.2.4).
    pub fn suspend_interrupts(&mut self, runner: Runner)
        ensures { self.new ≡ with_row runner (λ row. record row { depth = deeper row.depth }) self.old }
    {
        suspend_interrupts_at(&mut self.rows, runner.slot());
    }

    /// The runner's oldest job resumes interrupts once (OSEK/VDX OS 2.2.3, section 13.3.2.3).
    pub fn resume_interrupts(&mut self, runner: Runner)
        ensures { self.new ≡ with_row runner (λ row. record row { depth = shallower row.depth }) self.old }
    {
        resume_interrupts_at(&mut self.rows, runner.slot());
    }

    /// The runner's oldest job has used one tick more of its budget (AUTOSAR SWS OS 4.x, SWS_Os_00028). One tick more
    /// is counted for the lock budget of each resource, held or not (the project's own).
    pub fn charge(&mut self, runner: Runner)
        requires count { used_in runner self.old < 2 ^ 63 }
        requires locks { All (λ ticks. ticks < 2 ^ 63) (lock_used_in runner self.old) }
        ensures { self.new ≡ with_row runner charged self.old }
    {
        charge_at(&mut self.rows, runner.slot());
    }

    /// The runner's task has these events now (OSEK/VDX OS 2.2.3, section 7).
    pub fn put_events(&mut self, runner: Runner, events: TaskEvents)
        ensures { self.new ≡ with_row runner (λ row. record row { events = events }) self.old }
    {
        put_events_at(&mut self.rows, runner.slot(), events);
    }

    /// An operation of the runner's oldest job is done, with this status and value; the script is the runner's.
    pub fn complete(&mut self, script: &[Op], runner: Runner, status: Status, value: Option<i64>)
        ensures { self.new ≡ with_row runner (λ row. record row { frame = completed script.now row.frame status value }) self.old }
    {
        complete_at(&mut self.rows, runner.slot(), script, status, value);
    }

    /// Whether the runner's oldest job has suspended interrupts (OSEK/VDX OS 2.2.3, section 13.3.2.4).
    #[inline(always)]
    pub fn has_suspended_interrupts(&self, runner: Runner) -> bool
        ensures { result ≡ nat_lt 0 (depth_in runner self.now) }
    {
        match self.rows.as_slice().get(runner.slot()) {
            Some(row) => row.suspensions.has_suspended_interrupts(),
            None => false,
        }
    }

    /// Whether the runner's oldest job has reached this budget in ticks; a budget of 0 is none (AUTOSAR SWS OS 4.x,
    /// SWS_Os_00064).
    pub fn is_spent(&self, runner: Runner, budget: u32) -> bool
        ensures { result ≡ is_reached budget (used_in runner self.now) }
    {
        match self.rows.as_slice().get(runner.slot()) {
            Some(row) => row.used.decide(budget),
            None => Used::new().decide(budget),
        }
    }

    /// Whether the ticks of the runner's jobs, since one of them last took the resource of this index, have reached the
    /// lock budget `lock`; 0 is none (the project's own).
    pub fn is_lock_spent(&self, runner: Runner, index: u8, lock: u32) -> bool
        ensures { result ≡ is_reached lock (slice_index_or (lock_used_in runner self.now) index 0) }
    {
        match self.rows.as_slice().get(runner.slot()) {
            Some(row) => row.lock_used.decide(index, lock),
            None => LockUsed::new().decide(index, lock),
        }
    }

    /// The resources that the runner's oldest job holds, the newest first.
    pub fn held(&self, runner: Runner) -> &[HeldResource]
        ensures { result.now ≡ held_in runner self.now }
    {
        match self.rows.as_slice().get(runner.slot()) {
            Some(row) => row.held.as_slice(),
            None => &[],
        }
    }

    /// Whether a job holds the resource of this index.
    pub fn is_occupied(&self, index: u8) -> bool
        requires resource { index < RESOURCES }
        ensures { result ≡ is_occupied index self.now }
    {
        self.occupied[usize::from(index)]
    }

    /// The newest resource that the runner's oldest job holds, if it holds one.
    pub fn newest(&self, runner: Runner) -> Option<HeldResource>
        ensures { result ≡ slice_get (held_in runner self.now) 0 }
    {
        let row = self.rows.as_slice().get(runner.slot())?;
        row.held.newest()
    }

    /// Whether the runner's oldest job holds no resource.
    pub fn is_free(&self, runner: Runner) -> bool
        ensures { result ≡ (length (held_in runner self.now) == 0) }
    {
        match self.rows.as_slice().get(runner.slot()) {
            Some(row) => row.held.is_empty(),
            None => true,
        }
    }

    /// The greatest ceiling of the resources that the runner's oldest job holds; 0 if it holds none (OSEK/VDX OS 2.2.3,
    /// section 8.5).
    #[inline(always)]
    pub fn ceiling(&self, runner: Runner) -> u8
        ensures { result ≡ greatest_ceiling (held_in runner self.now) }
    {
        match self.rows.as_slice().get(runner.slot()) {
            Some(row) => row.held.ceiling(),
            None => 0,
        }
    }

    /// Whether the runner's task waits (OSEK/VDX OS 2.2.3, section 4.2.1).
    #[inline(always)]
    pub fn is_waiting(&self, runner: Runner) -> bool
        ensures { result ≡ is_waiting (events_in runner self.now) }
    {
        match self.rows.as_slice().get(runner.slot()) {
            Some(row) => row.events.awaited.is_some(),
            None => false,
        }
    }

    /// The events of the runner's task (OSEK/VDX OS 2.2.3, section 7).
    pub fn events(&self, runner: Runner) -> TaskEvents
        ensures { result ≡ events_in runner self.now }
    {
        match self.rows.as_slice().get(runner.slot()) {
            Some(row) => row.events,
            None => no_events(),
        }
    }

    /// Where the runner's oldest job is in its script, with the runner's variables.
    pub fn frame(&self, runner: Runner) -> Frame
        ensures { result ≡ frame_in runner self.now }
    {
        match self.rows.as_slice().get(runner.slot()) {
            Some(row) => row.frame,
            None => Frame::new(),
        }
    }

    /// What the runner's oldest job does next; the script is the runner's.
    pub fn next_action(&self, script: &[Op], runner: Runner) -> Action
        ensures { result ≡ action_at script.now (frame_in runner self.now) }
    {
        match self.rows.as_slice().get(runner.slot()) {
            Some(row) => oscript::next(script, &row.frame),
            None => oscript::next(script, &Frame::new()),
        }
    }
}

impl Default for Rows {
    fn default() -> Self
        ensures { result ≡ replicate RUNNERS first_row }
    {
        Rows::new()
    }
}

// The job at this place takes the resource, and the ticks of the resource's lock budget count from zero.
fn raise_at(rows: &mut ArrayVec<RunnerRow, RUNNERS>, place: usize, resource: HeldResource)
    requires place { place < length rows.old.items }
    requires room { length (row_at place rows.old.items).held < RESOURCES }
    requires index { resource.index < RESOURCES }
    ensures { rows.new.items ≡ with_row_at place (holding resource) rows.old.items }
{
    let row = &mut rows.as_mut_slice()[place];
    row.held.raise(resource);
    row.lock_used.restart(resource.index);
}

// If the job at this place holds a resource, it gives back the newest one, which is returned.
fn lower_at(rows: &mut ArrayVec<RunnerRow, RUNNERS>, place: usize) -> Option<HeldResource>
    ensures newest { result ≡ slice_get (row_at place rows.old.items).held 0 }
    ensures rest { rows.new.items ≡ with_row_at place (λ row. record row { held = drop 1 row.held }) rows.old.items }
{
    let rows = rows.as_mut_slice();
    if place >= rows.len() {
        return None;
    }
    let row = &mut rows[place];
    row.held.lower()
}

// The job at this place has ended: the next one begins at the first operation, with interrupts resumed and its whole
// budget. The resources are not given back here.
fn rewind_at(rows: &mut ArrayVec<RunnerRow, RUNNERS>, place: usize)
    ensures { rows.new.items ≡ with_row_at place (λ row. record row { frame = rewound row.frame; depth = 0; used = 0 }) rows.old.items }
{
    let rows = rows.as_mut_slice();
    if place < rows.len() {
        let row = &mut rows[place];
        row.frame.rewind();
        row.suspensions.give_back();
        row.used.reset();
    }
}

// The task at this place waits for one of the events in `mask`, and has its whole budget afterwards.
fn wait_at(rows: &mut ArrayVec<RunnerRow, RUNNERS>, place: usize, mask: u32)
    ensures { rows.new.items ≡ with_row_at place (waiting_for mask) rows.old.items }
{
    let rows = rows.as_mut_slice();
    if place < rows.len() {
        let row = &mut rows[place];
        row.events = with_awaited(row.events, Some(mask));
        row.used.reset();
    }
}

// The job at this place suspends interrupts once more.
fn suspend_interrupts_at(rows: &mut ArrayVec<RunnerRow, RUNNERS>, place: usize)
    ensures { rows.new.items ≡ with_row_at place (λ row. record row { depth = deeper row.depth }) rows.old.items }
{
    let rows = rows.as_mut_slice();
    if place < rows.len() {
        let row = &mut rows[place];
        row.suspensions.suspend_interrupts();
    }
}

// The job at this place resumes interrupts once.
fn resume_interrupts_at(rows: &mut ArrayVec<RunnerRow, RUNNERS>, place: usize)
    ensures { rows.new.items ≡ with_row_at place (λ row. record row { depth = shallower row.depth }) rows.old.items }
{
    let rows = rows.as_mut_slice();
    if place < rows.len() {
        let row = &mut rows[place];
        row.suspensions.resume_interrupts();
    }
}

// The job at this place has used one tick more; one more is counted for the lock budget of each resource, held or not.
fn charge_at(rows: &mut ArrayVec<RunnerRow, RUNNERS>, place: usize)
    requires count { (row_at place rows.old.items).used < 2 ^ 63 }
    requires locks { All (λ ticks. ticks < 2 ^ 63) (row_at place rows.old.items).lock_used }
    ensures { rows.new.items ≡ with_row_at place charged rows.old.items }
{
    let rows = rows.as_mut_slice();
    if place < rows.len() {
        let row = &mut rows[place];
        row.used.charge();
        row.lock_used.charge();
    }
}

// The task at this place has these events now.
fn put_events_at(rows: &mut ArrayVec<RunnerRow, RUNNERS>, place: usize, events: TaskEvents)
    ensures { rows.new.items ≡ with_row_at place (λ row. record row { events = events }) rows.old.items }
{
    let rows = rows.as_mut_slice();
    if place < rows.len() {
        let row = &mut rows[place];
        row.events = events;
    }
}

// An operation of the job at this place is done, with this status and value; the script is that job's.
fn complete_at(
    rows: &mut ArrayVec<RunnerRow, RUNNERS>,
    place: usize,
    script: &[Op],
    status: Status,
    value: Option<i64>,
)
    ensures { rows.new.items ≡ with_row_at place (λ row. record row { frame = completed script.now row.frame status value }) rows.old.items }
{
    let rows = rows.as_mut_slice();
    if place < rows.len() {
        let row = &mut rows[place];
        oscript::complete(script, &mut row.frame, status, value);
    }
}
