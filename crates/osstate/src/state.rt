//! The state of a core.

ghost use Rattle.std.specs.Prelude.{◌≡◌, ◌==◌, ◌||◌, ◌<◌, ◌≤◌, ◌^◌, nat_lt, IsTrue, IsSome, IfSome, false, true, length, nat_le, Some, slice_get, slice_index, sum_by, []};
ghost use Rattle.std.specs.List.{list_all};
ghost use Rattle.osbase.specs.{declared.limits.TheConstants.CORES, Interrupts.is_pending_among, Phases.is_before_live, Phases.is_past_first_gate, Sets.has_core};
ghost use Rattle.osbase.specs.History.{Took, Printed, Noted, Opened, Queued, ResourceOccupied, ResourceReleased, InterruptsSuspended, InterruptsResumed, WentDown, Done, closed_by, job_count, phase_after, same_core};
ghost use Rattle.osplan.specs.{declared.plans.Resource.Resource as ResourceValue, declared.plans.Task.Task as TaskValue, Clocked.are_clocks_within, Objects.is_own_object, Stimuli.knows_stimulus, View.core_of, View.is_configured, View.view_of};
ghost use Rattle.osjobs.specs.{Jobs.is_current, Jobs.is_plain, Locks.is_overheld};
ghost use Rattle.osrunner.specs.Rows.{depth_in, events_in, frame_in, held_in, is_occupied, row_in, used_in};
ghost use Rattle.osbudget.specs.Budget.{is_reached};
ghost use Rattle.osjobs.specs.Priorities.{holds_any, is_extended, is_newest, is_own_runner, static_priority};
ghost use Rattle.osprogress.specs.{Border.is_grant_known, Border.is_posted, Border.is_sender_known, Progress.Joins};
ghost use Rattle.osstate.specs.{Does.HasRoom, State.state_of, Steps.next_letter, Steps.state_after};
ghost use Rattle.osstate.specs.Queries.{best_in, is_at_limit_in, is_suspended, is_suspended_in, next_action_in, running_in};
ghost use Rattle.osstate.specs.Readings.{best_job, budget_of, has_suspended_interrupts, is_this_core, is_pending, next_start, resource_of, script_of};
ghost use Rattle.osstate.specs.Sound.{activation_limit, interrupt_limit, is_action_known, is_agreed, is_awaited_known, is_first_gate};

mod alarms;
mod spins;
mod tables;

use crate::scripts::{budget_of, script_of};
use arrayvec::ArrayVec;
use osbase::{
    Agreement, CORES, CoreId, CoreMode, CoreSet, Course, HeldResource, IsrRef, Item, Job, Letter,
    Mark, Message, Object, OpenCall, Phase, RESOURCES, ResourceRef, Runner, Sent, Status, Stimulus,
    TaskEvents, TaskRef,
};
use osclock::Clocks;
use oscript::{Action, Frame};
use osgot::Grants;
use osjobs::Jobs;
use osplan::{Config, Core, Protection, Task, own};
use osprogress::Progress;
use osprogress::border::{self, Border};
use ostable::Tables;
use std::marker::Model;

/// The whole state of a core, with room for `J` live jobs and `OUT` letters; priorities and ceilings are below `P`.
#[derive(Drop)]
pub struct CoreState<'a, const P: usize, const J: usize, const OUT: usize> {
    config: &'a Config,
    // The core's own part of the configuration, so that no step looks it up.
    core: &'a Core,
    progress: Progress,
    clocks: Clocks,
    tables: Tables,
    // What has no fixed size comes last, which makes proofs about sizes short.
    jobs: Jobs<P, J>,
    border: Border<OUT>,
}

impl<'a, const P: usize, const J: usize, const OUT: usize> Model for CoreState<'a, P, J, OUT> {
    ghost use Rattle.osstate.specs.State.{KernelState};

    ghost Value = { KernelState };

    ghost use Rattle.osstate.specs.{Steps.state_from, Sound.IsSound};

    ghost view = { λ s. state_from s.config.now s.core.now s.progress s.jobs s.clocks s.tables (record { open_call = s.border.open_call; outbox = s.border.outbox.items; queued = s.border.queued; received = s.border.received; spins = s.border.spins }) };

    ghost invariant = { λ s. IsSound P J (state_from s.config.now s.core.now s.progress s.jobs s.clocks s.tables (record { open_call = s.border.open_call; outbox = s.border.outbox.items; queued = s.border.queued; received = s.border.received; spins = s.border.spins })) };
}

impl<'a, const P: usize, const J: usize, const OUT: usize> CoreState<'a, P, J, OUT> {
    /// The state of core `id`, which is configured, before it takes an item.
    pub fn new(config: &'a Config, id: CoreId) -> Self
        requires configured { IsSome (core_of config.now id) }
        requires priorities { IsTrue (list_all (λ (t : TaskValue). nat_lt t.priority P) (view_of config.now id).own.tasks) }
        requires ceilings { IsTrue (list_all (λ (r : ResourceValue). nat_lt r.ceiling P) (view_of config.now id).own.resources) }
        requires activations { sum_by (λ (t : TaskValue). t.activations) (view_of config.now id).own.tasks ≤ J }
        ensures { result ≡ state_of (view_of config.now id) [] }
    {
        let plan = config.plan();
        let core = match plan.core(id) {
            Some(core) => core,
            None => unreachable!(),
        };
        CoreState {
            config,
            core,
            progress: Progress::new(core.id == plan.master),
            jobs: Jobs::new(core),
            clocks: Clocks::new(core),
            tables: Tables::new(core),
            border: Border {
                open_call: None,
                outbox: ArrayVec::new(),
                queued: [0; CORES],
                received: [0; CORES],
                spins: Grants::new(),
            },
        }
    }

    /// The core takes an item, which changes the core's progress and what crosses its border. A task that gave way by
    /// Schedule does so no longer.
    pub fn take_item(&mut self, item: &Item)
        requires sender { IsTrue (is_sender_known item.now) }
        requires lock { IfSome self.old.border.open_call (λ call. IsTrue (is_awaited_known call.awaits)) → IsTrue (is_grant_known item.now) }
        requires forward { IsTrue (is_before_live (phase_after (Took item.now) self.old.progress.phase)) → IsTrue (is_before_live self.old.progress.phase) }
        requires onward { IsTrue (is_past_first_gate (phase_after (Took item.now) self.old.progress.phase)) → IsTrue (is_first_gate item.now || is_past_first_gate self.old.progress.phase) }
        requires front { IsTrue (is_posted item.now) → 0 < length self.old.border.outbox }
        requires count { self.old.progress.entries < 2 ^ 63 }
        ensures state { self.new ≡ state_after (Took item.now) self.old }
        ensures idle { IsTrue (is_before_live self.old.progress.phase) → self.old.tasks.jobs ≡ [] }
        ensures within { IsTrue (are_clocks_within self.old.view.own) }
    {
        self.progress.take_item(item);
        self.jobs.take_item(item);
        border::settle_by(&mut self.border.spins, &mut self.border.open_call, item);
        border::post_by(&mut self.border.outbox, item);
        border::receive_by(&mut self.border.received, item);
    }

    /// A job of the task begins, with no event set (OSEK/VDX OS 2.2.3, section 4.3 and 13.2.3.1).
    pub fn activate(&mut self, task: TaskRef, marks: &mut Vec<Mark>)
        requires limit { job_count (Runner.Task task) self.old.tasks.jobs < activation_limit self.old.view.own (Runner.Task task) }
        requires live { is_before_live self.old.progress.phase ≡ false }
        requires room { HasRoom 1 1 self.old marks.old }
        ensures state { self.new ≡ state_after (Printed (Mark.Activated task)) self.old }
        ensures marks { Joins (Mark.Activated task) marks.old marks.new }
    {
        self.jobs.activate(task, self.progress.entries);
        self.progress.record(Mark::Activated(task), marks);
    }

    /// Ends the oldest job of one of the core's tasks, if there is one. The job gives its resources back, owes the
    /// release of its spinlocks, resumes interrupts, closes its open call and runs no longer. The task then has fewer
    /// jobs than it may have.
    pub fn terminate(&mut self, task: TaskRef, marks: &mut Vec<Mark>)
        requires own { IsTrue (is_own_runner self.old.view.own (Runner.Task task)) }
        requires room { HasRoom 1 1 self.old marks.old }
        ensures state { self.new ≡ state_after (Printed (Mark.Terminated task)) self.old }
        ensures marks { Joins (Mark.Terminated task) marks.old marks.new }
        ensures below { job_count (Runner.Task task) self.new.tasks.jobs < activation_limit self.new.view.own (Runner.Task task) }
    {
        self.jobs.end(task);
        self.border.spins.owe(Runner::Task(task));
        close_call(&mut self.border.open_call, Runner::Task(task));
        self.progress.record(Mark::Terminated(task), marks);
    }

    /// An interrupt of one of the core's ISRs is accepted: a job of it begins, and is pending (AUTOSAR SWS OS 4.x,
    /// section 7.6).
    pub fn accept(&mut self, isr: IsrRef, marks: &mut Vec<Mark>)
        requires limit { job_count (Runner.Isr isr) self.old.tasks.isrs.live < interrupt_limit self.old.view.own (Runner.Isr isr) }
        requires room { HasRoom 1 1 self.old marks.old }
        ensures state { self.new ≡ state_after (Printed (Mark.InterruptAccepted isr)) self.old }
        ensures marks { Joins (Mark.InterruptAccepted isr) marks.old marks.new }
    {
        self.jobs.accept(isr, self.progress.entries);
        self.progress.record(Mark::InterruptAccepted(isr), marks);
    }

    /// The oldest job of one of the core's ISRs is entered: it runs, whatever ran before. The task in the running state
    /// stays in that state.
    pub fn enter_isr(&mut self, isr: IsrRef, marks: &mut Vec<Mark>)
        requires own { IsTrue (is_own_runner self.old.view.own (Runner.Isr isr)) }
        requires room { HasRoom 1 1 self.old marks.old }
        ensures state { self.new ≡ state_after (Printed (Mark.IsrEntered isr)) self.old }
        ensures marks { Joins (Mark.IsrEntered isr) marks.old marks.new }
    {
        self.jobs.enter_isr(isr);
        self.progress.record(Mark::IsrEntered(isr), marks);
    }

    /// Ends the oldest job of one of the core's ISRs, if there is one. The job gives its resources back, owes the
    /// release of its spinlocks, resumes interrupts, closes its open call and runs no longer (AUTOSAR SWS OS 4.x,
    /// SWS_Os_00070).
    pub fn leave_isr(&mut self, isr: IsrRef, marks: &mut Vec<Mark>)
        requires own { IsTrue (is_own_runner self.old.view.own (Runner.Isr isr)) }
        requires room { HasRoom 1 1 self.old marks.old }
        ensures state { self.new ≡ state_after (Printed (Mark.IsrLeft isr)) self.old }
        ensures marks { Joins (Mark.IsrLeft isr) marks.old marks.new }
    {
        self.jobs.end_isr(isr);
        self.border.spins.owe(Runner::Isr(isr));
        close_call(&mut self.border.open_call, Runner::Isr(isr));
        self.progress.record(Mark::IsrLeft(isr), marks);
    }

    /// A tick: the running job, if any, has used one more tick of its budget (AUTOSAR SWS OS 4.x, SWS_Os_00028), and of
    /// the lock budget of each resource that it holds (the project's own).
    pub fn tick(&mut self, marks: &mut Vec<Mark>)
        requires { HasRoom 1 1 self.old marks.old }
        ensures state { self.new ≡ state_after (Printed Mark.Tick) self.old }
        ensures marks { Joins Mark.Tick marks.old marks.new }
    {
        self.jobs.tick();
        self.progress.record(Mark::Tick, marks);
    }

    /// The oldest job of one of the core's tasks or ISRs suspends interrupts once more (OSEK/VDX OS 2.2.3, section
    /// 13.3.2.4).
    pub fn suspend_interrupts(&mut self, runner: Runner)
        requires own { IsTrue (is_own_runner self.old.view.own runner) }
        requires count { self.old.progress.entries < 2 ^ 63 }
        ensures { self.new ≡ state_after (Noted (InterruptsSuspended runner)) self.old }
    {
        self.jobs.suspend_interrupts(runner);
        self.progress.entries += 1;
    }

    /// The oldest job of one of the core's tasks or ISRs resumes interrupts once (OSEK/VDX OS 2.2.3, section 13.3.2.3).
    pub fn resume_interrupts(&mut self, runner: Runner)
        requires own { IsTrue (is_own_runner self.old.view.own runner) }
        requires count { self.old.progress.entries < 2 ^ 63 }
        ensures { self.new ≡ state_after (Noted (InterruptsResumed runner)) self.old }
    {
        self.jobs.resume_interrupts(runner);
        self.progress.entries += 1;
    }

    /// The core goes down: scheduling ends, and the release of all spinlocks is owed (AUTOSAR SWS OS 4.x, ShutdownOS).
    pub fn go_down(&mut self)
        requires count { self.old.progress.entries < 2 ^ 63 }
        ensures { self.new ≡ state_after (Noted WentDown) self.old }
    {
        self.border.spins.owe_all();
        self.progress.go_down();
    }

    /// A task enters the running state, and PreTaskHook is called (OSEK/VDX OS 2.2.3, section 11.5).
    pub fn enter(&mut self, task: TaskRef, marks: &mut Vec<Mark>)
        requires { HasRoom 1 1 self.old marks.old }
        ensures state { self.new ≡ state_after (Printed (Mark.PreTaskHook task)) self.old }
        ensures marks { Joins (Mark.PreTaskHook task) marks.old marks.new }
    {
        self.jobs.enter(task);
        self.progress.record(Mark::PreTaskHook(task), marks);
    }

    /// PostTaskHook is called, and the task leaves the running state (OSEK/VDX OS 2.2.3, section 11.5).
    pub fn leave(&mut self, task: TaskRef, marks: &mut Vec<Mark>)
        requires { HasRoom 1 1 self.old marks.old }
        ensures state { self.new ≡ state_after (Printed (Mark.PostTaskHook task)) self.old }
        ensures marks { Joins (Mark.PostTaskHook task) marks.old marks.new }
    {
        self.jobs.leave(task);
        self.progress.record(Mark::PostTaskHook(task), marks);
    }

    /// Events of one of the core's tasks are set; those set before stay (OSEK/VDX OS 2.2.3, section 7 and 13.5.3.1).
    pub fn set_events(&mut self, task: TaskRef, mask: u32, marks: &mut Vec<Mark>)
        requires own { IsTrue (is_own_runner self.old.view.own (Runner.Task task)) }
        requires room { HasRoom 1 1 self.old marks.old }
        ensures state { self.new ≡ state_after (Printed (Mark.EventSet task mask)) self.old }
        ensures marks { Joins (Mark.EventSet task mask) marks.old marks.new }
    {
        self.jobs.set_events(task, mask);
        self.progress.record(Mark::EventSet { task, mask }, marks);
    }

    /// Events of one of the core's tasks are cleared, and no other (OSEK/VDX OS 2.2.3, section 7 and 13.5.3.2).
    pub fn clear_events(&mut self, task: TaskRef, mask: u32, marks: &mut Vec<Mark>)
        requires own { IsTrue (is_own_runner self.old.view.own (Runner.Task task)) }
        requires room { HasRoom 1 1 self.old marks.old }
        ensures state { self.new ≡ state_after (Printed (Mark.EventCleared task mask)) self.old }
        ensures marks { Joins (Mark.EventCleared task mask) marks.old marks.new }
    {
        self.jobs.clear_events(task, mask);
        self.progress
            .record(Mark::EventCleared { task, mask }, marks);
    }

    /// One of the core's tasks waits for one of these events: no job of the task may run. Once the task is released,
    /// its job has its whole budget (OSEK/VDX OS 2.2.3, section 4.2.1 and 13.5.3.4; AUTOSAR SWS OS 4.x, SWS_Os_00473).
    pub fn wait(&mut self, task: TaskRef, mask: u32, marks: &mut Vec<Mark>)
        requires own { IsTrue (is_own_runner self.old.view.own (Runner.Task task)) }
        requires extended { is_extended self.old.view.own (Runner.Task task) ≡ true }
        requires room { HasRoom 1 1 self.old marks.old }
        ensures state { self.new ≡ state_after (Printed (Mark.EventAwaited task mask)) self.old }
        ensures marks { Joins (Mark.EventAwaited task mask) marks.old marks.new }
    {
        self.jobs.wait(task, mask);
        self.progress
            .record(Mark::EventAwaited { task, mask }, marks);
    }

    /// One of the core's tasks waits no longer: its oldest job may run, behind all others of its priority
    /// (OSEK/VDX OS 2.2.3, section 4.2.1 and 4.5).
    pub fn release(&mut self, task: TaskRef, marks: &mut Vec<Mark>)
        requires own { IsTrue (is_own_runner self.old.view.own (Runner.Task task)) }
        requires extended { is_extended self.old.view.own (Runner.Task task) ≡ true }
        requires room { HasRoom 1 1 self.old marks.old }
        ensures state { self.new ≡ state_after (Printed (Mark.Released task)) self.old }
        ensures marks { Joins (Mark.Released task) marks.old marks.new }
    {
        self.jobs.release(task, self.progress.entries);
        self.progress.record(Mark::Released(task), marks);
    }

    /// Prints a mark that begins and ends no job and changes no row. With such a mark no task enters or leaves the
    /// running state, and no ISR is entered. If the mark says that Schedule returned E_OK, its caller gives way.
    pub fn print(&mut self, mark: Mark, marks: &mut Vec<Mark>)
        requires plain { IsTrue (is_plain mark) }
        requires room { HasRoom 1 1 self.old marks.old }
        ensures state { self.new ≡ state_after (Printed mark) self.old }
        ensures marks { Joins mark marks.old marks.new }
    {
        self.jobs.print(&mark);
        self.progress.record(mark, marks);
    }

    /// A message for core `to` joins the outbox, with the next number on the way to that core.
    pub fn queue(&mut self, to: CoreId, message: Message)
        requires receiver { to.number < CORES }
        requires room { length self.old.border.outbox < OUT }
        requires count { self.old.progress.entries < 2 ^ 63 }
        ensures { self.new ≡ state_after (Noted (Queued to (next_letter self.old to message))) self.old }
    {
        let number = self.border.queued[usize::from(to.number)];
        let letter = Letter { number, message };
        self.border.outbox.push(Sent { to, letter });
        border::count_one(&mut self.border.queued, to);
        self.progress.entries += 1;
    }

    /// The call of a job of one of the core's tasks or ISRs stays open: it waits for another core's reply, for a
    /// spinlock's answer, or for the shutdown of all cores.
    pub fn open_call(&mut self, call: OpenCall)
        requires own { IsTrue (is_own_runner self.old.view.own call.runner) }
        requires lock { IsTrue (is_awaited_known call.awaits) }
        requires count { self.old.progress.entries < 2 ^ 63 }
        ensures { self.new ≡ state_after (Noted (Opened call)) self.old }
    {
        self.border.open_call = Some(call);
        self.progress.entries += 1;
    }

    /// The oldest live job of one of the core's tasks or ISRs takes a resource that is free (OSEK/VDX OS 2.2.3,
    /// section 8.2).
    pub fn take_resource(&mut self, runner: Runner, resource: HeldResource)
        requires own { IsTrue (is_own_runner self.old.view.own runner) }
        requires place { resource.index < RESOURCES }
        requires free { is_occupied resource.index self.old.tasks.rows ≡ false }
        requires count { self.old.progress.entries < 2 ^ 63 }
        ensures { self.new ≡ state_after (Noted (ResourceOccupied runner resource)) self.old }
    {
        self.jobs.raise(runner, resource);
        self.progress.entries += 1;
    }

    /// The oldest live job of one of the core's tasks or ISRs gives back the resource of this index, the newest that it
    /// holds (OSEK/VDX OS 2.2.3, section 8.2).
    pub fn give_resource(&mut self, runner: Runner, index: u8)
        requires own { IsTrue (is_own_runner self.old.view.own runner) }
        requires newest { is_newest index (held_in runner self.old.tasks.rows) ≡ true }
        requires count { self.old.progress.entries < 2 ^ 63 }
        ensures { self.new ≡ state_after (Noted (ResourceReleased runner index)) self.old }
    {
        self.jobs.lower(runner, index);
        self.progress.entries += 1;
    }

    /// An operation of the oldest live job of one of the core's tasks or ISRs is done, with this status and value. The
    /// job goes on to its next operation, and its open call is closed.
    pub fn complete(&mut self, runner: Runner, status: Status, value: Option<i64>)
        requires own { IsTrue (is_own_runner self.old.view.own runner) }
        requires count { self.old.progress.entries < 2 ^ 63 }
        ensures { self.new ≡ state_after (Noted (Done runner status value)) self.old }
    {
        let script = script_of(self.core, runner);
        self.jobs.complete(script, runner, status, value);
        close_call(&mut self.border.open_call, runner);
        self.progress.entries += 1;
    }

    /// The phase of the core.
    pub fn phase(&self) -> Phase
        ensures { result ≡ self.now.progress.phase }
    {
        self.progress.phase
    }

    /// Whether the core runs, is down, or was halted.
    pub fn course(&self) -> Course
        ensures { result ≡ self.now.progress.course }
    {
        self.progress.course
    }

    /// How many items the core has taken.
    pub fn items(&self) -> u64
        ensures { result ≡ self.now.progress.items }
    {
        self.progress.items
    }

    /// The next core of the start list, if one is left (AUTOSAR SWS OS 4.x, StartCore).
    pub fn next_start(&self) -> Option<CoreId>
        ensures { result ≡ next_start self.now.view self.now.progress.began }
    {
        self.core.start.as_slice().get(self.progress.began).copied()
    }

    /// The result of the first gate, once it is passed.
    pub fn agreement(&self) -> Option<Agreement>
        ensures value { result ≡ self.now.progress.agreement }
        ensures agreed { IsTrue (is_past_first_gate self.now.progress.phase) → IsTrue (is_agreed result) }
    {
        self.progress.agreement
    }

    /// The call that is open, if there is one.
    pub fn awaited_call(&self) -> Option<OpenCall>
        ensures value { result ≡ self.now.border.open_call }
        ensures lock { IfSome result (λ call. IsTrue (is_awaited_known call.awaits)) }
        ensures own { IfSome result (λ call. IsTrue (is_own_runner self.now.view.own call.runner)) }
    {
        self.border.open_call
    }

    /// The task in the running state.
    pub fn current(&self) -> Option<TaskRef>
        ensures value { result ≡ self.now.tasks.current }
        ensures current { IfSome result (λ task. IsTrue (is_current self.now.tasks.current (Runner.Task task))) }
    {
        self.jobs.current()
    }

    /// The letter at the front of the outbox, and the core that it is for; none if the outbox is empty.
    pub fn front(&self) -> Option<Sent>
        ensures { result ≡ slice_get self.now.border.outbox 0 }
    {
        self.border.outbox.as_slice().first().copied()
    }

    /// Whether the outbox holds nothing.
    pub fn is_outbox_empty(&self) -> bool
        ensures { result ≡ (length self.now.border.outbox == 0) }
    {
        self.border.outbox.is_empty()
    }

    /// Whether the outbox holds fewer letters than it has places.
    pub fn has_place(&self) -> bool
        ensures { result ≡ nat_lt (length self.now.border.outbox) OUT }
    {
        self.border.outbox.len() < OUT
    }

    /// How many letters this core received from core `id`.
    pub fn received_from(&self, id: CoreId) -> u64
        requires { id.number < CORES }
        ensures { result ≡ slice_index self.now.border.received id.number }
    {
        self.border.received[usize::from(id.number)]
    }

    /// Whether core `id` was started, as far as this core learned at the second gate.
    pub fn knows_started(&self, id: CoreId) -> bool
        ensures value { result ≡ has_core self.now.progress.started id }
        ensures number { IsTrue result → id.number < CORES }
    {
        self.progress.started.contains(id)
    }

    /// The cores that were started, as far as this core learned at the second gate.
    pub fn started_cores(&self) -> CoreSet
        ensures { result ≡ self.now.progress.started }
    {
        self.progress.started
    }

    /// Whether this is the core's own number.
    pub fn is_this_core(&self, id: CoreId) -> bool
        ensures value { result ≡ is_this_core self.now.view id }
        ensures own { result ≡ same_core id self.now.view.own.id }
    {
        id == self.core.id
    }

    /// Whether this core has the object.
    pub fn has(&self, object: Object) -> bool
        ensures { result ≡ is_own_object self.now.view.own object }
    {
        self.core.has(object)
    }

    /// Whether the core knows the stimulus: any, but an interrupt only if the ISR is one of its own.
    pub fn knows(&self, stimulus: Stimulus) -> bool
        ensures { result ≡ knows_stimulus self.now.view.own stimulus }
    {
        self.core.knows(stimulus)
    }

    /// The core's tasks, in index order.
    pub fn tasks(&self) -> &'a [Task]
        ensures value { result.now ≡ self.now.view.own.tasks }
        ensures few { length result.now ≤ 32 }
        ensures some { IsTrue (list_all (λ (t : TaskValue). nat_le 1 t.activations) self.now.view.own.tasks) }
    {
        let core = self.core;
        core.tasks.as_slice()
    }

    /// This core's number.
    pub fn id(&self) -> CoreId
        ensures own { result ≡ self.now.view.own.id }
        ensures core { result ≡ self.now.view.core }
    {
        self.core.id
    }

    /// Whether a core with this number is configured.
    pub fn is_configured(&self, id: CoreId) -> bool
        ensures { result ≡ is_configured self.now.view id }
    {
        self.config.plan().core(id).is_some()
    }

    /// The application mode with which the core calls StartOS.
    pub fn mode(&self) -> CoreMode
        ensures { result ≡ self.now.view.own.mode }
    {
        self.core.mode
    }

    /// How many application modes there are.
    pub fn mode_count(&self) -> usize
        ensures { result ≡ length self.now.view.modes }
    {
        self.config.plan().modes.len()
    }

    /// The running job: that of the ISR that was entered last, or else the oldest live job of the task in the running
    /// state (OSEK/VDX OS 2.2.3, section 4.2 and 6).
    #[inline(always)]
    pub fn running_job(&self) -> Option<Job>
        ensures value { result ≡ running_in self.now }
        ensures own { IfSome result (λ job. IsTrue (is_own_runner self.now.view.own job.runner)) }
    {
        self.jobs.running()
    }

    /// The job to run, given the running one. A running job that has interrupts suspended runs on. Else the oldest ISR
    /// job of the greatest level runs. If there is none, the oldest of the task jobs with the greatest current priority
    /// runs; those that wait do not count (OSEK/VDX OS 2.2.3, section 4.4, 4.5, 6 and 13.3.2.4).
    pub fn best_job(&mut self, running: Option<Job>) -> Option<Job>
        requires { running ≡ running_in self.old }
        ensures value { result ≡ best_in self.old }
        ensures own { IfSome result (λ job. IsTrue (is_own_runner self.old.view.own job.runner)) }
        ensures keeps { self.new ≡ self.old }
    {
        self.jobs.dispatch(self.core, running)
    }

    /// A resource of the core that a script names, as a job would hold it: its index and its ceiling. None for the
    /// invalid identifier, and for a resource of another core.
    pub fn resource(&self, target: Option<ResourceRef>) -> Option<HeldResource>
        ensures value { result ≡ resource_of self.now.view.own target }
        ensures place { IfSome result (λ x. x.index < RESOURCES) }
    {
        let target = target?;
        let resource = own::resource_of(self.core, target)?;
        Some(HeldResource {
            index: target.index,
            ceiling: resource.ceiling,
        })
    }

    /// The configured priority of one of the core's tasks; 0 for an ISR (OSEK/VDX OS 2.2.3, section 4.5).
    pub fn static_priority(&self, runner: Runner) -> u8
        requires { IsTrue (is_own_runner self.now.view.own runner) }
        ensures { result ≡ static_priority self.now.view.own runner }
    {
        osjobs::static_priority(self.core, runner)
    }

    /// Whether the runner is one of the core's extended tasks (OSEK/VDX OS 2.2.3, section 4.2.1).
    pub fn is_extended(&self, runner: Runner) -> bool
        ensures { result ≡ is_extended self.now.view.own runner }
    {
        osjobs::is_extended(self.core, runner)
    }

    /// The events of one of the core's tasks: which are set, and which the task waits for, if it waits (OSEK/VDX OS
    /// 2.2.3, section 7).
    pub fn events(&self, runner: Runner) -> TaskEvents
        ensures { result ≡ events_in runner self.now.tasks.rows }
    {
        self.jobs.events(runner)
    }

    /// Whether interrupts are suspended now by the oldest job of one of the core's tasks or ISRs (OSEK/VDX OS 2.2.3,
    /// section 13.3.2.4).
    pub fn has_suspended_interrupts(&self, runner: Runner) -> bool
        ensures { result ≡ nat_lt 0 (depth_in runner self.now.tasks.rows) }
    {
        self.jobs.has_suspended_interrupts(runner)
    }

    /// Whether the oldest job of one of the core's tasks or ISRs has reached its execution budget, if it has one
    /// (AUTOSAR SWS OS 4.x, SWS_Os_00064 and SWS_Os_00210).
    pub fn is_spent(&self, runner: Runner) -> bool
        ensures { result ≡ is_reached (budget_of self.now.view.own runner) (used_in runner self.now.tasks.rows) }
    {
        self.jobs.is_spent(runner, budget_of(self.core, runner))
    }

    /// Whether the oldest job of one of the core's tasks or ISRs has reached the lock budget of a resource that it
    /// holds, in ticks since it took the resource (the project's own).
    pub fn is_overheld(&self, runner: Runner) -> bool
        ensures { result ≡ is_overheld self.now.view.own (row_in runner self.now.tasks.rows) }
    {
        self.jobs.is_overheld(self.core, runner)
    }

    /// What the core does when a job has reached its execution budget or a lock budget (AUTOSAR SWS OS 4.x,
    /// ProtectionReturnType).
    pub fn protection(&self) -> Protection
        ensures { result ≡ self.now.view.own.protection }
    {
        self.core.protection
    }

    /// Whether a job of the ISR is pending: live, and not entered yet (AUTOSAR SWS OS 4.x, section 7.6).
    pub fn is_pending(&self, isr: IsrRef) -> bool
        ensures value { result ≡ is_pending_among isr self.now.tasks.isrs.entered self.now.tasks.isrs.live }
        ensures limit { IsTrue (is_own_runner self.now.view.own (Runner.Isr isr)) → result ≡ false → job_count (Runner.Isr isr) self.now.tasks.isrs.live < interrupt_limit self.now.view.own (Runner.Isr isr) }
    {
        self.jobs.is_pending(isr)
    }

    /// Whether no job of the task is live (OSEK/VDX OS 2.2.3, section 4.2.1).
    pub fn is_suspended(&self, task: TaskRef) -> bool
        ensures { result ≡ is_suspended_in task self.now }
    {
        self.jobs.count(Runner::Task(task)) == 0
    }

    /// Whether a job of the core holds the resource of this index.
    pub fn is_occupied(&self, index: u8) -> bool
        requires { index < RESOURCES }
        ensures { result ≡ is_occupied index self.now.tasks.rows }
    {
        self.jobs.is_occupied(index)
    }

    /// Whether the resource of this index is the newest that the job of one of the core's tasks or ISRs holds.
    pub fn is_newest(&self, runner: Runner, index: u8) -> bool
        ensures { result ≡ is_newest index (held_in runner self.now.tasks.rows) }
    {
        self.jobs.is_newest(runner, index)
    }

    /// Whether the job of one of the core's tasks or ISRs holds a resource.
    pub fn holds_resource(&self, runner: Runner) -> bool
        ensures { result ≡ holds_any (held_in runner self.now.tasks.rows) }
    {
        self.jobs.holds_any(runner)
    }

    /// Whether the task has as many live jobs here as it may have; yes for a task of another core, which may have none.
    pub fn is_at_limit(&self, task: TaskRef) -> bool
        ensures { result ≡ is_at_limit_in task self.now }
    {
        let limit = match own::task_of(self.core, task) {
            Some(own) => usize::from(own.activations),
            None => 0,
        };
        limit <= self.jobs.count(Runner::Task(task))
    }

    /// Where in its script the oldest live job of one of the core's tasks or ISRs is, with its last status and its
    /// variables.
    pub fn frame(&self, runner: Runner) -> Frame
        ensures { result ≡ frame_in runner self.now.tasks.rows }
    {
        self.jobs.frame(runner)
    }

    /// What the oldest live job of one of the core's tasks or ISRs does next: an operation of its script, or its end.
    pub fn next_action(&self, runner: Runner) -> Action
        ensures value { result ≡ next_action_in runner self.now }
        ensures known { IsTrue (is_action_known self.now.view.own result) }
    {
        self.jobs.next_action(script_of(self.core, runner), runner)
    }
}

// Closes the open call if it is this runner's, whose operation is done or whose job has ended. Mostly no call is open;
// then nothing is written.
fn close_call(open_call: &mut Option<OpenCall>, runner: Runner)
    ensures { open_call.new ≡ closed_by runner open_call.old }
{
    if open_call.is_some() {
        *open_call = border::closed_by(runner, *open_call);
    }
}
