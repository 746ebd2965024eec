//! The kernel.

ghost use Rattle.std.specs.Prelude.{◌≡◌, ◌+◌, ◌≤◌, [], nat_lt, IsTrue, IsSome, vec_len, vec_capacity, sum_by};
ghost use Rattle.std.specs.List.{list_all};
ghost use Rattle.osplan.specs.{declared.plans.Resource.Resource as ResourceValue, declared.plans.Task.Task as TaskValue, View.core_of, View.view_of, Objects.outbox_needed};
ghost use Rattle.osbase.specs.History.{outbox};
ghost use Rattle.osstate.specs.{Readings.phase_at, State.state_of, Does.Adds, Does.Does, Does.Reads};
ghost use Rattle.oskernel.specs.{declared.kernel.TheConstants.STEP_MARKS, Step.after, Step.serves, Step.takes};
ghost use Rattle.osfit.specs.Fits.{fits_in};
ghost use Rattle.oskernel.specs.Wants.{front_of, go_on_by as go_on_want, post_or as front_or, is_want_known, want_call as call_or_want, want_in, want_of, want_owed as owed_or_want, watch_halt, watch_in, watch_of};
ghost use Rattle.osadmit.specs.Admission.{serves_in, takes_in};

use crate::wants::{Want, Watch, go_on_by, start_or_enter, want_call, want_owed};
use crate::{dispatching, effects};
use osadmit::is_admitted;
use osawait::may_look_halt;
use osbase::{CoreId, Envelope, Item, Mark, Phase};
use osplan::Config;
use osstate::CoreState;
use std::marker::Model;

// The most items that a core may take.
const MOST_ITEMS: u64 = 1 << 48;

/// The most marks that a step prints. The worst item is a tick, with all alarms and schedule tables of
/// a core.
pub const STEP_MARKS: usize = 512;

/// The kernel of one core, with room for `J` live jobs and `OUT` letters; priorities and ceilings are below `P`.
#[derive(Drop)]
pub struct Kernel<'a, const P: usize, const J: usize, const OUT: usize> {
    state: CoreState<'a, P, J, OUT>,
}

impl<'a, const P: usize, const J: usize, const OUT: usize> Model for Kernel<'a, P, J, OUT> {
    ghost use Rattle.osstate.specs.State.{KernelState};
    ghost use Rattle.oskernel.specs.Bounded.{IsBounded};

    ghost Value = { KernelState };

    ghost view = { λ k. k.state };

    ghost invariant = { λ k. IsBounded OUT k.state };
}

impl<'a, const P: usize, const J: usize, const OUT: usize> Kernel<'a, P, J, OUT> {
    /// The kernel of a configured core that has taken no item. The kernel's size has to be large enough for the core
    /// (`fits`). `OUT` is at least what the actions of the core's alarms and schedule tables may fill at once, and
    /// 16 more: one for its own call, and 15 for replies.
    pub fn new(config: &'a Config, core: CoreId) -> Self
        requires configured { IsSome (core_of config.now core) }
        requires priorities { IsTrue (list_all (λ (t : TaskValue). nat_lt t.priority P) (view_of config.now core).own.tasks) }
        requires ceilings { IsTrue (list_all (λ (r : ResourceValue). nat_lt r.ceiling P) (view_of config.now core).own.resources) }
        requires activations { sum_by (λ (t : TaskValue). t.activations) (view_of config.now core).own.tasks ≤ J }
        requires outbox { outbox_needed (view_of config.now core).own ≤ OUT }
        ensures { result ≡ state_of (view_of config.now core) [] }
    {
        Kernel {
            state: CoreState::new(config, core),
        }
    }

    /// Whether a kernel of this size is large enough for the core, so that `new` may be called. False for a core that
    /// is not configured.
    pub fn fits(config: &Config, core: CoreId) -> bool
        ensures value { result ≡ fits_in P J OUT (core_of config.now core) }
        ensures configured { IsTrue result → IsSome (core_of config.now core) }
        ensures priorities { IsTrue result → IsTrue (list_all (λ (t : TaskValue). nat_lt t.priority P) (view_of config.now core).own.tasks) }
        ensures ceilings { IsTrue result → IsTrue (list_all (λ (r : ResourceValue). nat_lt r.ceiling P) (view_of config.now core).own.resources) }
        ensures activations { IsTrue result → sum_by (λ (t : TaskValue). t.activations) (view_of config.now core).own.tasks ≤ J }
        ensures outbox { IsTrue result → outbox_needed (view_of config.now core).own ≤ OUT }
    {
        osfit::fits(config, core, P, J, OUT)
    }

    /// The core's phase, from off to ended.
    pub fn phase(&self) -> Phase
        ensures state { result ≡ self.now.progress.phase }
        ensures reads { Reads (λ v h. phase_at v h) self.now result }
    {
        self.state.phase()
    }

    /// What the core's own turn would do.
    #[inline(always)]
    pub fn want(&self) -> Want
        ensures state { result ≡ want_in self.now }
        ensures reads { Reads (λ v h. want_of v h) self.now result }
        ensures lock { IsTrue (is_want_known result) }
    {
        match self.state.phase() {
            Phase::Boot => start_or_enter(self.state.next_start()),
            Phase::BetweenGates => Want::Ready,
            Phase::Live => self.post_or(self.live_want()),
            Phase::Drained => self.post_or(Want::Nothing),
            Phase::Closing => self.post_or(Want::Nothing),
            Phase::Off => Want::Nothing,
            Phase::FirstGate => Want::Nothing,
            Phase::SecondGate => Want::Nothing,
            Phase::Ended => Want::Nothing,
        }
    }

    // What the own turn of a live core would do once its outbox is empty. An open call comes before owed spinlocks, and
    // owed spinlocks come before the core's next step.
    #[inline(always)]
    fn live_want(&self) -> Want
        ensures value { result ≡ call_or_want self.now.border.open_call (owed_or_want self.now.border.spins (go_on_want self.now.progress.course)) }
        ensures lock { IsTrue (is_want_known result) }
    {
        let owed = want_owed(self.state.owed_spinlock(), go_on_by(self.state.course()));
        want_call(self.state.awaited_call(), owed)
    }

    // If the outbox has a letter, the core posts the one at its front. Else it does what it would do otherwise, `want`.
    #[inline(always)]
    fn post_or(&self, want: Want) -> Want
        requires lock { IsTrue (is_want_known want) }
        ensures value { result ≡ front_or want self.now.border.outbox }
        ensures lock { IsTrue (is_want_known result) }
    {
        match self.state.front() {
            Some(sent) => Want::Post(sent.to),
            None => want,
        }
    }

    /// What the core's look at the board waits for.
    #[inline(always)]
    pub fn watch(&self) -> Watch
        ensures state { result ≡ watch_in self.now }
        ensures reads { Reads (λ v h. watch_of v h) self.now result }
    {
        match self.state.phase() {
            Phase::Off => Watch::On,
            Phase::FirstGate => Watch::FirstGate,
            Phase::SecondGate => Watch::SecondGate,
            Phase::Live => self.watch_halt(),
            Phase::Drained => Watch::PassEnd(self.state.started_cores()),
            Phase::Closing => Watch::Last,
            Phase::Boot => Watch::Nothing,
            Phase::BetweenGates => Watch::Nothing,
            Phase::Ended => Watch::Nothing,
        }
    }

    // A live core watches for a shutdown of all cores, if it may look for one. Else it watches for nothing.
    fn watch_halt(&self) -> Watch
        ensures { result ≡ watch_halt self.now }
    {
        if may_look_halt(&self.state) {
            Watch::Halt
        } else {
            Watch::Nothing
        }
    }

    /// The letter at the front of the outbox, in its envelope, and the core to which it goes.
    pub fn front(&self) -> Option<(CoreId, Envelope)>
        ensures state { result ≡ front_of self.now.border.outbox }
        ensures reads { Reads (λ v h. front_of (outbox h)) self.now result }
    {
        let sent = self.state.front()?;
        let envelope = Envelope {
            letter: sent.letter,
            clock: 0,
        };
        Some((sent.to, envelope))
    }

    /// Whether the item may be taken now.
    #[inline(always)]
    pub fn may_take(&self, item: &Item) -> bool
        ensures state { result ≡ takes_in OUT self.now item.now }
        ensures reads { Reads (λ v h. takes OUT v h item.now) self.now result }
    {
        if self.state.items() < MOST_ITEMS {
            return is_admitted(&self.state, item);
        }
        false
    }

    /// Whether the core may serve whichever message comes next: it may take one more item, is in a phase in which it
    /// schedules, and has a place in its outbox for a reply.
    pub fn may_serve(&self) -> bool
        ensures state { result ≡ serves_in OUT self.now }
        ensures reads { Reads (λ v h. serves OUT v h) self.now result }
    {
        if self.state.items() < MOST_ITEMS {
            return self.state.phase().is_scheduling() & self.state.has_place();
        }
        false
    }

    /// Takes an item that may be taken, does what follows from it, and dispatches. Adds the marks that this prints.
    #[inline(always)]
    pub fn step(&mut self, item: Item, marks: &mut Vec<Mark>)
        requires taken { IsTrue (takes_in OUT self.old item) }
        requires room { vec_len marks.old + STEP_MARKS ≤ vec_capacity marks.old }
        ensures adds { Adds STEP_MARKS marks.old.items marks.new.items }
        ensures len { vec_len marks.new ≤ vec_len marks.old + STEP_MARKS }
        ensures capacity { vec_capacity marks.new ≡ vec_capacity marks.old }
        ensures items { self.new.progress.items ≡ self.old.progress.items + 1 }
        ensures does { Does (λ v h. after v h item) self.old self.new marks.old.items marks.new.items }
    {
        effects::take(&mut self.state, &item, marks);
        dispatching::dispatch(&mut self.state, marks);
    }
}
