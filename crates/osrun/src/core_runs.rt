//! One core of a run.

ghost use Rattle.std.specs.Prelude.{[], IfSome, IsTrue, IsSome, ◌≡◌, ◌<◌, OnOk, slice_get};
ghost use Rattle.osbase.specs.{declared.limits.TheConstants.CORES, Runs.stimuli_of};
ghost use Rattle.osplan.specs.{View.core_of, View.view_of, Limits.is_within_limits};
ghost use Rattle.osstate.specs.State.{state_of};
ghost use Rattle.osadmit.specs.Admission.{takes_in};
ghost use Rattle.oskernel.specs.{Step.outbox_size, Wants.want_in, Wants.watch_in, declared.kernel.TheConstants.STEP_MARKS};
ghost use Rattle.osrun.specs.Requests.{request_by, is_request_known, item_by};

use crate::requests::{Reply, Request, item_for_reply, look_request, own_request};
use osbase::{
    CORES, Choice, CoreId, CoreStimuli, Item, List, Mark, OUTBOX, Phase, Report, Stimulus,
    stimuli_for,
};
use oskernel::{Kernel, STEP_MARKS, Watch};
use osplan::{Config, Plan};
use std::alloc::{AllocError, Global};
use std::mem;

/// A kernel that is large enough for every configuration within the limits: 32 priorities, 64 jobs, and an
/// outbox of `OUTBOX` letters.
pub type CoreKernel<'a> = Kernel<'a, 32, 64, OUTBOX>;

/// A core of a run: the configuration's plan, its kernel, the stimuli that are left, and what it took and printed so
/// far.
#[derive(Drop)]
pub struct CoreRun<'a> {
    pub id: CoreId,
    pub plan: &'a Plan,
    pub kernel: CoreKernel<'a>,
    pub stimuli: &'a [Stimulus],
    pub items: Vec<Item>,
    pub marks: Vec<Mark>,
    ghost known: { id.number < CORES },
    ghost limits: { IsTrue (is_within_limits plan.now) },
}

impl<'a> CoreRun<'a> {
    ghost use Rattle.osrun.specs.CoreRuns.{HasRoomForItem, Keeps, Took, is_ended_phase};

    /// The core at the start of a run. It has room for the items and lines that its stimuli usually bring, so its
    /// vectors rarely grow. A vector whose allocation fails starts without room.
    pub fn new(alloc: Global, config: &'a Config, id: CoreId, stimuli: &'a [CoreStimuli]) -> Self
        requires { IsSome (core_of config.now id) }
        ensures plan { result.plan.now ≡ config.now }
        ensures kernel { result.kernel ≡ state_of (view_of config.now id) [] }
        ensures core { result.id ≡ id }
        ensures stimuli { result.stimuli.now ≡ stimuli_of stimuli.now id }
        ensures items { result.items.items ≡ [] }
        ensures marks { result.marks.items ≡ [] }
    {
        let stimuli = stimuli_for(stimuli, id);
        let ahead = stimuli.len().saturating_add(STEP_MARKS);
        CoreRun {
            id,
            plan: config.plan(),
            kernel: Kernel::new(config, id),
            stimuli,
            // This assumes two items (the stimulus and a letter) and three lines for each stimulus.
            items: roomy(alloc, ahead.saturating_mul(2)),
            marks: roomy(alloc, ahead.saturating_mul(3)),
        }
    }

    /// The request of the turn `choice`. `None` if it is the core's own turn and the core wants nothing.
    #[inline(always)]
    pub fn request_of_turn(&self, choice: Choice) -> Option<Request>
        ensures value { result ≡ request_by (view_of self.now.plan.now self.now.id) (want_in self.now.kernel) (watch_in self.now.kernel) (slice_get self.now.stimuli.now 0) choice }
        ensures lock { IfSome result (λ request. IsTrue (is_request_known request)) }
    {
        match choice {
            Choice::Own => {
                let next = self.stimuli.first().copied();
                own_request(self.plan, self.id, self.kernel.want(), next)
            }
            Choice::Serve(from) => Some(Request::Oldest(from)),
            Choice::Look => Some(look_request(self.kernel.watch())),
        }
    }

    /// The item that results when this core makes the request and gets the answer. `None` if no item results.
    #[inline(always)]
    pub fn item_for_reply(&self, request: Request, answer: &Reply) -> Option<Item>
        ensures { result ≡ item_by self.now.id (watch_in self.now.kernel) request answer.now }
    {
        // Only a call of the board asks the kernel what the core watches for: most turns request something else.
        let watch = match request {
            Request::OfBoard(_) => self.kernel.watch(),
            _ => Watch::Nothing,
        };
        item_for_reply(self.id, watch, request, answer)
    }

    /// Makes room for one more item and all lines that it may print. Nothing else of the core changes, even if an
    /// allocation fails.
    #[inline(always)]
    pub fn make_room(&mut self) -> Result<(), AllocError>
        ensures room { OnOk result (HasRoomForItem self.new) }
        ensures keeps { Keeps self.old self.new }
    {
        self.items.reserve(1)?;
        self.marks.reserve(STEP_MARKS)
    }

    /// Takes an item: appends it to the core's items, and the kernel takes one step, which may print lines. A stimulus
    /// is removed from the stimuli that are left.
    #[inline(always)]
    pub fn take(&mut self, item: Item)
        requires room { HasRoomForItem self.old }
        requires taken { IsTrue (takes_in outbox_size self.old.kernel item) }
        ensures { Took self.old self.new item }
    {
        if let Item::Stim(_) = item {
            if let Some((_, rest)) = self.stimuli.split_first() {
                self.stimuli = rest;
            }
        }
        self.items.push_reserved(item);
        self.kernel.step(item, &mut self.marks);
    }

    /// Whether the core has ended.
    pub fn has_ended(&self) -> bool
        ensures { result ≡ is_ended_phase self.now.kernel.progress.phase }
    {
        matches!(self.kernel.phase(), Phase::Ended)
    }

    /// The core's report, without clocks. This moves the items and lines out and leaves the kernel where it is,
    /// since moving the kernel costs more than all else at the end of a short run.
    pub fn report(&mut self) -> Report
        ensures { result ≡ record { core = self.old.id; items = self.old.items.items; clocks = []; marks = self.old.marks.items; ended = is_ended_phase self.old.kernel.progress.phase } }
    {
        let alloc = *self.items.allocator();
        Report {
            core: self.id,
            items: List::from_vec(mem::replace(&mut self.items, Vec::new(alloc))),
            clocks: List::new(alloc),
            marks: List::from_vec(mem::replace(&mut self.marks, Vec::new(alloc))),
            ended: self.has_ended(),
        }
    }
}

/// An empty vector with room for `capacity` elements, or with no room if the allocation fails.
pub fn roomy<T>(alloc: Global, capacity: usize) -> Vec<T>
    ensures { result.items ≡ [] }
{
    match Vec::with_capacity(alloc, capacity) {
        Ok(roomy) => roomy,
        Err(_) => Vec::new(alloc),
    }
}
