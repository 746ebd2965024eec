//! The world of a listed run: its cores and what they share, turn by turn.

ghost use Rattle.std.specs.Prelude.{IsTrue, ◌≡◌, ◌<◌, ◌≤◌, ◌∷◌, [], Some, IfSome, IfOk, OnErr, false, vec_len, vec_capacity, length, map, not, ◌||◌, position, slice_get};
ghost use Rattle.std.specs.List.{list_all};
ghost use Rattle.std.proofs.Props.{props};
ghost use Rattle.osbase.specs.{declared.limits.TheConstants.CORES, declared.references.CoreId.CoreId as CoreIdValue, History.same_core, Sets.has_core};
ghost use Rattle.osplan.specs.Limits.{is_within_limits};
ghost use Rattle.osrun.specs.{declared.core_runs.CoreRun.CoreRun as CoreRunValue, CoreRuns.is_ended_phase, CoreRuns.report_of};
ghost use Rattle.osworld.specs.{World.first_world, Runs.round_by, Runs.serves_of, Runs.turns_in_round};

use crate::answering::Shared;
use osbase::{CORE_NUMBERS, CORES, Choice, CoreId, CoreStimuli, Item, Report, Turn};
use oskernel::Want;
use osplan::Config;
use osrun::CoreRun;
use ossame::is_same_item;
use std::alloc::{AllocError, Global};

/// The cores of a configuration in ascending order, and what they share. A turn finds its core by the table of places,
/// without going over the cores.
#[derive(Drop)]
pub struct World<'a> {
    config: &'a Config,
    core_runs: Vec<CoreRun<'a>>,
    places: [Option<usize>; CORES],
    reports: Vec<Report>,
    shared: Shared,
    ghost placed: { (core : CoreIdValue) → core.number < CORES → slice_get places core.number ≡ Some (position (λ (s : CoreRunValue). same_core s.id core) core_runs.items) } by { Prim.hlevel props },
}

impl<'a> World<'a> {
    ghost use Rattle.osworld.specs.Playing.{Plays, PlaysTurns, SitsAt, StopsShort};

    /// The world before the first turn, with room for the reports at the end.
    pub fn new(
        alloc: Global,
        config: &'a Config,
        stimuli: &'a [CoreStimuli],
    ) -> Result<Self, AllocError>
        ensures config { IfOk result (λ world. world.config.now ≡ config.now) }
        ensures plays { IfOk result (λ world. Plays config.now stimuli.now (first_world config.now) world.core_runs.items world.shared) }
        ensures reports { IfOk result (λ world. world.reports.items ≡ []) }
        ensures room { IfOk result (λ world. vec_len world.core_runs ≤ vec_capacity world.reports) }
        ensures limits { IsTrue (is_within_limits config.now) }
    {
        let plan = config.plan();
        let mut core_runs = Vec::with_capacity(alloc, plan.cores.len())?;
        for number in 0..CORE_NUMBERS {
            let id = CoreId { number };
            if plan.core(id).is_some() {
                core_runs.push(CoreRun::new(alloc, config, id, stimuli))?;
            }
        }
        Ok(World {
            config,
            reports: Vec::with_capacity(alloc, core_runs.len())?,
            places: places_of(core_runs.as_slice()),
            core_runs,
            shared: Shared::new(alloc, plan)?,
        })
    }

    /// Plays turns in order, and returns whether one of them appended an item. If an allocation fails, the turn that
    /// needed it changes nothing, and no further turn is played.
    pub fn play(&mut self, turns: &[Turn]) -> Result<bool, AllocError>
        ensures config { self.new.config ≡ self.old.config }
        ensures reports { self.new.reports ≡ self.old.reports }
        ensures len { vec_len self.new.core_runs ≡ vec_len self.old.core_runs }
        ensures ok { IfOk result (λ changed. PlaysTurns turns.now self.old changed self.new) }
        ensures err { OnErr result (StopsShort turns.now self.old self.new) }
    {
        let mut changed = false;
        for turn in turns {
            changed = self.turn(turn.0, turn.1)? | changed;
        }
        Ok(changed)
    }

    /// Plays one round of these cores, and returns whether a turn appended an item. If no envelope waits for a core,
    /// the turns at which that core would serve others are skipped, since they change nothing.
    pub fn play_round(&mut self, ids: &[CoreId]) -> Result<bool, AllocError>
        ensures config { self.new.config ≡ self.old.config }
        ensures reports { self.new.reports ≡ self.old.reports }
        ensures len { vec_len self.new.core_runs ≡ vec_len self.old.core_runs }
        ensures ok { IfOk result (λ changed. PlaysTurns (round_by ids.now) self.old changed self.new) }
        ensures err { OnErr result (StopsShort (round_by ids.now) self.old self.new) }
    {
        let mut changed = false;
        for id in ids {
            changed = self.play_core(ids, *id)? | changed;
        }
        Ok(changed)
    }

    // Plays the turns of one core in a round, and returns whether one of them appended an item.
    fn play_core(&mut self, ids: &[CoreId], id: CoreId) -> Result<bool, AllocError>
        ensures config { self.new.config ≡ self.old.config }
        ensures reports { self.new.reports ≡ self.old.reports }
        ensures len { vec_len self.new.core_runs ≡ vec_len self.old.core_runs }
        ensures ok { IfOk result (λ changed. PlaysTurns (turns_in_round ids.now id) self.old changed self.new) }
        ensures err { OnErr result (StopsShort (turns_in_round ids.now id) self.old self.new) }
    {
        let served = self.serve_all(ids, id)?;
        let own = self.turn(id, Choice::Own)?;
        let looked = self.turn(id, Choice::Look)?;
        Ok(looked | (own | served))
    }

    // Core `id` serves each of the other cores, as long as an envelope waits for core `id`. Returns whether a turn
    // appended an item.
    fn serve_all(&mut self, ids: &[CoreId], id: CoreId) -> Result<bool, AllocError>
        ensures config { self.new.config ≡ self.old.config }
        ensures reports { self.new.reports ≡ self.old.reports }
        ensures len { vec_len self.new.core_runs ≡ vec_len self.old.core_runs }
        ensures ok { IfOk result (λ changed. PlaysTurns (serves_of ids.now id) self.old changed self.new) }
        ensures err { OnErr result (StopsShort (serves_of ids.now id) self.old self.new) }
    {
        let mut changed = false;
        for other in ids {
            if !self.shared.has_mail(id) {
                return Ok(changed);
            }
            changed = self.serve(id, *other)? | changed;
        }
        Ok(changed)
    }

    // The core serves the other core, unless both are the same. Returns whether the turn appended an item.
    fn serve(&mut self, id: CoreId, other: CoreId) -> Result<bool, AllocError>
        ensures config { self.new.config ≡ self.old.config }
        ensures reports { self.new.reports ≡ self.old.reports }
        ensures len { vec_len self.new.core_runs ≡ vec_len self.old.core_runs }
        ensures ok { IfOk result (λ changed. PlaysTurns (serves_of (other ∷ []) id) self.old changed self.new) }
        ensures err { OnErr result (StopsShort (serves_of (other ∷ []) id) self.old self.new) }
    {
        if other.number == id.number {
            Ok(false)
        } else {
            self.turn(id, Choice::Serve(other))
        }
    }

    /// Plays one turn of a core: appends the item that results from the turn, or changes nothing. Returns whether it
    /// appended an item.
    pub fn turn(&mut self, core: CoreId, choice: Choice) -> Result<bool, AllocError>
        ensures config { self.new.config ≡ self.old.config }
        ensures reports { self.new.reports ≡ self.old.reports }
        ensures len { vec_len self.new.core_runs ≡ vec_len self.old.core_runs }
        ensures ok { IfOk result (λ changed. PlaysTurns ((core, choice) ∷ []) self.old changed self.new) }
        ensures err { OnErr result (StopsShort ((core, choice) ∷ []) self.old self.new) }
    {
        if self.serves_in_vain(core, choice) {
            return Ok(false);
        }
        let Some(at) = self.place_of(core) else {
            return Ok(false);
        };
        if self.shared.is_idle_look(&self.core_runs[at], choice) {
            return Ok(false);
        }
        self.take_turn(at, choice)
    }

    // Plays the turn of the core at this place, and returns whether it appended an item. This function is not inlined,
    // so that a turn that serves or looks in vain, as most do, does not pay for it.
    #[inline(never)]
    fn take_turn(&mut self, at: usize, choice: Choice) -> Result<bool, AllocError>
        requires { at < vec_len self.old.core_runs }
        ensures config { self.new.config ≡ self.old.config }
        ensures reports { self.new.reports ≡ self.old.reports }
        ensures len { vec_len self.new.core_runs ≡ vec_len self.old.core_runs }
        ensures ok { IfOk result (λ changed. (core : CoreIdValue) → SitsAt self.old.core_runs.items core at → PlaysTurns ((core, choice) ∷ []) self.old changed self.new) }
        ensures err { OnErr result ((core : CoreIdValue) → SitsAt self.old.core_runs.items core at → StopsShort ((core, choice) ∷ []) self.old self.new) }
    {
        let core_run = &mut self.core_runs[at];
        let Some((request, item)) = self.shared.next_item(core_run, choice) else {
            return Ok(false);
        };
        if !core_run.kernel.may_take(&item) {
            return Ok(false);
        }
        core_run.make_room()?;
        self.shared.apply(core_run.id, request);
        self.shared.deliver(core_run, &item);
        core_run.take(item);
        Ok(true)
    }

    // Whether the turn serves while no envelope waits for its core, as most turns do. Such a turn changes nothing.
    fn serves_in_vain(&self, core: CoreId, choice: Choice) -> bool
        ensures { IsTrue result → PlaysTurns ((core, choice) ∷ []) self.now false self.now }
    {
        match choice {
            Choice::Serve(_) => !self.shared.has_mail(core),
            _ => false,
        }
    }

    /// The choice by which a turn of the core would append this item, if one would. No turn is played: a turn that
    /// comes too early may append another item.
    pub fn choice_for(&self, core: CoreId, item: &Item) -> Option<Choice> {
        let at = self.place_of(core)?;
        let core_run = &self.core_runs[at];
        let choice = choice_of(core_run, item);
        let (_, named) = self.shared.next_item(core_run, choice)?;
        if is_same_item(named, *item) && core_run.kernel.may_take(&named) {
            Some(choice)
        } else {
            None
        }
    }

    /// Whether every started core has ended.
    pub fn is_over(&self) -> bool
        ensures { result ≡ list_all (λ (s : CoreRunValue). not (has_core self.now.shared.board.view.started s.id) || is_ended_phase s.kernel.progress.phase) self.now.core_runs.items }
    {
        let started = self.shared.board.look().started;
        self.core_runs.iter().all(|core_run| !started.contains(core_run.id) || core_run.has_ended())
    }

    /// The report of each core, in ascending order.
    pub fn finish(self) -> Vec<Report>
        requires none { self.reports.items ≡ [] }
        requires room { vec_len self.core_runs ≤ vec_capacity self.reports }
        ensures { result.items ≡ map report_of self.entry.core_runs.items }
    {
        let World {
            mut core_runs,
            mut reports,
            ..
        } = self;
        report_each(core_runs.as_mut_slice(), &mut reports);
        reports
    }

    // The place of the core among the world's cores; `None` if it is not one of them.
    fn place_of(&self, core: CoreId) -> Option<usize>
        ensures place { result ≡ position (λ (s : CoreRunValue). same_core s.id core) self.now.core_runs.items }
        ensures within { IfSome result (λ at. at < vec_len self.now.core_runs) }
    {
        let number = usize::from(core.number);
        if number < CORES {
            self.places[number]
        } else {
            None
        }
    }
}

// The choice by which a core takes this item, if it does. A core that requests a halt itself takes the halt item by its
// own turn, and any other core by a look.
fn choice_of(core_run: &CoreRun, item: &Item) -> Choice {
    match item {
        Item::On | Item::Pass1(_) | Item::Pass2(_) | Item::PassEnd | Item::Last(_) => Choice::Look,
        Item::Received { from, .. } => Choice::Serve(*from),
        Item::Halt { .. } => match core_run.kernel.want() {
            Want::AskHalt(_) => Choice::Own,
            _ => Choice::Look,
        },
        _ => Choice::Own,
    }
}

// Appends the report of each core, in order.
fn report_each(core_runs: &mut [CoreRun], reports: &mut Vec<Report>)
    requires none { reports.old.items ≡ [] }
    requires room { length core_runs.old ≤ vec_capacity reports.old }
    ensures { reports.new.items ≡ map report_of core_runs.old }
{
    for core_run in core_runs.iter_mut() {
        reports.push_reserved(core_run.report());
    }
}

// Each core's place among these, by core number.
fn places_of(core_runs: &[CoreRun]) -> [Option<usize>; CORES]
    ensures { (core : CoreIdValue) → core.number < CORES → slice_get result core.number ≡ Some (position (λ (s : CoreRunValue). same_core s.id core) core_runs.now) }
{
    let mut places = [None; CORES];
    for number in 0..CORE_NUMBERS {
        places[usize::from(number)] = place_in(core_runs, CoreId { number });
    }
    places
}

// The place of this core among these; `None` if it is not one of them.
fn place_in(core_runs: &[CoreRun], core: CoreId) -> Option<usize>
    ensures { result ≡ position (λ (s : CoreRunValue). same_core s.id core) core_runs.now }
{
    core_runs
        .iter()
        .position(|core_run| core_run.id.number == core.number)
}
