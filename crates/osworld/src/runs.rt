//! Runs: listed turns, and the default schedule.

ghost use Rattle.std.specs.Prelude.{IsTrue, ◌≡◌, ◌++◌, ◌≤◌, ◌||◌, [], IfOk, IfErr, OnErr, OnOk, true, vec_len, vec_capacity};
ghost use Rattle.osplan.specs.{Limits.is_within_limits, Stimuli.AreKnown};
ghost use Rattle.osworld.specs.World.{first_world};
ghost use Rattle.osworld.specs.Runs.{round_by, rounds as rounds_of, turns_in_round, AreReports, HasNoSchedule, IsBrokenOff, IsDefaultBrokenOff, IsDefaultRun, IsDefaultSchedule};
ghost use Rattle.osworld.specs.Playing.{IsBegun, IsRound, Plays, PlaysDefault, StopsDefaultShort};

use crate::worlds::World;
use osbase::{Choice, CoreId, List, Report, Schedule, Stimuli, Turn};
use osplan::Config;
use osrun::ids_of;
use std::alloc::{AllocError, Global};
use thiserror::Error;

/// Why there is no run, or only the start of one.
#[derive(Debug, Drop, Error)]
pub enum RunFault {
    /// No turn was played, and there is nothing to report: an allocation failed for the cores' seats, the mailboxes,
    /// the reports or a round.
    #[error("out of memory")]
    NotBegun,
    /// An allocation failed before the turn that needed it. The reports are those of the turns before.
    #[error("out of memory")]
    NoMemory { reports: Vec<Report> },
}

/// Plays these turns. The reports are those of the world after the turns, one for each configured core in
/// ascending order. The cores' items fit one another, and each separate core prints what its configuration
/// alone prints. If an allocation fails before a turn that would have appended an item, the fault `NoMemory` has the
/// reports of the turns before. The fault `NotBegun` has none.
pub fn run_world(
    alloc: Global,
    config: &Config,
    stimuli: &Stimuli,
    turns: &[Turn],
) -> Result<Vec<Report>, RunFault>
    requires { AreKnown config.now stimuli.now }
    ensures world { IfOk result (λ reports. AreReports config.now stimuli.now turns.now reports.items) }
    ensures broken_off { IfErr result (IsBrokenOff config.now stimuli.now turns.now) }
{
    let mut world = begin(alloc, config, stimuli)?;
    match world.play(turns) {
        Ok(_) => Ok(world.finish()),
        Err(_) => Err(RunFault::NoMemory {
            reports: world.finish(),
        }),
    }
}

/// Plays the default schedule (`default_schedule`). Reports and faults are those of `run_world` for the schedule's
/// turns.
pub fn run_default(
    alloc: Global,
    config: &Config,
    stimuli: &Stimuli,
) -> Result<Vec<Report>, RunFault>
    requires { AreKnown config.now stimuli.now }
    ensures default { IfOk result (λ reports. IsDefaultRun config.now stimuli.now reports.items) }
    ensures broken_off { IfErr result (IsDefaultBrokenOff config.now stimuli.now) }
{
    let Ok(ids) = ids_of(alloc, config.plan()) else {
        return Err(RunFault::NotBegun);
    };
    let mut world = begin(alloc, config, stimuli)?;
    match play_rounds(&mut world, ids.as_slice()) {
        Ok(_) => Ok(world.finish()),
        Err(_) => Err(RunFault::NoMemory {
            reports: world.finish(),
        }),
    }
}

/// The default schedule: whole rounds. In each round, every core by ascending number serves every other core, does its
/// own work and looks at the board. The last round is the first at whose end every started core has ended, or in which
/// nothing changed. The fault `NoMemory` has the reports of the turns played to find the schedule: a prefix of the
/// schedule's turns, or all of them if the schedule itself could not grow. The fault `NotBegun` has none.
pub fn default_schedule(
    alloc: Global,
    config: &Config,
    stimuli: &Stimuli,
) -> Result<Schedule, RunFault>
    requires { AreKnown config.now stimuli.now }
    ensures default { IfOk result (λ schedule. IsDefaultSchedule config.now stimuli.now schedule) }
    ensures broken_off { IfErr result (HasNoSchedule config.now stimuli.now) }
{
    let Ok(ids) = ids_of(alloc, config.plan()) else {
        return Err(RunFault::NotBegun);
    };
    let mut world = begin(alloc, config, stimuli)?;
    let Ok(rounds) = play_rounds(&mut world, ids.as_slice()) else {
        return Err(RunFault::NoMemory {
            reports: world.finish(),
        });
    };
    match scheduled(alloc, ids.as_slice(), rounds) {
        Ok(schedule) => Ok(schedule),
        Err(_) => Err(RunFault::NoMemory {
            reports: world.finish(),
        }),
    }
}

// Plays whole rounds of these cores up to the end of the default schedule, and returns how many there are.
fn play_rounds(world: &mut World, ids: &[CoreId]) -> Result<u64, AllocError>
    requires round { IsRound world.old.config.now (round_by ids.now) }
    requires begun { IsBegun world.old.config.now world.old.core_runs.items world.old.shared }
    ensures reports { world.new.reports ≡ world.old.reports }
    ensures len { vec_len world.new.core_runs ≡ vec_len world.old.core_runs }
    ensures ok { IfOk result (λ rounds. PlaysDefault world.old rounds world.new) }
    ensures err { OnErr result (StopsDefaultShort world.old world.new) }
{
    for rounds in 1..u64::MAX {
        let changed = world.play_round(ids)?;
        if world.is_over() | !changed {
            return Ok(rounds);
        }
    }
    unreachable!()
}

// The turns of `rounds` rounds of these cores.
fn scheduled(alloc: Global, ids: &[CoreId], rounds: u64) -> Result<Schedule, AllocError>
    ensures { IfOk result (λ schedule. schedule ≡ rounds_of rounds (round_by ids.now)) }
{
    let round = round_of(alloc, ids)?;
    repeated(alloc, round.as_slice(), rounds)
}

// The turns of this round, `rounds` times.
fn repeated(alloc: Global, round: &[Turn], rounds: u64) -> Result<Schedule, AllocError>
    ensures { IfOk result (λ schedule. schedule ≡ rounds_of rounds round.now) }
{
    let mut schedule = List::new(alloc);
    for _ in 0..rounds {
        append(&mut schedule, round)?;
    }
    Ok(schedule)
}

// The world before the first turn, or the fault `NotBegun`.
fn begin<'a>(alloc: Global, config: &'a Config, stimuli: &'a Stimuli) -> Result<World<'a>, RunFault>
    ensures config { IfOk result (λ world. world.config.now ≡ config.now) }
    ensures plays { IfOk result (λ world. Plays config.now stimuli.now (first_world config.now) world.core_runs.items world.shared) }
    ensures reports { IfOk result (λ world. world.reports.items ≡ []) }
    ensures room { IfOk result (λ world. vec_len world.core_runs ≤ vec_capacity world.reports) }
    ensures nothing { IfErr result (λ fault. fault ≡ RunFault.NotBegun) }
    ensures limits { IsTrue (is_within_limits config.now) }
{
    match World::new(alloc, config, stimuli.as_slice()) {
        Ok(world) => Ok(world),
        Err(_) => Err(RunFault::NotBegun),
    }
}

// The turns of one round of these cores.
fn round_of(alloc: Global, ids: &[CoreId]) -> Result<Vec<Turn>, AllocError>
    ensures { IfOk result (λ round. round.items ≡ round_by ids.now) }
{
    let mut round = Vec::new(alloc);
    for id in ids {
        push_turns(&mut round, ids, *id)?;
    }
    Ok(round)
}

// Appends the turns of core `id` in a round of these cores.
fn push_turns(round: &mut Vec<Turn>, ids: &[CoreId], id: CoreId) -> Result<(), AllocError>
    ensures { OnOk result (round.new.items ≡ round.old.items ++ turns_in_round ids.now id) }
{
    for other in ids {
        if other.number != id.number {
            round.push((id, Choice::Serve(*other)))?;
        }
    }
    round.push((id, Choice::Own))?;
    round.push((id, Choice::Look))?;
    Ok(())
}

fn append(schedule: &mut Schedule, round: &[Turn]) -> Result<(), AllocError>
    ensures { OnOk result (schedule.new ≡ schedule.old ++ round.now) }
{
    for turn in round {
        schedule.push(*turn)?;
    }
    Ok(())
}
