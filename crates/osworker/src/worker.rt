//! A core at work.

ghost use Rattle.std.specs.Prelude.{◌≡◌, ◌<◌, ◌≤◌, length};
ghost use Rattle.osbase.specs.declared.limits.TheConstants.{CORES};

use crate::run::Run;
use crate::seats::Seats;
use crate::stamps::Stamps;
use crate::turns::Stop;
use osbase::Report;
use osrun::CoreRun;

/// A core at work: what it took and printed, its seats at what the cores share, its end of the mail, and the clocks of
/// its items.
#[derive(Drop)]
pub struct Worker<'a, M> {
    pub run: &'a Run<'a>,
    pub core: CoreRun<'a>,
    pub seats: Seats,
    pub mail: M,
    pub stamps: Stamps<'a>,
    ghost same_plan: { core.plan.now ≡ run.now.config.now },
    ghost same: { seats.board.core ≡ core.id },
    ghost placed: { seats.board.place ≡ run.now.board.now },
    ghost low: { seats.board.core.number < CORES },
    ghost same_spins: { seats.spins.core ≡ core.id },
    ghost placed_spins: { seats.spins.place ≡ run.now.bank.now },
}

/// A worker in its rounds, with its place in the round and the number of turns in a row that changed nothing.
#[derive(Drop)]
pub struct Shift<'a, M> {
    pub worker: Worker<'a, M>,
    pub at: usize,
    pub fruitless: u64,
    ghost place: { at ≤ length worker.run.now.cores.now },
}

/// What a worker hands back: its core's report, its seats and its end of the mail, and why it stopped.
#[derive(Drop)]
pub struct Worked<M> {
    pub report: Report,
    pub seats: Seats,
    pub mail: M,
    pub stop: Stop,
}
