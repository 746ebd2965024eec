//! What the workers of a run share.

use crate::wakers::Wakers;
use osbase::{CoreId, CoreStimuli};
use osboard::Board;
use osplan::Config;
use osspin::{Clocks, SpinBank};
use std::sync::atomic::AtomicBool;

/// What the workers of a run share: the configuration, the listed stimuli, the configured cores (ascending), the board,
/// the spinlocks, the clocks of both, the wakers, whether to stop, and how many turns in a row may change nothing.
#[derive(Clone, Copy)]
pub struct Run<'a> {
    pub config: &'a Config,
    pub stimuli: &'a [CoreStimuli],
    pub cores: &'a [CoreId],
    pub board: &'a Board,
    pub bank: &'a SpinBank,
    pub clocks: &'a Clocks,
    pub wakers: &'a Wakers,
    pub told: &'a AtomicBool,
    pub turns: u64,
}
