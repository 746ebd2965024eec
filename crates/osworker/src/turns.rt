//! What a worker's turn did, and why a worker stopped.

use osbase::{CoreId, Letter};

/// What a turn did.
#[derive(Clone, Copy)]
pub enum Turned {
    /// The core took an item.
    Took,
    /// Nothing changed. At most the turn looked at the board, tried a mailbox, or was refused a spinlock.
    Nothing,
    /// The worker took this letter from that core, and its own core could not take it.
    Refused(CoreId, Letter),
}

/// Why a worker stopped.
#[derive(Clone, Copy)]
pub enum Stop {
    /// The core has ended.
    Ended,
    /// As many turns in a row as were allowed changed nothing.
    Stalled,
    /// An allocation failed before a turn.
    NoMemory,
    /// The worker was told to stop, since another worker had no memory or some thread could not be started.
    Told,
    /// The worker took this letter from that core, and its own core could not take it.
    Refused(CoreId, Letter),
}
