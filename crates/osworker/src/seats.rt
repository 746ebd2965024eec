//! A core's seats at what all cores share.

use osboard::BoardSeat;
use osspin::SpinSeat;

/// The seats from which a core calls what all cores share: the board, and the spinlocks.
#[derive(Drop)]
pub struct Seats {
    pub board: BoardSeat,
    pub spins: SpinSeat,
}
