//! Logical clocks: a number for each spinlock and one for the board, from which one order for all cores' items can be
//! read.

ghost use Rattle.std.specs.Prelude.{◌≡◌, ◌<◌, ◌+◌};
ghost use Rattle.osbase.specs.declared.limits.TheConstants.{SPINLOCKS};
ghost use Rattle.osspin.specs.Clocked.{IsKnown};

use atomic_table::{Play, Seat, Table, TableRule};
use osbase::{SPINLOCKS, SpinlockId};
use std::alloc::{AllocError, Global};

// The words for the spinlocks, and behind them the board's.
const CLOCKS: usize = SPINLOCKS + 1;

/// What has a logical clock beside the envelopes.
#[derive(Clone, Copy, Debug, PartialEq, Eq)]
pub enum Clocked {
    /// A spinlock.
    Spinlock(SpinlockId),
    /// The board.
    Board,
}

// Nothing is said of the numbers, and a step tells nothing.
struct Untold;

impl TableRule<(), (), ()> for Untold {
    ghost holds = { λ key state. Unit {0} };

    ghost first = { λ key. tt };
}

impl Play<(), ()> for Untold {
    ghost then = { λ step me found new. Unit {0} };
}

/// The clocks of cores that run at once. A call waits for nothing and takes no memory. Nothing is promised of their
/// numbers.
#[derive(Drop)]
pub struct Clocks {
    table: Table<(), (), (), Untold, Global>,
    ghost words: { table.shared.table_id.words ≡ SPINLOCKS + 1 },
}

impl Clocks {
    /// Clocks that stand at 0. All the memory that they ever need is taken here.
    pub fn new(alloc: Global) -> Result<Self, AllocError> {
        let (table, _) = Table::of_words(alloc, &[0; CLOCKS], &())?;
        Ok(Clocks { table })
    }

    /// A seat for one core's calls.
    pub fn seat(&self) -> ClockSeat<'_> {
        let (_, seat) = self.table.shared.load_new_seat::<Untold>(0);
        ClockSeat { clocks: self, seat }
    }
}

/// The seat from which one core sets and reads the clocks.
#[derive(Drop)]
pub struct ClockSeat<'a> {
    clocks: &'a Clocks,
    seat: Seat<(), ()>,
    ghost place: { seat.table_id ≡ clocks.now.table.shared.table_id },
}

impl<'a> ClockSeat<'a> {
    /// If a clock is behind this number, sets it to the number.
    pub fn raise(&mut self, clocked: Clocked, number: u64)
        requires { IsKnown clocked }
    {
        let word = word_index(clocked);
        self.clocks
            .table
            .shared
            .fetch_max::<Untold>(&mut self.seat, word, number);
    }

    /// The number of a clock.
    pub fn read(&mut self, clocked: Clocked) -> u64
        requires { IsKnown clocked }
    {
        let word = word_index(clocked);
        self.clocks
            .table
            .shared
            .load::<Untold>(&mut self.seat, word)
    }
}

// The index of the clock's word: a spinlock's own index; the board's clock comes after all of them.
fn word_index(clocked: Clocked) -> usize
    requires { IsKnown clocked }
    ensures { result < SPINLOCKS + 1 }
{
    match clocked {
        Clocked::Spinlock(lock) => usize::from(lock.index),
        Clocked::Board => SPINLOCKS,
    }
}
