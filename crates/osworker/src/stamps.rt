//! The logical clocks of one core's items.
//!
//! Each item's clock is greater than the clocks of all that the core knew of when it took the item. So one order of all
//! cores' items can be sought by their clocks. Nothing is promised of the numbers: an order is checked by playing it.

ghost use Rattle.std.specs.Prelude.{◌≡◌, ◌<◌, OnOk, vec_len, vec_capacity};
ghost use Rattle.osbase.specs.declared.limits.TheConstants.{SPINLOCKS};
ghost use Rattle.osspin.specs.Clocked.{IsKnown};
ghost use Rattle.osrun.specs.Requests.{spin_call_of};

use osbase::{Item, List};
use osboard::BoardCall;
use oskernel::SpinWish;
use osrun::roomy;
use osspin::{ClockSeat, Clocked, Clocks};
use std::alloc::{AllocError, Global};

/// The clocks of a core's items so far. `number` is the clock of its last item.
#[derive(Drop)]
pub struct Stamps<'a> {
    seat: ClockSeat<'a>,
    number: u64,
    // The greatest clock that was loaded or received since the last item, for the next one.
    heard: u64,
    pub clocks: Vec<u64>,
}

impl<'a> Stamps<'a> {
    /// The stamps before the first item, with room for `capacity` clocks if memory allows.
    pub fn new(alloc: Global, clocks: &'a Clocks, capacity: usize) -> Self {
        Stamps {
            seat: clocks.seat(),
            number: 0,
            heard: 0,
            clocks: roomy(alloc, capacity),
        }
    }

    /// Makes room for the clock of one more item.
    #[inline(always)]
    pub fn make_room(&mut self) -> Result<(), AllocError>
        ensures { OnOk result (vec_len self.new.clocks < vec_capacity self.new.clocks) }
    {
        self.clocks.reserve(1)
    }

    /// The clock of the core's next change that other cores can see: one more than that of the core's last item.
    pub fn next(&self) -> u64 {
        self.number.saturating_add(1)
    }

    /// Raises the clock of the board or a spinlock to at least `next`. Called before the core changes the board or the
    /// spinlock.
    pub fn raise(&mut self, clocked: Clocked)
        requires { IsKnown clocked }
        ensures { self.new.clocks ≡ self.old.clocks }
    {
        let next = self.next();
        self.seat.raise(clocked, next);
    }

    /// Reads the clock of the board or a spinlock, as other cores left it. The next item's clock will be greater.
    pub fn read(&mut self, clocked: Clocked)
        requires { IsKnown clocked }
        ensures { self.new.clocks ≡ self.old.clocks }
    {
        let clock = self.seat.read(clocked);
        self.hear(clock);
    }

    /// Notes a clock that came from another core. The next item's clock will be greater.
    pub fn hear(&mut self, clock: u64)
        ensures { self.new.clocks ≡ self.old.clocks }
    {
        self.heard = self.heard.max(clock);
    }

    /// Gives a clock to the item that the core takes: greater than that of the last item and all noted since then.
    pub fn stamp(&mut self)
        requires { vec_len self.old.clocks < vec_capacity self.old.clocks }
    {
        self.number = self.number.max(self.heard).saturating_add(1);
        self.heard = 0;
        self.clocks.push_reserved(self.number);
    }

    /// Reads the board's clock after a start of a core or a request of a shutdown: another core may have started the
    /// core or requested a shutdown before.
    pub fn after_board(&mut self, call: BoardCall)
        ensures { self.new.clocks ≡ self.old.clocks }
    {
        if let BoardCall::Start(_) | BoardCall::AskHalt(_) = call {
            self.read(Clocked::Board);
        }
    }

    /// Raises the spinlock's clock before a call that releases the spinlock, for the core that takes the spinlock next.
    pub fn before_spinlock(&mut self, wish: SpinWish)
        requires { (spin_call_of wish).lock.index < SPINLOCKS }
        ensures { self.new.clocks ≡ self.old.clocks }
    {
        if let SpinWish::Free(lock) = wish {
            self.raise(Clocked::Spinlock(lock));
        }
    }

    /// Reads the spinlock's clock after a call that took it, since another core may have released it before.
    pub fn after_spinlock(&mut self, wish: SpinWish, item: &Item)
        requires { (spin_call_of wish).lock.index < SPINLOCKS }
        ensures { self.new.clocks ≡ self.old.clocks }
    {
        match (wish, *item) {
            (SpinWish::Get(lock), _) | (SpinWish::Try(lock), Item::Tried { taken: true, .. }) => {
                self.read(Clocked::Spinlock(lock));
            }
            _ => {}
        }
    }

    /// The clocks of the items, in their order.
    pub fn into_clocks(self) -> List<u64>
        ensures { result ≡ self.entry.clocks.items }
    {
        List::from_vec(self.clocks)
    }
}
