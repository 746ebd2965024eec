//! Spinlock words, shared by the threads of the cores.

ghost use Rattle.std.specs.Prelude.{◌≡◌, ◌<◌, map, IfOk};
ghost use Rattle.osshared.specs.Histories.{entry};
ghost use Rattle.osshared.specs.Seats.{AllApart, AllAt, Extends, IsOneHistory, cores_of, fresh};
ghost use Rattle.osspin.specs.Spins.{free_call, look_call, spinlocks, try_take_call};

use crate::calls::{SpinAction, SpinCall, SpinReply, Spinlocks, holder_in, word_of};
use osbase::{CoreId, List, SPINLOCKS, SpinlockId};
use osshared::{CoreSeat, Plan, SharedWords};
use std::alloc::{AllocError, Global};
use std::marker::{Brand, Model};

/// The seat from which a core takes and frees spinlocks.
pub type SpinSeat = CoreSeat<Spinlocks>;

/// The spinlocks of cores that run at once. A call takes the caller's seat, waits for nothing and takes no
/// memory; its reply is what one lock answers at that point of one history of all calls. It is not promised
/// that a core is ever granted a spinlock.
#[derive(Drop)]
pub struct SpinBank {
    words: SharedWords<Spinlocks>,
}

impl Model for SpinBank {
    ghost use Rattle.std.specs.Prelude.{◌≡◌};
    ghost use Rattle.osshared.specs.Seats.{Place};
    ghost use Rattle.osbase.specs.declared.limits.TheConstants.{SPINLOCKS};

    ghost Value = { Place Unit };

    ghost view = { λ b. b.words };

    ghost invariant = { λ b. b.words.table.words ≡ SPINLOCKS };
}

impl SpinBank {
    /// Spinlocks that no core holds, and a seat for each of these cores. All the memory that the bank ever
    /// needs is taken here.
    pub fn new(alloc: Global, cores: List<CoreId>) -> Result<(SpinBank, Vec<SpinSeat>), AllocError>
        requires { AllApart cores }
        ensures cores { IfOk result (λ r. r.0.plan.cores ≡ cores) }
        ensures seats { IfOk result (λ r. r.1.items ≡ map (λ c. fresh r.0 c) cores) }
    {
        let plan = Plan { cores, about: () };
        let free = [word_of(None); SPINLOCKS];
        let (words, seats) = SharedWords::new(alloc, &free, &plan)?;
        Ok((SpinBank { words }, seats))
    }

    /// Takes the spinlock if no core holds it, and says whether it did (AUTOSAR SWS OS 4.x,
    /// TryToGetSpinlock). A refusal changes nothing.
    pub fn try_take(&self, seat: &mut SpinSeat, lock: SpinlockId) -> bool
        requires place { seat.old.place ≡ self.now }
        requires lock { lock.index < SPINLOCKS }
        ensures { Extends spinlocks seat.old (try_take_call seat.old.core lock result) seat.new }
    {
        let mine = word_of(Some(seat.core()));
        let call = SpinCall {
            lock,
            action: SpinAction::Take,
        };
        let index = usize::from(lock.index);
        let found = self
            .words
            .compare_exchange::<Brand>(seat, index, word_of(None), mine, call);
        found == word_of(None)
    }

    /// Frees the spinlock if the caller holds it, and says whether it did (AUTOSAR SWS OS 4.x,
    /// ReleaseSpinlock). A refusal changes nothing.
    pub fn free(&self, seat: &mut SpinSeat, lock: SpinlockId) -> bool
        requires place { seat.old.place ≡ self.now }
        requires lock { lock.index < SPINLOCKS }
        ensures { Extends spinlocks seat.old (free_call seat.old.core lock result) seat.new }
    {
        let mine = word_of(Some(seat.core()));
        let call = SpinCall {
            lock,
            action: SpinAction::Free,
        };
        let index = usize::from(lock.index);
        let found = self
            .words
            .compare_exchange::<Brand>(seat, index, mine, word_of(None), call);
        found == mine
    }

    /// The core that holds the spinlock, if any.
    pub fn look(&self, seat: &mut SpinSeat, lock: SpinlockId) -> Option<CoreId>
        requires place { seat.old.place ≡ self.now }
        requires lock { lock.index < SPINLOCKS }
        ensures { Extends spinlocks seat.old (look_call seat.old.core lock result) seat.new }
    {
        let call = SpinCall {
            lock,
            action: SpinAction::Look,
        };
        let index = usize::from(lock.index);
        holder_in(self.words.load::<Brand>(seat, index, call))
    }

    /// Makes any of the three calls, of any spinlock, and gives its reply.
    pub fn call(&self, seat: &mut SpinSeat, call: SpinCall) -> SpinReply
        requires place { seat.old.place ≡ self.now }
        requires lock { call.lock.index < SPINLOCKS }
        ensures { Extends spinlocks seat.old (entry seat.old.core call result) seat.new }
    {
        match call.action {
            SpinAction::Take => SpinReply::Answered(self.try_take(seat, call.lock)),
            SpinAction::Free => SpinReply::Answered(self.free(seat, call.lock)),
            SpinAction::Look => SpinReply::Seen(self.look(seat, call.lock)),
        }
    }

    /// Takes all seats back. Together they show one legal history, with their calls and no others.
    pub fn gather(&self, seats: Vec<SpinSeat>)
        requires places { AllAt self.now seats.items }
        requires cores { cores_of seats.items ≡ self.now.plan.cores }
        ensures { IsOneHistory spinlocks self.now.plan seats.items }
    {
        self.words.gather(seats);
    }
}
