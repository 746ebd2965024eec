//! The words of an object, and the seats from which cores call it.

ghost use Rattle.std.specs.Prelude.{◌≡◌, ◌==◌, bit_or, IfOk};
ghost use prog.Atomic.{either};
ghost use Rattle.osshared.specs.{Histories.entry, Seats.Extends, Seats.IsOneHistory};
ghost use Rattle.osshared.specs.Calls.{AreAllSeats, CanBegin, HasBegun, MayCall};

use crate::histories::{Plan, SharedObject, View};
use atomic_table::{Join, Play, Seat, Split, Table, TableRule};
use osbase::CoreId;
use std::alloc::{AllocError, Global};
use std::marker::{Brand, Model, PhantomData};

/// What a seat at an object knows.
type Sight<O> = View<
    <O as SharedObject>::About,
    <O as SharedObject>::Call,
    <O as SharedObject>::Reply,
>;

/// The words stand for what one legal history makes of the object. That history begins with what each seat has seen,
/// and its calls are those made from the seats.
pub struct OneHistory<O> {
    object: PhantomData<O>,
}

impl<O: SharedObject> TableRule<(), Sight<O>, Plan<O::About>> for OneHistory<O> {
    ghost use Rattle.osshared.specs.Views.{Kept, dealer};

    ghost holds = { Kept O.object O.stands };

    ghost first = { λ plan. dealer plan plan.cores };
}

/// The call that a step makes, for the proof alone: a step cannot read it off the words. A call of the
/// functions below at `Brand` picks it.
pub trait Asked<C> {
    ghost use Rattle.std.specs.Prelude.{Option};

    ghost call: { Option C };
}

impl<C> Asked<C> for Brand {
    ghost use Rattle.std.specs.Prelude.{None};

    ghost call = { None };
}

/// A step is one call of its seat's core.
struct Making<O, W> {
    marker: PhantomData<(O, W)>,
}

impl<O: SharedObject, W: Asked<O::Call>> Play<(), Sight<O>> for Making<O, W> {
    ghost use Rattle.osshared.specs.Views.{made};

    ghost then = { λ s me found m. made O.object O.answer W.call me found m };
}

/// How the first core that has no seat yet gets one, and how one seat takes in the others at the end.
struct Seating<O> {
    object: PhantomData<O>,
}

impl<O: SharedObject> Split<Sight<O>> for Seating<O> {
    ghost use Rattle.osshared.specs.Views.{first_seat, seat_without_first};

    ghost left = { seat_without_first };

    ghost right = { first_seat };
}

impl<O: SharedObject> Join<Sight<O>> for Seating<O> {
    ghost use Rattle.osshared.specs.Views.{joined, spent};

    ghost both = { joined };

    ghost spent = { spent O.blank };
}

/// The last look of a seat that has taken in all others.
impl<O: SharedObject> Play<(), Sight<O>> for Seating<O> {
    ghost use Rattle.osshared.specs.Views.{Whole};

    ghost then = { λ s me found m. Whole O.object me.0 m.0 };
}

/// The seat of one core, which makes its calls from it.
#[derive(Drop)]
pub struct CoreSeat<O: SharedObject> {
    core: CoreId,
    seat: Seat<(), Sight<O>>,
}

impl<O: SharedObject> Model for CoreSeat<O> {
    ghost use Rattle.osshared.specs.{Seats.Held, Views.held_at, Views.IsSeated};

    ghost Value = { Held O.About O.Call O.Reply };

    ghost view = { λ s. held_at s.seat.table_id s.core s.seat.me };

    ghost invariant = { λ s. IsSeated s.core s.seat.me };
}

impl<O: SharedObject> CoreSeat<O> {
    /// The core that has the seat.
    pub fn core(&self) -> CoreId
        ensures { result ≡ self.now.core }
    {
        self.core
    }
}

/// The words of an object.
#[derive(Drop)]
pub struct SharedWords<O: SharedObject> {
    table: Table<(), Sight<O>, Plan<O::About>, OneHistory<O>, Global>,
}

impl<O: SharedObject> Model for SharedWords<O> {
    ghost use Rattle.std.specs.Prelude.{◌<◌};
    ghost use Rattle.osshared.specs.Seats.{Place, AllApart};

    ghost Value = { Place O.About };

    ghost view = { λ w. record { table = w.table.shared.table_id; plan = w.table.shared.key } };

    ghost invariant = { λ w. (0 < w.table.shared.table_id.words) × AllApart w.table.shared.key.cores };
}

impl<O: SharedObject> SharedWords<O> {
    /// A new object, whose words are these at first, and a seat for each core of the plan. No call was made yet.
    pub fn new(
        alloc: Global,
        words: &[u64],
        plan: &Plan<O::About>,
    ) -> Result<(SharedWords<O>, Vec<CoreSeat<O>>), AllocError>
        requires { CanBegin O.object O.stands plan.now words.now }
        ensures { IfOk result (λ r. HasBegun plan.now words.now r.0 r.1.items) }
    {
        let cores = plan.cores.as_slice();
        let mut seats = Vec::with_capacity(alloc, cores.len())?;
        let (table, mut dealer) = Table::of_words(alloc, words, plan)?;
        for core in cores {
            let seat = table.shared.split_seat::<Seating<O>>(&mut dealer);
            seats.push(CoreSeat { core: *core, seat })?;
        }
        Ok((SharedWords { table }, seats))
    }

    /// Makes the call by one atomic step, which reads a word. Returns the word.
    pub fn load<W: Asked<O::Call>>(&self, seat: &mut CoreSeat<O>, word: usize, call: O::Call) -> u64
        requires { MayCall O.object O.stands O.answer W.call self.now seat.old word call (λ n. n) }
        ensures { Extends O.object seat.old (entry seat.old.core call (O.answer seat.old.core call result)) seat.new }
    {
        self.table.shared.load::<Making<O, W>>(&mut seat.seat, word)
    }

    /// Makes the call by one atomic step, which replaces a word by `new` if the word is `expected`. Returns the word
    /// before the step.
    pub fn compare_exchange<W: Asked<O::Call>>(
        &self,
        seat: &mut CoreSeat<O>,
        word: usize,
        expected: u64,
        new: u64,
        call: O::Call,
    ) -> u64
        requires { MayCall O.object O.stands O.answer W.call self.now seat.old word call (λ n. either (n == expected) new n) }
        ensures { Extends O.object seat.old (entry seat.old.core call (O.answer seat.old.core call result)) seat.new }
    {
        self.table
            .shared
            .compare_exchange::<Making<O, W>>(&mut seat.seat, word, expected, new)
    }

    /// Makes the call by one atomic step, which sets bits of a word. Returns the word before the step.
    pub fn fetch_or<W: Asked<O::Call>>(
        &self,
        seat: &mut CoreSeat<O>,
        word: usize,
        bits: u64,
        call: O::Call,
    ) -> u64
        requires { MayCall O.object O.stands O.answer W.call self.now seat.old word call (λ n. bit_or n bits) }
        ensures { Extends O.object seat.old (entry seat.old.core call (O.answer seat.old.core call result)) seat.new }
    {
        self.table
            .shared
            .fetch_or::<Making<O, W>>(&mut seat.seat, word, bits)
    }

    /// Takes all seats back. Together they show one legal history, with their calls and no others.
    pub fn gather(&self, mut seats: Vec<CoreSeat<O>>)
        requires { AreAllSeats self.now seats.items }
        ensures { IsOneHistory O.object self.now.plan seats.items }
    {
        let Some(last) = seats.pop() else {
            return;
        };
        let CoreSeat { core: _, mut seat } = last;
        while let Some(next) = seats.pop() {
            let CoreSeat {
                core: _,
                seat: other,
            } = next;
            self.table.shared.join_seat::<Seating<O>>(&mut seat, other);
        }
        self.table.shared.load::<Seating<O>>(&mut seat, 0);
    }
}
