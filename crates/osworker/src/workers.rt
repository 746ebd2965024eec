//! A worker's turns. Each makes at most one call of the board, of one spinlock or of one mailbox, and none allocates.
//! A turn raises the clock of what it changes before the call, and reads the clock of what its item depends on after.

ghost use Rattle.std.specs.Prelude.{false, ◌≡◌, ◌<◌, ◌⊎◌, IsTrue, OnOk};
ghost use Rattle.osadmit.specs.Admission.{takes_in};
ghost use Rattle.oskernel.specs.{Step.outbox_size, Wants.watch_in, declared.wants.Watch.TheVariants.Halt};
ghost use Rattle.osshared.specs.{Histories.entry, Seats.Extends};
ghost use Rattle.osspin.specs.{declared.calls.SpinReply.TheVariants.Answered, Spins.spinlocks};
ghost use Rattle.osrun.specs.{declared.requests.Reply.Reply as ReplyValue, declared.requests.Reply.TheVariants.Unasked, declared.requests.Request.TheVariants.OfBoard, declared.requests.Request.TheVariants.OfSpins, declared.requests.Request.TheVariants.Room, Requests.spin_call_of};
ghost use Rattle.osbase.specs.declared.limits.TheConstants.{SPINLOCKS};
ghost use Rattle.osworker.specs.Calling.{ChangesBoard, LoadsBoard, item_of_call, item_of_wish};
ghost use Rattle.osworker.specs.declared.turns.Turned.TheVariants.{Nothing};
ghost use Rattle.osworker.specs.Working.{AsksBoard, HasNoWork, HasTaken, IsAsked, IsFruitless, IsTurn, IsUnchanged, MayAnswer, MayTake, MayTurn, MayWait, UnlessTook};

use crate::turns::Turned;
use crate::worker::Worker;
use osbase::{Choice, CoreId, Item, Status};
use osboard::BoardCall;
use oskernel::Watch;
use osmail::Mail;
use osrun::{Reply, Request, SpinWish, look_request, spin_call_of};
use osspin::Clocked;
use std::alloc::AllocError;

impl<'a, M: Mail> Worker<'a, M> {
    /// Makes room for what a turn may add: an item, its lines, its clock, and the record of an envelope.
    pub fn make_room(&mut self) -> Result<(), AllocError>
        ensures room { OnOk result (MayTurn M.has_room self.new) }
        ensures keeps { IsUnchanged M.sent M.taken M.which self.old self.new }
    {
        self.core.make_room()?;
        self.stamps.make_room()?;
        self.mail.room()
    }

    /// Serves the core `from`: takes its oldest envelope, if this core may serve and an envelope came. If this core
    /// cannot take the letter, the result is `Refused`. If nothing was taken, the room stays.
    pub fn serve(&mut self, from: CoreId) -> Turned
        requires { MayTurn M.has_room self.old }
        ensures turn { IsTurn M.sent M.taken M.which 0 result self.old self.new }
        ensures room { result ≡ Nothing → MayTurn M.has_room self.new }
    {
        if !self.core.kernel.may_serve() {
            return Turned::Nothing;
        }
        let Some(envelope) = self.mail.take(from) else {
            return Turned::Nothing;
        };
        let item = Item::Received {
            from,
            number: envelope.letter.number,
            message: envelope.letter.message,
        };
        if !self.core.kernel.may_take(&item) {
            return Turned::Refused(from, envelope.letter);
        }
        self.stamps.hear(envelope.clock);
        self.take(item);
        Turned::Took
    }

    /// Takes the core's own turn: does what the core wants, if it can be done and the core can take the item that
    /// results.
    pub fn own(&mut self) -> Turned
        requires { MayTurn M.has_room self.old }
        ensures turn { IsTurn M.sent M.taken M.which 0 result self.old self.new }
        ensures stuck { UnlessTook result (HasNoWork self.old) }
    {
        let Some(request) = self.core.request_of_turn(Choice::Own) else {
            return Turned::Nothing;
        };
        match request {
            Request::OfBoard(call) => self.write_board(call),
            Request::Room(to) => self.post(to),
            Request::StartUnknown(_) => self.take_without_call(request),
            Request::TakeStimulus(_) => self.take_without_call(request),
            Request::OfSpins(wish) => self.call_spinlock(wish),
            Request::Oldest(_) => unreachable!(),
        }
    }

    /// Looks at the board: loads one of its words, even if the core waits for nothing there. Takes the item that
    /// results, if the core can.
    pub fn look(&mut self) -> Turned
        requires { MayTake self.old }
        ensures { IsTurn M.sent M.taken M.which 1 result self.old self.new }
    {
        let watch = self.core.kernel.watch();
        if let Watch::Halt = watch {
            return self.look_halt();
        }
        match look_request(watch) {
            Request::OfBoard(call) => self.load_board(call),
            _ => unreachable!(),
        }
    }

    // Looks whether a shutdown of all cores was requested, which is rare, and if so takes the halt item.
    fn look_halt(&mut self) -> Turned
        requires room { MayTake self.old }
        requires watch { watch_in self.old.core.kernel ≡ Halt }
        ensures { IsTurn M.sent M.taken M.which 1 result self.old self.new }
    {
        let Some((core, status)) = self.run.board.look_halt(&mut self.seats.board) else {
            return Turned::Nothing;
        };
        if self.take_found(Item::Halt { core, status }) {
            Turned::Took
        } else {
            Turned::Nothing
        }
    }

    // Loads a word of the board, and takes the item that results, if there is one that the core can take.
    fn load_board(&mut self, call: BoardCall) -> Turned
        requires room { MayTake self.old }
        requires loads { LoadsBoard call }
        requires request { AsksBoard self.old call }
        ensures { IsTurn M.sent M.taken M.which 1 result self.old self.new }
    {
        let answer = Reply::Replied(self.run.board.call(&mut self.seats.board, call));
        let Some(item) = self.core.item_for_reply(Request::OfBoard(call), &answer) else {
            return Turned::Nothing;
        };
        if self.take_found(item) {
            Turned::Took
        } else {
            Turned::Nothing
        }
    }

    // The core takes the item that it found on the board, if it can. Returns whether it did.
    #[inline(never)]
    fn take_found(&mut self, item: Item) -> bool
        requires { MayTake self.old }
        ensures result { result ≡ takes_in outbox_size self.old.core.kernel item }
        ensures taken { IsTrue result → HasTaken self.old self.new item }
        ensures none { result ≡ false → self.new ≡ self.old }
    {
        if !self.core.kernel.may_take(&item) {
            return false;
        }
        self.stamps.read(Clocked::Board);
        self.take(item);
        true
    }

    // If the core may take the item that results from this call, makes the call, which changes the board, and takes the
    // item.
    fn write_board(&mut self, call: BoardCall) -> Turned
        requires room { MayTake self.old }
        requires changes { ChangesBoard call }
        requires request { AsksBoard self.old call }
        ensures turn { IsTurn M.sent M.taken M.which 0 result self.old self.new }
        ensures stuck { UnlessTook result ((answer : ReplyValue) → MayAnswer self.old.core.id (OfBoard call) answer → IsFruitless self.old.core.id self.old.core.kernel (OfBoard call) answer) }
    {
        if !self.core.kernel.may_take(&item_of_call(self.core.id, call)) {
            return Turned::Nothing;
        }
        self.stamps.raise(Clocked::Board);
        let answer = Reply::Replied(self.run.board.call(&mut self.seats.board, call));
        let Some(item) = self.core.item_for_reply(Request::OfBoard(call), &answer) else {
            unreachable!()
        };
        self.stamps.after_board(call);
        self.take(item);
        Turned::Took
    }

    // If the core may take the item of a call that succeeds, calls the spinlock and takes the item that results. A call
    // of GetSpinlock or ReleaseSpinlock that is refused results in none.
    fn call_spinlock(&mut self, wish: SpinWish) -> Turned
        requires room { MayTake self.old }
        requires lock { (spin_call_of wish).lock.index < SPINLOCKS }
        requires asked { IsAsked self.old.run.now.config.now self.old.core (OfSpins wish) }
        ensures turn { IsTurn M.sent M.taken M.which 0 result self.old self.new }
        ensures stuck { UnlessTook result (MayWait (OfSpins wish) ⊎ ((answer : ReplyValue) → MayAnswer self.old.core.id (OfSpins wish) answer → IsFruitless self.old.core.id self.old.core.kernel (OfSpins wish) answer)) }
        // A turn that took nothing made no call, since the core does not take the item, or its call was refused.
        ensures called { UnlessTook result ((takes_in outbox_size self.old.core.kernel (item_of_wish wish) ≡ false) ⊎ Extends spinlocks self.old.seats.spins (entry self.old.core.id (spin_call_of wish) (Answered false)) self.new.seats.spins) }
    {
        if !self.core.kernel.may_take(&item_of_wish(wish)) {
            return Turned::Nothing;
        }
        self.stamps.before_spinlock(wish);
        let answer = Reply::Spun(
            self.run
                .bank
                .call(&mut self.seats.spins, spin_call_of(wish)),
        );
        let Some(item) = self.core.item_for_reply(Request::OfSpins(wish), &answer) else {
            return Turned::Nothing;
        };
        self.stamps.after_spinlock(wish, &item);
        self.take(item);
        Turned::Took
    }

    // Sends the front of the outbox, if the mailbox for that core has room and the core may take the item of a post.
    fn post(&mut self, to: CoreId) -> Turned
        requires room { MayTurn M.has_room self.old }
        requires asked { IsAsked self.old.run.now.config.now self.old.core (Room to) }
        ensures { IsTurn M.sent M.taken M.which 0 result self.old self.new }
    {
        let posted = Item::Posted(to);
        if !self.core.kernel.may_take(&posted) {
            return Turned::Nothing;
        }
        let Some((_, mut envelope)) = self.core.kernel.front() else {
            return Turned::Nothing;
        };
        envelope.clock = self.stamps.next();
        match self.mail.send(to, envelope) {
            Ok(()) => {
                self.take(posted);
                Turned::Took
            }
            Err(_) => Turned::Nothing,
        }
    }

    // The core takes an item, which gets its clock.
    #[inline(always)]
    fn take(&mut self, item: Item)
        requires room { MayTake self.old }
        requires taken { IsTrue (takes_in outbox_size self.old.core.kernel item) }
        ensures { HasTaken self.old self.new item }
    {
        self.stamps.stamp();
        self.core.take(item);
    }

    // Does what needs no call: the core's next stimulus, or the start of a core that is not configured.
    fn take_without_call(&mut self, request: Request) -> Turned
        requires room { MayTake self.old }
        requires asked { IsAsked self.old.run.now.config.now self.old.core request }
        ensures turn { IsTurn M.sent M.taken M.which 0 result self.old self.new }
        ensures stuck { UnlessTook result (IsFruitless self.old.core.id self.old.core.kernel request Unasked) }
    {
        let Some(item) = self.core.item_for_reply(request, &Reply::Unasked) else {
            return Turned::Nothing;
        };
        if !self.core.kernel.may_take(&item) {
            return Turned::Nothing;
        }
        self.take(item);
        Turned::Took
    }
}

// The item in which a core's call that changes the board results. For a start, this is so if the core to start was not
// started before; for a request of a shutdown, if no other core requested one before. Otherwise, the item has the other
// status or core. A core that takes the one item takes the other, too.
fn item_of_call(core: CoreId, call: BoardCall) -> Item
    ensures { result ≡ item_of_call core call }
{
    match call {
        BoardCall::Start(started) => Item::Began {
            core: started,
            status: Status::EOk,
        },
        BoardCall::AskHalt(status) => Item::Halt { core, status },
        BoardCall::Enter(_) => Item::Entered,
        BoardCall::MakeReady => Item::Readied,
        _ => Item::Drained,
    }
}

// The item that results from a spinlock call that succeeds. TryToGetSpinlock results in an item also if it fails. A
// core that takes the item of success takes that of failure, too.
fn item_of_wish(wish: SpinWish) -> Item
    ensures { result ≡ item_of_wish wish }
{
    match wish {
        SpinWish::Get(lock) => Item::Granted(lock),
        SpinWish::Try(spinlock) => Item::Tried {
            spinlock,
            taken: true,
        },
        SpinWish::Free(lock) => Item::Freed(lock),
    }
}
