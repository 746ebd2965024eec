//! The reply to a turn's request, and what the turn changes besides the core that takes its item.

ghost use Rattle.std.specs.Prelude.{◌≡◌, ◌<◌, ◌≤◌, ◌&&◌, nat_lt, if◌then◌else◌, IfOk};
ghost use Rattle.osbase.specs.declared.limits.TheConstants.{CORES};
ghost use Rattle.osmail.specs.Mail.{empty_mail, has_mail, has_room, oldest_of};
ghost use Rattle.osboard.specs.Boards.{first_board};
ghost use Rattle.osspin.specs.Spins.{no_holders};
ghost use Rattle.oskernel.specs.Wants.{front_of, watch_in};
ghost use Rattle.osrun.specs.Requests.{item_by};
ghost use Rattle.osworld.specs.Answering.{reply_by, mail_after, is_idle_look, is_undisturbed, IsPlaced, next_by, after_call};

use osbase::{CORES, Choice, CoreId, Item, Letter, MAILBOX};
use osboard::BoardList;
use oskernel::Watch;
use osmail::ListMail;
use osplan::Plan;
use osrun::{CoreRun, Reply, Request, spin_call_of};
use osspin::SpinList;
use std::alloc::{AllocError, Global};

/// The mailboxes of a listed run.
pub type Mailboxes = ListMail<MAILBOX>;

/// What the cores of a listed run share: the mailboxes between them, the board and the spinlocks.
#[derive(Drop)]
pub struct Shared {
    pub mail: Mailboxes,
    pub board: BoardList,
    pub spins: SpinList,
}

impl Shared {
    /// The state before the first turn: nothing was sent, the master alone is started, and no core holds a spinlock.
    pub fn new(alloc: Global, plan: &Plan) -> Result<Self, AllocError>
        requires some { 1 ≤ plan.now.cap }
        requires fits { plan.now.cap ≤ MAILBOX }
        ensures mail { IfOk result (λ shared. shared.mail ≡ empty_mail plan.now.cap) }
        ensures board { IfOk result (λ shared. shared.board ≡ first_board plan.now.master) }
        ensures spins { IfOk result (λ shared. shared.spins ≡ no_holders) }
    {
        Ok(Shared {
            mail: Mailboxes::new(alloc, plan.cap as usize)?,
            board: BoardList::new(plan.master),
            spins: SpinList::new(),
        })
    }

    /// Whether an envelope waits for this core. For a core numbered 16 or above, none does.
    #[inline]
    pub fn has_mail(&self, id: CoreId) -> bool
        ensures { result ≡ (nat_lt id.number CORES && has_mail self.now.mail id) }
    {
        if usize::from(id.number) < CORES {
            self.mail.has_mail(id)
        } else {
            false
        }
    }

    /// Whether a turn is a look at the board that results in nothing, as most looks do: the core watches for
    /// nothing, or for a shutdown of all cores that no core has requested.
    #[inline(always)]
    pub fn is_idle_look(&self, core_run: &CoreRun, choice: Choice) -> bool
        ensures { result ≡ is_idle_look choice (watch_in core_run.now.kernel) self.now.board }
    {
        match choice {
            Choice::Look => self.is_undisturbed(core_run),
            _ => false,
        }
    }

    // Whether the core watches for nothing, or for a shutdown of all cores that no core has requested.
    fn is_undisturbed(&self, core_run: &CoreRun) -> bool
        ensures { result ≡ is_undisturbed (watch_in core_run.now.kernel) self.now.board }
    {
        match core_run.kernel.watch() {
            Watch::Nothing => true,
            Watch::Halt => self.board.look_halt().is_none(),
            _ => false,
        }
    }

    /// The request of a turn of this core, with the item that results; `None` if the turn requests nothing, or results
    /// in nothing. Nothing changes yet.
    #[inline(always)]
    pub fn next_item(&self, core_run: &CoreRun, choice: Choice) -> Option<(Request, Item)>
        ensures { result ≡ next_by core_run.now.plan.now self.now core_run.now.id core_run.now.stimuli.now core_run.now.kernel choice }
    {
        let request = core_run.request_of_turn(choice)?;
        let item = self.item_for(core_run, request)?;
        Some((request, item))
    }

    // The item that results from a request of this core; `None` if no item results.
    #[inline(always)]
    fn item_for(&self, core_run: &CoreRun, request: Request) -> Option<Item>
        ensures { result ≡ item_by core_run.now.id (watch_in core_run.now.kernel) request (reply_by self.now core_run.now.id request) }
    {
        let id = core_run.id;
        // Each kind of reply has its own call here, so that no reply has to be stored in a place that fits all kinds.
        match request {
            Request::OfBoard(call) => {
                core_run.item_for_reply(request, &Reply::Replied(self.board.reply(id, call)))
            }
            Request::OfSpins(wish) => {
                let reply = self.spins.reply(id, spin_call_of(wish));
                core_run.item_for_reply(request, &Reply::Spun(reply))
            }
            Request::Room(to) => {
                core_run.item_for_reply(request, &Reply::HasRoom(has_room(&self.mail, id, to)))
            }
            Request::Oldest(from) => {
                core_run.item_for_reply(request, &Reply::Found(oldest(&self.mail, id, from)))
            }
            Request::StartUnknown(_) | Request::TakeStimulus(_) => {
                core_run.item_for_reply(request, &Reply::Unasked)
            }
        }
    }

    /// Makes the call of the board or the spinlocks that a turn requested, if it requested one.
    pub fn apply(&mut self, core: CoreId, request: Request)
        ensures { self.new ≡ after_call core request self.old }
    {
        match request {
            Request::OfBoard(call) => {
                let _ = self.board.call(core, call);
            }
            Request::OfSpins(wish) => {
                let _ = self.spins.call(core, spin_call_of(wish));
            }
            _ => {}
        }
    }

    /// Moves the envelope of the item that the core takes, if the item has one. A posted letter goes from the front of
    /// the core's outbox into a mailbox; a received one leaves its mailbox.
    pub fn deliver(&mut self, core_run: &CoreRun, item: &Item)
        requires { IsPlaced self.old.mail core_run.now.id item.now }
        ensures { self.new ≡ record self.old { mail = mail_after core_run.now.id (front_of core_run.now.kernel.border.outbox) item.now self.old.mail } }
    {
        match *item {
            Item::Posted(to) => {
                if let Some((_, envelope)) = core_run.kernel.front() {
                    let _ = self.mail.send(core_run.id, to, envelope);
                }
            }
            Item::Received { from, .. } => {
                let _ = self.mail.take(core_run.id, from);
            }
            _ => {}
        }
    }
}

// Whether the mailbox from core `id` to core `to` has room. For a core numbered 16 or above, there is no mailbox.
fn has_room(mail: &Mailboxes, id: CoreId, to: CoreId) -> bool
    requires { id.number < CORES }
    ensures { result ≡ (nat_lt to.number CORES && has_room mail.now id to) }
{
    if usize::from(to.number) < CORES {
        mail.has_room(id, to)
    } else {
        false
    }
}

// The letter of the oldest envelope from core `from` to core `id`; `None` if there is none, or `from` is numbered 16 or
// above.
fn oldest(mail: &Mailboxes, id: CoreId, from: CoreId) -> Option<Letter>
    requires { id.number < CORES }
    ensures { result ≡ (if nat_lt from.number CORES then oldest_of mail.now from id else None) }
{
    if usize::from(from.number) < CORES {
        mail.oldest(id, from)
    } else {
        None
    }
}
