//! What a turn of a core requests of the board, the spinlocks and the mailboxes, and the item that then results.

ghost use Rattle.std.specs.Prelude.{◌≡◌};
ghost use Rattle.osbase.specs.declared.references.CoreId.{CoreId as CoreIdValue};
ghost use Rattle.osplan.specs.View.{is_configured, view_of};
ghost use Rattle.osrun.specs.Requests.{item_of_drained, next_request, item_of_halt, look_request, item_by, own_request, item_of_look, item_of_board, spin_call_of, item_of_spinlock, start_request};

use osbase::{CoreId, CoreMode, CoreSet, Item, Letter, Status, Stimulus};
use osboard::{BoardCall, BoardReply, BoardView, have_all};
use oskernel::{SpinWish, Want, Watch};
use osplan::Plan;
use osspin::{SpinAction, SpinCall, SpinReply};

/// The spinlock call for a wish: GetSpinlock and TryToGetSpinlock both try to take the spinlock, and ReleaseSpinlock
/// frees it (AUTOSAR SWS OS 4.x).
pub fn spin_call_of(wish: SpinWish) -> SpinCall
    ensures { result ≡ spin_call_of wish }
{
    match wish {
        SpinWish::Get(lock) | SpinWish::Try(lock) => SpinCall {
            lock,
            action: SpinAction::Take,
        },
        SpinWish::Free(lock) => SpinCall {
            lock,
            action: SpinAction::Free,
        },
    }
}

/// What a turn requests.
#[derive(Clone, Copy)]
pub enum Request {
    /// A call of the board.
    OfBoard(BoardCall),
    /// A call of the spinlocks.
    OfSpins(SpinWish),
    /// Room in the mailbox for that core, for the first letter of the outbox.
    Room(CoreId),
    /// The oldest letter from that core.
    Oldest(CoreId),
    /// Nothing: the turn is a StartCore of a core that is not configured.
    StartUnknown(CoreId),
    /// Nothing: the turn takes the core's next stimulus.
    TakeStimulus(Stimulus),
}

/// The reply to a request.
#[derive(Clone, Copy)]
pub enum Reply {
    /// The board's reply.
    Replied(BoardReply),
    /// The spinlock's reply.
    Spun(SpinReply),
    /// Whether the mailbox has room.
    HasRoom(bool),
    /// The oldest letter, if there is one.
    Found(Option<Letter>),
    /// The request was for nothing.
    Unasked,
}

/// The request of a core's own turn, by what the core wants and its next stimulus; `None` if the core wants nothing.
#[inline(always)]
pub fn own_request(plan: &Plan, id: CoreId, want: Want, next: Option<Stimulus>) -> Option<Request>
    ensures { result ≡ own_request (view_of plan.now id) next want }
{
    match want {
        Want::Start(core) => Some(start_request(core, is_configured(plan, core))),
        Want::Enter => Some(Request::OfBoard(BoardCall::Enter(mode_of(plan, id)))),
        Want::Ready => Some(Request::OfBoard(BoardCall::MakeReady)),
        Want::Post(to) => Some(Request::Room(to)),
        Want::Spin(wish) => Some(Request::OfSpins(wish)),
        Want::AskHalt(status) => Some(Request::OfBoard(BoardCall::AskHalt(status))),
        Want::GoOn => Some(next_request(next)),
        Want::Drain => Some(Request::OfBoard(BoardCall::Drain)),
        Want::Nothing => None,
    }
}

// The request of a StartCore: a call of the board if the core is configured. Otherwise StartCore is answered without
// the board (AUTOSAR SWS OS 4.x, StartCore).
fn start_request(core: CoreId, is_configured: bool) -> Request
    ensures { result ≡ start_request core is_configured }
{
    if is_configured {
        Request::OfBoard(BoardCall::Start(core))
    } else {
        Request::StartUnknown(core)
    }
}

// Whether the core is configured. The answer is the same in every core's view.
fn is_configured(plan: &Plan, core: CoreId) -> bool
    ensures { (id : CoreIdValue) → result ≡ is_configured (view_of plan.now id) core }
{
    plan.core(core).is_some()
}

// The application mode that the core names. `DontCare` if it names none, or is not configured.
fn mode_of(plan: &Plan, id: CoreId) -> CoreMode
    ensures { result ≡ (view_of plan.now id).own.mode }
{
    match plan.core(id) {
        Some(core) => core.mode,
        None => CoreMode::DontCare,
    }
}

// The request to take the next stimulus, or to drain the core if there is none.
fn next_request(next: Option<Stimulus>) -> Request
    ensures { result ≡ next_request next }
{
    match next {
        Some(stimulus) => Request::TakeStimulus(stimulus),
        None => Request::OfBoard(BoardCall::Drain),
    }
}

/// The request of a look: a load of one word of the board. What the core watches for decides which word.
pub fn look_request(watch: Watch) -> Request
    ensures { result ≡ look_request watch }
{
    match watch {
        Watch::Halt | Watch::Last => Request::OfBoard(BoardCall::LookHalt),
        Watch::PassEnd(_) => Request::OfBoard(BoardCall::LookDrained),
        _ => Request::OfBoard(BoardCall::Look),
    }
}

/// The item that results when core `id`, whose look waits for `watch`, makes the request and gets the answer. `None` if
/// no item results, for example at a gate that is still closed.
#[inline(always)]
pub fn item_for_reply(id: CoreId, watch: Watch, request: Request, answer: &Reply) -> Option<Item>
    ensures { result ≡ item_by id watch request answer.now }
{
    match (request, answer) {
        (Request::OfBoard(call), Reply::Replied(reply)) => item_of_board(id, watch, call, reply),
        (Request::OfSpins(wish), Reply::Spun(reply)) => item_of_spinlock(wish, *reply),
        (Request::Room(to), Reply::HasRoom(true)) => Some(Item::Posted(to)),
        (Request::Oldest(from), Reply::Found(Some(letter))) => Some(Item::Received {
            from,
            number: letter.number,
            message: letter.message,
        }),
        (Request::StartUnknown(core), Reply::Unasked) => Some(Item::Began {
            core,
            status: Status::EOsId,
        }),
        (Request::TakeStimulus(stimulus), Reply::Unasked) => Some(Item::Stim(stimulus)),
        (_, _) => None,
    }
}

// The item that results from the board's reply to this call. `None` if no item results.
fn item_of_board(id: CoreId, watch: Watch, call: BoardCall, reply: &BoardReply) -> Option<Item>
    ensures { result ≡ item_of_board id watch call reply.now }
{
    match (call, reply) {
        (BoardCall::Start(core), BoardReply::Started(status)) => Some(Item::Began {
            core,
            status: *status,
        }),
        (BoardCall::Enter(_), BoardReply::Acknowledged) => Some(Item::Entered),
        (BoardCall::MakeReady, BoardReply::Acknowledged) => Some(Item::Readied),
        (BoardCall::Drain, BoardReply::Acknowledged) => Some(Item::Drained),
        (BoardCall::Look, BoardReply::Shown(view)) => item_of_look(id, view, watch),
        (BoardCall::LookDrained, BoardReply::Drained(drained)) => item_of_drained(watch, drained),
        (BoardCall::AskHalt(_), BoardReply::Decided(asked)) => Some(halt_by(*asked)),
        (BoardCall::LookHalt, BoardReply::Halting(halt)) => item_of_halt(watch, *halt),
        (_, _) => None,
    }
}

// The item that results from what a look shows of the board, if one does. A core is on once it is started. A gate opens
// once all started cores have reached it (AUTOSAR SWS OS 4.x, SWS_Os_00579 and SWS_Os_00580).
fn item_of_look(id: CoreId, view: &BoardView, watch: Watch) -> Option<Item>
    ensures { result ≡ item_of_look id view.now watch }
{
    match watch {
        Watch::On if view.started.contains(id) => Some(Item::On),
        Watch::FirstGate if view.have_all_entered() => Some(Item::Pass1(view.agreement())),
        Watch::SecondGate if view.are_all_ready() => Some(Item::Pass2(view.started)),
        _ => None,
    }
}

// The item that results when a look shows these drained cores, if one does. A core that has drained goes on to its end
// once all cores that were started when its second gate opened have drained.
fn item_of_drained(watch: Watch, drained: &CoreSet) -> Option<Item>
    ensures { result ≡ item_of_drained watch drained.now }
{
    match watch {
        Watch::PassEnd(started) if have_all(&started, drained) => Some(Item::PassEnd),
        _ => None,
    }
}

// The item that results when a look shows who requested a shutdown of all cores, if one does. A core that watches for a
// shutdown halts once one was requested. A core at its end learns whether one was requested (AUTOSAR SWS OS 4.x,
// ShutdownAllCores).
fn item_of_halt(watch: Watch, halt: Option<(CoreId, Status)>) -> Option<Item>
    ensures { result ≡ item_of_halt watch halt }
{
    match (watch, halt) {
        (Watch::Last, halt) => Some(Item::Last(halt)),
        (Watch::Halt, Some(asked)) => Some(halt_by(asked)),
        (_, _) => None,
    }
}

// The halt item, with the core that requested the shutdown first and the status of that request.
fn halt_by(asked: (CoreId, Status)) -> Item
    ensures { result ≡ Item.Halt asked.0 asked.1 }
{
    let (core, status) = asked;
    Item::Halt { core, status }
}

// The item that results from the reply to a spinlock call, if one does. GetSpinlock returns once it has taken the
// spinlock, and ReleaseSpinlock once it has freed it. TryToGetSpinlock returns with either answer (AUTOSAR SWS OS 4.x).
fn item_of_spinlock(wish: SpinWish, reply: SpinReply) -> Option<Item>
    ensures { result ≡ item_of_spinlock wish reply }
{
    match (wish, reply) {
        (SpinWish::Get(lock), SpinReply::Answered(true)) => Some(Item::Granted(lock)),
        (SpinWish::Try(spinlock), SpinReply::Answered(taken)) => {
            Some(Item::Tried { spinlock, taken })
        }
        (SpinWish::Free(lock), SpinReply::Answered(true)) => Some(Item::Freed(lock)),
        (_, _) => None,
    }
}
