//! The board's words, shared by the threads of the cores.

ghost use Rattle.std.specs.Prelude.{◌≡◌, ◌<◌, map, IfOk};
ghost use Rattle.osbase.specs.declared.limits.TheConstants.{CORES};
ghost use Rattle.osshared.specs.Histories.{entry};
ghost use Rattle.osshared.specs.Seats.{AllApart, AllAt, Extends, IsOneHistory, cores_of, fresh};
ghost use Rattle.osboard.specs.Boards.{HasPlace, IsMode, ask_halt_call, drain_call, enter_call, look_call, look_drained_call, look_halt_call, one_board, ready_call, start_call};

use crate::calls::{BoardCall, BoardReply, BoardView, BoardWords};
use crate::words::{
    DRAINED, ENTERED, READY, STARTED, bit, cores_in, halt_in, halt_word, mode_bits, view_in,
};
use osbase::{CoreId, CoreMode, CoreSet, List, Status};
use osshared::{CoreSeat, Plan, SharedWords};
use std::alloc::{AllocError, Global};
use std::marker::{Brand, Model};

/// The seat from which a core calls the board.
pub type BoardSeat = CoreSeat<BoardWords>;

// The places of the three words.
const PHASE: usize = 0;

const HALT: usize = 1;

const DRAIN: usize = 2;

/// The board of cores that run at once. A call takes the caller's seat, waits for nothing and takes no memory;
/// its reply is what one board answers at that point of one history of all calls. If neither of two cores saw
/// the other's call, it is not said which of them called first.
#[derive(Drop)]
pub struct Board {
    words: SharedWords<BoardWords>,
}

impl Model for Board {
    ghost use Rattle.std.specs.Prelude.{◌≡◌};
    ghost use Rattle.osbase.specs.declared.references.CoreId.{CoreId};
    ghost use Rattle.osshared.specs.Seats.{Place};

    ghost Value = { Place CoreId };

    ghost view = { λ b. b.words };

    ghost invariant = { λ b. b.words.table.words ≡ 3 };
}

impl Board {
    /// A board on which the master alone is started, and a seat for each of these cores. All the memory that
    /// the board ever needs is taken here.
    pub fn new(
        alloc: Global,
        cores: List<CoreId>,
        master: CoreId,
    ) -> Result<(Board, Vec<BoardSeat>), AllocError>
        requires cores { AllApart cores }
        requires master { master.number < CORES }
        ensures cores { IfOk result (λ r. r.0.plan.cores ≡ cores) }
        ensures master { IfOk result (λ r. r.0.plan.about ≡ master) }
        ensures seats { IfOk result (λ r. r.1.items ≡ map (λ c. fresh r.0 c) cores) }
    {
        let plan = Plan {
            cores,
            about: master,
        };
        let started = bit(STARTED + usize::from(master.number));
        let (words, seats) = SharedWords::new(alloc, &[started, 0, 0], &plan)?;
        Ok((Board { words }, seats))
    }

    /// Starts a core. If the core is started already, answers E_OS_STATE and changes nothing
    /// (AUTOSAR SWS OS 4.x, StartCore).
    pub fn start(&self, seat: &mut BoardSeat, core: CoreId) -> Status
        requires place { seat.old.place ≡ self.now }
        requires core { core.number < CORES }
        ensures { Extends one_board seat.old (start_call seat.old.core core result) seat.new }
    {
        let started = bit(STARTED + usize::from(core.number));
        let found = self
            .words
            .fetch_or::<Brand>(seat, PHASE, started, BoardCall::Start(core));
        view_in(found).start_answer(core)
    }

    /// Records that the caller has entered StartOS with this mode.
    pub fn enter(&self, seat: &mut BoardSeat, mode: CoreMode)
        requires place { seat.old.place ≡ self.now }
        requires core { seat.old.core.number < CORES }
        requires mode { IsMode mode }
        ensures { Extends one_board seat.old (enter_call seat.old.core mode) seat.new }
    {
        let entered = bit(ENTERED + usize::from(seat.core().number));
        let bits = entered | mode_bits(mode);
        self.words
            .fetch_or::<Brand>(seat, PHASE, bits, BoardCall::Enter(mode));
    }

    /// Records that the caller is ready to pass the second gate.
    pub fn ready(&self, seat: &mut BoardSeat)
        requires place { seat.old.place ≡ self.now }
        requires core { seat.old.core.number < CORES }
        ensures { Extends one_board seat.old (ready_call seat.old.core) seat.new }
    {
        let ready = bit(READY + usize::from(seat.core().number));
        self.words
            .fetch_or::<Brand>(seat, PHASE, ready, BoardCall::MakeReady);
    }

    /// Records that the caller has drained.
    pub fn drain(&self, seat: &mut BoardSeat)
        requires place { seat.old.place ≡ self.now }
        requires core { seat.old.core.number < CORES }
        ensures { Extends one_board seat.old (drain_call seat.old.core) seat.new }
    {
        let drained = bit(DRAINED + usize::from(seat.core().number));
        self.words
            .fetch_or::<Brand>(seat, DRAIN, drained, BoardCall::Drain);
    }

    /// The started, the entered and the ready cores, and the named modes.
    pub fn look(&self, seat: &mut BoardSeat) -> BoardView
        requires { seat.old.place ≡ self.now }
        ensures { Extends one_board seat.old (look_call seat.old.core result) seat.new }
    {
        view_in(self.words.load::<Brand>(seat, PHASE, BoardCall::Look))
    }

    /// The cores that have drained.
    pub fn look_drained(&self, seat: &mut BoardSeat) -> CoreSet
        requires { seat.old.place ≡ self.now }
        ensures { Extends one_board seat.old (look_drained_call seat.old.core result) seat.new }
    {
        let word = self
            .words
            .load::<Brand>(seat, DRAIN, BoardCall::LookDrained);
        cores_in(word, DRAINED)
    }

    /// Asks for a shutdown of all cores with a status. Gives who asked first and with which status; all cores see
    /// the same (AUTOSAR SWS OS 4.x, ShutdownAllCores; that the first decides is this project's own).
    pub fn ask_halt(&self, seat: &mut BoardSeat, status: Status) -> (CoreId, Status)
        requires { seat.old.place ≡ self.now }
        ensures { Extends one_board seat.old (ask_halt_call seat.old.core status result) seat.new }
    {
        let core = seat.core();
        let asked = halt_word(core, status);
        let found = self
            .words
            .compare_exchange::<Brand>(seat, HALT, 0, asked, BoardCall::AskHalt(status));
        halt_in(found).unwrap_or((core, status))
    }

    /// Who asked first for a shutdown of all cores, and with which status; none if no core has asked.
    pub fn look_halt(&self, seat: &mut BoardSeat) -> Option<(CoreId, Status)>
        requires { seat.old.place ≡ self.now }
        ensures { Extends one_board seat.old (look_halt_call seat.old.core result) seat.new }
    {
        halt_in(self.words.load::<Brand>(seat, HALT, BoardCall::LookHalt))
    }

    /// Makes any of the eight calls, and gives its reply.
    pub fn call(&self, seat: &mut BoardSeat, call: BoardCall) -> BoardReply
        requires place { seat.old.place ≡ self.now }
        requires core { seat.old.core.number < CORES }
        requires call { HasPlace call }
        ensures { Extends one_board seat.old (entry seat.old.core call result) seat.new }
    {
        match call {
            BoardCall::Start(core) => BoardReply::Started(self.start(seat, core)),
            BoardCall::Enter(mode) => {
                self.enter(seat, mode);
                BoardReply::Acknowledged
            }
            BoardCall::MakeReady => {
                self.ready(seat);
                BoardReply::Acknowledged
            }
            BoardCall::Drain => {
                self.drain(seat);
                BoardReply::Acknowledged
            }
            BoardCall::Look => BoardReply::Shown(self.look(seat)),
            BoardCall::LookDrained => BoardReply::Drained(self.look_drained(seat)),
            BoardCall::AskHalt(status) => BoardReply::Decided(self.ask_halt(seat, status)),
            BoardCall::LookHalt => BoardReply::Halting(self.look_halt(seat)),
        }
    }

    /// Takes all seats back. Together they show one legal history, with their calls and no others.
    pub fn gather(&self, seats: Vec<BoardSeat>)
        requires places { AllAt self.now seats.items }
        requires cores { cores_of seats.items ≡ self.now.plan.cores }
        ensures { IsOneHistory one_board self.now.plan seats.items }
    {
        self.words.gather(seats);
    }
}
