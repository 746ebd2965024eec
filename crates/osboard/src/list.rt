//! The board of a listed run, in which one thread plays all cores.

ghost use Rattle.std.specs.Prelude.{◌≡◌, Some};
ghost use Rattle.osboard.specs.Boards.{ask_halt_call, board_after, board_reply, drain_call, enter_call, first_asked, first_board, look_call, look_drained_call, look_halt_call, one_board, ready_call, start_answer, start_call, with_core, with_mode};
ghost use Rattle.osshared.specs.Histories.{Continues};

use crate::calls::{BoardCall, BoardReply, BoardState, BoardView, ModeSet};
use osbase::{CORES, CoreId, CoreMode, CoreSet, MODES, Status};
use std::marker::Model;

/// The board, by what is on it. The list answers as `Board` does, by the same definition.
#[derive(Clone, Copy)]
pub struct BoardList {
    state: BoardState,
}

impl Model for BoardList {
    ghost use Rattle.osboard.specs.declared.calls.BoardState.{BoardState};

    ghost Value = { BoardState };

    ghost view = { λ b. b.state };

    ghost inverse = { λ state. record { state = state } };
}

impl BoardList {
    /// The board at first: the master alone is started.
    pub fn new(master: CoreId) -> Self
        ensures { result ≡ first_board master }
    {
        let none = CoreSet {
            members: [false; CORES],
        };
        let view = BoardView {
            started: with_core(none, master),
            entered: none,
            ready: none,
            modes: ModeSet {
                members: [false; MODES],
            },
        };
        BoardList {
            state: BoardState {
                view,
                drained: none,
                halt: None,
            },
        }
    }

    /// Starts a core. If the core is started already, answers E_OS_STATE and changes nothing
    /// (AUTOSAR SWS OS 4.x, StartCore).
    #[tactic(auto, using(crate::proofs::Boards::goes_on))]
    pub fn start(&mut self, caller: CoreId, core: CoreId) -> Status
        ensures answer { result ≡ start_answer self.old.view core }
        ensures after { self.new ≡ board_after caller (BoardCall.Start core) self.old }
        ensures replays { Continues one_board self.old (start_call caller core result) self.new }
    {
        let _ = caller;
        let view = &mut self.state.view;
        let answer = view.start_answer(core);
        view.started = with_core(view.started, core);
        answer
    }

    /// Records that the caller has entered StartOS with this mode.
    #[tactic(auto, using(crate::proofs::Boards::goes_on))]
    pub fn enter(&mut self, caller: CoreId, mode: CoreMode)
        ensures after { self.new ≡ board_after caller (BoardCall.Enter mode) self.old }
        ensures replays { Continues one_board self.old (enter_call caller mode) self.new }
    {
        let view = &mut self.state.view;
        view.entered = with_core(view.entered, caller);
        view.modes = with_mode(view.modes, mode);
    }

    /// Records that the caller is ready to pass the second gate.
    #[tactic(auto, using(crate::proofs::Boards::goes_on))]
    pub fn ready(&mut self, caller: CoreId)
        ensures after { self.new ≡ board_after caller BoardCall.MakeReady self.old }
        ensures replays { Continues one_board self.old (ready_call caller) self.new }
    {
        let view = &mut self.state.view;
        view.ready = with_core(view.ready, caller);
    }

    /// Records that the caller has drained.
    #[tactic(auto, using(crate::proofs::Boards::goes_on))]
    pub fn drain(&mut self, caller: CoreId)
        ensures after { self.new ≡ board_after caller BoardCall.Drain self.old }
        ensures replays { Continues one_board self.old (drain_call caller) self.new }
    {
        self.state.drained = with_core(self.state.drained, caller);
    }

    /// The started, the entered and the ready cores, and the named modes. The answer is the same whichever core looks.
    #[tactic(auto, using(crate::proofs::Boards::goes_on))]
    pub fn look(&self) -> BoardView
        ensures answer { result ≡ self.now.view }
        ensures replays { (caller : CoreId) → Continues one_board self.now (look_call caller result) self.now }
    {
        self.state.view
    }

    /// The cores that have drained. The answer is the same whichever core looks.
    #[tactic(auto, using(crate::proofs::Boards::goes_on))]
    pub fn look_drained(&self) -> CoreSet
        ensures answer { result ≡ self.now.drained }
        ensures replays { (caller : CoreId) → Continues one_board self.now (look_drained_call caller result) self.now }
    {
        self.state.drained
    }

    /// Asks for a shutdown of all cores with a status. Gives who asked first and with which status; all cores see
    /// the same (AUTOSAR SWS OS 4.x, ShutdownAllCores; that the first decides is this project's own).
    pub fn ask_halt(&mut self, caller: CoreId, status: Status) -> (CoreId, Status)
        ensures answer { result ≡ first_asked self.old.halt (caller, status) }
        ensures after { self.new ≡ board_after caller (BoardCall.AskHalt status) self.old }
        ensures replays { Continues one_board self.old (ask_halt_call caller status result) self.new }
    {
        let decided = self.decided(caller, status);
        self.state.halt = Some(decided);
        decided
    }

    /// What this call would be answered now. Nothing changes.
    pub fn reply(&self, caller: CoreId, call: BoardCall) -> BoardReply
        ensures { result ≡ board_reply caller call self.now }
    {
        match call {
            BoardCall::Start(core) => BoardReply::Started(self.state.view.start_answer(core)),
            BoardCall::Enter(_) | BoardCall::MakeReady | BoardCall::Drain => {
                BoardReply::Acknowledged
            }
            BoardCall::Look => BoardReply::Shown(self.look()),
            BoardCall::LookDrained => BoardReply::Drained(self.look_drained()),
            BoardCall::AskHalt(status) => BoardReply::Decided(self.decided(caller, status)),
            BoardCall::LookHalt => BoardReply::Halting(self.look_halt()),
        }
    }

    /// Makes any of the eight calls, and gives its reply.
    pub fn call(&mut self, caller: CoreId, call: BoardCall) -> BoardReply
        ensures answer { result ≡ board_reply caller call self.old }
        ensures after { self.new ≡ board_after caller call self.old }
    {
        let reply = self.reply(caller, call);
        match call {
            BoardCall::Start(core) => {
                let _ = self.start(caller, core);
            }
            BoardCall::Enter(mode) => self.enter(caller, mode),
            BoardCall::MakeReady => self.ready(caller),
            BoardCall::Drain => self.drain(caller),
            BoardCall::AskHalt(status) => {
                let _ = self.ask_halt(caller, status);
            }
            BoardCall::Look | BoardCall::LookDrained | BoardCall::LookHalt => {}
        }
        reply
    }

    /// Who asked first for a shutdown of all cores, and with which status; none if no core has asked. The answer is the
    /// same whichever core looks.
    #[tactic(auto, using(crate::proofs::Boards::goes_on))]
    pub fn look_halt(&self) -> Option<(CoreId, Status)>
        ensures answer { result ≡ self.now.halt }
        ensures replays { (caller : CoreId) → Continues one_board self.now (look_halt_call caller result) self.now }
    {
        self.state.halt
    }

    // Who asked first for a shutdown of all cores, and with which status, if this core asks now.
    fn decided(&self, caller: CoreId, status: Status) -> (CoreId, Status)
        ensures { result ≡ first_asked self.now.halt (caller, status) }
    {
        self.state.halt.unwrap_or((caller, status))
    }
}

// The set with this core added. It stays as it is if it has no place for the core's number.
fn with_core(mut cores: CoreSet, core: CoreId) -> CoreSet
    ensures { result ≡ with_core core cores }
{
    if usize::from(core.number) < CORES {
        cores.members[usize::from(core.number)] = true;
    }
    cores
}

// The set with the named mode added. It stays as it is for DONOTCARE, and if it has no place for the mode's index.
fn with_mode(mut modes: ModeSet, mode: CoreMode) -> ModeSet
    ensures { result ≡ with_mode mode modes }
{
    if let CoreMode::Named(named) = mode
        && usize::from(named.index) < MODES
    {
        modes.members[usize::from(named.index)] = true;
    }
    modes
}
