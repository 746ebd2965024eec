//! What cores ask of the board, and what it answers.

use osbase::{CoreId, CoreMode, CoreSet, MODES, Status};
use osshared::SharedObject;

/// A set of application modes: a flag for each mode.
#[derive(Clone, Copy, PartialEq, Eq)]
pub struct ModeSet {
    pub members: [bool; MODES],
}

/// The cores that were started, that have entered StartOS, and that are ready, and the modes that were named.
#[derive(Clone, Copy, PartialEq, Eq)]
pub struct BoardView {
    pub started: CoreSet,
    pub entered: CoreSet,
    pub ready: CoreSet,
    pub modes: ModeSet,
}

/// All that is on the board.
#[derive(Clone, Copy, PartialEq, Eq)]
pub struct BoardState {
    pub view: BoardView,
    /// The cores that have drained.
    pub drained: CoreSet,
    /// Who asked first for a shutdown of all cores, and with which status.
    pub halt: Option<(CoreId, Status)>,
}

/// What a core asks of the board.
#[derive(Clone, Copy, PartialEq, Eq)]
pub enum BoardCall {
    /// Starts the core that is named.
    Start(CoreId),
    /// Says that it has entered StartOS with this mode.
    Enter(CoreMode),
    /// Says that it is ready.
    MakeReady,
    /// Says that it has drained.
    Drain,
    /// Looks at all sets but the set of the drained cores.
    Look,
    /// Looks which cores have drained.
    LookDrained,
    /// Asks for a shutdown of all cores.
    AskHalt(Status),
    /// Looks who asked first for a shutdown of all cores.
    LookHalt,
}

/// What a call is answered.
#[derive(Clone, Copy, PartialEq, Eq)]
pub enum BoardReply {
    Started(Status),
    Acknowledged,
    Shown(BoardView),
    /// The cores that have drained.
    Drained(CoreSet),
    /// Who asked first, and with which status.
    Decided((CoreId, Status)),
    Halting(Option<(CoreId, Status)>),
}

/// The board as an object whose state lies in shared words: one for the sets of `BoardView`, one for who asked for a
/// shutdown of all cores, and one for the drained cores.
pub struct BoardWords;

impl SharedObject for BoardWords {
    /// The master core.
    type About = CoreId;

    type State = BoardState;

    type Call = BoardCall;

    type Reply = BoardReply;

    ghost use Rattle.osboard.specs.{Boards.one_board, Words.Stands, Words.answer};

    ghost object = { one_board };

    ghost stands = { Stands };

    ghost answer = { answer };

    ghost blank = { record { number = 0 } };
}
