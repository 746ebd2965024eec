//! The three words of the board: the phase word, the halt word and the word of the drained cores.

ghost use Rattle.std.specs.Prelude.{◌≡◌, ◌<◌, ◌≤◌, ◌+◌, ◌^◌, ◌&&◌, nat_lt};
ghost use Rattle.osbase.specs.declared.limits.TheConstants.{MODES};
ghost use Rattle.osboard.specs.Boards.{IsMode};
ghost use Rattle.osboard.specs.Words.{cores_in, flags_in, halt_in, halt_word, has_bit, mode_bits, view_in};

use crate::calls::{BoardView, ModeSet};
use osbase::{CoreId, CoreMode, CoreSet, MODES, Status};
use std::array;

/// The places in the phase word: sixteen bits for each of three sets of cores, and a byte for the modes.
pub const STARTED: usize = 0;

pub const ENTERED: usize = 16;

pub const READY: usize = 32;

pub const NAMED: usize = 48;

/// The place of the sixteen bits of the word of the drained cores.
pub const DRAINED: usize = 0;

/// The number of which only the bit at this place is set.
pub fn bit(place: usize) -> u64
    requires { place < 64 }
    ensures { result ≡ 2 ^ place }
{
    1 << place
}

/// The bit of the named mode in the phase word, or 0 if no mode is named.
pub fn mode_bits(mode: CoreMode) -> u64
    requires { IsMode mode }
    ensures { result ≡ mode_bits mode }
{
    match mode {
        CoreMode::Named(named) => bit(NAMED + usize::from(named.index)),
        CoreMode::DontCare => 0,
    }
}

// Whether the bit at a place is set.
fn has_bit(word: u64, place: usize) -> bool
    requires { place < 64 }
    ensures { result ≡ has_bit word place }
{
    (word >> place) & 1 == 1
}

/// The set of cores that the sixteen bits from place `first` on encode.
pub fn cores_in(word: u64, first: usize) -> CoreSet
    requires { first ≤ 48 }
    ensures { result ≡ cores_in first word }
{
    CoreSet {
        members: [
            has_bit(word, first + 0),
            has_bit(word, first + 1),
            has_bit(word, first + 2),
            has_bit(word, first + 3),
            has_bit(word, first + 4),
            has_bit(word, first + 5),
            has_bit(word, first + 6),
            has_bit(word, first + 7),
            has_bit(word, first + 8),
            has_bit(word, first + 9),
            has_bit(word, first + 10),
            has_bit(word, first + 11),
            has_bit(word, first + 12),
            has_bit(word, first + 13),
            has_bit(word, first + 14),
            has_bit(word, first + 15),
        ],
    }
}

// The set of modes that the bits from place `first` on encode.
fn modes_in(word: u64, first: usize) -> ModeSet
    requires { first ≤ 48 }
    ensures { result.members ≡ flags_in MODES first word }
{
    let members = array::from_fn(
        |mode: usize| -> bool
            requires { first ≤ 48 }
            ensures { result ≡ (nat_lt mode MODES && has_bit word (first + mode)) }
        { mode < MODES && has_bit(word, first + mode) },
    );
    ModeSet { members }
}

/// The sets that the phase word encodes.
pub fn view_in(word: u64) -> BoardView
    ensures { result ≡ view_in word }
{
    BoardView {
        started: cores_in(word, STARTED),
        entered: cores_in(word, ENTERED),
        ready: cores_in(word, READY),
        modes: modes_in(word, NAMED),
    }
}

/// The halt word of a core that asks for a shutdown of all cores with this status.
pub fn halt_word(core: CoreId, status: Status) -> u64
    ensures { result ≡ halt_word core status }
{
    u64::from(core.number) * 256 + u64::from(status.number()) + 1
}

/// Who asked for a shutdown of all cores, and with which status, as the halt word tells; none if it tells no core or no
/// status.
pub fn halt_in(word: u64) -> Option<(CoreId, Status)>
    ensures { result ≡ halt_in word }
{
    let code = word.checked_sub(1)?;
    let status = Status::numbered(code % 256)?;
    let number = u8::try_from(code / 256).ok()?;
    Some((CoreId { number }, status))
}
