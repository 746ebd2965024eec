//! What cores ask of spinlocks, and the words that stand for them.

ghost use Rattle.std.specs.Prelude.{◌≡◌};
ghost use Rattle.osspin.specs.Words.{holder_in, word_of};

use osbase::{CoreId, SpinlockId};
use osshared::SharedObject;
use std::collections::LinkedList;

/// What a core does to a spinlock (AUTOSAR SWS OS 4.x, TryToGetSpinlock and ReleaseSpinlock; the look
/// is this project's own).
#[derive(Clone, Copy, PartialEq, Eq)]
pub enum SpinAction {
    Take,
    Free,
    Look,
}

/// What a core asks of the spinlocks.
#[derive(Clone, Copy, PartialEq, Eq)]
pub struct SpinCall {
    pub lock: SpinlockId,
    pub action: SpinAction,
}

/// What a call is answered.
#[derive(Clone, Copy, PartialEq, Eq)]
pub enum SpinReply {
    /// Whether the spinlock was taken or freed.
    Answered(bool),
    /// Who holds the spinlock.
    Seen(Option<CoreId>),
}

/// The spinlocks as an object whose state lies in shared words: a word for each.
pub struct Spinlocks;

impl SharedObject for Spinlocks {
    type About = ();

    type State = LinkedList<Option<CoreId>>;

    type Call = SpinCall;

    type Reply = SpinReply;

    ghost use Rattle.osspin.specs.{Spins.spinlocks, Words.Stands, Words.answer};

    ghost object = { spinlocks };

    ghost stands = { Stands };

    ghost answer = { answer };

    ghost blank = { tt };
}

// The word of a spinlock: 0, or one more than the number of the core that holds it.
pub(crate) fn word_of(holder: Option<CoreId>) -> u64
    ensures { result ≡ word_of holder }
{
    match holder {
        Some(core) => u64::from(core.number) + 1,
        None => 0,
    }
}

// The core that a spinlock's word names, if any.
pub(crate) fn holder_in(word: u64) -> Option<CoreId>
    ensures { result ≡ holder_in word }
{
    let number = u8::try_from(word.checked_sub(1)?).ok()?;
    Some(CoreId { number })
}
