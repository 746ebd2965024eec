//! What a history is made of, and what a seat knows of it.

ghost use Rattle.std.specs.Prelude.{ℕ, List};
ghost use Rattle.osbase.specs.declared.references.CoreId.{CoreId};
ghost use Rattle.osshared.specs.Histories.{Object};

use osbase::{CoreId, List};
use std::collections::LinkedList;

/// A call of a core, with its answer.
#[derive(Clone, Copy, PartialEq, Eq)]
pub struct Entry<C, R> {
    pub core: CoreId,
    pub call: C,
    pub reply: R,
}

/// What an object is made with: the cores that get a seat, and its own argument.
#[derive(Drop)]
pub struct Plan<A> {
    pub cores: List<CoreId>,
    pub about: A,
}

/// An object whose state lies in shared words.
pub trait SharedObject {
    /// The argument with which it is made.
    type About;
    /// What calls change.
    type State;

    type Call: Copy;

    type Reply;

    /// What the object is at first, what a call makes of it, and what it answers.
    ghost object: { Object Self.About Self.State Self.Call Self.Reply };

    /// The words that stand for a state.
    ghost stands: { Self.State → List ℕ → Type 0 };

    /// What a call is answered if its step finds this number.
    ghost answer: { CoreId → Self.Call → ℕ → Self.Reply };

    /// Some argument, for the view that a joined seat leaves.
    ghost blank: { Self.About };
}

/// What a seat knows. No value of this type is ever made.
pub struct View<A, C, R> {
    /// Whether the seat was not joined into another.
    pub live: bool,
    /// What the object was made with.
    pub plan: Plan<A>,
    /// The cores whose calls are made from this seat.
    pub cores: LinkedList<CoreId>,
    /// The history up to the last call.
    pub seen: LinkedList<Entry<C, R>>,
    /// The histories up to the last calls of the seats that were joined into this one.
    pub told: LinkedList<LinkedList<Entry<C, R>>>,
    /// The calls made from this seat.
    pub mine: LinkedList<Entry<C, R>>,
}
