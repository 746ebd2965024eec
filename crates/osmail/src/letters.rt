//! The letters of one mailbox.

ghost use Rattle.std.specs.Prelude.{◌≡◌, ◌<◌, ◌≤◌, ◌∷◌, ◌++◌, [], drop, length, slice_get};

use arrayvec::ArrayVec;
use osbase::Letter;
use std::marker::Model;

/// The letters of one mailbox, the oldest first, with place for `CAP` of them.
#[derive(Drop)]
pub struct Letters<const CAP: usize> {
    letters: ArrayVec<Letter, CAP>,
}

impl<const CAP: usize> Model for Letters<CAP> {
    ghost use Rattle.std.specs.Prelude.{List};
    ghost use Rattle.osbase.specs.declared.messages.Letter.{Letter};

    ghost Value = { List Letter };

    ghost view = { λ l. l.letters.items };
}

impl<const CAP: usize> Letters<CAP> {
    /// A mailbox without letters.
    pub fn new() -> Self
        ensures { result ≡ [] }
    {
        Letters {
            letters: ArrayVec::new(),
        }
    }

    /// How many letters there are.
    pub fn len(&self) -> usize
        ensures { result ≡ length self.now }
    {
        self.letters.len()
    }

    /// Adds a letter behind the others.
    pub fn push(&mut self, letter: Letter)
        requires { length self.old < CAP }
        ensures { self.new ≡ self.old ++ letter ∷ [] }
    {
        self.letters.push(letter);
    }

    /// The oldest letter, if there is one.
    pub fn front(&self) -> Option<Letter>
        ensures { result ≡ slice_get self.now 0 }
    {
        self.letters.as_slice().first().copied()
    }

    /// Takes the oldest letter, if there is one.
    pub fn pop(&mut self) -> Option<Letter>
        ensures oldest { result ≡ slice_get self.old 0 }
        ensures rest { self.new ≡ drop 1 self.old }
    {
        self.letters.pop_at(0)
    }
}
