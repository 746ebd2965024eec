//! How often the queues were read.

ghost use Rattle.std.specs.Prelude.{◌≡◌, ◌+◌, ◌<◌, ◌^◌};

use std::marker::Model;

/// The number of reads of the word of priorities and of the fronts of queues. Only such a read adds to the number.
#[derive(Drop)]
pub struct Reads {
    count: u64,
}

impl Model for Reads {
    ghost use Rattle.std.specs.Prelude.{ℕ};

    ghost Value = { ℕ };

    ghost view = { λ r. r.count };
}

impl Reads {
    /// No read yet.
    pub fn new() -> Self
        ensures { result ≡ 0 }
    {
        Reads { count: 0 }
    }

    /// The number of reads.
    pub fn count(&self) -> u64
        ensures { result ≡ self.now }
    {
        self.count
    }

    /// Counts one more read.
    pub(crate) fn tick(&mut self)
        requires { self.old < 2 ^ 63 }
        ensures { self.new ≡ self.old + 1 }
    {
        self.count += 1;
    }
}
