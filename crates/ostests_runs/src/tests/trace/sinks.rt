//! A sink that refuses a write.

ghost use Rattle.std.specs.Prelude.{◌≡◌, Some};

use ostrace::Sink;
use std::alloc::Global;

/// How a write is refused.
#[derive(Clone, Copy, Debug)]
pub enum Refusal {
    /// It fails.
    Fails,
    /// It takes nothing.
    TakesNothing,
}

/// Takes at most three bytes a write, but refuses one write, after `left` others.
#[derive(Drop)]
pub struct FailingSink {
    pub bytes: Vec<u8>,
    pub refusal: Refusal,
    pub left: usize,
    pub failed: u64,
}

impl FailingSink {
    pub fn new(alloc: Global, refusal: Refusal, left: usize) -> Self
        ensures { result.failed ≡ 0 }
    {
        FailingSink {
            bytes: Vec::new(alloc),
            refusal,
            left,
            failed: 0,
        }
    }
}

impl Sink for FailingSink {
    ghost taken = { λ s. Some s.bytes.items };

    ghost failed = { λ s. s.failed };

    fn write(&mut self, bytes: &[u8]) -> Option<usize> {
        let count = bytes.len().min(3);
        if bytes.is_empty() {
            return Some(0);
        }
        let is_taken = self.left > 0 || self.failed > 0;
        if is_taken && self.bytes.extend_from_slice(&bytes[..count]).is_ok() {
            self.left = self.left.saturating_sub(1);
            return Some(count);
        }
        self.failed += 1;
        match self.refusal {
            Refusal::Fails => None,
            Refusal::TakesNothing => Some(0),
        }
    }
}
