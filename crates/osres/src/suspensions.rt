//! How often one job has suspended interrupts.

ghost use Rattle.std.specs.Prelude.{◌≡◌, nat_lt};
ghost use Rattle.osbase.specs.Interrupts.{deeper, shallower};

use std::marker::Model;

/// How often a job has suspended interrupts and not resumed them, at most 255 times.
#[derive(Drop)]
pub struct Suspensions {
    depth: u8,
}

impl Model for Suspensions {
    ghost use Rattle.std.specs.Prelude.{ℕ};

    ghost Value = { ℕ };

    ghost view = { λ l. l.depth };
}

impl Suspensions {
    /// Interrupts are not suspended.
    pub fn new() -> Self
        ensures { result ≡ 0 }
    {
        Suspensions { depth: 0 }
    }

    /// The job suspends interrupts once more; after 255 times nothing changes (OSEK/VDX OS 2.2.3, section 13.3.2.4;
    /// that limit is the project's own).
    pub fn suspend_interrupts(&mut self)
        ensures { self.new ≡ deeper self.old }
    {
        if self.depth < u8::MAX {
            self.depth += 1;
        }
    }

    /// The job resumes interrupts once; if it has not suspended them, nothing changes (OSEK/VDX OS 2.2.3, section
    /// 13.3.2.3).
    pub fn resume_interrupts(&mut self)
        ensures { self.new ≡ shallower self.old }
    {
        if self.depth > 0 {
            self.depth -= 1;
        }
    }

    /// The job has ended: its interrupts are resumed.
    pub fn give_back(&mut self)
        ensures { self.new ≡ 0 }
    {
        self.depth = 0;
    }

    /// Whether the job has suspended interrupts.
    pub fn has_suspended_interrupts(&self) -> bool
        ensures { result ≡ nat_lt 0 self.now }
    {
        0 < self.depth
    }
}

impl Default for Suspensions {
    fn default() -> Self
        ensures { result ≡ 0 }
    {
        Suspensions::new()
    }
}
