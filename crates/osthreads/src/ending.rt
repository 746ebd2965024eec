//! What a worker's thread starts with, and what it gives back.

ghost use Rattle.std.specs.Prelude.{◌≡◌, ◌++◌, ◌+◌, ◌<◌, ◌≤◌, IfSome, vec_len, vec_capacity};
ghost use Rattle.osmail.specs.Ends.{sent_to, taken_from};
ghost use Rattle.osthreads.specs.Threads.{kept_in, sent_of, taken_of};

use osbase::{CoreId, Report};
use osmail::{MailStep, RingEnd};
use osworker::{Run, Seats, Stop};
use std::snapshot::Snapshot;
use std::thread::Promise;

/// What a worker's thread starts with: its core's seats, and the core's end of the rings, if the mail goes through
/// rings.
#[derive(Drop)]
pub struct Outfit {
    pub seats: Seats,
    pub end: Option<RingEnd>,
}

/// What a core's end of the mail leaves behind: of locked mailboxes, what it sent and took; of rings, the end itself.
#[derive(Drop)]
pub enum Kept {
    Steps(Vec<MailStep>),
    Rings(RingEnd),
}

impl Kept {
    // If this is an end of locked mailboxes, returns what it sent and took.
    pub(crate) fn steps(&self) -> Option<&[MailStep]>
        ensures { IfSome result (λ steps. (sent_of self.now ≡ sent_to steps.now) × (taken_of self.now ≡ taken_from steps.now)) }
    {
        match self {
            Kept::Steps(steps) => Some(steps.as_slice()),
            Kept::Rings(_) => None,
        }
    }

    // If this is an end of rings, appends it to `ends`.
    pub(crate) fn put_end(self, ends: &mut Vec<RingEnd>)
        requires { vec_len ends.old < vec_capacity ends.old }
        ensures items { ends.new.items ≡ ends.old.items ++ kept_in self }
        ensures len { vec_len ends.new ≤ vec_len ends.old + 1 }
        ensures capacity { vec_capacity ends.new ≡ vec_capacity ends.old }
    {
        if let Kept::Rings(end) = self {
            ends.push_reserved(end);
        }
    }
}

/// What a worker's thread gives back: its core's report and seats, what its end of the mail left behind, and why it
/// stopped.
#[derive(Drop)]
pub struct Ending {
    pub report: Report,
    pub seats: Seats,
    pub kept: Kept,
    pub stop: Stop,
}

/// What is promised of the thread of a core: it gives back an ending of that core's worker, and the end of the rings
/// that it was given, if it was given one.
#[derive(Drop)]
pub struct EndOf<'a> {
    pub run: Run<'a>,
    pub id: CoreId,
    pub end: Snapshot<Option<RingEnd>>,
}

impl<'a> Promise<Ending> for EndOf<'a> {
    ghost use Rattle.osworker.specs.Seats.{shared};
    ghost use Rattle.osthreads.specs.{Threads.IsEnded, Threads.IsSameEnd};

    ghost kept_by = { λ p e. IsEnded p.run.config.now p.run.stimuli.now p.run.turns (shared p.run.board.now p.run.bank.now) p.id e × IsSameEnd p.end.value e.kept };
}
