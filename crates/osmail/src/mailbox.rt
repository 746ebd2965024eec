//! The mailbox of one ordered pair of cores.

ghost use Rattle.std.specs.Prelude.{◌≡◌, ◌++◌, ◌<◌, ◌≤◌, ◌↔◌, ◌⊎◌, List, length, slice_get, IfOk, IfErr, IfSome, IfNone, OnOk, IsTrue};
ghost use Rattle.osbase.specs.declared.messages.Letter.{Letter};
ghost use Rattle.osmail.specs.Ends.{letter_in, sent_to, taken_from};
ghost use Rattle.osmail.specs.Mailboxes.{IsNext, after_pop, after_push, empty_mailbox};

use crate::ends::MailStep;
use crate::settling::{next_sent, without, without_taken};
use osbase::{CoreId, Envelope};
use std::alloc::{AllocError, Global};
use std::collections::VecDeque;
use std::marker::Model;

/// A mailbox with a fixed sender and receiver. Its envelopes are numbered one after another. It has place for `cap` of
/// them from the start, and never holds more.
#[derive(Drop)]
pub struct Mailbox<const CAP: usize> {
    from: CoreId,
    to: CoreId,
    cap: usize,
    next: u64,
    envelopes: VecDeque<Envelope>,
}

impl<const CAP: usize> Model for Mailbox<CAP> {
    ghost use Rattle.std.specs.{Prelude.◌≤◌, VecDeque.deque_capacity};
    ghost use Rattle.osmail.specs.{Ends.letters_of, Mailboxes.IsMailbox, Mailboxes.MailboxState};

    ghost Value = { MailboxState };

    ghost view = { λ m. record { from = m.from; to = m.to; cap = m.cap; next = m.next; letters = letters_of m.envelopes.items } };

    ghost invariant = { λ m. (m.cap ≤ deque_capacity m.envelopes) × IsMailbox CAP (record { from = m.from; to = m.to; cap = m.cap; next = m.next; letters = letters_of m.envelopes.items }) };
}

impl<const CAP: usize> Mailbox<CAP> {
    /// An empty mailbox from `from` to `to`, with place for `cap` envelopes.
    pub fn new(alloc: Global, from: CoreId, to: CoreId, cap: usize) -> Result<Self, AllocError>
        requires { cap ≤ CAP }
        ensures { IfOk result (λ m. m ≡ empty_mailbox from to cap) }
    {
        let envelopes = VecDeque::with_capacity(alloc, cap)?;
        Ok(Mailbox {
            from,
            to,
            cap,
            next: 0,
            envelopes,
        })
    }

    // Whether the envelope has the sender's next number, and the number is below 2 ^ 62.
    fn is_next(&self, envelope: &Envelope) -> bool
        ensures { IsTrue result ↔ IsNext self.now envelope.now.letter }
    {
        envelope.letter.number < 1 << 62
            && envelope.letter.number == self.next + self.envelopes.len() as u64
    }

    /// Puts the envelope behind the others. If the mailbox is full, or the envelope is not the sender's next, hands it
    /// back.
    pub fn push(&mut self, envelope: Envelope) -> Result<(), Envelope>
        ensures ok { OnOk result ((self.new ≡ after_push self.old envelope.letter) × IsNext self.old envelope.letter × (length self.old.letters < self.old.cap)) }
        ensures err { IfErr result (λ e. (e ≡ envelope) × (self.new ≡ self.old) × ((self.old.cap ≤ length self.old.letters) ⊎ (IsNext self.old envelope.letter → ⊥))) }
    {
        if !self.is_next(&envelope) {
            return Err(envelope);
        }
        if self.envelopes.len() >= self.cap {
            return Err(envelope);
        }
        let Ok(()) = self.envelopes.push_back(envelope) else {
            unreachable!()
        };
        Ok(())
    }

    /// Takes the oldest envelope, if there is one.
    pub fn pop(&mut self) -> Option<Envelope>
        ensures oldest { letter_in result ≡ slice_get self.old.letters 0 }
        ensures rest { self.new ≡ after_pop self.old }
    {
        let Some(oldest) = self.envelopes.pop_front() else {
            return None;
        };
        self.next += 1;
        Some(oldest)
    }

    // Whether the letters left in this mailbox are the first that the steps `sent` sent to `to`. If so, the steps of
    // `sent` behind these letters; else None.
    fn without_left<'a>(&self, sent: &'a [MailStep], to: CoreId) -> Option<&'a [MailStep]>
        ensures some { IfSome result (λ left. sent_to sent.now to ≡ self.now.letters ++ sent_to left.now to) }
        ensures none { IfNone result ((more : List Letter) → self.now.letters ++ more ≡ sent_to sent.now to → ⊥) }
    {
        let mut left = sent;
        for i in 0..self.envelopes.len() {
            left = without(left, to, &self.envelopes[i].letter)?;
        }
        Some(left)
    }

    /// Whether what `to` took from `from`, followed by what is left in this mailbox, is what `from` sent to `to`.
    /// `sent` has the steps of `from`, and `taken` those of `to`. The call takes no memory.
    pub fn settles(&self, from: CoreId, sent: &[MailStep], to: CoreId, taken: &[MailStep]) -> bool
        ensures { IsTrue result ↔ taken_from taken.now from ++ self.now.letters ≡ sent_to sent.now to }
    {
        let Some(sent) = without_taken(sent, to, taken, from) else {
            return false;
        };
        let Some(sent) = self.without_left(sent, to) else {
            return false;
        };
        next_sent(sent, to).is_none()
    }
}
