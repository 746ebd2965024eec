//! The mailboxes of a listed run, in which one thread plays all cores.

ghost use Rattle.std.specs.Prelude.{◌≡◌, ◌<◌, ◌≤◌, ◌==◌, ◌*◌, ◌^◌, length, IfOk, OnErr};
ghost use Rattle.osmail.specs.Ends.{letter_in};
ghost use Rattle.osmail.specs.Mail.{after_send, after_take, answer_of, box_of, empty_mail, has_mail, has_room, oldest_of, place_of};

use crate::letters::Letters;
use osbase::{CORES, CoreId, Envelope, Letter};
use std::alloc::{AllocError, Global};
use std::marker::Model;

/// The mailboxes of all ordered pairs of cores, each with place for `CAP` envelopes. For each core it counts the
/// envelopes that wait for the core, so that it need not search the mailboxes to see that none waits.
#[derive(Drop)]
pub struct ListMail<const CAP: usize> {
    cap: usize,
    boxes: Vec<Letters<CAP>>,
    counts: [u16; CORES],
}

impl<const CAP: usize> Model for ListMail<CAP> {
    ghost use Rattle.osmail.specs.Mail.{AreCounted, IsWithin, Mail};

    ghost Value = { Mail };

    ghost view = { λ m. record { cap = m.cap; boxes = m.boxes.items } };

    ghost invariant = { λ m. IsWithin CAP m.cap m.boxes.items × AreCounted m.counts m.boxes.items };
}

impl<const CAP: usize> ListMail<CAP> {
    /// Empty mailboxes, each with room for `cap` envelopes. All the memory that the
    /// mailboxes ever need is taken here.
    pub fn new(alloc: Global, cap: usize) -> Result<Self, AllocError>
        requires some { 1 ≤ cap }
        requires fits { cap ≤ CAP }
        requires few { CORES * cap < 2 ^ 16 }
        ensures { IfOk result (λ mail. mail ≡ empty_mail cap) }
    {
        let mut boxes = Vec::with_capacity(alloc, CORES * CORES)?;
        for _place in 0..CORES * CORES {
            boxes.push(Letters::new())?;
        }
        Ok(ListMail {
            cap,
            boxes,
            counts: [0; CORES],
        })
    }

    /// Whether an envelope is in a mailbox to this core.
    #[inline]
    pub fn has_mail(&self, to: CoreId) -> bool
        requires receiver { to.number < CORES }
        ensures { result ≡ has_mail self.now to }
    {
        self.counts[usize::from(to.number)] > 0
    }

    /// Whether fewer envelopes than the cap are in the mailbox from `from` to `to`.
    pub fn has_room(&self, from: CoreId, to: CoreId) -> bool
        requires sender { from.number < CORES }
        requires receiver { to.number < CORES }
        ensures answer { result ≡ has_room self.now from to }
        ensures places { length self.now.boxes ≡ CORES * CORES }
    {
        let boxes = self.boxes.as_slice();
        let letters = &boxes[place(from, to)];
        letters.len() < self.cap
    }

    /// Puts an envelope behind the others in the mailbox from `from` to `to`. If that mailbox is full, hands
    /// the envelope back and changes nothing.
    pub fn send(&mut self, from: CoreId, to: CoreId, envelope: Envelope) -> Result<(), Envelope>
        requires sender { from.number < CORES }
        requires receiver { to.number < CORES }
        ensures answer { result ≡ answer_of self.old from to envelope }
        ensures after { self.new ≡ after_send self.old from to envelope.letter }
        ensures full { OnErr result (length (box_of self.old from to) ≡ self.old.cap) }
        ensures places { length self.new.boxes ≡ CORES * CORES }
    {
        let cap = self.cap;
        let letters = &mut self.boxes[place(from, to)];
        if letters.len() >= cap {
            return Err(envelope);
        }
        letters.push(envelope.letter);
        self.counts[usize::from(to.number)] += 1;
        Ok(())
    }

    /// The letter of the oldest envelope of the mailbox from `from` to `to`, if there is one. The envelope stays there.
    pub fn oldest(&self, to: CoreId, from: CoreId) -> Option<Letter>
        requires receiver { to.number < CORES }
        requires sender { from.number < CORES }
        ensures value { result ≡ oldest_of self.now from to }
        ensures places { length self.now.boxes ≡ CORES * CORES }
    {
        let boxes = self.boxes.as_slice();
        boxes[place(from, to)].front()
    }

    /// Takes the oldest envelope of the mailbox from `from` to `to`, if there is one.
    pub fn take(&mut self, to: CoreId, from: CoreId) -> Option<Envelope>
        requires receiver { to.number < CORES }
        requires sender { from.number < CORES }
        ensures oldest { letter_in result ≡ oldest_of self.old from to }
        ensures after { self.new ≡ after_take self.old from to }
        ensures places { length self.new.boxes ≡ CORES * CORES }
    {
        let letter = self.boxes[place(from, to)].pop()?;
        self.counts[usize::from(to.number)] -= 1;
        Some(Envelope { letter, clock: 0 })
    }
}

// The place in `boxes` of the mailbox from `from` to `to`.
fn place(from: CoreId, to: CoreId) -> usize
    requires sender { from.number < CORES }
    requires receiver { to.number < CORES }
    ensures value { result ≡ place_of from to }
    ensures below { result < CORES * CORES }
{
    usize::from(from.number) * CORES + usize::from(to.number)
}
