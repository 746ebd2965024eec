//! The mailboxes of cores on threads of their own, each under a lock.

ghost use Rattle.std.specs.Prelude.{◌≡◌, ◌<◌, ◌≤◌, ◌∷◌, ◌++◌, [], slice_get, IfErr, OnOk, IfSome, IfNone, vec_len, vec_capacity};
ghost use Rattle.osmail.specs.{Ends.letter_in, Ends.sent_to, Ends.taken_from, Mailboxes.after_pop, Mailboxes.after_push, declared.ends.MailStep.TheVariants.Sent, declared.ends.MailStep.TheVariants.Taken};

use crate::ends::{Mail, MailStep};
use crate::mailbox::Mailbox;
use crossbeam_utils::CachePadded;
use osbase::{CORE_NUMBERS, CORES, CoreId, Envelope};
use std::alloc::{AllocError, Global};
use std::sync::{Mutex, Wait};

// Two mailboxes share no cache line, so that a core that uses one does not slow those that use another.
type Locked<const CAP: usize> = CachePadded<Mutex<Mailbox<CAP>>>;

/// The mailboxes of all ordered pairs of some cores, each under its own lock: a row of mailboxes for each sender.
#[derive(Drop)]
pub struct LockedMail<const CAP: usize> {
    // By a core's number: the place of its row, and of its mailbox in each row, if it is one of these cores.
    places: Vec<Option<usize>>,
    rows: Vec<Vec<Locked<CAP>>>,
}

impl<const CAP: usize> LockedMail<CAP> {
    /// Empty mailboxes between these cores, each with room for `cap` envelopes. All the memory that the
    /// mailboxes ever need is taken here.
    pub fn new(alloc: Global, cores: &[CoreId], cap: usize) -> Result<Self, AllocError>
        requires { cap ≤ CAP }
    {
        let mut rows = Vec::with_capacity(alloc, cores.len())?;
        for from in cores {
            rows.push(row(alloc, *from, cores, cap)?)?;
        }
        Ok(LockedMail {
            places: places_of(alloc, cores)?,
            rows,
        })
    }

    // The place of the core's row, and of its mailbox in each row. None if the core has no mailboxes.
    fn place(&self, core: CoreId) -> Option<usize> {
        let place = self.places.as_slice().get(usize::from(core.number))?;
        *place
    }

    // The mailbox from `from` to `to`, if there is one.
    fn mailbox(&self, from: CoreId, to: CoreId) -> Option<&Mutex<Mailbox<CAP>>> {
        let row = self.rows.as_slice().get(self.place(from)?)?;
        let mailbox = row.as_slice().get(self.place(to)?)?;
        Some(mailbox)
    }

    /// The mailbox from `from` to `to`, if there is one, with what is in it once no end of the mail is left.
    pub fn left(&mut self, from: CoreId, to: CoreId) -> Option<&mut Mailbox<CAP>> {
        let (from, to) = (self.place(from)?, self.place(to)?);
        let row = self.rows.get_mut(from)?;
        let mailbox = row.get_mut(to)?;
        Some(mailbox.get_mut())
    }

    /// One core's end of the mail, which has sent and taken nothing yet.
    pub fn end<'a, R: Wait>(
        &'a self,
        rt: &'a R,
        alloc: Global,
        core: CoreId,
    ) -> LockedEnd<'a, R, CAP>
        ensures { result.steps.items ≡ [] }
    {
        LockedEnd {
            rt,
            mail: self,
            core,
            steps: Vec::new(alloc),
        }
    }
}

// Empty mailboxes from one core to each of these cores, each with room for `cap` envelopes.
fn row<const CAP: usize>(
    alloc: Global,
    from: CoreId,
    cores: &[CoreId],
    cap: usize,
) -> Result<Vec<Locked<CAP>>, AllocError>
    requires { cap ≤ CAP }
{
    let mut row = Vec::with_capacity(alloc, cores.len())?;
    for to in cores {
        let mailbox = Mailbox::new(alloc, from, *to, cap)?;
        row.push(CachePadded::new(Mutex::new(mailbox)))?;
    }
    Ok(row)
}

// For each core number: the core's place among these cores, or none. So no send and no take has to look for it.
fn places_of(alloc: Global, cores: &[CoreId]) -> Result<Vec<Option<usize>>, AllocError> {
    let mut places = Vec::with_capacity(alloc, CORES)?;
    for number in 0..CORE_NUMBERS {
        places.push(place_in(cores, CoreId { number }))?;
    }
    Ok(places)
}

// The core's place among these cores, if it is one of them.
fn place_in(cores: &[CoreId], core: CoreId) -> Option<usize> {
    cores.iter().position(|one| one.number == core.number)
}

/// One core's end of the locked mail. It records what it sent and took, so that two ends can be compared
/// once nobody uses them.
#[derive(Drop)]
pub struct LockedEnd<'a, R, const CAP: usize> {
    rt: &'a R,
    mail: &'a LockedMail<CAP>,
    core: CoreId,
    steps: Vec<MailStep>,
}

impl<'a, R: Wait, const CAP: usize> LockedEnd<'a, R, CAP> {
    /// What the end sent and took, in order.
    pub fn into_steps(self) -> Vec<MailStep>
        ensures { result.items ≡ self.entry.steps.items }
    {
        self.steps
    }
}

// Puts an envelope into the mailbox, and records it. If the mailbox refuses the envelope, hands it back.
fn post<const CAP: usize>(
    mailbox: &mut Mailbox<CAP>,
    steps: &mut Vec<MailStep>,
    to: CoreId,
    envelope: Envelope,
) -> Result<(), Envelope>
    requires { vec_len steps.old < vec_capacity steps.old }
    ensures ok { OnOk result ((mailbox.new ≡ after_push mailbox.old envelope.letter) × (steps.new.items ≡ steps.old.items ++ Sent to envelope.letter ∷ [])) }
    ensures err { IfErr result (λ e. (e ≡ envelope) × (mailbox.new ≡ mailbox.old) × (steps.new ≡ steps.old)) }
{
    let sent = mailbox.push(envelope);
    if sent.is_ok() {
        steps.push_reserved(MailStep::Sent(to, envelope.letter));
    }
    sent
}

// Takes the oldest envelope from the mailbox, if there is one, and records it.
fn fetch<const CAP: usize>(
    mailbox: &mut Mailbox<CAP>,
    steps: &mut Vec<MailStep>,
    from: CoreId,
) -> Option<Envelope>
    requires { vec_len steps.old < vec_capacity steps.old }
    ensures oldest { letter_in result ≡ slice_get mailbox.old.letters 0 }
    ensures rest { mailbox.new ≡ after_pop mailbox.old }
    ensures some { IfSome result (λ e. steps.new.items ≡ steps.old.items ++ Taken from e.letter ∷ []) }
    ensures none { IfNone result (steps.new ≡ steps.old) }
{
    let taken = mailbox.pop();
    if let Some(envelope) = &taken {
        steps.push_reserved(MailStep::Taken(from, envelope.letter));
    }
    taken
}

impl<'a, R: Wait, const CAP: usize> Mail for LockedEnd<'a, R, CAP> {
    ghost sent = { λ end. sent_to end.steps.items };

    ghost taken = { λ end. taken_from end.steps.items };

    ghost has_room = { λ end. vec_len end.steps < vec_capacity end.steps };

    // No clause can say which end it is: no fact leaves a lock, so what went through is compared at the end.
    ghost Which = { Unit {0} };

    ghost which = { λ _. tt };

    fn room(&mut self) -> Result<(), AllocError> {
        self.steps.reserve(1)
    }

    #[tactic(auto, using(crate::proofs::Steps::sent_after_sent, crate::proofs::Steps::taken_after_sent))]
    fn send(&mut self, to: CoreId, envelope: Envelope) -> Result<(), Envelope> {
        let Some(lock) = self.mail.mailbox(self.core, to) else {
            return Err(envelope);
        };
        post(&mut lock.lock(self.rt), &mut self.steps, to, envelope)
    }

    #[tactic(auto, using(crate::proofs::Steps::taken_after_taken, crate::proofs::Steps::sent_after_taken))]
    fn take(&mut self, from: CoreId) -> Option<Envelope> {
        let lock = self.mail.mailbox(from, self.core)?;
        fetch(&mut lock.lock(self.rt), &mut self.steps, from)
    }
}
