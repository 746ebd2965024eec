//! The mailboxes of cores on threads of their own, each a ring that one core fills and another one empties, without a
//! lock.

ghost use Rattle.std.specs.Prelude.{◌≡◌, ◌<◌, ◌≤◌, ◌++◌, ◌∷◌, [], ℕ, None, Some, length, map, replicate, slice_set, IfErr, IfNone, IfOk, IfSome, IsOk, IsSome, OnOk, vec_len};
ghost use Rattle.std.specs.{List.AllByRecursion, Option.option_map};
ghost use Rattle.osbase.specs.declared.references.CoreId.{CoreId as CoreNumber};
ghost use Rattle.osmail.specs.Ends.{AreUnchanged, HasOneMore};
ghost use Rattle.osmail.specs.Rings.{AreBothDelivered, AreBothLinked, AreCores, AreDelivered, AreMade, HasRoom, IsBare, IsDelivered, IsLinked, IsRingDelivered, IsUnused, SendsBy, TakesBy, core_at, core_of_end, end_id, free_at, free_of, free_to, known_by, known_from, past_of, ring_from, ring_sent, ring_taken, ring_to, sent_by, taken_by};

use crate::ends::Mail;
use osbase::{CORES, CoreId, Envelope};
use rtrb::{Consumer, Producer, PushError, RingBuffer};
use std::alloc::{AllocError, Global};
use std::marker::Model;
use std::snapshot::Snapshot;

/// The rings of all ordered pairs of some cores. Each ring lies with the ends of its two cores, so this value has
/// a snapshot of the ends, which only clauses read.
#[derive(Drop)]
pub struct RingMail<const CAP: usize> {
    ends: Snapshot<Vec<RingEnd>>,
}

impl<const CAP: usize> Model for RingMail<CAP> {
    ghost use Rattle.std.specs.Prelude.{List, map};
    ghost use Rattle.osmail.specs.Rings.{AreLinked, EndId, end_id};

    ghost Value = { List EndId };

    ghost view = { λ m. map end_id m.ends.value.items };

    ghost invariant = { λ m. AreLinked (map end_id m.ends.value.items) };
}

/// One core's end of the rings. For each core number it has a place for the ring to that core and one for the ring from
/// it, which are used if that core has rings. So no send and no take has to look for its ring.
#[derive(Drop)]
pub struct RingEnd {
    core: CoreId,
    to: Vec<Option<Producer<Envelope>>>,
    from: Vec<Option<Consumer<Envelope>>>,
}

impl Mail for RingEnd {
    ghost use Rattle.osmail.specs.Rings.{EndId};

    ghost sent = { ring_sent };

    ghost taken = { ring_taken };

    // A ring end records nothing: what went through a ring is known from its two ends.
    ghost has_room = { λ _. Unit {0} };

    ghost Which = { EndId };

    ghost which = { end_id };

    fn room(&mut self) -> Result<(), AllocError> {
        Ok(())
    }

    #[tactic(auto, using(crate::proofs::Through::read_same, crate::proofs::Through::one_more, crate::proofs::Through::read_at, crate::proofs::Through::read_set, crate::proofs::Through::read_past))]
    fn send(&mut self, to: CoreId, envelope: Envelope) -> Result<(), Envelope>
        ensures ok { OnOk result (HasOneMore to envelope.letter (ring_sent self.old) (ring_sent self.new)) }
        ensures err { IfErr result (λ e. (e ≡ envelope) × AreUnchanged (ring_sent self.old) (ring_sent self.new)) }
        ensures taken { AreUnchanged (ring_taken self.old) (ring_taken self.new) }
        ensures which { end_id self.new ≡ end_id self.old }
        ensures full { IfErr result (λ _. free_to to self.new ≡ 0) }
        ensures succeeds { 0 < free_to to self.old → IsOk result }
    {
        let Some(place) = self.to.get_mut(usize::from(to.number)) else {
            return Err(envelope);
        };
        send_through(place, envelope)
    }

    #[tactic(auto, using(crate::proofs::Through::read_same, crate::proofs::Through::one_more, crate::proofs::Through::read_at, crate::proofs::Through::read_set, crate::proofs::Through::read_past))]
    fn take(&mut self, from: CoreId) -> Option<Envelope>
        ensures some { IfSome result (λ e. HasOneMore from e.letter (ring_taken self.old) (ring_taken self.new)) }
        ensures none { IfNone result (AreUnchanged (ring_taken self.old) (ring_taken self.new)) }
        ensures sent { AreUnchanged (ring_sent self.old) (ring_sent self.new) }
        ensures which { end_id self.new ≡ end_id self.old }
        ensures empty { IfNone result (known_from from self.new ≡ []) }
        ensures succeeds { 0 < length (known_from from self.old) → IsSome result }
    {
        let place = self.from.get_mut(usize::from(from.number))?;
        take_through(place)
    }
}

// Sends the envelope by the ring at this place. If there is no ring, or no slot is free, hands the envelope back.
#[tactic(auto, using(crate::proofs::Through::letters_more))]
fn send_through(place: &mut Option<Producer<Envelope>>, envelope: Envelope) -> Result<(), Envelope>
    ensures ok { OnOk result (sent_by place.new ≡ sent_by place.old ++ envelope.letter ∷ []) }
    ensures err { IfErr result (λ e. (e ≡ envelope) × (sent_by place.new ≡ sent_by place.old) × (free_of place.new ≡ 0)) }
    ensures ring { option_map ring_to place.new ≡ option_map ring_to place.old }
    ensures succeeds { 0 < free_of place.old → IsOk result }
{
    let Some(ring) = place else {
        return Err(envelope);
    };
    match ring.push(envelope) {
        Ok(()) => Ok(()),
        Err(PushError::Full(back)) => Err(back),
    }
}

// Takes the oldest envelope from the ring at this place, if there are a ring and an envelope.
#[tactic(auto, using(crate::proofs::Through::letters_more))]
fn take_through(place: &mut Option<Consumer<Envelope>>) -> Option<Envelope>
    ensures some { IfSome result (λ e. taken_by place.new ≡ taken_by place.old ++ e.letter ∷ []) }
    ensures none { IfNone result ((taken_by place.new ≡ taken_by place.old) × (known_by place.new ≡ [])) }
    ensures ring { option_map ring_from place.new ≡ option_map ring_from place.old }
    ensures succeeds { 0 < length (known_by place.old) → IsSome result }
{
    let Some(ring) = place else {
        return None;
    };
    ring.pop().ok()
}

impl<const CAP: usize> RingMail<CAP> {
    /// Makes a ring for each ordered pair of these cores, and one from each core to itself. Each ring has room for
    /// `cap` envelopes. Gives the mail, and the cores' ends in the cores' order. All the memory that the rings ever
    /// need is taken here.
    #[tactic(auto, using(crate::proofs::Making::all_unused))]
    pub fn new(
        alloc: Global,
        cores: &[CoreId],
        cap: usize,
    ) -> Result<(Self, Vec<RingEnd>), AllocError>
        requires room { cap ≤ CAP }
        requires cores { AreCores cores.now }
        ensures ends { IfOk result (λ r. map end_id r.1.items ≡ r.0) }
        ensures cores { IfOk result (λ r. map core_of_end r.1.items ≡ cores.now) }
        ensures unused { IfOk result (λ r. AllByRecursion IsUnused r.1.items) }
        ensures room { IfOk result (λ r. AllByRecursion (HasRoom cores.now cap) r.1.items) }
    {
        let ends = linked_ends(alloc, cores, cap)?;
        let mail = RingMail {
            ends: Snapshot::of(&ends),
        };
        Ok((mail, ends))
    }

    /// The mail of a run that has no rings. The call takes no memory.
    pub fn none(alloc: Global) -> Self
        ensures { result ≡ [] }
    {
        let ends: Vec<RingEnd> = Vec::new(alloc);
        RingMail {
            ends: Snapshot::of(&ends),
        }
    }

    /// Takes all ends back. Together they show, for each taker and each sender, that what the taker took from the
    /// sender, followed by what is left, is what the sender sent to the taker. The call takes no memory.
    pub fn gather(&self, ends: Vec<RingEnd>)
        requires { map end_id ends.items ≡ self.now }
        ensures { AreDelivered (map past_of ends.items) }
    {
        let _linked = &self.ends;
        let mut ends = ends;
        while let Some(mut last) = ends.pop() {
            settle_own(&mut last);
            settle_each(&mut last, &mut ends);
        }
    }
}

// Shows, by both ends of a ring, that what came out of it, followed by what is left, is what went into it.
#[tactic(auto, using(crate::proofs::Through::is_pair, crate::proofs::Through::ring_settled, crate::proofs::Through::no_sender, crate::proofs::Through::no_taker))]
fn settle_ring(to: &mut Option<Producer<Envelope>>, from: &mut Option<Consumer<Envelope>>)
    requires { option_map ring_to to.old ≡ option_map ring_from from.old }
    ensures delivered { IsRingDelivered to.old from.old }
    ensures to { (option_map ring_to to.new ≡ option_map ring_to to.old) × (sent_by to.new ≡ sent_by to.old) }
    ensures from { (option_map ring_from from.new ≡ option_map ring_from from.old) × (taken_by from.new ≡ taken_by from.old) }
{
    let Some(to) = to else {
        return;
    };
    let Some(from) = from else {
        return;
    };
    from.slots_beside(to);
}

// Shows, by both cores' ends, that what the taker took from the sender, followed by what is left, is what the sender
// sent to the taker.
#[tactic(auto, using(crate::proofs::Through::linked_places, crate::proofs::Through::settled_at, crate::proofs::Through::nothing_sent_by, crate::proofs::Through::nothing_taken_by, crate::proofs::Through::read_same))]
fn settle(sender: &mut RingEnd, taker: &mut RingEnd)
    requires { IsLinked (end_id sender.old) (end_id taker.old) }
    ensures delivered { IsDelivered (past_of sender.old) (past_of taker.old) }
    ensures sender { (end_id sender.new ≡ end_id sender.old) × (past_of sender.new ≡ past_of sender.old) }
    ensures taker { (end_id taker.new ≡ end_id taker.old) × (past_of taker.new ≡ past_of taker.old) }
{
    let Some(to) = sender.to.get_mut(usize::from(taker.core.number)) else {
        return;
    };
    let Some(from) = taker.from.get_mut(usize::from(sender.core.number)) else {
        return;
    };
    settle_ring(to, from);
}

// Shows that what a core took from itself, followed by what is left, is what it sent to itself.
#[tactic(auto, using(crate::proofs::Through::linked_places, crate::proofs::Through::settled_at, crate::proofs::Through::nothing_sent_by, crate::proofs::Through::nothing_taken_by, crate::proofs::Through::read_same))]
fn settle_own(end: &mut RingEnd)
    requires { IsLinked (end_id end.old) (end_id end.old) }
    ensures delivered { IsDelivered (past_of end.old) (past_of end.old) }
    ensures same { (end_id end.new ≡ end_id end.old) × (past_of end.new ≡ past_of end.old) }
{
    let own = usize::from(end.core.number);
    let Some(to) = end.to.get_mut(own) else {
        return;
    };
    let Some(from) = end.from.get_mut(own) else {
        return;
    };
    settle_ring(to, from);
}

// Shows, of one core and each of the others both ways, that what the taker took, followed by what is left, is what the
// sender sent to the taker.
fn settle_each(one: &mut RingEnd, others: &mut Vec<RingEnd>)
    requires { AllByRecursion (AreBothLinked (end_id one.old)) (map end_id others.old.items) }
    ensures delivered { AllByRecursion (AreBothDelivered (past_of one.old)) (map past_of others.old.items) }
    ensures ids { map end_id others.new.items ≡ map end_id others.old.items }
    ensures pasts { map past_of others.new.items ≡ map past_of others.old.items }
{
    for i in 0..others.len() {
        let other = &mut others[i];
        settle(one, other);
        settle(other, one);
    }
}

// The ends of these cores, with a ring for each ordered pair of them, and one from each core to itself. Each ring has
// room for `cap` envelopes.
fn linked_ends(alloc: Global, cores: &[CoreId], cap: usize) -> Result<Vec<RingEnd>, AllocError>
    requires { AreCores cores.now }
    ensures made { IfOk result (λ ends. AreMade ends.items) }
    ensures cores { IfOk result (λ ends. map core_of_end ends.items ≡ cores.now) }
    ensures room { IfOk result (λ ends. AllByRecursion (HasRoom cores.now cap) ends.items) }
{
    let mut ends = bare_ends(alloc, cores)?;
    for from in 0..ends.len() {
        link_each(alloc, &mut ends, from, cap)?;
    }
    Ok(ends)
}

// The ends of these cores, without rings.
fn bare_ends(alloc: Global, cores: &[CoreId]) -> Result<Vec<RingEnd>, AllocError>
    requires { AreCores cores.now }
    ensures made { IfOk result (λ ends. AreMade ends.items) }
    ensures cores { IfOk result (λ ends. map core_of_end ends.items ≡ cores.now) }
{
    let mut ends = Vec::with_capacity(alloc, cores.len())?;
    for core in cores {
        ends.push(RingEnd::bare(alloc, *core)?)?;
    }
    Ok(ends)
}

// Makes the rings by which the end at the place `from` sends to each end, also to itself.
fn link_each(
    alloc: Global,
    ends: &mut Vec<RingEnd>,
    from: usize,
    cap: usize,
) -> Result<(), AllocError>
    requires from { from < vec_len ends.old }
    requires made { AreMade ends.old.items }
    ensures made { OnOk result (AreMade ends.new.items) }
    ensures cores { OnOk result (map core_of_end ends.new.items ≡ map core_of_end ends.old.items) }
    ensures keeps { OnOk result ((i : ℕ) (d : CoreNumber) → free_at ends.old.items i d ≡ cap → free_at ends.new.items i d ≡ cap) }
    ensures room { OnOk result (AllByRecursion (λ d. free_at ends.new.items from d ≡ cap) (map core_of_end ends.old.items)) }
{
    for to in 0..ends.len() {
        link(alloc, ends, from, to, cap)?;
    }
    Ok(())
}

// Makes the ring by which the end at the place `from` sends to the end at the place `to`, which may be the same end.
fn link(
    alloc: Global,
    ends: &mut Vec<RingEnd>,
    from: usize,
    to: usize,
    cap: usize,
) -> Result<(), AllocError>
    requires from { from < vec_len ends.old }
    requires to { to < vec_len ends.old }
    requires made { AreMade ends.old.items }
    ensures made { OnOk result (AreMade ends.new.items) }
    ensures cores { OnOk result (map core_of_end ends.new.items ≡ map core_of_end ends.old.items) }
    ensures keeps { OnOk result ((i : ℕ) (d : CoreNumber) → free_at ends.old.items i d ≡ cap → free_at ends.new.items i d ≡ cap) }
    ensures room { OnOk result (free_at ends.new.items from (core_at ends.old.items to) ≡ cap) }
{
    let (sending, taking) = RingBuffer::new(alloc, cap)?;
    let sender = ends[from].core;
    let taker = ends[to].core;
    ends[from].attach_sender(taker, sending);
    ends[to].attach_taker(sender, taking);
    Ok(())
}

impl RingEnd {
    // A core's end without rings.
    fn bare(alloc: Global, core: CoreId) -> Result<Self, AllocError>
        ensures { IfOk result (λ end. (end.core ≡ core) × IsBare end) }
    {
        Ok(RingEnd {
            core,
            to: no_rings(alloc)?,
            from: no_rings(alloc)?,
        })
    }

    // Makes the end send to this core by this ring from now on.
    fn attach_sender(&mut self, to: CoreId, ring: Producer<Envelope>)
        requires { to.number < length self.old.to.items }
        ensures { SendsBy to ring self.old self.new }
    {
        self.to[usize::from(to.number)] = Some(ring);
    }

    // Makes the end take from this core by this ring from now on.
    fn attach_taker(&mut self, from: CoreId, ring: Consumer<Envelope>)
        requires { from.number < length self.old.from.items }
        ensures { TakesBy from ring self.old self.new }
    {
        self.from[usize::from(from.number)] = Some(ring);
    }
}

// A place for each core number, without a ring.
fn no_rings<T: Drop>(alloc: Global) -> Result<Vec<Option<T>>, AllocError>
    ensures { IfOk result (λ rings. rings.items ≡ replicate CORES None) }
{
    let mut rings = Vec::with_capacity(alloc, CORES)?;
    for _place in 0..CORES {
        rings.push(None)?;
    }
    Ok(rings)
}
