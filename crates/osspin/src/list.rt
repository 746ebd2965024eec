//! The spinlocks of a listed run, in which one thread plays all cores.

ghost use Rattle.std.specs.Prelude.{◌≡◌, ◌<◌};
ghost use Rattle.osshared.specs.Histories.{Continues, entry};
ghost use Rattle.osspin.specs.Spins.{free_call, holder_of, holders_after, is_free, is_held_by, lock_after, lock_reply, look_call, no_holders, spin_call, spin_reply, spinlocks, try_take_call};

use crate::calls::{SpinAction, SpinCall, SpinReply};
use osbase::{CoreId, SPINLOCKS, SpinlockId};
use std::marker::Model;

/// The spinlocks, by who holds each. A list answers as `SpinBank` does, by the same definition.
#[derive(Clone, Copy)]
pub struct SpinList {
    holders: [Option<CoreId>; SPINLOCKS],
}

impl Model for SpinList {
    ghost use Rattle.std.specs.Prelude.{List, Option};
    ghost use Rattle.osbase.specs.declared.references.CoreId.{CoreId};

    ghost Value = { List (Option CoreId) };

    ghost view = { λ l. l.holders };

    ghost inverse = { λ holders. record { holders = holders } };
}

impl SpinList {
    /// Spinlocks that no core holds.
    pub fn new() -> Self
        ensures { result ≡ no_holders }
    {
        SpinList {
            holders: [None; SPINLOCKS],
        }
    }

    /// Takes the spinlock for a core if no core holds it, and says whether it did (AUTOSAR SWS OS 4.x,
    /// TryToGetSpinlock). A refusal changes nothing.
    #[tactic(auto, using(crate::proofs::Locks::takes_on))]
    pub fn try_take(&mut self, core: CoreId, lock: SpinlockId) -> bool
        requires { lock.index < SPINLOCKS }
        ensures answer { result ≡ is_free (holder_of self.old lock) }
        ensures after { self.new ≡ holders_after core (spin_call lock SpinAction.Take) self.old }
        ensures replays { Continues spinlocks self.old (try_take_call core lock result) self.new }
    {
        let holder = &mut self.holders[usize::from(lock.index)];
        match *holder {
            Some(_) => false,
            None => {
                *holder = Some(core);
                true
            }
        }
    }

    /// Frees the spinlock if the core holds it, and says whether it did (AUTOSAR SWS OS 4.x, ReleaseSpinlock).
    /// A refusal changes nothing.
    #[tactic(auto, using(crate::proofs::Locks::frees_on))]
    pub fn free(&mut self, core: CoreId, lock: SpinlockId) -> bool
        requires { lock.index < SPINLOCKS }
        ensures answer { result ≡ is_held_by core (holder_of self.old lock) }
        ensures after { self.new ≡ holders_after core (spin_call lock SpinAction.Free) self.old }
        ensures replays { Continues spinlocks self.old (free_call core lock result) self.new }
    {
        let holder = &mut self.holders[usize::from(lock.index)];
        if is_held_by(core, *holder) {
            *holder = None;
            return true;
        }
        false
    }

    /// The core that holds the spinlock, if any. The answer is the same whichever core looks.
    #[tactic(auto, using(crate::proofs::Locks::looks_on))]
    pub fn look(&self, lock: SpinlockId) -> Option<CoreId>
        requires { lock.index < SPINLOCKS }
        ensures answer { result ≡ holder_of self.now lock }
        ensures replays { (core : CoreId) → Continues spinlocks self.now (look_call core lock result) self.now }
    {
        self.holders[usize::from(lock.index)]
    }

    /// What a call would be answered now. Nothing changes. No core holds a spinlock past the last.
    pub fn reply(&self, core: CoreId, call: SpinCall) -> SpinReply
        ensures { result ≡ spin_reply core call self.now }
    {
        lock_reply(core, call.action, self.holder(call.lock))
    }

    /// Makes any of the three calls, of any spinlock, and gives its reply. A call of a spinlock past the last changes
    /// nothing, and is answered as if no core held the spinlock.
    #[tactic(auto, using(crate::proofs::Locks::goes_on))]
    pub fn call(&mut self, core: CoreId, call: SpinCall) -> SpinReply
        ensures answer { result ≡ spin_reply core call self.old }
        ensures after { self.new ≡ holders_after core call self.old }
        ensures replays { Continues spinlocks self.old (entry core call result) self.new }
    {
        let reply = self.reply(core, call);
        self.change(core, call);
        reply
    }

    // Makes the change of a call. If there is no such spinlock, nothing changes.
    fn change(&mut self, core: CoreId, call: SpinCall)
        ensures { self.new ≡ holders_after core call self.old }
    {
        let index = usize::from(call.lock.index);
        if let Some(holder) = self.holders.get(index) {
            let holder = *holder;
            self.holders[index] = lock_after(core, call.action, holder);
        }
    }

    // The core that holds the spinlock, if any. None if there is no such spinlock.
    fn holder(&self, lock: SpinlockId) -> Option<CoreId>
        ensures { result ≡ holder_of self.now lock }
    {
        match self.holders.get(usize::from(lock.index)) {
            Some(holder) => *holder,
            None => None,
        }
    }
}

// Who holds a spinlock after a call of the core, if `holder` holds it before.
fn lock_after(core: CoreId, action: SpinAction, holder: Option<CoreId>) -> Option<CoreId>
    ensures { result ≡ lock_after core action holder }
{
    match action {
        SpinAction::Take => match holder {
            Some(_) => holder,
            None => Some(core),
        },
        SpinAction::Free => {
            if is_held_by(core, holder) {
                None
            } else {
                holder
            }
        }
        SpinAction::Look => holder,
    }
}

// What a call of the core on a spinlock is answered, if `holder` holds it.
fn lock_reply(core: CoreId, action: SpinAction, holder: Option<CoreId>) -> SpinReply
    ensures { result ≡ lock_reply core action holder }
{
    match action {
        SpinAction::Take => SpinReply::Answered(holder.is_none()),
        SpinAction::Free => SpinReply::Answered(is_held_by(core, holder)),
        SpinAction::Look => SpinReply::Seen(holder),
    }
}

// Whether the core is the holder of the spinlock.
fn is_held_by(core: CoreId, holder: Option<CoreId>) -> bool
    ensures { result ≡ is_held_by core holder }
{
    match holder {
        Some(holder) => holder.number == core.number,
        None => false,
    }
}
