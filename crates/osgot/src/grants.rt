//! The spinlocks that a core got, and the runner whose job has each.

ghost use Rattle.std.specs.Prelude.{◌≡◌, ◌<◌, [], if◌then◌else◌, IfNone, IfSome, length, remove};
ghost use Rattle.osbase.specs.declared.limits.TheConstants.{SPINLOCKS};
ghost use Rattle.osbase.specs.Spins.{all_owed, has_spinlock, is_got_by, is_owing, newest_of, newest_owed, owed, owed_by, with_spinlock, without_spinlock};
ghost use Rattle.osgot.specs.Grants.{is_held_by};

use arrayvec::ArrayVec;
use osbase::{GotSpinlock, OpenCall, Runner, SPINLOCKS, SpinlockId};
use std::marker::Model;

/// The spinlocks that a core got and did not give back, the newest first. None is among them twice.
#[derive(Drop)]
pub struct Grants {
    got: ArrayVec<GotSpinlock, SPINLOCKS>,
}

impl Model for Grants {
    ghost use Rattle.std.specs.Prelude.{IsTrue, List};
    ghost use Rattle.osbase.specs.declared.histories.GotSpinlock.{GotSpinlock};
    ghost use Rattle.osgot.specs.Grants.{are_apart};

    ghost Value = { List GotSpinlock };

    ghost view = { λ g. g.got.items };

    ghost invariant = { λ g. IsTrue (are_apart g.got.items) };
}

impl Grants {
    /// No spinlock.
    pub fn new() -> Self
        ensures { result ≡ [] }
    {
        Grants {
            got: ArrayVec::new(),
        }
    }

    /// The job whose call is open gets the spinlock, which is now the newest. If no call is open or the core has the
    /// spinlock already, nothing changes (AUTOSAR SWS OS 4.x, GetSpinlock and TryToGetSpinlock).
    pub fn take(&mut self, lock: SpinlockId, open_call: Option<OpenCall>)
        requires { lock.index < SPINLOCKS }
        ensures { self.new ≡ with_spinlock lock open_call self.old }
    {
        let call = match open_call {
            Some(call) => call,
            None => return,
        };
        if self.has(lock) {
            return;
        }
        let got = GotSpinlock {
            lock,
            holder: Some(call.runner),
        };
        self.got.insert(0, got);
    }

    /// The core gives the spinlock back, if the core has it (AUTOSAR SWS OS 4.x, ReleaseSpinlock).
    pub fn free(&mut self, lock: SpinlockId)
        ensures { self.new ≡ without_spinlock lock self.old }
    {
        if let Some(place) = place_of(self.got.as_slice(), lock) {
            self.got.remove(place);
        }
    }

    /// From now on, the release of each spinlock that the runner's job has is owed.
    pub fn owe(&mut self, runner: Runner)
        ensures { self.new ≡ owed_by runner self.old }
    {
        owe_by(self.got.as_mut_slice(), runner);
    }

    /// From now on, the release of every spinlock is owed.
    pub fn owe_all(&mut self)
        ensures { self.new ≡ all_owed self.old }
    {
        owe_each(self.got.as_mut_slice());
    }

    /// Whether the core has the spinlock.
    pub fn has(&self, lock: SpinlockId) -> bool
        ensures { result ≡ has_spinlock lock self.now }
    {
        self.got.as_slice().iter().any(|got| got.lock == lock)
    }

    /// Whether the runner's job has the spinlock (AUTOSAR SWS OS 4.x, ReleaseSpinlock).
    pub fn is_held(&self, runner: Runner, lock: SpinlockId) -> bool
        ensures { result ≡ is_held_by runner lock self.now }
    {
        self.got
            .as_slice()
            .iter()
            .any(|got| is_got_by(runner, got) && got.lock == lock)
    }

    /// The newest spinlock that the runner's job has, if it has one.
    pub fn newest_of(&self, runner: Runner) -> Option<SpinlockId>
        ensures { result ≡ newest_of runner self.now }
    {
        let got = self
            .got
            .as_slice()
            .iter()
            .find(|got| is_got_by(runner, got))?;
        Some(got.lock)
    }

    /// The newest spinlock whose release is owed, if there is one: the next to be given back.
    pub fn newest_owed(&self) -> Option<SpinlockId>
        ensures value { result ≡ newest_owed self.now }
        ensures known { IfSome result (λ lock. lock.index < SPINLOCKS) }
    {
        // This is asked at nearly every turn, mostly when no spinlock was got.
        if self.got.is_empty() {
            return None;
        }
        first_owed(self.got.as_slice())
    }

    /// Whether any release is owed.
    pub fn is_owing(&self) -> bool
        ensures { result ≡ is_owing self.now }
    {
        self.newest_owed().is_some()
    }
}

impl Default for Grants {
    fn default() -> Self
        ensures { result ≡ [] }
    {
        Grants::new()
    }
}

// Whether the runner's oldest job has the spinlock.
fn is_got_by(runner: Runner, got: &GotSpinlock) -> bool
    ensures { result ≡ is_got_by runner got.now }
{
    match got.holder {
        Some(holder) => runner.is(holder),
        None => false,
    }
}

// The holder of the spinlock once this runner's job has ended: none if that job had the spinlock.
fn holder_without(runner: Runner, got: &GotSpinlock) -> Option<Runner>
    ensures { record got.now { holder = result } ≡ (if is_got_by runner got.now then owed got.now else got.now) }
{
    if is_got_by(runner, got) {
        return None;
    }
    got.holder
}

// From now on, the release of each of these spinlocks that the runner's job has is owed.
fn owe_by(got: &mut [GotSpinlock], runner: Runner)
    ensures { got.new ≡ owed_by runner got.old }
{
    for spinlock in got.iter_mut() {
        spinlock.holder = holder_without(runner, spinlock);
    }
}

// From now on, the release of each of these spinlocks is owed.
fn owe_each(got: &mut [GotSpinlock])
    ensures { got.new ≡ all_owed got.old }
{
    for spinlock in got.iter_mut() {
        spinlock.holder = None;
    }
}

// The first of these spinlocks whose release is owed, if there is one.
fn first_owed(got: &[GotSpinlock]) -> Option<SpinlockId>
    ensures { result ≡ newest_owed got.now }
{
    let owed = got.iter().find(|spinlock| spinlock.holder.is_none())?;
    Some(owed.lock)
}

// The place of the spinlock, if it is among these.
fn place_of(got: &[GotSpinlock], lock: SpinlockId) -> Option<usize>
    ensures found { IfSome result (λ place. remove got.now place ≡ without_spinlock lock got.now) }
    ensures within { IfSome result (λ place. place < length got.now) }
    ensures none { IfNone result (without_spinlock lock got.now ≡ got.now) }
{
    for (place, spinlock) in got.iter().enumerate() {
        if spinlock.lock == lock {
            return Some(place);
        }
    }
    None
}
