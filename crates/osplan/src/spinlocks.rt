//! The order in which a job may get spinlocks while it holds others.

ghost use Rattle.std.specs.Prelude.{◌≡◌, ℕ, length, true, false};
ghost use Rattle.std.specs.List.{list_all};
ghost use Rattle.osplan.specs.declared.plans.Spinlock.{Spinlock as SpinlockValue};
ghost use Rattle.osplan.specs.Spinlocks.{are_links_ordered, comes_after, is_link_ordered, links_of, next_in};

use crate::plans::{Config, Plan, Spinlock};
use osbase::SpinlockId;

// The successor of the spinlock, if it has one.
fn next_of(spinlocks: &[Spinlock], lock: SpinlockId) -> Option<SpinlockId>
    ensures { result ≡ next_in (links_of spinlocks.now) lock }
{
    match spinlocks.get(usize::from(lock.index)) {
        Some(spinlock) => spinlock.next,
        None => None,
    }
}

// Whether `to` comes after `from` by one or more links, each from a spinlock to its successor.
fn comes_after(spinlocks: &[Spinlock], from: SpinlockId, to: SpinlockId) -> bool
    ensures { result ≡ comes_after (links_of spinlocks.now) (length (links_of spinlocks.now)) from to }
{
    let mut at = from;
    for _link in 0..spinlocks.len() {
        let Some(next) = next_of(spinlocks, at) else {
            return false;
        };
        if next.index == to.index {
            return true;
        }
        at = next;
    }
    false
}

// Whether the successor `next`, if there is one, does not come after itself.
fn is_link_ordered(spinlocks: &[Spinlock], next: Option<SpinlockId>) -> bool
    ensures { result ≡ is_link_ordered (links_of spinlocks.now) next }
{
    match next {
        Some(next) => !comes_after(spinlocks, next, next),
        None => true,
    }
}

// Whether no spinlock's successor comes after itself.
fn is_each_ordered(spinlocks: &[Spinlock]) -> bool
    ensures { result ≡ list_all (λ (spinlock : SpinlockValue). is_link_ordered (links_of spinlocks.now) spinlock.next) spinlocks.now }
{
    spinlocks
        .iter()
        .all(|spinlock| is_link_ordered(spinlocks, spinlock.next))
}

/// Whether no spinlock comes after itself.
#[tactic(auto, using(crate::proofs::Linked::all_links))]
pub fn are_links_ordered(spinlocks: &[Spinlock]) -> bool
    ensures { result ≡ are_links_ordered (links_of spinlocks.now) }
{
    is_each_ordered(spinlocks)
}

impl Plan {
    /// Whether `to` comes after `from`: it is the successor of `from`, or it comes after that successor (AUTOSAR SWS OS
    /// 4.x, SWS_Os_00660). If `from` is no spinlock of the plan, nothing comes after it.
    pub fn comes_after(&self, from: SpinlockId, to: SpinlockId) -> bool
        ensures { result ≡ comes_after (links_of self.now.spinlocks) (length (links_of self.now.spinlocks)) from to }
    {
        comes_after(self.spinlocks.as_slice(), from, to)
    }
}

/// Whether a job whose newest spinlock is `newest` may ask for `new`: `new` comes after `newest` by one or more
/// links. No spinlock comes after itself (AUTOSAR SWS OS 4.x, SWS_Os_00661). The call takes no memory.
pub fn order_ok(config: &Config, newest: SpinlockId, new: SpinlockId) -> bool
    ensures value { result ≡ comes_after (links_of config.now.spinlocks) (length (links_of config.now.spinlocks)) newest new }
    ensures reached { (n : ℕ) → comes_after (links_of config.now.spinlocks) n newest new ≡ true → result ≡ true }
    ensures apart { newest ≡ new → result ≡ false }
{
    config.plan().comes_after(newest, new)
}
