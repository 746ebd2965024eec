//! Whether two items are the same.

ghost use Rattle.std.specs.Prelude.{◌≡◌, ◌↔◌, IsTrue};

use crate::messages::{is_same_message, is_same_status};
use osbase::{Agreement, CORES, CoreId, CoreSet, Item, Status, Stimulus};

/// Whether these lists have the same items in the same order.
pub fn are_same_items(left: &[Item], right: &[Item]) -> bool
    ensures { IsTrue result ↔ left.now ≡ right.now }
{
    if left.len() != right.len() {
        return false;
    }
    for i in 0..left.len() {
        if !is_same_item(left[i], right[i]) {
            return false;
        }
    }
    true
}

/// Whether these items are the same.
pub fn is_same_item(left: Item, right: Item) -> bool
    ensures { IsTrue result ↔ left ≡ right }
{
    match (left, right) {
        (Item::On, Item::On) => true,
        (Item::Entered, Item::Entered) => true,
        (Item::Readied, Item::Readied) => true,
        (Item::Drained, Item::Drained) => true,
        (Item::PassEnd, Item::PassEnd) => true,
        (
            Item::Began { core, status },
            Item::Began {
                core: other,
                status: other_status,
            },
        ) => core.number == other.number && is_same_status(status, other_status),
        (
            Item::Halt { core, status },
            Item::Halt {
                core: other,
                status: other_status,
            },
        ) => core.number == other.number && is_same_status(status, other_status),
        (Item::Last(one), Item::Last(other)) => is_same_shutdown(one, other),
        (Item::Pass1(one), Item::Pass1(other)) => is_same_agreement(one, other),
        (Item::Pass2(one), Item::Pass2(other)) => is_same_set(one, other),
        (Item::Stim(one), Item::Stim(other)) => is_same_stimulus(one, other),
        (Item::Posted(one), Item::Posted(other)) => one.number == other.number,
        (
            Item::Received {
                from,
                number,
                message,
            },
            Item::Received {
                from: other,
                number: other_number,
                message: other_message,
            },
        ) => {
            from.number == other.number
                && number == other_number
                && is_same_message(message, other_message)
        }
        (Item::Granted(one), Item::Granted(other)) => one.index == other.index,
        (Item::Freed(one), Item::Freed(other)) => one.index == other.index,
        (
            Item::Tried { spinlock, taken },
            Item::Tried {
                spinlock: other,
                taken: other_taken,
            },
        ) => spinlock.index == other.index && taken == other_taken,
        (_, _) => false,
    }
}

// Whether both are none, or a shutdown of all cores that the same core requested with the same status.
fn is_same_shutdown(left: Option<(CoreId, Status)>, right: Option<(CoreId, Status)>) -> bool
    ensures { IsTrue result ↔ left ≡ right }
{
    match (left, right) {
        (Some((core, status)), Some((other, other_status))) => {
            core.number == other.number && is_same_status(status, other_status)
        }
        (None, None) => true,
        (_, _) => false,
    }
}

fn is_same_agreement(left: Agreement, right: Agreement) -> bool
    ensures { IsTrue result ↔ left ≡ right }
{
    match (left, right) {
        (Agreement::Conflict, Agreement::Conflict) => true,
        (Agreement::NoMode, Agreement::NoMode) => true,
        (Agreement::Mode(one), Agreement::Mode(other)) => one.index == other.index,
        (_, _) => false,
    }
}

fn is_same_set(left: CoreSet, right: CoreSet) -> bool
    ensures { IsTrue result ↔ left ≡ right }
{
    for i in 0..CORES {
        if left.members[i] != right.members[i] {
            return false;
        }
    }
    true
}

fn is_same_stimulus(left: Stimulus, right: Stimulus) -> bool
    ensures { IsTrue result ↔ left ≡ right }
{
    match (left, right) {
        (Stimulus::Op, Stimulus::Op) => true,
        (Stimulus::Tick, Stimulus::Tick) => true,
        (Stimulus::Irq(one), Stimulus::Irq(other)) => {
            one.core.number == other.core.number && one.index == other.index
        }
        (_, _) => false,
    }
}
