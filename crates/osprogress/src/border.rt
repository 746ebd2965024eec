//! What crosses a core's border: the open call, the outbox, how many letters went each way, and the spinlocks that the
//! core got.

ghost use Rattle.std.specs.Prelude.{◌≡◌, ◌<◌, ◌^◌, ℕ, length, slice_index, IsTrue};
ghost use Rattle.osbase.specs.{declared.limits.TheConstants.CORES, Spins.spins_after};
ghost use Rattle.osbase.specs.History.{Took, closed_by as call_closed_by, open_after, outbox_after};
ghost use Rattle.osprogress.specs.Border.{is_grant_known, is_posted, is_sender_known, one_more, received_after};

use arrayvec::ArrayVec;
use osbase::{CORES, CoreId, Item, OpenCall, Runner, Sent};
use osgot::Grants;

/// What crosses a core's border, with room for `OUT` letters.
#[derive(Drop)]
pub struct Border<const OUT: usize> {
    // The service that awaits another core's reply.
    pub open_call: Option<OpenCall>,
    // How many letters were queued for each core, and received from it.
    pub queued: [u64; CORES],
    pub received: [u64; CORES],
    pub spins: Grants,
    pub outbox: ArrayVec<Sent, OUT>,
}

/// The open call, once an operation of this runner is done or its job has ended: none if this runner made the call.
pub fn closed_by(runner: Runner, open_call: Option<OpenCall>) -> Option<OpenCall>
    ensures { result ≡ call_closed_by runner open_call }
{
    match open_call {
        Some(call) if call.runner.is(runner) => None,
        other => other,
    }
}

/// Applies an item to the spinlocks and the open call. The job whose call is open gets a spinlock that was taken; a
/// spinlock that was given back is no longer the core's. If the item is a halt, each release is owed, and no call is
/// open any more.
#[inline(always)]
pub fn settle_by(spins: &mut Grants, open_call: &mut Option<OpenCall>, item: &Item)
    requires { IsTrue (is_grant_known item.now) }
    ensures spins { spins.new ≡ spins_after (Took item.now) open_call.old spins.old }
    ensures call { open_call.new ≡ open_after (Took item.now) open_call.old }
{
    match item {
        Item::Granted(lock) => spins.take(*lock, *open_call),
        Item::Tried { spinlock, taken } => {
            if *taken {
                spins.take(*spinlock, *open_call);
            }
        }
        Item::Freed(lock) => spins.free(*lock),
        Item::Halt { core: _, status: _ } => {
            spins.owe_all();
            *open_call = None;
        }
        _ => {}
    }
}

/// If the item is a post, takes the front of the outbox.
pub fn post_by<const OUT: usize>(outbox: &mut ArrayVec<Sent, OUT>, item: &Item)
    requires { IsTrue (is_posted item.now) → 0 < length outbox.old.items }
    ensures { outbox.new.items ≡ outbox_after (Took item.now) outbox.old.items }
{
    if let Item::Posted(_) = item {
        outbox.remove(0);
    }
}

/// If the item is a letter that was received, counts it for its sender.
pub fn receive_by(received: &mut [u64; CORES], item: &Item)
    requires sender { IsTrue (is_sender_known item.now) }
    requires count { (k : ℕ) → slice_index received.old k < 2 ^ 63 }
    ensures { received.new ≡ received_after (Took item.now) received.old }
{
    if let Item::Received {
        from,
        number: _,
        message: _,
    } = item
    {
        count_one(received, *from);
    }
}

/// Counts one letter more for this core.
pub fn count_one(counts: &mut [u64; CORES], core: CoreId)
    requires core { core.number < CORES }
    requires count { slice_index counts.old core.number < 2 ^ 63 }
    ensures { counts.new ≡ one_more core counts.old }
{
    counts[usize::from(core.number)] += 1;
}
