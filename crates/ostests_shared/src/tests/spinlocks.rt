ghost use Rattle.std.specs.Prelude.{◌≡◌, ◌<◌, [], ℕ, All, IfOk, IfSome, map, slice_index_or, vec_len};
ghost use Rattle.osshared.specs.{Histories.Thinned, Runs.IsOneRun, Runs.IsRunOf, Seats.AllApart};
ghost use Rattle.osbase.specs.declared.limits.TheConstants.{SPINLOCKS};
ghost use Rattle.osspin.specs.Spins.{IsRefusedCall, spinlocks};

use osbase::{CoreId, List, SPINLOCKS, SpinlockId};
use osshared::Entry;
use osspin::{SpinAction, SpinBank, SpinCall, SpinList, SpinReply, SpinSeat};
use std::alloc::{AllocError, Global};
use std::process::Abort;
use std::test::Fail;
use std::thread;
use std::thread::Threads;

type SpinEntry = Entry<SpinCall, SpinReply>;

// What a worker wants of the spinlocks.
trait Wish {
    // The spinlock that it takes next; `None` once it has taken all that it wants.
    fn wanted(&self) -> Option<SpinlockId>
        ensures { IfSome result (λ lock. lock.index < SPINLOCKS) };

    // Notes that the worker was granted the spinlock and has freed it.
    fn granted(&mut self);
}

// The wish for each spinlock in turn, in `left` rounds.
#[derive(Clone, Copy)]
struct Rounds {
    lock: u8,
    left: u32,
    ghost known: { lock < SPINLOCKS },
}

impl Wish for Rounds {
    fn wanted(&self) -> Option<SpinlockId>
        ensures { IfSome result (λ lock. lock.index < SPINLOCKS) }
    {
        if self.left == 0 {
            return None;
        }
        Some(SpinlockId { index: self.lock })
    }

    fn granted(&mut self) {
        self.lock = (self.lock + 1) % 16;
        if self.lock == 0 {
            self.left = self.left.saturating_sub(1);
        }
    }
}

// What a worker hands back: its seat, and its calls except the tries that were refused.
#[derive(Drop)]
struct Run {
    seat: SpinSeat,
    log: Vec<SpinEntry>,
}

// Tries for the spinlock. If it is granted, looks who holds it, frees it, logs the three calls, and answers `true`.
// Answers `false` if it is not granted, or if there is no memory for the log.
fn visit(bank: &SpinBank, run: &mut Run, lock: SpinlockId) -> bool
    requires place { run.old.seat.place ≡ bank.now }
    requires lock { lock.index < SPINLOCKS }
    requires log { Thinned IsRefusedCall run.old.seat.mine run.old.log.items }
    ensures place { run.new.seat.place ≡ run.old.seat.place }
    ensures core { run.new.seat.core ≡ run.old.seat.core }
    ensures log { Thinned IsRefusedCall run.new.seat.mine run.new.log.items }
{
    let core = run.seat.core();
    if run.log.reserve(3).is_err() {
        return false;
    }
    if !bank.try_take(&mut run.seat, lock) {
        return false;
    }
    let taken = SpinReply::Answered(true);
    run.log
        .push_reserved(entry(core, lock, SpinAction::Take, taken));
    let holder = bank.look(&mut run.seat, lock);
    run.log.push_reserved(entry(core, lock, SpinAction::Look, SpinReply::Seen(holder)));
    let freed = bank.free(&mut run.seat, lock);
    run.log.push_reserved(entry(core, lock, SpinAction::Free, SpinReply::Answered(freed)));
    true
}

fn entry(core: CoreId, lock: SpinlockId, action: SpinAction, reply: SpinReply) -> SpinEntry
    ensures { result ≡ record { core = core; call = record { lock = lock; action = action }; reply = reply } }
{
    Entry {
        core,
        call: SpinCall { lock, action },
        reply,
    }
}

// Takes and frees, one after the other, the spinlocks that `wish` wants. Gives up after very many tries.
fn work<W: Wish + Drop>(bank: &SpinBank, alloc: Global, seat: SpinSeat, mut wish: W) -> Run
    requires place { seat.place ≡ bank.now }
    requires fresh { seat.mine ≡ [] }
    ensures place { result.seat.place ≡ bank.now }
    ensures core { result.seat.core ≡ seat.core }
    ensures log { Thinned IsRefusedCall result.seat.mine result.log.items }
{
    let mut run = Run {
        seat,
        log: Vec::new(alloc),
    };
    for _ in 0..100_000_000 {
        let Some(lock) = wish.wanted() else {
            break;
        };
        if visit(bank, &mut run, lock) {
            wish.granted();
        } else {
            thread::yield_now();
        }
    }
    run
}

// Works from each seat, on a thread of its own, with the wish for all spinlocks in a hundred rounds.
fn share<R: Threads + Sync>(
    rt: &R,
    bank: &SpinBank,
    alloc: Global,
    seats: Vec<SpinSeat>,
) -> Result<Vec<Run>, AllocError>
    requires { All (λ s. (s.place ≡ bank.now) × (s.mine ≡ [])) seats.items }
    ensures len { IfOk result (λ runs. vec_len runs ≡ vec_len seats) }
    ensures each { IfOk result (λ runs. (i : ℕ) (d e : _) → i < vec_len seats → IsRunOf IsRefusedCall bank.now (slice_index_or seats.items i e) (slice_index_or runs.items i d).seat (slice_index_or runs.items i d).log.items) }
{
    let rounds = Rounds { lock: 0, left: 100 };
    thread::map_vec(rt, seats, &|seat| work(bank, alloc, seat, rounds))
}

// The seats and the logs of the runs.
fn part(alloc: Global, runs: Vec<Run>) -> Result<(Vec<SpinSeat>, Vec<Vec<SpinEntry>>), AllocError>
    ensures seats { IfOk result (λ r. r.0.items ≡ map (λ run. run.seat) runs.items) }
    ensures logs { IfOk result (λ r. r.1.items ≡ map (λ run. run.log) runs.items) }
{
    let mut seats = Vec::new(alloc);
    let mut logs = Vec::new(alloc);
    for run in runs {
        let Run { seat, log } = run;
        seats.push(seat)?;
        logs.push(log)?;
    }
    Ok((seats, logs))
}

// Runs a worker for each core on a thread of its own. Returns the workers' logs. There is a legal history that has the
// calls of all logs, and no other calls.
fn run_all<R: Threads + Sync>(
    rt: &R,
    alloc: Global,
    cores: List<CoreId>,
) -> Result<Vec<Vec<SpinEntry>>, AllocError>
    requires { AllApart cores }
    ensures { IfOk result (λ logs. IsOneRun spinlocks (record { cores = cores; about = tt }) (map (λ log. log.items) logs.items)) }
{
    let (bank, seats) = SpinBank::new(alloc, cores)?;
    let runs = share(rt, &bank, alloc, seats)?;
    let (seats, logs) = part(alloc, runs)?;
    bank.gather(seats);
    Ok(logs)
}

// The entry that the log of the core's worker has at a place, whatever order the threads run in.
fn expected(core: CoreId, place: usize) -> SpinEntry {
    let lock = SpinlockId {
        index: (place / 3 % SPINLOCKS) as u8,
    };
    match place % 3 {
        0 => entry(core, lock, SpinAction::Take, SpinReply::Answered(true)),
        1 => entry(core, lock, SpinAction::Look, SpinReply::Seen(Some(core))),
        _ => entry(core, lock, SpinAction::Free, SpinReply::Answered(true)),
    }
}

// Whether each entry of the core's log is the expected one.
fn has_expected(core: CoreId, log: &[SpinEntry]) -> bool {
    log.iter()
        .enumerate()
        .all(|(place, entry)| *entry == expected(core, place))
}

// Checks that there is a log for each of the four cores, with all its expected entries.
fn have_expected(rt: &impl Abort, numbers: &[u8], logs: &[Vec<SpinEntry>]) {
    assert!(rt; logs.len() == 4);
    for (log, number) in logs.iter().zip(numbers) {
        assert!(rt; log.len() == 100 * 3 * SPINLOCKS);
        assert!(rt; has_expected(CoreId { number: *number }, log.as_slice()));
    }
}

#[test]
fn four_threads_share_sixteen_spinlocks(rt: HostRuntime) -> Result<(), Fail> {
    let mut cores = List::new(rt.alloc());
    cores.push(CoreId { number: 0 })?;
    cores.push(CoreId { number: 1 })?;
    cores.push(CoreId { number: 5 })?;
    cores.push(CoreId { number: 7 })?;
    let logs = run_all(&rt, rt.alloc(), cores)?;
    have_expected(&rt, &[0, 1, 5, 7], logs.as_slice());
    Ok(())
}

// Checks that the first core can take the spinlock. Until the first core frees it, neither core can take it, and the
// second core cannot free it.
fn holds_until_freed(
    rt: &impl Abort,
    bank: &SpinBank,
    first: &mut SpinSeat,
    second: &mut SpinSeat,
    lock: SpinlockId,
)
    requires first { first.old.place ≡ bank.now }
    requires second { second.old.place ≡ bank.now }
    requires lock { lock.index < SPINLOCKS }
    ensures first { first.new.place ≡ first.old.place }
    ensures second { second.new.place ≡ second.old.place }
{
    assert!(rt; bank.look(first, lock).is_none());
    assert!(rt; bank.try_take(first, lock));
    assert!(rt; !bank.try_take(second, lock));
    assert!(rt; !bank.try_take(first, lock));
    assert!(rt; !bank.free(second, lock));
    assert!(rt; bank.look(second, lock) == Some(CoreId { number: 0 }));
    assert!(rt; bank.free(first, lock));
}

// Checks that the second core can take the free spinlock, and that the first one gets it once the second one has freed
// it.
fn goes_to_second_and_back(
    rt: &impl Abort,
    bank: &SpinBank,
    first: &mut SpinSeat,
    second: &mut SpinSeat,
    lock: SpinlockId,
)
    requires first { first.old.place ≡ bank.now }
    requires second { second.old.place ≡ bank.now }
    requires lock { lock.index < SPINLOCKS }
{
    let take = call_of(lock, SpinAction::Take);
    let look = call_of(lock, SpinAction::Look);
    let free = call_of(lock, SpinAction::Free);
    assert!(rt; bank.try_take(second, lock));
    assert!(rt; bank.look(first, lock) == Some(CoreId { number: 5 }));
    assert!(rt; bank.call(first, take) == SpinReply::Answered(false));
    assert!(rt; bank.call(first, look) == SpinReply::Seen(Some(CoreId { number: 5 })));
    assert!(rt; bank.call(second, free) == SpinReply::Answered(true));
    assert!(rt; bank.call(first, take) == SpinReply::Answered(true));
}

#[test]
fn one_core_holds_a_spinlock(rt: HostRuntime) -> Result<(), Fail> {
    let mut cores = List::new(rt.alloc());
    cores.push(CoreId { number: 0 })?;
    cores.push(CoreId { number: 5 })?;
    let (bank, mut seats) = SpinBank::new(rt.alloc(), cores)?;
    let (Some(mut second), Some(mut first)) = (seats.pop(), seats.pop()) else {
        panic!(rt; "two seats")
    };
    let lock = SpinlockId { index: 15 };
    holds_until_freed(&rt, &bank, &mut first, &mut second, lock);
    goes_to_second_and_back(&rt, &bank, &mut first, &mut second, lock);
    Ok(())
}

// No spinlock has the index 16: each core that takes it gets the answer `true`.
#[test]
fn a_listed_spinlock_is_held_by_one_core(rt: HostRuntime) -> Result<(), Fail> {
    let mut locks = SpinList::new();
    let (a, b) = (CoreId { number: 0 }, CoreId { number: 5 });
    let lock = SpinlockId { index: 15 };
    assert!(rt; locks.look(lock).is_none() && locks.try_take(a, lock));
    assert!(rt; !locks.try_take(b, lock) && !locks.try_take(a, lock) && !locks.free(b, lock));
    assert!(rt; locks.look(lock) == Some(a) && locks.free(a, lock) && locks.look(lock).is_none());
    let take = call_of(lock, SpinAction::Take);
    let (free, look) = (
        call_of(lock, SpinAction::Free),
        call_of(lock, SpinAction::Look),
    );
    assert!(rt; locks.reply(a, take) == SpinReply::Answered(true));
    assert!(rt; locks.call(a, take) == SpinReply::Answered(true));
    assert!(rt; locks.call(b, take) == SpinReply::Answered(false));
    assert!(rt; locks.call(b, look) == SpinReply::Seen(Some(a)));
    assert!(rt; locks.call(a, free) == SpinReply::Answered(true) && locks.look(lock).is_none());
    let past = call_of(SpinlockId { index: 16 }, SpinAction::Take);
    assert!(rt; locks.call(a, past) == SpinReply::Answered(true));
    assert!(rt; locks.call(b, past) == SpinReply::Answered(true));
    Ok(())
}

fn call_of(lock: SpinlockId, action: SpinAction) -> SpinCall
    ensures { result ≡ record { lock = lock; action = action } }
{
    SpinCall { lock, action }
}
