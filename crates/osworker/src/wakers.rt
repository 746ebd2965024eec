//! Sleep of a worker that finds nothing to do, what wakes it, and news of its mail.
//!
//! A lost wake costs its worker at most the time of one sleep, and nothing else. So no clause is about wakes. None is
//! about news either, since a worker without work looks for mail itself.

use crossbeam_utils::CachePadded;
use osbase::{CORES, CoreId, Item};
use std::array;
use std::sync::Wait;
use std::sync::atomic::{AtomicBool, Ordering};
use std::thread::Parker;
use std::time::Duration;

/// The turns of a round in which a worker finds nothing to do: one serves the other cores, one does its core's own work
/// and one looks at the board.
pub const ROUND: u64 = 3;

/// How many rounds in a row that change nothing a worker makes before it sleeps. If another core's thread runs, what
/// that core does for this one comes within a few of them.
pub const AWAKE: u64 = 64;

// A worker sleeps after each of `OFTEN` further rounds, and then once in `SELDOM` rounds. So even a worker that waits
// in vain reaches the end of its turns.
const OFTEN: u64 = 256;

const SELDOM: u64 = 2048;

// The first sleep in microseconds, and how many times it is doubled.
const FIRST_SLEEP: u64 = 50;

const DOUBLINGS: u64 = 4;

/// What wakes the workers of a run, by core number.
#[derive(Drop)]
pub struct Wakers {
    // Each on a cache line of its own, since most looks find that nobody waits.
    cores: [CachePadded<Waker>; CORES],
}

#[derive(Drop)]
struct Waker {
    waits: AtomicBool,
    // Whether an envelope may have come since the core last looked. At first one may be there from before the worker.
    has_news: AtomicBool,
    parker: Parker,
}

impl Wakers {
    /// The wakers of a run in which no core waits, and each has to look for mail.
    pub fn new() -> Self {
        Wakers {
            cores: array::from_fn(|_| {
                CachePadded::new(Waker {
                    waits: AtomicBool::new(false),
                    has_news: AtomicBool::new(true),
                    parker: Parker::new(),
                })
            }),
        }
    }

    /// Wakes the cores that an item of this core may concern: the receiver of a posted letter; the sender of a received
    /// one, which may have waited for room; all that wait, if a spinlock is released or the board changed. This core
    /// waits no longer. A posted letter is news for its receiver; a received one for this core, as more may have come.
    pub fn notify(&self, cores: &[CoreId], core: CoreId, item: &Item) {
        self.withdraw(core);
        match *item {
            Item::Posted(to) => {
                self.bring_news(to);
                self.wake(to);
            }
            Item::Received { from, .. } => {
                self.bring_news(core);
                self.wake(from);
            }
            Item::Freed(_)
            | Item::Began { .. }
            | Item::Entered
            | Item::Readied
            | Item::Drained
            | Item::Halt { .. } => self.wake_all(cores),
            _ => {}
        }
    }

    // Notes that an envelope may have come for this core.
    fn bring_news(&self, core: CoreId) {
        if let Some(waker) = self.cores.get(usize::from(core.number)) {
            waker.has_news.store(true, Ordering::SeqCst);
        }
    }

    /// Whether an envelope may have come since this core last looked for mail. The call clears the news, so an envelope
    /// that comes later is news again. Only `notify` brings news of an envelope that no worker sent.
    #[inline(always)]
    pub(crate) fn take_news(&self, core: CoreId) -> bool {
        let Some(waker) = self.cores.get(usize::from(core.number)) else {
            return true;
        };
        waker.has_news.load(Ordering::SeqCst) && waker.has_news.swap(false, Ordering::SeqCst)
    }

    /// Lets the core rest after `rounds` whole rounds in a row with nothing to do. At first it only continues. Then it
    /// announces that it waits, looks in one more round for what came before, and then sleeps for bounded times.
    pub fn rest<R: Wait>(&self, rt: &R, core: CoreId, rounds: u64) {
        if rounds < AWAKE {
            return;
        }
        let slept = rounds - AWAKE;
        if slept == 0 {
            self.announce(core);
        } else if slept <= OFTEN || slept % SELDOM == 0 {
            self.sleep(rt, core, slept - 1);
        }
    }

    // Notes that this core waits. From now on, any core that has news for it wakes it.
    fn announce(&self, core: CoreId) {
        if let Some(waker) = self.cores.get(usize::from(core.number)) {
            waker.waits.store(true, Ordering::SeqCst);
        }
    }

    // Notes that this core waits no longer. Only this core writes `waits`, and seldom finds it set.
    fn withdraw(&self, core: CoreId) {
        if let Some(waker) = self.cores.get(usize::from(core.number)) {
            if waker.waits.load(Ordering::Relaxed) {
                waker.waits.store(false, Ordering::SeqCst);
            }
        }
    }

    // Wakes this core, if it waits.
    fn wake(&self, core: CoreId) {
        if let Some(waker) = self.cores.get(usize::from(core.number)) {
            if waker.waits.load(Ordering::SeqCst) {
                waker.parker.unpark();
            }
        }
    }

    // Wakes each of these cores that waits.
    fn wake_all(&self, cores: &[CoreId]) {
        for core in cores {
            self.wake(*core);
        }
    }

    // Sleeps until this core is woken, or for a time that grows with the number of sleeps before, up to a bound.
    fn sleep<R: Wait>(&self, rt: &R, core: CoreId, slept: u64) {
        if let Some(waker) = self.cores.get(usize::from(core.number)) {
            let bound = FIRST_SLEEP << slept.min(DOUBLINGS);
            waker.parker.park_timeout(rt, Duration::from_micros(bound));
        }
    }
}
