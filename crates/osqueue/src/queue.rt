//! The queues.

ghost use Rattle.std.specs.Prelude.{◌≡◌, ◌+◌, ◌<◌, ◌≤◌, ◌^◌, ◌↔◌, [], drop, length, slice_get, None, IsTrue, IfSome, IfNone};
ghost use Rattle.std.specs.{List.All, List.Contains};
ghost use Rattle.osqueue.specs.Ordered.{ComesAfter, ComesBefore, HasPlaceFor, IsBest, placed, pop_reads, without};
ghost use Rattle.osqueue.specs.Links.{IsBefore, IsReachable};

use crate::fronts::Fronts;
use crate::pool::Pool;
use crate::reads::Reads;
use crate::ready::Ready;
use crate::words::{greatest, is_marked, marked, unmarked};
use std::marker::Model;

/// The ready jobs of a core, with room for `J` jobs of priorities below `P`: a list, the first to run in front.
/// A greater priority comes before a smaller one. If two are equal, the job with the smaller stamp comes first.
#[derive(Drop)]
pub struct ReadyQueue<const P: usize, const J: usize> {
    fronts: Fronts<P>,
    // Where the queue of each priority ends, if it has entries.
    ends: [usize; P],
    pool: Pool<J>,
    // If a place has a job and does not end its queue: the place behind it in the queue.
    next: [usize; J],
}

impl<const P: usize, const J: usize> Model for ReadyQueue<P, J> {
    ghost use Rattle.std.specs.Prelude.{List};
    ghost use Rattle.osqueue.specs.declared.ready.Ready.{Ready};

    ghost Value = { List Ready };

    ghost use Rattle.osqueue.specs.{Ordered.ordered, Links.IsQueued};

    ghost view = { λ q. ordered q.pool };

    ghost invariant = { λ q. IsQueued P J q.fronts.word q.fronts.places q.ends q.pool q.next };
}

impl<const P: usize, const J: usize> ReadyQueue<P, J> {
    /// No job is ready.
    pub fn new() -> Self
        ensures { result ≡ [] }
    {
        ReadyQueue {
            fronts: Fronts::new(),
            ends: [0; P],
            pool: Pool::new(),
            next: [0; J],
        }
    }

    /// Whether there is a place for one more job.
    pub fn has_room(&self) -> bool
        ensures { IsTrue result ↔ (length self.now < J) }
    {
        self.pool.has_room()
    }

    /// Puts a job behind all others of its priority.
    pub fn push_back(&mut self, ready: Ready, reads: &mut Reads)
        requires place { HasPlaceFor P J ready self.old }
        requires newest { All (ComesBefore ready) self.old }
        requires count { reads.old < 2 ^ 48 }
        ensures list { self.new ≡ placed ready self.old }
        ensures reads { reads.new ≡ reads.old + 1 }
    {
        let priority = ready.priority;
        let place = self.pool.put(ready);
        let word = self.fronts.word(reads);
        if is_marked(word, priority) {
            let end = self.ends[usize::from(priority)];
            self.next[end] = place;
            self.ends[usize::from(priority)] = place;
        } else {
            self.fronts.put_place(priority, place);
            self.fronts.put_word(marked(word, priority));
            self.ends[usize::from(priority)] = place;
        }
    }

    /// Puts a job before all others of its priority.
    pub fn push_front(&mut self, ready: Ready, reads: &mut Reads)
        requires place { HasPlaceFor P J ready self.old }
        requires oldest { All (ComesAfter ready) self.old }
        requires count { reads.old < 2 ^ 48 }
        ensures list { self.new ≡ placed ready self.old }
        ensures reads { reads.new ≤ reads.old + 2 }
    {
        let priority = ready.priority;
        let place = self.pool.put(ready);
        let word = self.fronts.word(reads);
        if is_marked(word, priority) {
            let first = self.fronts.place(priority, reads);
            self.next[place] = first;
            self.fronts.put_place(priority, place);
        } else {
            self.fronts.put_place(priority, place);
            self.fronts.put_word(marked(word, priority));
            self.ends[usize::from(priority)] = place;
        }
    }

    /// The job of greatest priority and, among those, of smallest stamp; none if no job is ready. The job stays where
    /// it is. The call reads what `pop_best` reads.
    pub fn best(&self, reads: &mut Reads) -> Option<Ready>
        requires count { reads.old < 2 ^ 48 }
        ensures best { IfSome result (λ ready. IsBest ready self.now) }
        ensures none { IfNone result (self.now ≡ []) }
        ensures first { result ≡ slice_get self.now 0 }
        ensures reads { reads.new ≡ reads.old + pop_reads result }
    {
        let word = self.fronts.word(reads);
        if word == 0 {
            return None;
        }
        let place = self.fronts.place(greatest(word), reads);
        Some(self.pool.get(place))
    }

    /// Takes out the job of greatest priority and, among those, of smallest stamp. The call reads the word of
    /// priorities and, if a job is ready, the front of one queue.
    pub fn pop_best(&mut self, reads: &mut Reads) -> Option<Ready>
        requires count { reads.old < 2 ^ 48 }
        ensures best { IfSome result (λ ready. IsBest ready self.old) }
        ensures ahead { IfSome result (λ ready. All (ComesAfter ready) self.new) }
        ensures none { IfNone result (self.old ≡ []) }
        ensures first { result ≡ slice_get self.old 0 }
        ensures rest { self.new ≡ drop 1 self.old }
        ensures reads { reads.new ≡ reads.old + pop_reads result }
    {
        let word = self.fronts.word(reads);
        if word == 0 {
            return None;
        }
        let priority = greatest(word);
        let place = self.fronts.place(priority, reads);
        let ready = self.pool.get(place);
        let end = self.ends[usize::from(priority)];
        if place == end {
            self.fronts.put_word(unmarked(word, priority));
            self.pool.clear(place);
            Some(ready)
        } else {
            let second = self.next[place];
            self.fronts.put_place(priority, second);
            self.pool.clear(place);
            Some(ready)
        }
    }

    /// Takes this job, which is ready, out of the queue.
    pub fn remove(&mut self, ready: Ready, reads: &mut Reads)
        requires there { Contains self.old ready }
        requires count { reads.old < 2 ^ 48 }
        ensures list { self.new ≡ without ready self.old }
        ensures reads { reads.new ≤ reads.old + 2 }
    {
        let priority = ready.priority;
        let end = self.ends[usize::from(priority)];
        let first = self.fronts.place(priority, reads);
        let oldest = self.pool.get(first).job.stamp;
        if oldest != ready.job.stamp {
            let before = place_before(&self.pool, &self.next, first, ready);
            let place = self.next[before];
            if place == end {
                self.ends[usize::from(priority)] = before;
                self.pool.clear(place);
            } else {
                let behind = self.next[place];
                self.next[before] = behind;
                self.pool.clear(place);
            }
        } else if first == end {
            let word = self.fronts.word(reads);
            let rest = unmarked(word, priority);
            self.fronts.put_word(rest);
            self.pool.clear(first);
        } else {
            let second = self.next[first];
            self.fronts.put_place(priority, second);
            self.pool.clear(first);
        }
    }
}

// The place before that of the job `ready` in its queue. The search follows the queue from the place `first`, which has
// an older job.
fn place_before<const J: usize>(
    pool: &Pool<J>,
    next: &[usize; J],
    first: usize,
    ready: Ready,
) -> usize
    requires { IsReachable J pool.now next.now ready first }
    ensures { IsBefore pool.now next.now ready result }
{
    let mut before = first;
    let mut place = next[first];
    while pool.get(place).job.stamp != ready.job.stamp {
        before = place;
        place = next[place];
    }
    before
}
