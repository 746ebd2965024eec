//! Places for ready jobs.

ghost use Rattle.std.specs.Prelude.{◌≡◌, ◌<◌, Some, None, IsTrue, ◌↔◌, is_some, true, length, replicate, slice_index_or, slice_set};
ghost use Rattle.osqueue.specs.{Links.IsPut, Ordered.ordered};

use crate::ready::Ready;
use std::marker::Model;

/// A pool of `J` places, each with a ready job or none.
#[derive(Drop)]
pub(crate) struct Pool<const J: usize> {
    places: [Option<Ready>; J],
    // The places that have no job: the first `free` of `blanks`.
    blanks: [usize; J],
    free: usize,
}

impl<const J: usize> Model for Pool<J> {
    ghost use Rattle.std.specs.Prelude.{Option, List};
    ghost use Rattle.osqueue.specs.{declared.ready.Ready.Ready, Links.IsPool};

    ghost Value = { List (Option Ready) };

    ghost view = { λ p. p.places };

    ghost invariant = { λ p. IsPool J p.places p.blanks p.free };
}

impl<const J: usize> Pool<J> {
    /// No place has a job.
    pub(crate) fn new() -> Self
        ensures { result ≡ replicate J None }
    {
        let mut blanks = [0; J];
        for place in 0..J {
            blanks[place] = place;
        }
        Pool {
            places: [None; J],
            blanks,
            free: J,
        }
    }

    /// Whether there is a place without a job.
    pub(crate) fn has_room(&self) -> bool
        ensures { IsTrue result ↔ (length (ordered self.now) < J) }
    {
        let _places: &[Option<Ready>; J] = &self.places;
        self.free > 0
    }

    /// Puts a job into a place that has none, and returns that place.
    pub(crate) fn put(&mut self, ready: Ready) -> usize
        requires { length (ordered self.old) < J }
        ensures { IsPut self.old ready result self.new }
    {
        self.free -= 1;
        let place = self.blanks[self.free];
        self.places[place] = Some(ready);
        place
    }

    /// The job in a place.
    pub(crate) fn get(&self, place: usize) -> Ready
        requires { is_some (slice_index_or self.now place None) ≡ true }
        ensures { slice_index_or self.now place None ≡ Some result }
    {
        let places = &self.places;
        match places[place] {
            Some(ready) => ready,
            None => unreachable!(),
        }
    }

    /// Takes the job out of a place.
    pub(crate) fn clear(&mut self, place: usize)
        requires { is_some (slice_index_or self.old place None) ≡ true }
        ensures { self.new ≡ slice_set self.old place None }
    {
        let free = self.free;
        self.blanks[free] = place;
        self.free = free + 1;
        self.places[place] = None;
    }
}
