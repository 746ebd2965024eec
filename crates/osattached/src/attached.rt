//! Which objects of a core use which of its counters.

ghost use Rattle.std.specs.Prelude.{◌≡◌, ◌<◌, ◌≤◌, ◌++◌, ◌∷◌, ℕ, Bool, [], length, replicate, slice_index_or};
ghost use Rattle.std.specs.List.{slice_set};
ghost use Rattle.osbase.specs.{declared.references.CoreId.CoreId, declared.references.CounterRef.CounterRef as CounterRefValue};
ghost use Rattle.osattached.specs.Attached.{AreFew, HasRoom, IsMember, firsts_by};

use arrayvec::ArrayVec;
use osbase::{COUNTERS, CounterRef};
use std::marker::Model;

/// For each counter of a core, the objects of one kind that use it, in index order. So a count visits no other objects
/// (AUTOSAR SWS OS 4.x, OsAlarmCounterRef and OsScheduleTableCounterRef).
#[derive(Drop)]
pub struct Attached<R, const N: usize> {
    lists: ArrayVec<ArrayVec<R, N>, COUNTERS>,
}

impl<R, const N: usize> Model for Attached<R, N> {
    ghost use Rattle.std.specs.Prelude.{List, map};
    ghost use Rattle.arrayvec.specs.ArrayVec.{ArrayVec as Items};

    ghost Value = { List (List R) };

    ghost view = { λ a. map (λ (x : Items R). x.items) a.lists.items };
}

impl<R: Copy + Default, const N: usize> Attached<R, N> {
    /// Attaches the first `count` objects of one kind to the `counters` counters of a core. For each index, the closure
    /// gives the object's counter, which is one of the core's, and the object's reference.
    pub fn new<F: Fn(usize) -> (CounterRef, R)>(counters: usize, count: usize, object: F) -> Self
        requires few { AreFew N counters count }
        requires called { (n : ℕ) → n < count → F.pre object n }
        requires own { (n : ℕ) (x : _) → n < count → F.post object n x → x.0.index < counters }
        ensures { (core : CoreId) (goes : CounterRefValue → R → Bool) (ref : ℕ → R) → ((n : ℕ) (x : _) → n < count → F.post object n x → IsMember core goes ref n x.0 x.1) → result ≡ firsts_by core counters goes ref count }
    {
        let mut attached = Attached::none(counters);
        for index in 0..count {
            let (counter, reference) = object(index);
            attached.attach(counter, reference);
        }
        attached
    }

    // This many counters, and no object uses any of them.
    fn none(counters: usize) -> Self
        requires { counters ≤ COUNTERS }
        ensures { result ≡ replicate counters [] }
    {
        let mut lists = ArrayVec::new();
        for _counter in 0..counters {
            lists.push(ArrayVec::new());
        }
        Attached { lists }
    }

    // Attaches one more object to this counter.
    fn attach(&mut self, counter: CounterRef, object: R)
        requires { HasRoom N self.old counter }
        ensures { self.new ≡ slice_set self.old counter.index (slice_index_or self.old counter.index [] ++ object ∷ []) }
    {
        if let Some(list) = self.lists.get_mut(usize::from(counter.index)) {
            list.push(object);
        }
    }

    /// The objects that use this counter; none if the core has no such counter.
    pub fn of(&self, counter: CounterRef) -> &[R]
        ensures value { result.now ≡ slice_index_or self.now counter.index [] }
        ensures few { length result.now ≤ N }
    {
        match self.lists.as_slice().get(usize::from(counter.index)) {
            Some(list) => list.as_slice(),
            None => &[],
        }
    }
}
