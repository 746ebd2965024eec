//! The value of a counter.

ghost use Rattle.std.specs.Prelude.{◌≡◌, ◌+◌, ◌<◌, ◌≤◌, ◌^◌, ℕ, suc};
ghost use Rattle.osbase.specs.Counting.{counts_to, value_after};
ghost use Rattle.oscount.specs.Clocks.{IsCounter, advanced, counter_at, wrapped};

/// A counter (OSEK/VDX OS 2.2.3, section 9.1): its value goes from 0 to its greatest, and then to 0 again.
#[derive(Clone, Copy, Default, PartialEq, Eq)]
pub struct Counter {
    /// The greatest value (AUTOSAR SWS OS 4.x, OsCounterMaxAllowedValue).
    pub max: u32,
    pub value: u32,
}

/// A value, less a full turn, `max + 1`, if it is beyond `max`, the greatest value of its counter.
pub fn wrapped(max: u32, value: u32) -> u32
    requires { max < 2 ^ 31 }
    ensures { result ≡ wrapped max value }
{
    if value <= max {
        value
    } else {
        value - (max + 1)
    }
}

/// How many counts lead from the counter's value to `start`. If both are equal, this is a full turn (OSEK/VDX OS 2.2.3,
/// section 13.6.3.4).
pub fn counts_to(counter: Counter, start: u32) -> u32
    requires counter { IsCounter counter }
    requires turn { start ≤ counter.max }
    ensures state { result ≡ counts_to counter.max counter.value start }
    ensures reached { (count : ℕ) → counter ≡ counter_at counter.max count → value_after counter.max (count + result) ≡ start }
{
    (start + counter.max - counter.value) % (counter.max + 1) + 1
}

impl Counter {
    /// A counter that was not advanced yet.
    pub fn new(max: u32) -> Self
        ensures { result ≡ counter_at max 0 }
    {
        Counter { max, value: 0 }
    }

    /// The counter is incremented, and after its greatest value it is 0 (OSEK/VDX OS 2.2.3, section 9.1).
    pub fn advance(&mut self)
        requires { IsCounter self.old }
        ensures state { self.new ≡ advanced self.old }
        ensures counts { (count : ℕ) → self.old ≡ counter_at self.old.max count → self.new ≡ counter_at self.old.max (suc count) }
    {
        self.value = wrapped(self.max, self.value + 1);
    }
}
