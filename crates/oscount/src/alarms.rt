//! When an alarm is due.

ghost use Rattle.std.specs.Prelude.{◌≡◌, ◌+◌, ◌<◌, ◌≤◌, ◌^◌, ℕ, suc, Some, None, IfSome, IsTrue, Option, is_some, option_map};
ghost use Rattle.osbase.specs.Counting.{AlarmSetting, is_due, is_granted, is_in_turn, is_in_use, left_of, one_count_more};
ghost use Rattle.oscount.specs.Clocks.{IsCounter, IsExpiryOf, advanced, alarm_at, alarm_beyond, alarm_due, counter_at, counts_until, due_again, expiry_beyond, is_due_next, setting_of, wrapped};

use crate::counters::{self, Counter};

/// When an alarm in use is due: the value of its counter at which it is due next, and the cycle, in counts, after which
/// it is due again. The cycle is 0 if the alarm is due only once (OSEK/VDX OS 2.2.3, section 9.2).
#[derive(Clone, Copy, PartialEq, Eq)]
pub struct Expiry {
    pub value: u32,
    pub cycle: u32,
}

/// An alarm. It is in use if it has a value at which it is due (OSEK/VDX OS 2.2.3, section 9.2).
#[derive(Clone, Copy, PartialEq, Eq)]
pub struct Alarm {
    pub expiry: Option<Expiry>,
}

impl Alarm {
    /// An alarm that is not in use.
    pub fn new() -> Self
        ensures state { result ≡ record { expiry = None } }
        ensures counts { (max count : ℕ) → result ≡ alarm_at max count None }
    {
        Alarm { expiry: None }
    }

    /// The alarm is due after `increment` counts, at most a full turn of its counter. It is due again after each cycle,
    /// unless `cycle` is 0 (OSEK/VDX OS 2.2.3, section 13.6.3.3; the full turn: own).
    pub fn set_rel(&mut self, counter: Counter, increment: u32, cycle: u32)
        requires counter { IsCounter counter }
        requires granted { IsTrue (is_in_turn counter.max (setting_of increment cycle)) }
        ensures state { self.new ≡ alarm_due (wrapped counter.max (counter.value + increment)) cycle }
        ensures counts { (count : ℕ) → counter ≡ counter_at counter.max count → self.new ≡ alarm_at counter.max count (Some (setting_of increment cycle)) }
    {
        self.expiry = Some(Expiry {
            value: counters::wrapped(counter.max, counter.value + increment),
            cycle,
        });
    }

    /// The alarm is not in use any longer (OSEK/VDX OS 2.2.3, section 13.6.3.5).
    pub fn cancel(&mut self)
        ensures state { self.new ≡ record { expiry = None } }
        ensures counts { (max count : ℕ) → self.new ≡ alarm_at max count None }
    {
        self.expiry = None;
    }

    /// Whether the alarm is in use (OSEK/VDX OS 2.2.3, section 9.2).
    pub fn is_in_use(self) -> bool
        ensures state { result ≡ is_some self.expiry }
        ensures counts { (max count : ℕ) (setting : Option AlarmSetting) → IsTrue (is_granted max setting) → self ≡ alarm_at max count setting → result ≡ is_in_use setting }
    {
        self.expiry.is_some()
    }

    /// Whether the alarm is due at the next count of its counter.
    pub fn is_due_next(self, counter: Counter) -> bool
        requires counter { IsCounter counter }
        ensures state { result ≡ is_due_next counter self }
        ensures counts { (count : ℕ) (setting : Option AlarmSetting) → IsTrue (is_granted counter.max setting) → counter ≡ counter_at counter.max count → self ≡ alarm_at counter.max count setting → result ≡ is_due (option_map one_count_more setting) }
    {
        match self.expiry {
            Some(expiry) => expiry.value == next_value(counter),
            None => false,
        }
    }

    /// The counts left until the alarm is due; `None` if it is not in use (OSEK/VDX OS 2.2.3, section 13.6.3.2).
    pub fn left(self, counter: Counter) -> Option<u32>
        requires counter { IsCounter counter }
        requires expiry { IfSome self.expiry (λ x. x.value ≤ counter.max) }
        ensures state { result ≡ option_map (counts_until counter) self.expiry }
        ensures counts { (count : ℕ) (setting : Option AlarmSetting) → IsTrue (is_granted counter.max setting) → counter ≡ counter_at counter.max count → self ≡ alarm_at counter.max count setting → result ≡ left_of setting }
    {
        match self.expiry {
            Some(expiry) => Some(until(counter, expiry)),
            None => None,
        }
    }

    /// Moves the alarm on by one count of its counter. If the alarm expires at this count, it is due again a cycle
    /// later. Without a cycle, it is no longer in use (OSEK/VDX OS 2.2.3, section 9.2).
    pub fn advance(&mut self, counter: Counter)
        requires counter { IsCounter counter }
        requires expiry { IfSome self.old.expiry (IsExpiryOf counter.max) }
        ensures state { self.new ≡ alarm_beyond counter self.old }
        ensures counts { (count : ℕ) (setting : Option AlarmSetting) → counter ≡ counter_at counter.max count → self.old ≡ alarm_at counter.max count setting → self.new ≡ alarm_at counter.max (suc count) (option_map one_count_more setting) }
    {
        if let Some(expiry) = self.expiry {
            self.expiry = beyond(counter, expiry);
        }
    }
}

impl Default for Alarm {
    fn default() -> Self
        ensures { result ≡ record { expiry = None } }
    {
        Alarm::new()
    }
}

// The value that the counter has after one count more.
fn next_value(counter: Counter) -> u32
    requires { IsCounter counter }
    ensures { result ≡ (advanced counter).value }
{
    let mut next = counter;
    next.advance();
    next.value
}

// How many counts lead from the counter's value to that of the expiry. If both are equal, this is a full turn.
fn until(counter: Counter, expiry: Expiry) -> u32
    requires counter { IsCounter counter }
    requires expiry { expiry.value ≤ counter.max }
    ensures { result ≡ counts_until counter expiry }
{
    if counter.value < expiry.value {
        expiry.value - counter.value
    } else {
        counter.max + 1 + expiry.value - counter.value
    }
}

// The expiry after the next count of the counter; `None` if the alarm is then no longer in use.
fn beyond(counter: Counter, expiry: Expiry) -> Option<Expiry>
    requires counter { IsCounter counter }
    requires expiry { IsExpiryOf counter.max expiry }
    ensures { result ≡ expiry_beyond counter (Some expiry) }
{
    if expiry.value == next_value(counter) {
        again(counter, expiry)
    } else {
        Some(expiry)
    }
}

// The expiry of an alarm after the count at which it is due: a cycle later or, without a cycle, `None`.
fn again(counter: Counter, expiry: Expiry) -> Option<Expiry>
    requires max { counter.max < 2 ^ 31 }
    requires expiry { IsExpiryOf counter.max expiry }
    ensures { result ≡ due_again counter expiry }
{
    if expiry.cycle == 0 {
        None
    } else {
        Some(Expiry {
            value: counters::wrapped(counter.max, expiry.value + expiry.cycle),
            ..expiry
        })
    }
}
