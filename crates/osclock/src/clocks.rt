//! The counters and alarms of a core.

ghost use Rattle.std.specs.Prelude.{◌≡◌, ◌<◌, ◌≤◌, [], All, IsTrue, filter, length, map, replicate, slice_index_or};
ghost use Rattle.std.specs.List.{slice_set};
ghost use Rattle.osbase.specs.{declared.references.AlarmRef.AlarmRef, Counting.is_in_turn, Objects.alarm_object, Objects.counter_object};
ghost use Rattle.osbase.specs.History.{Noted, CounterIncremented, AlarmSet, AlarmCancelled};
ghost use Rattle.osplan.specs.{declared.plans.Counter.Counter as CounterValue, Clocked.are_clocks_within, Counters.IsObject, Counters.each_by};
ghost use Rattle.oscount.specs.Clocks.{IsCounter, advanced, counter_at, is_due_next, setting_of};
ghost use Rattle.osclock.specs.Clocks.{AreAlarmsOf, AreClocksWith, IsBounded, IsCounterOf, IsQuiet, IsWithinTurn, alarm_family, alarm_in, alarm_refs, all_beyond, clocks_by, clocks_of, counter_for, counter_in, counts_to_in, counts_to_value_in, due_after, due_in, is_used, left_in, max_for, max_of, unset};

use arrayvec::ArrayVec;
use osattached::Attached;
use osbase::{ALARMS, AlarmRef, COUNTERS, CounterRef};
use oscount::{Alarm, Counter};
use osplan::{Core, own};
use std::marker::Model;

/// Some of a core's alarms, in index order.
pub type AlarmList = ArrayVec<AlarmRef, ALARMS>;

/// The value of each counter of a core, and when each alarm is due next, by index.
#[derive(Drop)]
pub struct Clocks {
    counters: ArrayVec<Counter, COUNTERS>,
    alarms: ArrayVec<Alarm, ALARMS>,
    attached: Attached<AlarmRef, ALARMS>,
    // For each counter, how many counts come before the next at which one of its alarms can be due.
    quiet: [u32; COUNTERS],
}

impl Model for Clocks {
    ghost use Rattle.osclock.specs.Clocks.{AreQuiet, ClockState};

    ghost Value = { ClockState };

    ghost view = { λ c. record { counters = c.counters.items; alarms = c.alarms.items; attached = c.attached } };

    ghost invariant = { λ c. AreQuiet c.quiet (record { counters = c.counters.items; alarms = c.alarms.items; attached = c.attached }) };
}

impl Clocks {
    /// No counter has been advanced yet, and no alarm is set.
    pub fn new(core: &Core) -> Self
        requires { IsTrue (are_clocks_within core.now) }
        ensures { result ≡ clocks_of core.now [] }
    {
        Clocks {
            counters: new_counters(core),
            alarms: new_alarms(core.alarms.len()),
            attached: new_attached(core),
            quiet: [0; COUNTERS],
        }
    }

    /// Increments a counter of the core. Each of its alarms that expires at this count is due again a cycle later or,
    /// without a cycle, is no longer in use (OSEK/VDX OS 2.2.3, section 9.1 and 9.2).
    pub fn count(&mut self, core: &Core, counter: CounterRef)
        requires { AreClocksWith core.now (counter_object counter) self.old }
        ensures { self.new ≡ clocks_by core.now (Noted (CounterIncremented counter)) self.old }
    {
        let before = self.counter(counter);
        let mut after = before;
        after.advance();
        set_counter(&mut self.counters, counter, after);
        let place = usize::from(counter.index);
        let quiet = self.quiet[place];
        if quiet > 0 {
            self.quiet[place] = quiet - 1;
        } else {
            let attached = self.attached.of(counter);
            self.quiet[place] = pass_alarms(&mut self.alarms, attached, before, after);
        }
    }

    /// An alarm of the core is due after `first` counts of its counter, at most a full turn. It is due again after each
    /// cycle, unless `cycle` is 0 (OSEK/VDX OS 2.2.3, section 13.6.3.3 and 13.6.3.4).
    pub fn set_alarm(&mut self, core: &Core, alarm: AlarmRef, first: u32, cycle: u32)
        requires clocks { AreClocksWith core.now (alarm_object alarm) self.old }
        requires granted { IsTrue (is_in_turn (max_for core.now alarm) (setting_of first cycle)) }
        ensures { self.new ≡ clocks_by core.now (Noted (AlarmSet alarm first cycle)) self.old }
    {
        let due = due_after(self.counter_for(core, alarm), first, cycle);
        set_alarm(&mut self.alarms, alarm, due);
        // The alarm may be due before the others, so the next count of a counter looks at its alarms again.
        self.quiet = [0; COUNTERS];
    }

    /// An alarm of the core is not in use any longer (OSEK/VDX OS 2.2.3, section 13.6.3.5).
    pub fn cancel_alarm(&mut self, core: &Core, alarm: AlarmRef)
        requires { AreClocksWith core.now (alarm_object alarm) self.old }
        ensures { self.new ≡ clocks_by core.now (Noted (AlarmCancelled alarm)) self.old }
    {
        cancel(&mut self.alarms, alarm);
    }

    /// The value of a counter of the core (OSEK/VDX OS 2.2.3, section 9.1).
    pub fn value(&self, counter: CounterRef) -> u32
        requires { counter.index < length self.now.counters }
        ensures { result ≡ (counter_in counter self.now).value }
    {
        self.counter(counter).value
    }

    /// Whether an alarm of the core is in use (OSEK/VDX OS 2.2.3, section 9.2).
    pub fn is_in_use(&self, alarm: AlarmRef) -> bool
        requires { alarm.index < length self.now.alarms }
        ensures { result ≡ is_used (alarm_in alarm self.now) }
    {
        self.alarm(alarm).is_in_use()
    }

    /// How many counts are left until an alarm of the core is due; none for one that is not in use
    /// (OSEK/VDX OS 2.2.3, section 13.6.3.2).
    pub fn left(&self, core: &Core, alarm: AlarmRef) -> Option<u32>
        requires { AreClocksWith core.now (alarm_object alarm) self.now }
        ensures { result ≡ left_in core.now alarm self.now }
    {
        self.alarm(alarm).left(self.counter_for(core, alarm))
    }

    /// After how many counts the counter of an alarm of the core has this value; its present value is a full turn away
    /// (OSEK/VDX OS 2.2.3, section 13.6.3.4).
    pub fn counts_to(&self, core: &Core, alarm: AlarmRef, start: u32) -> u32
        requires clocks { AreClocksWith core.now (alarm_object alarm) self.now }
        requires turn { start ≤ max_for core.now alarm }
        ensures state { result ≡ counts_to_in core.now alarm start self.now }
        ensures turn { IsWithinTurn (max_for core.now alarm) result }
    {
        oscount::counts_to(self.counter_for(core, alarm), start)
    }

    /// After how many counts a counter of the core has this value; its
    /// present value is a full turn away (AUTOSAR SWS OS 4.x, SWS_Os_00351).
    pub fn counts_to_value(&self, core: &Core, counter: CounterRef, start: u32) -> u32
        requires clocks { AreClocksWith core.now (counter_object counter) self.now }
        requires turn { start ≤ max_of core.now counter }
        ensures state { result ≡ counts_to_value_in counter start self.now }
        ensures turn { IsWithinTurn (max_of core.now counter) result }
    {
        oscount::counts_to(self.counter(counter), start)
    }

    /// The alarms of a counter of the core that are due at its next count (OSEK/VDX OS 2.2.3, section 9.2).
    pub fn due_next(&self, core: &Core, counter: CounterRef) -> AlarmList
        requires { AreClocksWith core.now (counter_object counter) self.now }
        ensures { result.items ≡ due_in core.now counter self.now }
    {
        if self.quiet[usize::from(counter.index)] > 0 {
            return ArrayVec::new();
        }
        due_alarms(
            self.alarms.as_slice(),
            self.attached.of(counter),
            self.counter(counter),
        )
    }

    fn counter(&self, counter: CounterRef) -> Counter
        requires { counter.index < length self.now.counters }
        ensures { result ≡ counter_in counter self.now }
    {
        self.counters.as_slice()[usize::from(counter.index)]
    }

    fn alarm(&self, alarm: AlarmRef) -> Alarm
        requires { alarm.index < length self.now.alarms }
        ensures { result ≡ alarm_in alarm self.now }
    {
        self.alarms.as_slice()[usize::from(alarm.index)]
    }

    // The counter of an alarm of the core.
    fn counter_for(&self, core: &Core, alarm: AlarmRef) -> Counter
        requires { AreClocksWith core.now (alarm_object alarm) self.now }
        ensures state { result ≡ counter_for core.now alarm self.now }
        ensures counter { IsCounterOf (max_for core.now alarm) result }
    {
        match own::alarm_of(core, alarm) {
            Some(own) => self.counter(own.counter),
            None => unreachable!(),
        }
    }
}

fn new_counters(core: &Core) -> ArrayVec<Counter, COUNTERS>
    requires { length core.now.counters ≤ COUNTERS }
    ensures { result.items ≡ map (λ (c : CounterValue). counter_at c.max 0) core.now.counters }
{
    let mut counters = ArrayVec::new();
    for counter in core.counters.as_slice() {
        counters.push(Counter::new(counter.max));
    }
    counters
}

fn new_alarms(count: usize) -> ArrayVec<Alarm, ALARMS>
    requires { count ≤ ALARMS }
    ensures { result.items ≡ replicate count unset }
{
    let mut alarms = ArrayVec::new();
    for _alarm in 0..count {
        alarms.push(Alarm::new());
    }
    alarms
}

// The alarms of each counter of the core, in index order.
fn new_attached(core: &Core) -> Attached<AlarmRef, ALARMS>
    requires { IsTrue (are_clocks_within core.now) }
    ensures { result ≡ each_by core.now (alarm_family core.now) (alarm_refs core.now) }
{
    let counters = core.counters.len();
    Attached::new(counters, core.alarms.len(), |index| object_at(core, index))
}

// The core's alarm of this index: its counter, and a reference to the alarm.
fn object_at(core: &Core, index: usize) -> (CounterRef, AlarmRef)
    requires within { IsTrue (are_clocks_within core.now) }
    requires inside { index < length core.now.alarms }
    ensures { IsObject core.now (alarm_family core.now) index result.0 result.1 }
{
    let counter = core.alarms.as_slice()[index].counter;
    let index = index as u8;
    let core = core.id;
    (counter, AlarmRef { core, index })
}

fn set_counter(counters: &mut ArrayVec<Counter, COUNTERS>, counter: CounterRef, value: Counter)
    requires { counter.index < length counters.old.items }
    ensures { counters.new.items ≡ slice_set counters.old.items counter.index value }
{
    counters.as_mut_slice()[usize::from(counter.index)] = value;
}

// Moves each of a counter's alarms on by one count, and returns for how many more counts none of them is due. It is a
// separate function so that this loop has enough registers.
#[inline(never)]
fn pass_alarms(
    alarms: &mut ArrayVec<Alarm, ALARMS>,
    attached: &[AlarmRef],
    before: Counter,
    after: Counter,
) -> u32
    requires counter { IsCounter before }
    requires next { after ≡ advanced before }
    requires alarms { AreAlarmsOf before.max attached.now alarms.old.items }
    ensures state { alarms.new.items ≡ all_beyond before attached.now alarms.old.items }
    ensures quiet { All (λ (a : AlarmRef). IsQuiet result after (slice_index_or alarms.new.items a.index unset)) attached.now }
{
    let mut quiet = u32::MAX;
    for alarm in attached {
        let slot = &mut alarms.as_mut_slice()[usize::from(alarm.index)];
        slot.advance(before);
        quiet = quiet.min(counts_before(*slot, after));
    }
    quiet
}

// For how many further counts of its counter an alarm is not due; `u32::MAX` if it is not in use.
fn counts_before(alarm: Alarm, counter: Counter) -> u32
    requires counter { IsCounter counter }
    requires bounded { IsBounded counter.max alarm }
    ensures { IsQuiet result counter alarm }
{
    match alarm.left(counter) {
        Some(left) => left - 1,
        None => u32::MAX,
    }
}

// Those of a counter's alarms that are due at its next count.
fn due_alarms(alarms: &[Alarm], attached: &[AlarmRef], counter: Counter) -> AlarmList
    requires counter { IsCounter counter }
    requires places { All (λ (a : AlarmRef). a.index < length alarms.now) attached.now }
    requires few { length attached.now ≤ ALARMS }
    ensures { result.items ≡ filter (λ (a : AlarmRef). is_due_next counter (slice_index_or alarms.now a.index unset)) attached.now }
{
    let mut due = ArrayVec::new();
    for alarm in attached {
        if alarms[usize::from(alarm.index)].is_due_next(counter) {
            due.push(*alarm);
        }
    }
    due
}

// An alarm that is due `first` counts after the counter's present value, and again after each cycle, unless `cycle` is
// 0.
fn due_after(counter: Counter, first: u32, cycle: u32) -> Alarm
    requires counter { IsCounter counter }
    requires granted { IsTrue (is_in_turn counter.max (setting_of first cycle)) }
    ensures { result ≡ due_after counter first cycle }
{
    let mut alarm = Alarm::new();
    alarm.set_rel(counter, first, cycle);
    alarm
}

fn set_alarm(alarms: &mut ArrayVec<Alarm, ALARMS>, alarm: AlarmRef, value: Alarm)
    requires { alarm.index < length alarms.old.items }
    ensures { alarms.new.items ≡ slice_set alarms.old.items alarm.index value }
{
    alarms.as_mut_slice()[usize::from(alarm.index)] = value;
}

fn cancel(alarms: &mut ArrayVec<Alarm, ALARMS>, alarm: AlarmRef)
    requires { alarm.index < length alarms.old.items }
    ensures { alarms.new.items ≡ slice_set alarms.old.items alarm.index unset }
{
    alarms.as_mut_slice()[usize::from(alarm.index)].cancel();
}
