//! The counters and the alarms of a core, as its state has them.

ghost use Rattle.std.specs.Prelude.{◌≡◌, ◌<◌, ◌≤◌, ◌^◌, IsTrue, length, option_copied, option_map, Some, suc};
ghost use Rattle.std.specs.List.{list_all};
ghost use Rattle.osbase.specs.{declared.references.AlarmRef.AlarmRef as AlarmRefValue, Objects.alarm_object, Objects.counter_object};
ghost use Rattle.osbase.specs.History.{Noted, AlarmCancelled, AlarmSet, CounterIncremented};
ghost use Rattle.osplan.specs.{Clocked.are_clocks_within, Objects.is_own_object, Objects.may_act, declared.plans.Alarm.Alarm as AlarmValue, View.own_alarm};
ghost use Rattle.osclock.specs.Clocks.{alarm_in, attached_to, counter_in, counts_to_in, due_in, is_used, left_in, max_for};
ghost use Rattle.osstate.specs.{Readings.alarm_named, Readings.counter_named, Steps.state_after};

use super::CoreState;
use osbase::{AlarmRef, CounterRef, RemoteCall};
use osclock::AlarmList;
use osplan::{Alarm, Counter, own};

impl<'a, const P: usize, const J: usize, const OUT: usize> CoreState<'a, P, J, OUT> {
    /// One of the core's counters is incremented, and its alarms and schedule tables advance by one count (OSEK/VDX OS
    /// 2.2.3, section 9.1 and 9.2; AUTOSAR SWS OS 4.x, section 7.3).
    pub fn count(&mut self, counter: CounterRef)
        requires own { IsTrue (is_own_object self.old.view.own (counter_object counter)) }
        requires count { self.old.progress.entries < 2 ^ 63 }
        ensures { self.new ≡ state_after (Noted (CounterIncremented counter)) self.old }
    {
        self.clocks.count(self.core, counter);
        self.tables.count(self.core, counter);
        self.progress.entries += 1;
    }

    /// One of the core's alarms is set to expire after `first` counts of its counter, at least 1 and at most a full
    /// turn. It expires again after each cycle, unless the cycle is 0 (OSEK/VDX OS 2.2.3, section 13.6.3.3 and
    /// 13.6.3.4).
    pub fn set_alarm(&mut self, alarm: AlarmRef, first: u32, cycle: u32)
        requires own { IsTrue (is_own_object self.old.view.own (alarm_object alarm)) }
        requires later { 0 < first }
        requires turn { first ≤ suc (max_for self.old.view.own alarm) }
        requires cycle { cycle ≤ max_for self.old.view.own alarm }
        requires count { self.old.progress.entries < 2 ^ 63 }
        ensures { self.new ≡ state_after (Noted (AlarmSet alarm first cycle)) self.old }
    {
        self.clocks.set_alarm(self.core, alarm, first, cycle);
        self.progress.entries += 1;
    }

    /// One of the core's alarms is not in use any longer (OSEK/VDX OS 2.2.3, section 13.6.3.5).
    pub fn cancel_alarm(&mut self, alarm: AlarmRef)
        requires own { IsTrue (is_own_object self.old.view.own (alarm_object alarm)) }
        requires count { self.old.progress.entries < 2 ^ 63 }
        ensures { self.new ≡ state_after (Noted (AlarmCancelled alarm)) self.old }
    {
        self.clocks.cancel_alarm(self.core, alarm);
        self.progress.entries += 1;
    }

    /// The core's own counter that a script names; `None` for the invalid identifier and for a counter of another core.
    pub fn counter(&self, target: Option<CounterRef>) -> Option<&'a Counter>
        ensures value { option_copied result ≡ counter_named self.now.view.own target }
        ensures within { IsTrue (are_clocks_within self.now.view.own) }
    {
        let core = self.core;
        own::counter_of(core, target?)
    }

    /// The core's own alarm that a script names; `None` for the invalid identifier and for an alarm of another core.
    pub fn alarm(&self, target: Option<AlarmRef>) -> Option<&'a Alarm>
        ensures { option_copied result ≡ alarm_named self.now.view.own target }
    {
        let core = self.core;
        own::alarm_of(core, target?)
    }

    /// The core's counters, in index order.
    pub fn counters(&self) -> &'a [Counter]
        ensures value { result.now ≡ self.now.view.own.counters }
        ensures few { length result.now ≤ 8 }
        ensures within { IsTrue (are_clocks_within self.now.view.own) }
    {
        let core = self.core;
        core.counters.as_slice()
    }

    /// The core's alarms, in index order.
    pub fn alarms(&self) -> &'a [Alarm]
        ensures value { result.now ≡ self.now.view.own.alarms }
        ensures few { length result.now ≤ 32 }
        ensures within { IsTrue (are_clocks_within self.now.view.own) }
    {
        let core = self.core;
        core.alarms.as_slice()
    }

    /// The value of one of the core's counters (OSEK/VDX OS 2.2.3, section 9.1).
    pub fn counter_value(&self, counter: CounterRef) -> u32
        requires own { IsTrue (is_own_object self.now.view.own (counter_object counter)) }
        ensures { result ≡ (counter_in counter self.now.clocks).value }
    {
        self.clocks.value(counter)
    }

    /// Whether one of the core's alarms is in use (OSEK/VDX OS 2.2.3, section 9.2).
    pub fn is_alarm_in_use(&self, alarm: AlarmRef) -> bool
        requires own { IsTrue (is_own_object self.now.view.own (alarm_object alarm)) }
        ensures { result ≡ is_used (alarm_in alarm self.now.clocks) }
    {
        self.clocks.is_in_use(alarm)
    }

    /// How many counts are left until one of the core's alarms expires; none for an alarm that is not in use (OSEK/VDX
    /// OS 2.2.3, section 13.6.3.2).
    pub fn counts_left(&self, alarm: AlarmRef) -> Option<u32>
        requires own { IsTrue (is_own_object self.now.view.own (alarm_object alarm)) }
        ensures { result ≡ left_in self.now.view.own alarm self.now.clocks }
    {
        self.clocks.left(self.core, alarm)
    }

    /// After how many counts the counter of one of the core's alarms has the value `start`. If the counter has it now,
    /// a full turn (OSEK/VDX OS 2.2.3, section 13.6.3.4).
    pub fn counts_to(&self, alarm: AlarmRef, start: u32) -> u32
        requires own { IsTrue (is_own_object self.now.view.own (alarm_object alarm)) }
        requires turn { start ≤ max_for self.now.view.own alarm }
        ensures value { result ≡ counts_to_in self.now.view.own alarm start self.now.clocks }
        ensures later { 0 < result }
        ensures within { result ≤ suc (max_for self.now.view.own alarm) }
    {
        self.clocks.counts_to(self.core, alarm, start)
    }

    /// What one of the core's alarms does when it expires (AUTOSAR SWS OS 4.x, OsAlarmAction).
    pub fn alarm_action(&self, alarm: AlarmRef) -> RemoteCall
        requires own { IsTrue (is_own_object self.now.view.own (alarm_object alarm)) }
        ensures value { option_map (λ (x : AlarmValue). x.action) (own_alarm self.now.view.own alarm) ≡ Some result }
        ensures known { IsTrue (may_act self.now.view.own result) }
    {
        match own::alarm_of(self.core, alarm) {
            Some(own) => own.action,
            None => unreachable!(),
        }
    }

    /// The alarms of one of the core's counters that expire at its next count, in index order (OSEK/VDX OS 2.2.3,
    /// section 9.2).
    pub fn due_next(&self, counter: CounterRef) -> AlarmList
        requires own { IsTrue (is_own_object self.now.view.own (counter_object counter)) }
        ensures value { result.items ≡ due_in self.now.view.own counter self.now.clocks }
        ensures own { IsTrue (list_all (λ (a : AlarmRefValue). is_own_object self.now.view.own (alarm_object a)) result.items) }
        ensures few { length result.items ≤ length (attached_to self.now.view.own counter) }
    {
        self.clocks.due_next(self.core, counter)
    }
}
