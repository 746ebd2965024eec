//! What holds of each alarm.

ghost use Rattle.osbase.specs.Counting.{AlarmSetting, will_be_due};
ghost use Rattle.std.specs.Prelude.{IsTrue};
ghost use Rattle.oscount.specs.Laws.{IsLeft};

/// If an alarm is in use, the counts that are left are the least number, 1 or more, after which the alarm is due
/// (OSEK/VDX OS 2.2.3, section 13.6.3.2).
pub fn counts_left_are_the_least_to_a_due_one()
    ensures { (setting : AlarmSetting) → IsTrue (will_be_due setting) → IsLeft setting }
{}
