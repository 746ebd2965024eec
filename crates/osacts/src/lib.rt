//! What a core's acts do to its state, and the law that this is what they do to every history. There is no code here.
#![tactic(auto)]

ghost use Rattle.std.specs.Prelude.{IsTrue};
ghost use Rattle.osbase.specs.History.{History};
ghost use Rattle.osplan.specs.{Clocked.are_clocks_within, View.View};
ghost use Rattle.osclock.specs.Clocks.{are_settings_granted};
ghost use Rattle.osstate.specs.State.{state_of};
ghost use Rattle.osacts.specs.{Acts.Acts, Laws.Agrees, Laws.are_permitted};

/// If the core's counters and tables are within their limits, each alarm was set as a service grants it, and each act
/// is permitted, acts do to the state of a history what they do to the history, and print the same lines. An act is
/// permitted if its letter goes to a core that a configuration may have, and it sets an alarm as a service grants it
/// (the project's own).
pub fn states_go_as_histories_do()
    ensures { (x : Acts) → (v : View) → (h : History) → IsTrue (are_clocks_within v.own) → IsTrue (are_settings_granted v.own h) → IsTrue (are_permitted x (state_of v h)) → Agrees x v h }
{}
