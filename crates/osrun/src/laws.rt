//! What holds of the reports of every run.

ghost use Rattle.std.specs.Prelude.{◌≡◌, ◌<◌, IsTrue, List, Some, [], true};
ghost use Rattle.osbase.specs.{declared.references.CoreId.CoreId, declared.items.Item.Item, declared.limits.TheConstants.SPINLOCKS, declared.references.SpinlockId.SpinlockId, declared.turns.CoreStimuli.CoreStimuli, declared.turns.Report.Report, Spins.got_spinlocks, Spins.has_spinlock};
ghost use Rattle.oskernel.specs.Step.{history_from, solo};
ghost use Rattle.osplan.specs.{View.View, declared.plans.Plan.Plan, Limits.is_within_limits};
ghost use Rattle.osseparate.specs.Separate.{is_separate};
ghost use Rattle.osshared.specs.Histories.{IsLegal, Thinned, calls_by, state_after};
ghost use Rattle.osspin.specs.Spins.{IsRefusedCall, SpinEntry, holder_of, is_held_by, no_holders, spin_call, spin_reply, spinlocks};
ghost use Rattle.osspin.specs.{declared.calls.SpinAction.TheVariants.Free, declared.calls.SpinReply.TheVariants.Answered};
ghost use Rattle.osrun.specs.{Requests.Calls, Ends.have_all_ended, Fits.AreAnswered, Fits.has_drained, Fits.items_of, Sound.AreSound, Sound.lists_in};

/// If every started core has ended, each separate core was started and has drained. So by `IsAlone`, the separate core
/// prints all that its configuration alone prints.
pub fn separate_cores_have_drained_where_all_have_ended()
    ensures { (plan : Plan) (stimuli : List CoreStimuli) (reports : List Report) → IsTrue (is_within_limits plan) → AreSound plan stimuli reports
        → IsTrue (have_all_ended plan reports) → (id : CoreId) → IsTrue (is_separate plan id) → has_drained (items_of (lists_in reports) id) ≡ true }
{}

/// Take a legal history of all cores' spinlock calls. In it, this core's calls are those of its items, besides refused
/// ones. The core then holds exactly the spinlocks that it got by its items, so a release of one of them is never
/// refused.
pub fn a_core_holds_the_spinlocks_that_it_got()
    ensures holds { (l : SpinlockId) → l.index < SPINLOCKS → (v : View) (items : List Item) (calls : Calls) → solo v items ≡ Some (history_from v [] items)
        → AreAnswered v [] items calls → (all : List SpinEntry) → IsLegal spinlocks tt all → Thinned IsRefusedCall (calls_by v.core all) calls.spins
        → is_held_by v.core (holder_of (state_after spinlocks no_holders all) l) ≡ has_spinlock l (got_spinlocks (history_from v [] items)) }
    ensures released { (l : SpinlockId) → l.index < SPINLOCKS → (v : View) (items : List Item) (calls : Calls) → solo v items ≡ Some (history_from v [] items)
        → AreAnswered v [] items calls → (all : List SpinEntry) → IsLegal spinlocks tt all → Thinned IsRefusedCall (calls_by v.core all) calls.spins
        → IsTrue (has_spinlock l (got_spinlocks (history_from v [] items)))
        → spin_reply v.core (spin_call l Free) (state_after spinlocks no_holders all) ≡ Answered true }
{}
