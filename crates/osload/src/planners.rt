//! The loop that makes a part of the plan from each text of a list.

ghost use Rattle.std.specs.{Prelude.Bool, Prelude.map, List.list_all};
ghost use Rattle.osvalidate.specs.{Verdict.Judges, Verdict.each, declared.verdicts.Verdict.Verdict as Right};

use osbase::List;
use osplan::ConfFault;
use osvalidate::{Judged, Verdict};
use std::alloc::Global;

/// Makes a part of the plan from its text, and says what is right about the text.
pub trait Planner<'e, T, U> {
    /// The part of the plan.
    ghost made: { Self → T → U };

    /// What is right about the text.
    ghost right: { Self → T → Right };

    /// Whether no script of the text has too many operations.
    ghost is_short: { Self → T → Bool };

    /// The part of the plan, and the verdict on its text. `Limit` if a script has too many operations.
    fn plan(&self, alloc: Global, text: &'e T) -> Result<Judged<U>, ConfFault>
        ensures { Judges result (is_short self.now text.now) (made self.now text.now) (right self.now text.now) };
}

/// The part of the plan for each text of a list, and the verdict on all texts together. `Limit` if a script has too
/// many operations.
pub fn plan_each<'e, T, U: Drop, P: Planner<'e, T, U>>(
    alloc: Global,
    planner: &P,
    texts: &'e [T],
) -> Result<Judged<List<U>>, ConfFault>
    ensures { Judges result (list_all (P.is_short planner.now) texts.now) (map (P.made planner.now) texts.now) (each (P.right planner.now) texts.now) }
{
    let mut plans = List::new(alloc);
    let mut verdict = Verdict::all_right();
    for text in texts {
        let judged = planner.plan(alloc, text)?;
        plans.push(judged.value)?;
        verdict = verdict.and(judged.verdict);
    }
    Ok(Judged {
        value: plans,
        verdict,
    })
}
