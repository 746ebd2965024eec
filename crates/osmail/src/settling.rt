//! What one core sent to another, letter by letter. Each function hands back the steps behind the letters that it
//! found, so that what is left can be compared next.

ghost use Rattle.std.specs.Prelude.{◌≡◌, ◌∷◌, ◌++◌, [], List, IfSome, IfNone};
ghost use Rattle.osbase.specs.declared.messages.Letter.{Letter};
ghost use Rattle.osmail.specs.Ends.{sent_to, taken_from};

use crate::ends::MailStep;
use osbase::{CoreId, Letter};
use ossame::is_same_letter;

// The first letter that was sent to this core, and the steps behind it. None if none was sent to this core.
pub(crate) fn next_sent(steps: &[MailStep], to: CoreId) -> Option<(Letter, &[MailStep])>
    ensures some { IfSome result (λ next. sent_to steps.now to ≡ next.0 ∷ sent_to next.1.now to) }
    ensures none { IfNone result (sent_to steps.now to ≡ []) }
{
    let mut steps = steps;
    while let [step, later @ ..] = steps {
        if let MailStep::Sent(core, letter) = step {
            if core.number == to.number {
                return Some((*letter, later));
            }
        }
        steps = later;
    }
    None
}

// The steps behind the first letter that was sent to this core, if that letter is `letter`; else None.
pub(crate) fn without<'a>(
    steps: &'a [MailStep],
    to: CoreId,
    letter: &Letter,
) -> Option<&'a [MailStep]>
    ensures some { IfSome result (λ left. sent_to steps.now to ≡ letter.now ∷ sent_to left.now to) }
    ensures none { IfNone result ((more : List Letter) → letter.now ∷ more ≡ sent_to steps.now to → ⊥) }
{
    let (next, left) = next_sent(steps, to)?;
    if !is_same_letter(&next, letter) {
        return None;
    }
    Some(left)
}

// Whether the letters that the steps `taken` took from `from` are the first that the steps `sent` sent to `to`. If so,
// the steps of `sent` behind these letters; else None.
pub(crate) fn without_taken<'a>(
    sent: &'a [MailStep],
    to: CoreId,
    taken: &[MailStep],
    from: CoreId,
) -> Option<&'a [MailStep]>
    ensures some { IfSome result (λ left. sent_to sent.now to ≡ taken_from taken.now from ++ sent_to left.now to) }
    ensures none { IfNone result ((more : List Letter) → taken_from taken.now from ++ more ≡ sent_to sent.now to → ⊥) }
{
    let mut left = sent;
    for step in taken {
        if let MailStep::Taken(core, letter) = step {
            if core.number == from.number {
                left = without(left, to, letter)?;
            }
        }
    }
    Some(left)
}
