//! Tests of the numbers of a text.

ghost use Rattle.std.specs.Prelude.{◌≡◌};
ghost use Rattle.osplan.specs.Limits.{is_between, is_budget, most_activations};

use osbase::GREATEST_BUDGET;
use osjson::Whole;

/// Whether there is a number, and it is within these bounds.
pub fn is_between(low: u64, high: u64, number: Whole) -> bool
    ensures { result ≡ is_between low high number }
{
    match number {
        Some(number) => low <= number && number <= high,
        None => false,
    }
}

/// The greatest activation limit of a task: 1 if the task is extended, otherwise 64.
pub(crate) fn most_activations(extended: bool) -> u64
    ensures { result ≡ most_activations extended }
{
    if extended { 1 } else { 64 }
}

/// Whether there is a number, and it may be a budget, of execution or of a lock: 0 (none) to the greatest budget.
pub(crate) fn is_budget(budget: Whole) -> bool
    ensures { result ≡ is_budget budget }
{
    is_between(0, GREATEST_BUDGET, budget)
}
