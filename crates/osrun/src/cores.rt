//! The cores of a run.

ghost use Rattle.std.specs.Prelude.{◌≡◌, IfOk};
ghost use Rattle.osrun.specs.Fits.{ids_of};

use osbase::{CORE_NUMBERS, CoreId};
use osplan::Plan;
use std::alloc::{AllocError, Global};

/// The configured cores, ascending.
pub fn ids_of(alloc: Global, plan: &Plan) -> Result<Vec<CoreId>, AllocError>
    ensures { IfOk result (λ ids. ids.items ≡ ids_of plan.now) }
{
    let mut ids = Vec::new(alloc);
    for number in 0..CORE_NUMBERS {
        if plan.core(CoreId { number }).is_some() {
            ids.push(CoreId { number })?;
        }
    }
    Ok(ids)
}
