//! Copies of a configuration's parts.

ghost use Rattle.std.specs.Prelude.{◌≡◌, IfOk};

use crate::plans::{Core, Plan};
use osbase::{List, Name};
use std::alloc::AllocError;

/// A copy of a core's part of a configuration; an error if memory runs out.
pub fn copied_core(core: &Core) -> Result<Core, AllocError>
    ensures { IfOk result (λ copy. copy ≡ core.now) }
{
    core.clone()
}

/// A copy of the names of a configuration's application modes; an error if memory runs out.
pub fn copied_modes(plan: &Plan) -> Result<List<Name>, AllocError>
    ensures { IfOk result (λ modes. modes ≡ plan.now.modes) }
{
    plan.modes.clone()
}
