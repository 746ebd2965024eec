//! The configuration of a separate core alone.

ghost use Rattle.std.specs.Prelude.{◌≡◌, ◌⊎◌, ◌↔◌, false, IsTrue, IfOk, IfErr, Err};
ghost use Rattle.osseparate.specs.Separate.{alone_of, cut_of, is_separate};

use crate::separate::is_separate_core;
use osbase::{CoreId, List};
use osplan::{ConfFault, Config, Core, Plan, copied_core, copied_modes};
use std::alloc::{AllocError, Global};

// The configuration of the core alone, under this number, as the master, without spinlocks. The version, the modes and
// the mailboxes' size stay.
fn alone(alloc: Global, plan: &Plan, id: CoreId, core: &Core) -> Result<Plan, AllocError>
    ensures { IfOk result (λ alone. alone ≡ alone_of plan.now id core.now) }
{
    let mut cores = List::new(alloc);
    cores.push(copied_core(core)?)?;
    Ok(Plan {
        version: plan.version,
        cap: plan.cap,
        master: id,
        modes: copied_modes(plan)?,
        spinlocks: List::new(alloc),
        cores,
    })
}

/// The configuration of a separate core alone: the core under its number, as the master, with the version, the modes
/// and the mailboxes' size of the whole, and without the spinlocks. The fault is `NotSeparate` exactly if the core is
/// not separate (`is_separate`), and `NoMemory` if memory runs out. The given configuration stays as it is. In the
/// result the core is separate, so a cut can be cut again.
pub fn cut(alloc: Global, config: &Config, core: CoreId) -> Result<Config, ConfFault>
    ensures ok { IfOk result (λ cut. cut ≡ cut_of config.now core) }
    ensures again { IfOk result (λ cut. IsTrue (is_separate cut core)) }
    ensures refused { (result ≡ Err ConfFault.NotSeparate) ↔ (is_separate config.now core ≡ false) }
    ensures fault { IfErr result (λ fault. (fault ≡ ConfFault.NotSeparate) ⊎ (fault ≡ ConfFault.NoMemory)) }
{
    let plan = config.plan();
    let Some(own) = plan.core(core) else {
        return Err(ConfFault::NotSeparate);
    };
    if !is_separate_core(plan, own) {
        return Err(ConfFault::NotSeparate);
    }
    Ok(Config::new(alone(alloc, plan, core, own)?))
}
