//! Writing: the JSON text of a configuration.

ghost use Rattle.std.specs.Prelude.{◌≡◌, IfErr, IfOk, Some, string_bytes};
ghost use Rattle.serde_json.specs.View.{view};
ghost use Rattle.osload.specs.Meaning.{config_of};
ghost use Rattle.oswrite.specs.Writing.{config_data, config_text};

use osplan::{ConfFault, Config, Plan};
use osvalues::{cores_value, modes_value, spinlocks_value};
use serde_json::{Value, json};
use std::alloc::{AllocError, Global};

// The JSON value of a configuration, with every member.
fn plan_value(alloc: Global, plan: &Plan) -> Result<Value, AllocError>
    ensures { IfOk result (λ value. view value ≡ config_data plan.now) }
{
    json!(in alloc; {
        "cap": u64::from(plan.cap),
        "cores": cores_value(alloc, plan)?,
        "master": u64::from(plan.master.number),
        "modes": modes_value(alloc, plan)?,
        "spinlocks": spinlocks_value(alloc, plan)?,
        "version": u64::from(plan.version)
    })
}

/// The text of a configuration, in the configuration's version of the format: compact JSON with every member, in
/// ascending order of the members' names. Reading the text gives the configuration back. `NoMemory` where memory runs
/// out, and no other fault.
pub fn config_text(alloc: Global, config: &Config) -> Result<String, ConfFault>
    ensures text { IfOk result (λ text. string_bytes text ≡ config_text config.now) }
    // The text means this configuration.
    ensures reads_back { IfOk result (λ text. config_of (string_bytes text) ≡ Some config.now) }
    // The only fault is that memory runs out.
    ensures fault { IfErr result (λ fault. fault ≡ ConfFault.NoMemory) }
{
    let plan = config.plan();
    let text = plan_value(alloc, plan)?.to_string(alloc)?;
    Ok(text)
}
