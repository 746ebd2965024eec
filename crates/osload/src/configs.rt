//! Reading a configuration.

ghost use Rattle.std.specs.Prelude.{◌≡◌, ◌≢◌, IfOk, IfErr, IsTrue, Some, []};
ghost use Rattle.serde_json.specs.{Read.read, View.view};
ghost use Rattle.osschema.specs.Shape.{config_shape, is_named};
ghost use Rattle.osplan.specs.Fault.{failing, first_fault, GivesOr};
ghost use Rattle.osvalidate.specs.Check.{tests_of};
ghost use Rattle.osload.specs.Meaning.{plan_of, config_of, IsLeastFault};

use crate::plans::plan_of;
use osjson::{JsonReader, Refusal, value_of};
use osplan::{ConfFault, Config, Plan};
use osschema::{ConfigReader, ConfigText, Objects};
use osvalidate::{Judged, are_objects_few, fault_of, is_numbered};
use serde_json::Value;
use std::alloc::Global;

// The JSON value of a text. `NotJson` where the text is not JSON; `NoMemory` where memory runs out.
fn json_of(alloc: Global, text: &str) -> Result<Value, ConfFault>
    ensures { GivesOr ConfFault.NotJson view result (read text.now) }
{
    match value_of(alloc, text) {
        Ok(value) => Ok(value),
        Err(Refusal::OutOfMemory) => Err(ConfFault::NoMemory),
        Err(Refusal::Unfit) => Err(ConfFault::NotJson),
    }
}

// The text of a configuration, whose parts are borrowed from a JSON value. `Shape` where the value does not have the
// shape of a configuration; `NoMemory` where memory runs out.
fn shape_of(alloc: Global, value: &Value) -> Result<ConfigText<'_>, ConfFault>
    ensures shape { GivesOr ConfFault.Shape (λ x. x) result (config_shape (view value.now)) }
    ensures named { IfOk result (λ text. IsTrue (is_named text)) }
{
    match ConfigReader.read(alloc, value) {
        Ok(text) => Ok(text),
        Err(Refusal::OutOfMemory) => Err(ConfFault::NoMemory),
        Err(Refusal::Unfit) => Err(ConfFault::Shape),
    }
}

// The plan that a text means, or the text's fault of smallest number. `NoMemory` where memory runs out. Each part of
// the plan is made while the part's text is judged.
fn plan_if_faultless(alloc: Global, text: &ConfigText) -> Result<Plan, ConfFault>
    requires named { IsTrue (is_named text.now) }
    ensures ok { IfOk result (λ plan. (failing (tests_of text.now) ≡ []) × (plan ≡ plan_of text.now)) }
    ensures fault { IfErr result (λ fault. fault ≢ ConfFault.NoMemory → first_fault (failing (tests_of text.now)) ≡ Some fault) }
{
    if !are_objects_few(text) {
        return Err(ConfFault::Limit);
    }
    let objects = Objects::of(alloc, text)?;
    if !is_numbered(text, &objects) {
        return Err(ConfFault::Limit);
    }
    let Judged { value, verdict } = plan_of(alloc, text, &objects)?;
    match fault_of(text, &objects, verdict, value.spinlocks.as_slice()) {
        Some(fault) => Err(fault),
        None => Ok(value),
    }
}

/// The configuration that a JSON text means, of version 1 or 2 of the format. Of several faults the one of
/// smallest number is returned; after `NotJson` or `Shape` nothing more is judged. If memory runs out,
/// `NoMemory` is returned, and never another answer in its place.
pub fn read_config(alloc: Global, text: &str) -> Result<Config, ConfFault>
    // The configuration is the one that the text means.
    ensures ok { IfOk result (λ config. config_of text.now ≡ Some config) }
    // The fault is the least that the text has.
    ensures fault { IfErr result (λ fault. fault ≢ ConfFault.NoMemory → IsLeastFault fault text.now) }
{
    let value = json_of(alloc, text)?;
    let text = shape_of(alloc, &value)?;
    Ok(Config::new(plan_if_faultless(alloc, &text)?))
}
