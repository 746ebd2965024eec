//! The JSON value of a text.

ghost use Rattle.std.specs.Prelude.{◌≡◌};
ghost use Rattle.serde_json.specs.{Read.read, View.view};
ghost use Rattle.osjson.specs.Reading.{Gives};

use crate::refusals::Refusal;
use serde_json::Value;
use std::alloc::Global;

/// The JSON value of a text. `Unfit` where the text is not JSON; `OutOfMemory` where memory runs out.
pub fn value_of(alloc: Global, text: &str) -> Result<Value, Refusal>
    ensures { Gives view result (read text.now) }
{
    match Value::from_str(alloc, text) {
        Ok(value) => Ok(value),
        Err(error) => {
            if error.is_memory() {
                Err(Refusal::OutOfMemory)
            } else {
                Err(Refusal::Unfit)
            }
        }
    }
}
