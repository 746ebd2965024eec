//! Members of JSON objects, each by its reader.

ghost use Rattle.std.specs.Prelude.{◌≡◌, IfOk, IsTrue, string_bytes, String};
ghost use Rattle.std.specs.{List.list_all, BTreeMap.keys, declared.alloc.Global.Global};
ghost use Rattle.serde_json.specs.View.{view};
ghost use Rattle.osjson.specs.Reading.{Gives};
ghost use Rattle.osjson.specs.Json.{texts_of, is_one_of, is_object_of, only_members, member_of, member_or};

use crate::refusals::Refusal;
use crate::values::JsonReader;
use serde_json::{Map, Value};
use std::alloc::Global;

/// What the reader reads of the member with this key. `Unfit` where the value is no object, where it has no such
/// member, or where the member does not have the reader's shape. `OutOfMemory` where memory runs out.
pub fn at<'v, U, R: JsonReader<'v, U>>(
    alloc: Global,
    value: &'v Value,
    key: &str,
    reader: &R,
) -> Result<U, Refusal>
    ensures shape { Gives (λ x. x) result (member_of (R.shape reader.now) key.now (view value.now)) }
    ensures passes { IfOk result (λ x. IsTrue (R.passes reader.now x)) }
{
    match value.get(key) {
        Some(found) => reader.read(alloc, found),
        None => Err(Refusal::Unfit),
    }
}

/// What the reader reads of the member with this key. The default if there is no such member, or the value is no
/// object. `Unfit` where the member does not have the reader's shape; `OutOfMemory` where memory runs out.
pub fn at_or<'v, U: Drop, R: JsonReader<'v, U>>(
    alloc: Global,
    value: &'v Value,
    key: &str,
    reader: &R,
    default: U,
) -> Result<U, Refusal>
    requires passes { IsTrue (R.passes reader.now default) }
    ensures shape { Gives (λ x. x) result (member_or (R.shape reader.now) default key.now (view value.now)) }
    ensures passes { IfOk result (λ x. IsTrue (R.passes reader.now x)) }
{
    match value.get(key) {
        Some(found) => reader.read(alloc, found),
        None => Ok(default),
    }
}

fn is_one_of(names: &[&str], key: &str) -> bool
    ensures { result ≡ is_one_of (texts_of names.now) key.now }
{
    names.contains(&key)
}

// Whether each member has one of these names.
fn are_among(names: &[&str], members: &Map<String, Value>) -> bool
    ensures { result ≡ list_all (λ (key : String Global). is_one_of (texts_of names.now) (string_bytes key)) (keys members.now) }
{
    members.keys().all(|key| is_one_of(names, key.as_str()))
}

// Whether the value is an object all of whose members have one of these names.
fn is_object_of(names: &[&str], value: &Value) -> bool
    ensures { result ≡ is_object_of (is_one_of (texts_of names.now)) (view value.now) }
{
    match value.as_object() {
        Some(members) => are_among(names, members),
        None => false,
    }
}

/// `Ok` where the value is an object all of whose members have one of these names; else `Unfit`.
pub fn only_members(value: &Value, names: &[&str]) -> Result<(), Refusal>
    ensures { Gives (λ x. x) result (only_members (texts_of names.now) (view value.now)) }
{
    if is_object_of(names, value) {
        Ok(())
    } else {
        Err(Refusal::Unfit)
    }
}
