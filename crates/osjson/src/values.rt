//! Readers of JSON values: whole numbers, truth values, names and texts, and, for any reader, lists of values or null.

ghost use Rattle.std.specs.Prelude.{◌≡◌, Bool, true, IfOk, IsTrue, Option, map};
ghost use Rattle.std.specs.{List.list_all, Option.option_map_or};
ghost use Rattle.osbase.specs.Names.{is_name};
ghost use Rattle.serde_json.specs.{Data.Data, Find.as_bool, Find.as_str, View.view};
ghost use Rattle.osjson.specs.Reading.{Gives, each};
ghost use Rattle.osjson.specs.Json.{whole_of, if_name, name_of, each_of, or_null};

use crate::loops::{Reader, read_each};
use crate::refusals::Refusal;
use osbase::{List, is_name};
use serde_json::Value;
use std::alloc::Global;
use std::marker::Model;

/// Reads one value; what is read may borrow from it.
pub trait JsonReader<'v, U> {
    /// What a value is read as.
    ghost shape: { Self → Data → Option U };

    /// A test. Every value that is read passes it.
    ghost passes: { Self → U → Bool };

    /// What the value is read as. `Unfit` where it does not have the reader's shape; `OutOfMemory` where memory runs
    /// out.
    fn read(&self, alloc: Global, value: &'v Value) -> Result<U, Refusal>
        ensures shape { Gives (λ x. x) result (shape self.now (view value.now)) }
        ensures passes { IfOk result (λ x. IsTrue (passes self.now x)) };
}

/// A whole number of a text; one below 0 is None.
pub type Whole = Option<u64>;

/// Reads a whole number.
#[derive(Clone, Copy)]
pub struct WholeReader;

impl<'v> JsonReader<'v, Whole> for WholeReader {
    ghost shape = { λ _ d. whole_of d };

    ghost passes = { λ _ _. true };

    fn read(&self, _alloc: Global, value: &'v Value) -> Result<Whole, Refusal> {
        match value.as_u64() {
            Some(number) => Ok(Some(number)),
            None => match value.as_i64() {
                Some(_) => Ok(None),
                None => Err(Refusal::Unfit),
            },
        }
    }
}

/// Reads a truth value.
#[derive(Clone, Copy)]
pub struct BoolReader;

impl<'v> JsonReader<'v, bool> for BoolReader {
    ghost shape = { λ _ d. as_bool d };

    ghost passes = { λ _ _. true };

    fn read(&self, _alloc: Global, value: &'v Value) -> Result<bool, Refusal> {
        value.as_bool().ok_or(Refusal::Unfit)
    }
}

/// A text of a value, which it borrows.
#[derive(Drop)]
pub struct Text<'v> {
    text: &'v str,
}

impl<'v> Model for Text<'v> {
    ghost use Rattle.std.specs.Prelude.{List as Items, ℕ};

    ghost Value = { Items ℕ };

    ghost view = { λ t. t.text.now };
}

impl<'v> Text<'v> {
    pub fn of(text: &'v str) -> Self
        ensures { result ≡ text.now }
    {
        Text { text }
    }

    pub fn as_str(&self) -> &'v str
        ensures { result.now ≡ self.now }
    {
        self.text
    }
}

/// Reads a text.
#[derive(Clone, Copy)]
pub struct TextReader;

impl<'v> JsonReader<'v, Text<'v>> for TextReader {
    ghost shape = { λ _ d. as_str d };

    ghost passes = { λ _ _. true };

    fn read(&self, _alloc: Global, value: &'v Value) -> Result<Text<'v>, Refusal> {
        match value.as_str() {
            Some(text) => Ok(Text::of(text)),
            None => Err(Refusal::Unfit),
        }
    }
}

/// Reads a text that has the form of a name.
#[derive(Clone, Copy)]
pub struct NameReader;

impl<'v> JsonReader<'v, Text<'v>> for NameReader {
    ghost shape = { λ _ d. name_of d };

    ghost passes = { λ _ name. is_name name };

    fn read(&self, _alloc: Global, value: &'v Value) -> Result<Text<'v>, Refusal> {
        match value.as_str() {
            Some(text) => name_in(text),
            None => Err(Refusal::Unfit),
        }
    }
}

// The text, if it has the form of a name; else `Unfit`.
fn name_in(text: &str) -> Result<Text<'_>, Refusal>
    ensures shape { Gives (λ x. x) result (if_name text.now) }
    ensures passes { IfOk result (λ name. IsTrue (is_name name)) }
{
    if is_name(text) {
        Ok(Text { text })
    } else {
        Err(Refusal::Unfit)
    }
}

/// Reads null, or a value as the reader `of` does.
#[derive(Clone, Copy)]
pub struct OrNull<R> {
    pub of: R,
}

impl<'v, U: Drop, R: JsonReader<'v, U>> JsonReader<'v, Option<U>> for OrNull<R> {
    ghost shape = { λ reader d. or_null (R.shape reader.of) d };

    ghost passes = { λ reader x. option_map_or (R.passes reader.of) x true };

    fn read(&self, alloc: Global, value: &'v Value) -> Result<Option<U>, Refusal> {
        if value.is_null() {
            return Ok(None);
        }
        Ok(Some(self.of.read(alloc, value)?))
    }
}

/// Reads a list of values, each as the reader `of` does.
#[derive(Clone, Copy)]
pub struct ListOf<R> {
    pub of: R,
}

impl<'v, U: Drop, R: JsonReader<'v, U>> JsonReader<'v, List<U>> for ListOf<R> {
    ghost shape = { λ list d. each_of (R.shape list.of) d };

    ghost passes = { λ list xs. list_all (R.passes list.of) xs };

    fn read(&self, alloc: Global, value: &'v Value) -> Result<List<U>, Refusal> {
        match value.as_array() {
            Some(values) => read_values(alloc, &self.of, values.as_slice()),
            None => Err(Refusal::Unfit),
        }
    }
}

// Each of these values as the reader reads it.
fn read_values<'v, U: Drop, R: JsonReader<'v, U>>(
    alloc: Global,
    reader: &R,
    values: &'v [Value],
) -> Result<List<U>, Refusal>
    ensures shape { Gives (λ x. x) result (each (R.shape reader.now) (map view values.now)) }
    ensures passes { IfOk result (λ xs. IsTrue (list_all (R.passes reader.now) xs)) }
{
    read_each(alloc, &ElementReader { reader }, values)
}

// Reads the elements of a list as values.
#[derive(Clone, Copy)]
struct ElementReader<'r, R> {
    reader: &'r R,
}

impl<'v, U, R: JsonReader<'v, U>> Reader<'v, Value, U> for ElementReader<'_, R> {
    ghost shape = { λ element value. R.shape element.reader.now (view value) };

    ghost passes = { λ element x. R.passes element.reader.now x };

    fn read(&self, alloc: Global, value: &'v Value) -> Result<U, Refusal> {
        self.reader.read(alloc, value)
    }
}
