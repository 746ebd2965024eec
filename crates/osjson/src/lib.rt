//! Reading JSON values by one loop: a reader for each kind of value, and, for any reader, lists and members
//! that it reads.
//!
//! A reader's `shape` defines what a value is read as, or that it is not read. An object is read member by
//! member, in the code as in its definition. A failed allocation is never taken for a value that is
//! not well-formed.
#![tactic(auto)]

mod loops;
mod members;
mod parts;
mod refusals;
mod texts;
mod values;
mod words;

pub use loops::{Reader, read_each};
pub use members::{at, at_or, only_members};
pub use parts::{PartReader, read_parts};
pub use refusals::Refusal;
pub use texts::value_of;
pub use values::{
    BoolReader, JsonReader, ListOf, NameReader, OrNull, Text, TextReader, Whole, WholeReader,
};
pub use words::part_count;
