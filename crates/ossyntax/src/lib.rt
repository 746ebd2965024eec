//! Operations as texts: reading a text, looking up its names, and writing the text of an operation.
//!
//! The grammar is the table of rows in `oscript`; this crate has no other grammar. A text is read into a form,
//! whose names are looked up by `Places`. A form is written as a text with the names that `Names` has for the
//! objects. A call across cores has the words of its operation.
#![tactic(auto)]

mod actions;
mod numbers;
mod parsing;
mod places;
mod words;
mod writing;

pub use actions::is_action;
pub use numbers::{int_of, number_in};
pub use parsing::{has_masks, is_known, op_of_text, references_of_text};
pub use places::{AnyName, Places};
pub use words::cut;
pub use writing::{Names, op_text};
