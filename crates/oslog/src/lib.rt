//! The log of a core: its items as a text, a line for each, and the text as items again.
//!
//! The grammar is a table (`rows`): a row for each form of an item. Reading and writing both use its rows, and
//! lines are defined nowhere else. A line that fits no row, or has a name that the configuration lacks, is no item.
//! Whether a core may take an item is not checked here.
#![tactic(auto)]

mod faults;
mod forms;
mod lines;
mod names;
mod reading;
mod rows;
mod words;
mod writing;

pub use faults::LogFault;
pub use lines::read_log;
pub use writing::items_text;
