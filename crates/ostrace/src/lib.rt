//! The text of a trace, and where it is written to; and the text of a schedule.
#![tactic(auto)]

mod copies;
mod gathered;
mod lines;
mod parts;
pub mod reports;
mod rounds;
mod schedules;
pub mod sinks;
mod words;

pub use reports::write_reports;
pub use rounds::write_reports_by_threads;
pub use schedules::schedule_text;
pub use sinks::{MemorySink, Sink, WriteFailed, WriteSink, write_all};
pub use words::{Word, write_ended_words};
