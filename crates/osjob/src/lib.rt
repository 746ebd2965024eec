//! The jobs of the program: what each prints over its files, and how it ends.
#![tactic(auto)]

mod checks;
mod endings;
mod faults;
mod files;
mod groups;
mod orders;
mod outcomes;
mod outputs;
mod performs;
mod program;
mod readings;
mod replays;
mod runs;
mod sources;
mod threads;

pub use endings::{close, report_ending};
pub use faults::Fault;
pub use outcomes::Outcome;
pub use outputs::Output;
pub use performs::{perform, print_from};
pub use program::{NoWords, answer};
pub use sources::{Given, Source};
pub use threads::Yielding;
