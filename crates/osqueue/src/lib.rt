//! The ready jobs of a core, each with a priority. A word tells which priorities have jobs. Each such priority has a
//! queue in a pool of linked places. A count tells how often the word or the front of a queue was read.
//!
//! Nothing here takes memory.
#![tactic(auto)]

mod fronts;
mod pool;
mod queue;
mod reads;
mod ready;
pub mod words;

pub use queue::ReadyQueue;
pub use reads::Reads;
pub use ready::Ready;
