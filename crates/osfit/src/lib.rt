//! Whether a kernel is large enough for a core.
#![tactic(auto)]

mod fitting;

pub use fitting::fits;
