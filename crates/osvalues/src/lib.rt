//! The JSON values that the parts of a configuration are written as: every member of each object, in ascending
//! order of names.
#![tactic(auto)]

mod values;

pub use values::{cores_value, modes_value, spinlocks_value};
