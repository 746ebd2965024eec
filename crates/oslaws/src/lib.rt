//! Laws of every history: what a core's history means, in the standard's words.
//!
//! A definition that follows the kernel step by step is judged step by step. A law says the same of every history at
//! once, so a reviewer reads the law instead.
#![tactic(auto)]

pub mod depth;
pub mod held;
pub mod interrupts;
pub mod spinlocks;
pub mod takes;
pub mod waits;
pub mod worked;
