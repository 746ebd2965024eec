//! Tests of the program by lists of turns and by logs, and of the texts of traces. They are a crate of their own, so
//! that none of the code is proved again.
#![tactic(auto)]

#[cfg(test)]
mod tests;
