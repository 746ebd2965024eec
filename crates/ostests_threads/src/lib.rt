//! Tests of the program by threads. They are a crate of their own, so that none of the code is proved again.
#![tactic(auto)]

#[cfg(test)]
mod tests;
