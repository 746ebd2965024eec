//! Runs by threads.

mod clocks;
mod gates;
mod orders;
mod refused;
mod reports;
mod spinlocks;
mod threads;
