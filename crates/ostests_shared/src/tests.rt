mod board;
mod mail;
mod queue;
mod spinlocks;
