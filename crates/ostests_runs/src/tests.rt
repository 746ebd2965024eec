//! The worked examples, from text to text.

mod alarms;
mod cores;
mod events;
mod files;
mod groups;
mod hostile;
mod interrupts;
mod kernel;
mod limits;
mod locks;
mod logs;
mod player;
mod program;
mod runs;
mod schedules;
mod shutdown;
mod small;
mod spinlock_ends;
mod spinlock_logs;
mod spinlocks;
mod starts;
mod tables;
mod trace;
mod words;
mod writes;
