//! Limits: the most objects of each kind, and the greatest values. Each limit that several crates need is here once.

/// The most cores. A set of cores has a flag for each number below this.
pub const CORES: usize = 16;

/// `CORES` in the type of a core's number.
pub const CORE_NUMBERS: u8 = CORES as u8;

/// The most cores of a configuration of version 1. A configuration of version 2 may have `CORES`.
pub const FIRST_CORES: usize = 8;

/// The most application modes of a configuration.
pub const MODES: usize = 8;

/// The most spinlocks of a configuration.
pub const SPINLOCKS: usize = 16;

/// The most envelopes of a mailbox.
pub const MAILBOX: usize = 16;

/// The most tasks of a core.
pub const TASKS: usize = 32;

/// The most ISRs of a core.
pub const ISRS: usize = 16;

/// The most tasks and ISRs of a core together.
pub const RUNNERS: usize = TASKS + ISRS;

/// The most resources of a core.
pub const RESOURCES: usize = 16;

/// The most counters of a core.
pub const COUNTERS: usize = 8;

/// The most alarms of a core.
pub const ALARMS: usize = 32;

/// The most schedule tables of a core.
pub const TABLES: usize = 8;

/// The most jobs of all a core's tasks at once.
pub const JOBS: u64 = 64;

/// The most jobs of all a core's ISRs at once: for each ISR one that was entered, and one that is pending.
pub const INTERRUPTS: usize = 2 * ISRS;

/// The greatest level of an ISR; the least is 1.
pub const LEVELS: u64 = 16;

/// The greatest execution budget, in ticks; 0 means no budget.
pub const GREATEST_BUDGET: u64 = 1_000_000_000;

/// The most operations of a script.
pub const OPERATIONS: usize = 256;

/// The greatest value that a counter may have.
pub const GREATEST_VALUE: u64 = 1_000_000_000;

/// The longest period of a schedule table, in counts.
pub const GREATEST_DURATION: u64 = 1_000_000_000;

/// The most expiry points of a schedule table.
pub const POINTS: usize = 16;

/// The most actions of an expiry point.
pub const ACTIONS: usize = 8;

/// The most letters that a core's alarms and schedule tables may add to its outbox at once.
pub const POSTED: usize = 56;

/// The most letters that a core's calls add to its outbox at once: its own call, and a reply to each other core.
pub const CALLS_AT_ONCE: usize = CORES;

/// The most letters of a core's outbox: at least `POSTED` and `CALLS_AT_ONCE` together.
pub const OUTBOX: usize = 80;
