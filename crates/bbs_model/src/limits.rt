//! How large a board may be.

/// The most desired processes of a board.
pub const MOST_PROCESSES: u32 = 5_000;

/// The most instances of one process.
pub const MOST_INSTANCES: u32 = 1_000;

/// The most instances that all processes want together.
pub const MOST_WANTED: u32 = 50_000;

/// The most actual rows, of all three presences.
pub const MOST_ACTUAL: u32 = 100_000;

/// The most tasks.
pub const MOST_TASKS: u32 = 50_000;

/// The most cells.
pub const MOST_CELLS: u32 = 1_000;

/// The most domains.
pub const MOST_DOMAINS: u32 = 1_000;

/// The most transitions in a board's life.
pub const MOST_TRANSITIONS: u64 = 1_099_511_627_776;
