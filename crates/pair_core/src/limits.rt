//! The greatest numbers of workers, pairs and rounds, as contracts state them.

/// The greatest number of workers of a join, each with a seat at the board and a port of the
/// outlet.
pub const MAX_WORKERS: u32 = 16;

/// The greatest number of pairs of a batch.
pub const MAX_BATCH: u32 = 4096;

/// The greatest number of rounds in which the two trees are cut into tasks.
pub const MAX_CUT: u8 = 8;
