//! The marks by which a collector records the messages that it accepted.

/// The record of an accepted batch or end: all of it except the pairs.
#[derive(Clone, Copy, PartialEq, Eq)]
pub enum Mark {
    /// A task, and the number of one of its batches, from 0.
    Batch(u32, u64),
    /// A task, and the number of its batches.
    End(u32, u64),
}
