//! The inputs that the workers of a join share.

use deliver_core::{Board, Outlet};
use relation_core::JoinRelation;
use std::alloc::Global;

/// The inputs of all workers of a join, which borrow them: the rows to send, and the board and the
/// outlet to draw tasks from and send to.
#[derive(Drop)]
pub struct Job<'a, P> {
    pub alloc: Global,
    /// Provides the row of each task.
    pub rows: &'a P,
    /// The relation of the two entries of a pair.
    pub relation: &'a JoinRelation,
    /// The most pairs of a batch.
    pub batch: u32,
    pub board: &'a Board,
    pub outlet: &'a Outlet,
}
