//! A gate that workers enter before each task, for tests that hold them back.

use crate::rows::Rows;
use relation_core::JoinRelation;
use std::alloc::{AllocError, Global};
use std::sync::Wait;
use std::thread::Threads;

/// A gate that all workers of a join enter with each task that they draw, before they make its row.
/// It may let them wait.
pub trait Gate {
    /// Lets the worker on to this task.
    fn enter<R: Threads + Wait + Sync>(&self, rt: &R, task: u32);
}

/// A gate that lets every worker on at once.
#[derive(Clone, Copy)]
pub struct OpenGate;

impl Gate for OpenGate {
    fn enter<R: Threads + Wait + Sync>(&self, _rt: &R, _task: u32) {}
}

/// Rows behind a gate: whoever makes the row of a task enters the gate with it first.
#[derive(Drop)]
pub struct Gated<'a, R, P, G> {
    pub rt: &'a R,
    pub rows: &'a P,
    pub gate: &'a G,
}

impl<'a, R: Threads + Wait + Sync, P: Rows, G: Gate> Rows for Gated<'a, R, P, G> {
    ghost tasks = { λ gated. P.tasks gated.rows.now };

    fn len(&self) -> u32 {
        self.rows.len()
    }

    fn row_of(
        &self,
        alloc: Global,
        task: u32,
        relation: &JoinRelation,
    ) -> Result<Vec<(u32, u32)>, AllocError> {
        self.gate.enter(self.rt, task);
        self.rows.row_of(alloc, task, relation)
    }
}
