//! The priority queue of candidates, the nearest first.

ghost use Rattle.std.specs.BinaryHeap.{heap_items, IsHeap};
ghost use Rattle.std.proofs.Props.{props};
ghost use Rattle.nearest_core.specs.Candidates.{nearest_first};

use crate::candidate::Candidate;
use distance_core::SquaredDistance;
use std::alloc::{AllocError, Global};
use std::cmp::Reverse;
use std::collections::BinaryHeap;

/// A priority queue of candidates.
#[derive(Drop)]
pub(crate) struct Queue<'a> {
    heap: BinaryHeap<Reverse<Candidate<'a>>>,
    ghost ordered: { IsHeap nearest_first (heap_items heap) } by { Prim.hlevel props },
}

impl<'a> Queue<'a> {
    ghost use Rattle.std.specs.Prelude.{◌≡◌, ◌≤◌, [], ◌∷◌, OnOk, IfSome, IfNone};
    ghost use Rattle.std.specs.Prelude.{map, All, Contains, IsPermutation};
    ghost use Rattle.nearest_core.specs.Candidates.{IsNoLater};
    ghost use Rattle.nearest_core.specs.Queues.{waiting};

    /// An empty queue.
    pub(crate) fn new(alloc: Global) -> Queue<'a>
        ensures { waiting result ≡ [] }
    {
        Queue {
            heap: BinaryHeap::new(alloc),
        }
    }

    /// Drops all candidates. Their room is kept.
    pub(crate) fn clear(&mut self)
        ensures { waiting self.new ≡ [] }
    {
        self.heap.clear();
    }

    /// Adds a candidate.
    pub(crate) fn push(&mut self, candidate: Candidate<'a>) -> Result<(), AllocError>
        ensures { let all = candidate.entry ∷ waiting self.old in
            OnOk result (IsPermutation all (waiting self.new)) }
    {
        self.heap.push(Reverse(candidate))?;
        Ok(())
    }

    /// The squared distance of the first candidate.
    pub(crate) fn first_square(&self) -> Option<SquaredDistance>
        ensures first { IfSome result (λ square. All (λ d. square ≤ d.square) (waiting self.now)) }
        ensures held { IfSome result (Contains (map (λ d. d.square) (waiting self.now))) }
        ensures none { IfNone result (waiting self.now ≡ []) }
    {
        let Reverse(candidate) = self.heap.peek()?;
        Some(candidate.square)
    }

    /// Takes out the first candidate.
    pub(crate) fn pop(&mut self) -> Option<Candidate<'a>>
        ensures others { IfSome result
            (λ c. IsPermutation (waiting self.old) (c ∷ waiting self.new)) }
        ensures first { IfSome result (λ c. All (IsNoLater c) (waiting self.new)) }
        ensures none { IfNone result (waiting self.old ≡ []) }
    {
        let Reverse(candidate) = self.heap.pop()?;
        Some(candidate)
    }
}
