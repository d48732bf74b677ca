//! Which features of two layers occur in a pair.

ghost use Rattle.std.specs.Prelude.{IfOk, map};
ghost use Rattle.draw_core.specs.Marks.{has_left, has_right, HoldsExactly};

use refine_core::AsPair;
use std::alloc::{AllocError, Global};
use std::collections::BTreeSet;

/// The numbers of the left and of the right features that occur in a pair.
#[derive(Drop)]
pub(crate) struct Marks {
    pub left: BTreeSet<u32>,
    pub right: BTreeSet<u32>,
}

impl Marks {
    /// The features that occur in these matches.
    pub(crate) fn new<M: AsPair>(alloc: Global, matches: &[M]) -> Result<Marks, AllocError>
        ensures left { let pairs = map M.pair_of matches.now in
            IfOk result (λ marks. HoldsExactly marks.left (has_left pairs)) }
        ensures right { let pairs = map M.pair_of matches.now in
            IfOk result (λ marks. HoldsExactly marks.right (has_right pairs)) }
    {
        let mut left = BTreeSet::new(alloc);
        let mut right = BTreeSet::new(alloc);
        for found in matches {
            let (first, second) = found.as_pair();
            left.insert(first)?;
            right.insert(second)?;
        }
        Ok(Marks { left, right })
    }
}
