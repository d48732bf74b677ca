//! What gives the matches of left features, of some by one thread or of all by several.

ghost use Rattle.std.specs.Prelude.{◌<◌, All, IfOk, IsOk};
ghost use Rattle.std.specs.List.{flat_map};
ghost use Rattle.nearest_core.specs.Matches.{AreRows, matches_or_none};

use refine_core::Refined;
use std::alloc::{AllocError, Global};
use std::thread;
use std::thread::Threads;

/// A search for the matches of left features, by their numbers.
pub(crate) trait Matching {
    ghost use Rattle.std.specs.Prelude.{ℕ, List, IfOk};
    ghost use Rattle.refine_core.specs.declared.refined.Refined.{Refined};
    ghost use Rattle.nearest_core.specs.Matches.{AreRows};

    /// What a match has besides its pair of numbers.
    type Answer;

    /// The matches of the left feature with a number.
    ghost is_row: { Self → ℕ → List (Refined Self.Answer) → Type 0 };

    /// The matches of the left features with these numbers, in order.
    ///
    /// # Errors
    /// If an allocation fails.
    fn matches_of(
        &self,
        alloc: Global,
        numbers: &[u32],
    ) -> Result<Vec<Refined<Self::Answer>>, AllocError>
        ensures { IfOk result
            (λ matches. AreRows (is_row self.now) numbers.now matches.items) };
}

/// The matches of each chunk of `size` left features; the last chunk may be shorter.
pub(crate) fn matches_by_chunks<R: AllocGlobal + Threads + Sync, C: Matching + Sync>(
    rt: &R,
    numbers: &[u32],
    search: &C,
    size: usize,
) -> Result<Vec<Result<Vec<Refined<C::Answer>>, AllocError>>, AllocError>
where
    C::Answer: Send + Drop,
    requires { 0 < size }
    ensures { IfOk result (λ parts. All IsOk parts.items
        → AreRows (C.is_row search.now) numbers.now (flat_map matches_or_none parts.items)) }
{
    let alloc = rt.alloc();
    let matches = move |_start: usize, chunk: &[u32]| search.matches_of(alloc, chunk);
    thread::map_chunks(rt, alloc, numbers, size, &matches)
}
