//! The first pair of each left feature among the pairs of a join.

ghost use Rattle.std.specs.Prelude.{◌≡◌, ◌<◌, ℕ, AllPairs, IfOk, length, map, not};
ghost use Rattle.std.specs.List.{slice_index_or};
ghost use Rattle.descent_core.specs.Rows.{Precedes};
ghost use Rattle.join_core.specs.Firsts.{firsts_of, has_earlier};

use refine_core::AsPair;
use std::alloc::{AllocError, Global};

/// The first pair of each left feature, of matches in the order of a join.
///
/// # Errors
/// If an allocation fails.
pub(crate) fn first_pairs<M: AsPair>(
    alloc: Global,
    matches: &[M],
) -> Result<Vec<(u32, u32)>, AllocError>
    requires { AllPairs Precedes (map M.pair_of matches.now) }
    ensures { IfOk result (λ firsts. firsts.items ≡ firsts_of (map M.pair_of matches.now)) }
{
    let mut firsts = Vec::new(alloc);
    for place in 0..matches.len() {
        if is_first(matches, place) {
            firsts.push(matches[place].as_pair())?;
        }
    }
    Ok(firsts)
}

/// Whether the match at this place is the first one of its left feature. Those of a feature stand
/// one after another.
fn is_first<M: AsPair>(matches: &[M], place: usize) -> bool
    requires within { place < length matches.now }
    requires order { AllPairs Precedes (map M.pair_of matches.now) }
    ensures { let pairs = map M.pair_of matches.now in (d : ℕ × ℕ)
        → result ≡ not (has_earlier pairs (slice_index_or pairs place d)) }
{
    if place == 0 {
        return true;
    }
    let (before, _) = matches[place - 1].as_pair();
    let (left, _) = matches[place].as_pair();
    before != left
}
