//! The features of a side of a join that occur in several of its pairs.

ghost use Rattle.std.specs.Prelude.{◌≡◌, ◌<◌, ◌+◌, ◌==◌, ℕ, All, IfOk, cond, filter, length};
ghost use Rattle.std.specs.Prelude.{min};
ghost use Rattle.std.specs.List.{slice_index_or};
ghost use Rattle.pair_core.specs.Often.{number_in, occurrences, is_met_often};

use std::alloc::{AllocError, Global};

/// The fewest pairs that are several.
const SEVERAL: u8 = 2;

/// A side of the pairs of a join.
#[derive(Clone, Copy, PartialEq, Eq)]
pub enum Side {
    Left,
    Right,
}

impl Side {
    /// The number of a pair's feature on this side.
    pub fn number_in(self, pair: (u32, u32)) -> u32
        ensures { result ≡ number_in self pair }
    {
        match self {
            Side::Left => pair.0,
            Side::Right => pair.1,
        }
    }
}

/// Those of some numbers of features, in their order, that occur in several pairs on this side.
///
/// # Errors
/// If an allocation fails.
pub fn met_often(
    alloc: Global,
    numbers: &[u32],
    pairs: &[(u32, u32)],
    side: Side,
) -> Result<Vec<u32>, AllocError>
    ensures { IfOk result (λ often. often.items
        ≡ filter (λ n. is_met_often side n pairs.now) numbers.now) }
{
    let counts = counts_below(alloc, limit_of(numbers), pairs, side)?;
    let mut often = Vec::new(alloc);
    for number in numbers {
        if counts[*number as usize] >= SEVERAL {
            often.push(*number)?;
        }
    }
    Ok(often)
}

/// A number that is greater than each of these.
fn limit_of(numbers: &[u32]) -> usize
    ensures { All (λ n. n < result) numbers.now }
{
    let mut limit = 0;
    for number in numbers {
        limit = limit.max(*number as usize + 1);
    }
    limit
}

/// For each number below a limit the number of pairs that it occurs in, or [`SEVERAL`] if these are
/// more.
fn counts_below(
    alloc: Global,
    limit: usize,
    pairs: &[(u32, u32)],
    side: Side,
) -> Result<Vec<u8>, AllocError>
    ensures len { IfOk result (λ counts. length counts.items ≡ limit) }
    ensures counts { IfOk result (λ counts. (n d : ℕ) → n < limit
        → slice_index_or counts.items n d ≡ min 2 (occurrences side n pairs.now)) }
{
    let mut counts = Vec::from_elem(alloc, 0, limit)?;
    for pair in pairs {
        count_once(&mut counts, side.number_in(*pair));
    }
    Ok(counts)
}

/// Counts one more pair of the feature with this number, if it has a count.
fn count_once(counts: &mut Vec<u8>, number: u32)
    ensures len { length counts.new.items ≡ length counts.old.items }
    ensures counts { (n d : ℕ) → n < length counts.old.items
        → let old = slice_index_or counts.old.items n d in
        slice_index_or counts.new.items n d ≡ cond (number == n) (min 2 (old + 1)) old }
{
    if let Some(count) = counts.get_mut(number as usize) {
        *count = count.saturating_add(1).min(SEVERAL);
    }
}
