//! Whether one of some masks fits a matrix of which only bounds are known.
//!
//! An entry of the matrix is between those of two others, in the order `F`, `0`, `1`, `2`. While a
//! matrix is computed its entries only grow, so that what is known of it is a lower bound.

ghost use Rattle.std.specs.Prelude.{◌≡◌, ◌↔◌, ℕ, IsTrue};
ghost use Rattle.relation_core.specs.Relations.{FitsOne, masks as masks_of};
ghost use Rattle.relation_core.specs.declared.relation.Relation.{Relation};
ghost use Rattle.noding_core.specs.Marks.{rank};
ghost use Rattle.decision_core.specs.Orders.{IsBelow};
ghost use Rattle.decision_core.specs.Decisions.{SomeMask, FitsBoth, AllowsSome, AllowsSomeRow};
ghost use Rattle.decision_core.specs.Decisions.{FitsSome, FitsEach, FitsNone};

use noding_core::rank;
use relation_core::{Extent, Mask, Matrix, Parts, PatternValue};

/// What bounds of a matrix tell of the masks of a relation.
#[derive(Clone, Copy)]
pub enum Decision {
    /// One of the masks fits each matrix between the bounds.
    Holds,
    /// None of them fits any.
    Fails,
    /// The bounds don't tell.
    Open,
}

/// What a lower and an upper bound of a matrix tell of some masks, of which one must fit it.
pub fn decided(masks: &[Mask], least: &Matrix, greatest: &Matrix) -> Decision
    // Holds only where one of the masks fits each matrix between the bounds
    ensures holds { result ≡ Decision.Holds → FitsEach masks.now least.now greatest.now }
    // Fails only where none fits any
    ensures fails { result ≡ Decision.Fails → FitsNone masks.now least.now greatest.now }
    // Open only where the bounds don't tell, for the masks of a relation, or for any
    ensures all_fit { (relation : Relation) (c d : ℕ) → masks.now ≡ masks_of relation c d
        → IsBelow least.now greatest.now
        → FitsEach masks.now least.now greatest.now → result ≡ Decision.Holds }
    ensures none_fits { IsBelow least.now greatest.now
        → FitsNone masks.now least.now greatest.now → result ≡ Decision.Fails }
{
    if one_fits_both(masks, least, greatest) {
        Decision::Holds
    } else if one_fits_some(masks, least, greatest) {
        Decision::Open
    } else {
        Decision::Fails
    }
}

/// Whether one of the masks fits a matrix.
pub fn one_fits(masks: &[Mask], matrix: &Matrix) -> bool
    ensures { IsTrue result ↔ FitsOne masks.now matrix.now }
{
    masks.iter().any(|mask| mask.fits(matrix))
}

/// Whether one of the masks fits both bounds.
fn one_fits_both(masks: &[Mask], least: &Matrix, greatest: &Matrix) -> bool
    ensures { IsTrue result ↔ SomeMask (FitsBoth least.now greatest.now) masks.now }
{
    masks
        .iter()
        .any(|mask| mask.fits(least) && mask.fits(greatest))
}

/// Whether one of the masks fits some matrix between the bounds.
fn one_fits_some(masks: &[Mask], least: &Matrix, greatest: &Matrix) -> bool
    ensures { IsTrue result ↔ SomeMask (FitsSome least.now greatest.now) masks.now }
{
    masks.iter().any(|mask| may_fit(mask, least, greatest))
}

/// Whether a mask fits some matrix between the bounds.
fn may_fit(mask: &Mask, least: &Matrix, greatest: &Matrix) -> bool
    ensures { IsTrue result ↔ FitsSome least.now greatest.now mask.now }
{
    row_may_fit(
        mask.rows.interior,
        least.rows.interior,
        greatest.rows.interior,
    ) && row_may_fit(
        mask.rows.boundary,
        least.rows.boundary,
        greatest.rows.boundary,
    ) && row_may_fit(
        mask.rows.exterior,
        least.rows.exterior,
        greatest.rows.exterior,
    )
}

fn row_may_fit(row: Parts<PatternValue>, least: Parts<Extent>, greatest: Parts<Extent>) -> bool
    ensures { IsTrue result ↔ AllowsSomeRow least greatest row }
{
    may_allow(row.interior, least.interior, greatest.interior)
        && may_allow(row.boundary, least.boundary, greatest.boundary)
        && may_allow(row.exterior, least.exterior, greatest.exterior)
}

/// Whether a value of a mask allows some extent between two.
fn may_allow(value: PatternValue, least: Extent, greatest: Extent) -> bool
    ensures { IsTrue result ↔ AllowsSome least greatest value }
{
    match value {
        PatternValue::Any => true,
        PatternValue::NotEmpty => greatest != Extent::Empty,
        PatternValue::Exactly(wanted) => {
            rank(least) <= rank(wanted) && rank(wanted) <= rank(greatest)
        }
    }
}
