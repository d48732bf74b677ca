//! The entries of a matrix that no mask asks for, which needn't be known to tell whether one fits.

ghost use Rattle.std.specs.Prelude.{◌≡◌};
ghost use Rattle.plane_core.specs.PlaneMatrices.{pick};
ghost use Rattle.arrangement_core.specs.Asked.{is_any, is_unasked, loose_entry, loose_row, loosened};

use plane_core::Part;
use relation_core::{Extent, Mask, Matrix, Parts, PatternValue};

/// The value of a part.
#[inline]
pub(crate) fn pick<T: Copy>(values: &Parts<T>, part: Part) -> T
    ensures { result ≡ pick part values.now }
{
    match part {
        Part::Interior => values.interior,
        Part::Boundary => values.boundary,
        Part::Exterior => values.exterior,
    }
}

/// Whether a value of a mask allows each extent.
#[inline]
fn is_any(value: PatternValue) -> bool
    ensures { result ≡ is_any value }
{
    match value {
        PatternValue::Any => true,
        PatternValue::NotEmpty => false,
        PatternValue::Exactly(_) => false,
    }
}

/// Whether each mask allows each extent in an entry.
fn is_unasked(masks: &[Mask], first: Part, second: Part) -> bool
    ensures { result ≡ is_unasked masks.now first second }
{
    masks
        .iter()
        .all(|mask| is_any(pick(&pick(&mask.rows, first), second)))
}

/// An entry of a matrix, or the greatest extent if no mask asks for the entry.
fn loose_entry(masks: &[Mask], matrix: &Matrix, first: Part, second: Part) -> Extent
    ensures { result ≡ loose_entry masks.now matrix.now first second }
{
    if is_unasked(masks, first, second) {
        Extent::Area
    } else {
        pick(&pick(&matrix.rows, first), second)
    }
}

/// A row of a matrix, with the greatest extent in the entries that no mask asks for.
fn loose_row(masks: &[Mask], matrix: &Matrix, first: Part) -> Parts<Extent>
    ensures { result ≡ loose_row masks.now matrix.now first }
{
    Parts {
        interior: loose_entry(masks, matrix, first, Part::Interior),
        boundary: loose_entry(masks, matrix, first, Part::Boundary),
        exterior: loose_entry(masks, matrix, first, Part::Exterior),
    }
}

/// A matrix with the greatest extent in the entries that no mask asks for. The same masks fit it.
pub(crate) fn loosened(masks: &[Mask], matrix: &Matrix) -> Matrix
    ensures { result ≡ loosened masks.now matrix.now }
{
    Matrix {
        rows: Parts {
            interior: loose_row(masks, matrix, Part::Interior),
            boundary: loose_row(masks, matrix, Part::Boundary),
            exterior: loose_row(masks, matrix, Part::Exterior),
        },
    }
}
