//! Relations of two shapes, each given by masks of their matrix.

use crate::extent::Extent;
use crate::mask::{Mask, MaskFault};
use crate::matrix::Matrix;
use crate::part::Parts;
use crate::pattern_value::PatternValue;
use crate::relate;
use geom_core::Shape;
use std::cmp::Ordering;
use std::slice;

/// The letter `T` of the masks below.
const T: PatternValue = PatternValue::NotEmpty;

/// The letter `F`.
const F: PatternValue = PatternValue::Exactly(Extent::Empty);

/// The letter `0`.
const ZERO: PatternValue = PatternValue::Exactly(Extent::Point);

/// The letter `1`.
const ONE: PatternValue = PatternValue::Exactly(Extent::Line);

/// The letter `*`.
const ANY: PatternValue = PatternValue::Any;

/// A mask by its letters, row by row.
macro_rules! mask {
    ($ii:ident $ib:ident $ie:ident, $bi:ident $bb:ident $be:ident, $ei:ident $eb:ident $ee:ident) => {
        Mask {
            rows: Parts {
                interior: Parts {
                    interior: $ii,
                    boundary: $ib,
                    exterior: $ie,
                },
                boundary: Parts {
                    interior: $bi,
                    boundary: $bb,
                    exterior: $be,
                },
                exterior: Parts {
                    interior: $ei,
                    boundary: $eb,
                    exterior: $ee,
                },
            },
        }
    };
}

static DISJOINT: [Mask; 1] = [mask!(F F ANY, F F ANY, ANY ANY ANY)];

static INTERSECTS: [Mask; 4] = [
    mask!(T ANY ANY, ANY ANY ANY, ANY ANY ANY),
    mask!(ANY T ANY, ANY ANY ANY, ANY ANY ANY),
    mask!(ANY ANY ANY, T ANY ANY, ANY ANY ANY),
    mask!(ANY ANY ANY, ANY T ANY, ANY ANY ANY),
];

/// Those of `Touches` for shapes that aren't both points.
static TOUCHES: [Mask; 3] = [
    mask!(F T ANY, ANY ANY ANY, ANY ANY ANY),
    mask!(F ANY ANY, T ANY ANY, ANY ANY ANY),
    mask!(F ANY ANY, ANY T ANY, ANY ANY ANY),
];

/// That of `Crosses` where the second shape has the higher dimension.
static CROSSES_HIGHER: [Mask; 1] = [mask!(T ANY T, ANY ANY ANY, ANY ANY ANY)];

/// That of `Crosses` where the second shape has the lower dimension.
static CROSSES_LOWER: [Mask; 1] = [mask!(T ANY ANY, ANY ANY ANY, T ANY ANY)];

/// That of `Crosses` for two lines.
static CROSSES_LINE: [Mask; 1] = [mask!(ZERO ANY ANY, ANY ANY ANY, ANY ANY ANY)];

static WITHIN: [Mask; 1] = [mask!(T ANY F, ANY ANY F, ANY ANY ANY)];

static CONTAINS: [Mask; 1] = [mask!(T ANY ANY, ANY ANY ANY, F F ANY)];

/// That of `Overlaps` for two points or two areas.
static OVERLAPS: [Mask; 1] = [mask!(T ANY T, ANY ANY ANY, T ANY ANY)];

/// That of `Overlaps` for two lines.
static OVERLAPS_ALONG: [Mask; 1] = [mask!(ONE ANY T, ANY ANY ANY, T ANY ANY)];

static EQUALS: [Mask; 1] = [mask!(T ANY F, ANY ANY F, F F ANY)];

/// No point of the second is outside the first, and both share a point.
static COVERS: [Mask; 4] = [
    mask!(T ANY ANY, ANY ANY ANY, F F ANY),
    mask!(ANY T ANY, ANY ANY ANY, F F ANY),
    mask!(ANY ANY ANY, T ANY ANY, F F ANY),
    mask!(ANY ANY ANY, ANY T ANY, F F ANY),
];

/// No point of the first is outside the second, and both share a point.
static COVERED_BY: [Mask; 4] = [
    mask!(T ANY F, ANY ANY F, ANY ANY ANY),
    mask!(ANY T F, ANY ANY F, ANY ANY ANY),
    mask!(ANY ANY F, T ANY F, ANY ANY ANY),
    mask!(ANY ANY F, ANY T F, ANY ANY ANY),
];

static CONTAINS_PROPERLY: [Mask; 1] = [mask!(T ANY ANY, F F ANY, F F ANY)];

/// A relation of two shapes: a mask, or a named predicate of OGC 06-103r4, 6.1.15.3, or of JTS
/// (`IntersectionMatrix` and `RelatePredicate`; the last three).
#[derive(Clone, Copy, PartialEq, Eq)]
pub enum Relation {
    /// The mask fits.
    Mask(Mask),
    /// The closed shapes share no point.
    Disjoint,
    /// The closed shapes share a point.
    Intersects,
    /// The closed shapes share a point, and their interiors share none.
    Touches,
    /// The intersection of the interiors has a lower dimension than the greater of the two, and
    /// neither shape contains the other.
    Crosses,
    /// The first shape lies in the second, and their interiors share a point.
    Within,
    /// The second shape lies in the first, and their interiors share a point.
    Contains,
    /// The shapes have the same dimension, which the intersection of their interiors has too, and
    /// each meets the exterior of the other.
    Overlaps,
    /// Each shape lies in the other.
    Equals,
    /// Each point of the second closed shape is a point of the first.
    Covers,
    /// Each point of the first closed shape is a point of the second.
    CoveredBy,
    /// Each point of the second closed shape is in the interior of the first.
    ContainsProperly,
}

impl Relation {
    ghost use Rattle.std.specs.Prelude.{◌≡◌, ◌≢◌, ◌≤◌, ℕ, ◌↔◌, length, IsTrue};
    ghost use Rattle.relation_core.specs.Masks.{HasBadLetter};
    ghost use Rattle.relation_core.specs.Relations.{FitsOne, Holds, Spells, SpellsNothing, masks};
    ghost use Rattle.relation_core.specs.Relations.{HoldsOfSets};

    /// Reads one of the eleven names, in any ASCII case, or otherwise a mask.
    ///
    /// # Errors
    /// Those of [`Mask::read`]. No name has nine letters.
    pub fn read(text: &[u8]) -> Result<Relation, MaskFault>
        // a relation exactly where the text spells it
        ensures ok { (relation : Relation) → (result ≡ Ok relation) ↔ Spells relation text.now }
        // each fault exactly where it applies
        ensures length { (result ≡ Err MaskFault.Length) ↔
            ((length text.now ≢ 9) × SpellsNothing text.now) }
        ensures letter { (place : ℕ) →
            (result ≡ Err (MaskFault.Letter place)) ↔ HasBadLetter text.now place }
    {
        match named(text) {
            Some(relation) => Ok(relation),
            None => {
                let mask = Mask::read(text)?;
                Ok(Relation::Mask(mask))
            }
        }
    }

    /// The masks for shapes of these two dimensions, of which at least one must fit, in order.
    /// Without masks, the relation doesn't hold.
    pub fn masks(&self, first_dim: u8, second_dim: u8) -> &[Mask]
        requires first { first_dim ≤ 2 }
        requires second { second_dim ≤ 2 }
        ensures { result.now ≡ masks self.now first_dim second_dim }
    {
        match self {
            Relation::Mask(mask) => slice::from_ref(mask),
            Relation::Disjoint => &DISJOINT,
            Relation::Intersects => &INTERSECTS,
            Relation::Touches if first_dim == 0 && second_dim == 0 => &[],
            Relation::Touches => &TOUCHES,
            Relation::Crosses => crosses_masks(first_dim, second_dim),
            Relation::Within => &WITHIN,
            Relation::Contains => &CONTAINS,
            Relation::Overlaps if first_dim != second_dim => &[],
            Relation::Overlaps if first_dim == 1 => &OVERLAPS_ALONG,
            Relation::Overlaps => &OVERLAPS,
            Relation::Equals => &EQUALS,
            Relation::Covers => &COVERS,
            Relation::CoveredBy => &COVERED_BY,
            Relation::ContainsProperly => &CONTAINS_PROPERLY,
        }
    }

    /// Whether one of the masks for geometries of these dimensions fits their matrix.
    pub fn fits(&self, matrix: &Matrix, first_dim: u8, second_dim: u8) -> bool
        requires first { first_dim ≤ 2 }
        requires second { second_dim ≤ 2 }
        ensures { IsTrue result ↔ FitsOne (masks self.now first_dim second_dim) matrix.now }
    {
        let masks = self.masks(first_dim, second_dim);
        one_fits(masks, matrix)
    }

    /// Whether one of the masks for the two dimensions fits the matrix of the two shapes. Most
    /// names are tested as sets of points, without computing the matrix.
    #[inline(always)]
    pub fn holds(&self, a: &Shape, b: &Shape) -> bool
        // true exactly where one of its masks fits the matrix
        ensures masks { IsTrue result ↔ Holds self.now a.now b.now }
        // for disjoint, intersects, touches, within, contains, equals, covers, covered_by and
        // contains_properly that is what they mean for the sets of cells
        ensures sets { IsTrue result ↔ HoldsOfSets self.now a.now b.now }
    {
        match self {
            Relation::Mask(mask) => mask.fits(&relate(a, b)),
            Relation::Disjoint => !a.meets(b),
            Relation::Intersects => a.meets(b),
            Relation::Touches => a.touches(b),
            Relation::Crosses => crosses(&relate(a, b), a.dim(), b.dim()),
            Relation::Within => a.is_within(b),
            Relation::Contains => b.is_within(a),
            Relation::Overlaps => overlaps(&relate(a, b), a.dim(), b.dim()),
            Relation::Equals => a.is_same_set(b),
            Relation::Covers => b.is_in(a),
            Relation::CoveredBy => a.is_in(b),
            Relation::ContainsProperly => b.is_inside(a),
        }
    }
}

ghost use Rattle.std.specs.Prelude.{◌≡◌, ◌≤◌, ◌↔◌, length, IfSome, IfNone, IsTrue};
ghost use Rattle.relation_core.specs.Relations.{FitsOne, IsNamed, Spells, masks};

/// The relation with this name, in any ASCII case.
fn named(text: &[u8]) -> Option<Relation>
    ensures some { IfSome result (λ relation. IsNamed relation × Spells relation text.now) }
    ensures none { IfNone result
        ((relation : Relation) → IsNamed relation → ¬ (Spells relation text.now)) }
{
    if text.eq_ignore_ascii_case(b"disjoint") {
        Some(Relation::Disjoint)
    } else if text.eq_ignore_ascii_case(b"intersects") {
        Some(Relation::Intersects)
    } else if text.eq_ignore_ascii_case(b"touches") {
        Some(Relation::Touches)
    } else if text.eq_ignore_ascii_case(b"crosses") {
        Some(Relation::Crosses)
    } else if text.eq_ignore_ascii_case(b"within") {
        Some(Relation::Within)
    } else if text.eq_ignore_ascii_case(b"contains") {
        Some(Relation::Contains)
    } else if text.eq_ignore_ascii_case(b"overlaps") {
        Some(Relation::Overlaps)
    } else if text.eq_ignore_ascii_case(b"equals") {
        Some(Relation::Equals)
    } else if text.eq_ignore_ascii_case(b"covers") {
        Some(Relation::Covers)
    } else if text.eq_ignore_ascii_case(b"covered_by") {
        Some(Relation::CoveredBy)
    } else if text.eq_ignore_ascii_case(b"contains_properly") {
        Some(Relation::ContainsProperly)
    } else {
        None
    }
}

/// The masks of `Crosses`.
fn crosses_masks(first_dim: u8, second_dim: u8) -> &'static [Mask]
    ensures { result.now ≡ masks Relation.Crosses first_dim second_dim }
{
    match first_dim.cmp(&second_dim) {
        Ordering::Less => &CROSSES_HIGHER,
        Ordering::Greater => &CROSSES_LOWER,
        Ordering::Equal if first_dim == 1 => &CROSSES_LINE,
        Ordering::Equal => &[],
    }
}

/// Whether a mask of `Crosses` fits.
#[inline(always)]
fn crosses(matrix: &Matrix, first_dim: u8, second_dim: u8) -> bool
    ensures { IsTrue result ↔ FitsOne (masks Relation.Crosses first_dim second_dim) matrix.now }
{
    match first_dim.cmp(&second_dim) {
        Ordering::Less => {
            matrix.rows.interior.interior != Extent::Empty
                && matrix.rows.interior.exterior != Extent::Empty
        }
        Ordering::Greater => {
            matrix.rows.interior.interior != Extent::Empty
                && matrix.rows.exterior.interior != Extent::Empty
        }
        Ordering::Equal => first_dim == 1 && matrix.rows.interior.interior == Extent::Point,
    }
}

/// Whether a mask of `Overlaps` fits.
#[inline(always)]
fn overlaps(matrix: &Matrix, first_dim: u8, second_dim: u8) -> bool
    ensures { IsTrue result ↔ FitsOne (masks Relation.Overlaps first_dim second_dim) matrix.now }
{
    let inner = matrix.rows.interior.interior;
    let is_full = if first_dim == 1 {
        inner == Extent::Line
    } else {
        inner != Extent::Empty
    };
    first_dim == second_dim
        && is_full
        && matrix.rows.interior.exterior != Extent::Empty
        && matrix.rows.exterior.interior != Extent::Empty
}

/// Whether one of the masks fits.
fn one_fits(masks: &[Mask], matrix: &Matrix) -> bool
    ensures { IsTrue result ↔ FitsOne masks.now matrix.now }
{
    masks.iter().any(|mask| mask.fits(matrix))
}
