//! Relations that a join may use: those that hold only for shapes that share a point.

ghost use Rattle.relation_core.specs.Relations.{ForbidsDisjoint};

use crate::extent::Extent;
use crate::matrix::Matrix;
use crate::part::Parts;
use crate::relation::Relation;
use geom_core::Shape;
use thiserror::Error;

/// A relation that holds for no two disjoint shapes.
#[derive(Clone, Copy, PartialEq, Eq)]
pub struct JoinRelation {
    relation: Relation,
    ghost forbids_disjoint: { ForbidsDisjoint relation },
}

/// The relation holds for some two disjoint shapes.
#[derive(Clone, Copy, Debug, PartialEq, Eq, Error)]
#[error("disjoint features may fit")]
pub struct AllowsDisjoint;

impl AllowsDisjoint {
    ghost use Rattle.std.specs.Prelude.{◌≡◌};
    ghost use Rattle.relation_core.specs.FaultTexts.{allows_disjoint_text};

    /// The text of the fault, as the user reads it.
    pub fn text(&self) -> &'static str
        ensures { result.now ≡ allows_disjoint_text }
    {
        "disjoint features may fit"
    }
}

impl JoinRelation {
    ghost use Rattle.std.specs.Prelude.{◌≡◌, ◌↔◌, IsTrue, IsOk, IfOk, OnErr};
    ghost use Rattle.geom_core.specs.Cells.{Meets};
    ghost use Rattle.relation_core.specs.Relations.{Holds, HoldsForDisjoint};
    ghost use Rattle.relation_core.specs.JoinRelations.{relation_of};

    /// The relation, if it holds for no two disjoint shapes of any dimensions.
    ///
    /// # Errors
    /// `AllowsDisjoint` if it holds for two such shapes.
    pub fn new(relation: Relation) -> Result<JoinRelation, AllowsDisjoint>
        // Ok exactly for relations that hold for no two disjoint shapes
        ensures ok { IsOk result ↔ ForbidsDisjoint relation }
        // it is that relation
        ensures same { IfOk result (λ join. relation_of join ≡ relation) }
        // otherwise it holds for some two
        ensures err { OnErr result (HoldsForDisjoint relation) }
    {
        let allowed = allows_disjoint(&relation);
        if allowed {
            Err(AllowsDisjoint)
        } else {
            let join = JoinRelation { relation };
            Ok(join)
        }
    }

    /// The relation itself.
    pub fn relation(&self) -> &Relation
        ensures { result.now ≡ relation_of self.now }
    {
        &self.relation
    }

    /// Whether the relation holds for two shapes, which then meet. This is the inner test of a
    /// join: shapes that don't meet cost at most four comparisons.
    #[inline(always)]
    pub fn holds(&self, a: &Shape, b: &Shape) -> bool
        // as its relation
        ensures holds { IsTrue result ↔ Holds (relation_of self.now) a.now b.now }
        // only for shapes that meet
        ensures meet { IsTrue result → Meets a.now b.now }
    {
        let meets = a.meets(b);
        meets && self.relation.holds(a, b)
    }
}

ghost use Rattle.std.specs.Prelude.{◌≡◌, ℕ, ◌<◌, ◌↔◌, IsTrue};
ghost use Rattle.relation_core.specs.DisjointShapes.{FitsDisjoint, boundary_extent};
ghost use Rattle.relation_core.specs.DisjointShapes.{disjoint_matrix};
ghost use Rattle.relation_core.specs.DisjointShapes.{interior_extent};

/// Whether one of the relation's masks fits the matrix of disjoint shapes of some dimensions.
fn allows_disjoint(relation: &Relation) -> bool
    ensures { IsTrue result ↔
        ((da : ℕ) × (db : ℕ) × (da < 3) × (db < 3) × FitsDisjoint relation.now da db) }
{
    for first_dim in 0..3 {
        if allows_disjoint_after(relation, first_dim) {
            return true;
        }
    }
    false
}

/// Whether a mask fits the matrix of two disjoint shapes, the first of which has this dimension.
fn allows_disjoint_after(relation: &Relation, first_dim: u8) -> bool
    requires { first_dim < 3 }
    ensures { IsTrue result ↔
        ((db : ℕ) × (db < 3) × FitsDisjoint relation.now first_dim db) }
{
    for second_dim in 0..3 {
        let matrix = disjoint_matrix(first_dim, second_dim);
        if relation.fits(&matrix, first_dim, second_dim) {
            return true;
        }
    }
    false
}

/// The matrix of two disjoint shapes of these dimensions: each part of one lies in the exterior
/// of the other.
fn disjoint_matrix(first_dim: u8, second_dim: u8) -> Matrix
    ensures { result ≡ disjoint_matrix first_dim second_dim }
{
    let (interior, boundary) = (interior_extent(first_dim), boundary_extent(first_dim));
    let row = |exterior| Parts {
        interior: Extent::Empty,
        boundary: Extent::Empty,
        exterior,
    };
    Matrix {
        rows: Parts {
            interior: row(interior),
            boundary: row(boundary),
            exterior: Parts {
                interior: interior_extent(second_dim),
                boundary: boundary_extent(second_dim),
                exterior: Extent::Area,
            },
        },
    }
}

/// The dimension of the interior of a shape of this dimension.
fn interior_extent(dim: u8) -> Extent
    ensures { result ≡ interior_extent dim }
{
    match dim {
        0 => Extent::Point,
        1 => Extent::Line,
        _ => Extent::Area,
    }
}

/// The dimension of its boundary.
fn boundary_extent(dim: u8) -> Extent
    ensures { result ≡ boundary_extent dim }
{
    match dim {
        0 => Extent::Empty,
        1 => Extent::Point,
        _ => Extent::Line,
    }
}
