//! The condition of a join: a relation of geometries of one kind.

ghost use Rattle.std.specs.Prelude.{◌≡◌, ◌↔◌, IsOk, IfOk, OnErr};
ghost use Rattle.words_core.specs.Conditions.{ForbidsDisjoint, HoldsForDisjoint};
ghost use Rattle.words_core.specs.Conditions.{geometries_of, relation_of};

use any_relation_core::AnyRelation;
use plane_core::Rings;
use relation_core::{AllowsDisjoint, JoinRelation, Relation};

/// The kind of geometries that a command takes.
#[derive(Clone, Copy, PartialEq, Eq)]
pub enum Geometries {
    /// Points, segments parallel to an axis, and rectangles.
    Box,
    /// Points, polylines and areas of any direction, with this rule for rings.
    Any(Rings),
}

/// A relation of geometries of one kind that holds for no two disjoint ones.
#[derive(Clone, Copy, PartialEq, Eq)]
pub enum Condition {
    /// A relation of points, segments parallel to an axis, and rectangles.
    Boxes(JoinRelation),
    /// A relation of points, polylines and areas of any direction.
    Any(AnyRelation),
}

impl Condition {
    /// The relation of geometries of this kind, if it holds for no two disjoint ones.
    ///
    /// # Errors
    /// `AllowsDisjoint` if it holds for two such geometries.
    pub fn new(relation: Relation, geometries: Geometries) -> Result<Condition, AllowsDisjoint>
        // Ok exactly for relations that hold for no two disjoint geometries of the kind
        ensures ok { IsOk result ↔ ForbidsDisjoint geometries relation }
        // it is that relation, of that kind
        ensures relation { IfOk result (λ condition. relation_of condition ≡ relation) }
        ensures geometries { IfOk result (λ condition. geometries_of condition ≡ geometries) }
        // otherwise it holds for some two
        ensures err { OnErr result (HoldsForDisjoint geometries relation) }
    {
        match geometries {
            Geometries::Box => {
                let relation = JoinRelation::new(relation)?;
                Ok(Condition::Boxes(relation))
            }
            Geometries::Any(rings) => {
                let relation = AnyRelation::new(relation, rings)?;
                Ok(Condition::Any(relation))
            }
        }
    }
}
