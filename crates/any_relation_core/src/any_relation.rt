//! Relations that a join of any geometry may use: those that hold only for geometries that share a
//! point.

ghost use Rattle.any_relation_core.specs.EnvelopeRules.{IsRuleOf};
ghost use Rattle.any_relation_core.specs.PlaneRelations.{ForbidsDisjoint};

use crate::class::{Class, apart_matrix, classes_of};
use crate::envelope_rule::EnvelopeRule;
use geom_core::Shape;
use plane_core::Rings;
use relation_core::{AllowsDisjoint, Relation};

/// A relation that holds for no two disjoint geometries.
#[derive(Clone, Copy, PartialEq, Eq)]
pub struct AnyRelation {
    relation: Relation,
    rings: Rings,
    boxes: EnvelopeRule,
    ghost forbids_disjoint: { ForbidsDisjoint rings relation },
    ghost implied: { ∥ IsRuleOf relation boxes ∥₁ },
}

impl AnyRelation {
    ghost use Rattle.std.specs.Prelude.{◌≡◌, ◌↔◌, IsTrue, IsOk, IfOk, OnErr};
    ghost use Rattle.plane_core.specs.Figures.{Figure};
    ghost use Rattle.plane_core.specs.ProperRings.{IsGeometryOf};
    ghost use Rattle.any_relation_core.specs.EnvelopeRules.{AllowsBoxes, IsEnvelope};
    ghost use Rattle.any_relation_core.specs.PlaneRelations.{HoldsForDisjoint, HoldsOf};
    ghost use Rattle.any_relation_core.specs.AnyRelations.{relation_of, rings_of};

    /// The relation, if it holds for no two disjoint geometries with rings of this rule.
    ///
    /// # Errors
    /// `AllowsDisjoint` if it holds for two such geometries.
    pub fn new(relation: Relation, rings: Rings) -> Result<AnyRelation, AllowsDisjoint>
        // Ok exactly for relations that hold, by the matrix of the plane, for no two geometries
        // with such rings that share no point
        ensures ok { IsOk result ↔ ForbidsDisjoint rings relation }
        // it is that relation
        ensures same { IfOk result (λ join. relation_of join ≡ relation) }
        // it is for these rings
        ensures rings { IfOk result (λ join. rings_of join ≡ rings) }
        // otherwise it holds for some two
        ensures err { OnErr result (HoldsForDisjoint rings relation) }
    {
        let allowed = allows_apart(&relation, rings);
        if allowed {
            Err(AllowsDisjoint)
        } else {
            let boxes = EnvelopeRule::of(&relation);
            let join = AnyRelation {
                relation,
                rings,
                boxes,
            };
            Ok(join)
        }
    }

    /// The relation itself.
    pub fn relation(&self) -> &Relation
        ensures { result.now ≡ relation_of self.now }
    {
        &self.relation
    }

    /// The rule for the rings of the geometries.
    pub fn rings(&self) -> Rings
        ensures { result ≡ rings_of self.now }
    {
        self.rings
    }

    /// Whether two geometries with these envelopes may stand in the relation, as far as its masks
    /// tell: the boxes meet, and where the masks put one geometry into the other, its box lies in
    /// the other's, edges included. `false` refuses a pair without its matrix.
    pub fn allows_boxes(&self, first: &Shape, second: &Shape) -> bool
        // true exactly where the two boxes meet, the first lies in the second if each mask of the
        // relation lets no point of the first geometry be in the exterior of the second, and the
        // second in the first likewise
        ensures exact { IsTrue result
            ↔ AllowsBoxes (relation_of self.now) first.now second.now }
        // true for the envelopes of each two geometries with such rings that stand in the relation
        ensures none_lost { let rings = rings_of self.now in (g h : Figure)
            → IsGeometryOf rings g → IsGeometryOf rings h
            → IsEnvelope g first.now → IsEnvelope h second.now
            → HoldsOf (relation_of self.now) g h → IsTrue result }
    {
        self.boxes.allows(first, second)
    }
}

ghost use Rattle.std.specs.Prelude.{◌≡◌, ◌↔◌, IsTrue};
ghost use Rattle.any_relation_core.specs.Classes.{AllowsApart, AllowsBeside, FitsApart};

/// Whether a mask of the relation fits the matrix of two disjoint geometries of some classes.
fn allows_apart(relation: &Relation, rings: Rings) -> bool
    ensures { IsTrue result ↔ AllowsApart rings relation.now }
{
    let classes = classes_of(rings);
    classes
        .iter()
        .any(|first| allows_beside(relation, rings, *first))
}

/// The same, if the first geometry is of this class.
fn allows_beside(relation: &Relation, rings: Rings, first: Class) -> bool
    ensures { IsTrue result ↔ AllowsBeside rings relation.now first }
{
    let classes = classes_of(rings);
    classes
        .iter()
        .any(|second| fits_apart(relation, first, *second))
}

/// Whether a mask fits the matrix of two disjoint geometries of these classes.
fn fits_apart(relation: &Relation, first: Class, second: Class) -> bool
    ensures { IsTrue result ↔ FitsApart relation.now first second }
{
    let matrix = apart_matrix(first, second);
    relation.fits(&matrix, first.dim(), second.dim())
}
