//! The relation of two features of two layers, as a condition that a refinement decides.

use crate::matching::{PreparedPair, related};
use crate::prepared::PreparedLayer;
use any_geometry_core::AnyGeometry;
use any_relation_core::AnyRelation;
use layer_core::Layer;
use pair_core::Side;
use refine_core::Condition;
use relation_core::Matrix;
use std::alloc::{AllocError, Global};

/// Which features of two layers stand in a relation.
#[derive(Drop)]
pub struct RelatedFeatures<'a> {
    pub(crate) left: PreparedLayer<'a>,
    pub(crate) right: PreparedLayer<'a>,
    pub(crate) relation: &'a AnyRelation,
}

impl<'a> RelatedFeatures<'a> {
    ghost use Rattle.std.specs.Prelude.{◌≡◌, IfOk};
    ghost use Rattle.any_join_core.specs.Conditions.{left_of, right_of, wanted};

    /// The relation of the features of these layers, of which the large geometries are prepared that
    /// occur in several of the candidates.
    ///
    /// # Errors
    /// If an allocation fails.
    pub fn new(
        alloc: Global,
        left: &'a Layer<AnyGeometry>,
        right: &'a Layer<AnyGeometry>,
        candidates: &[(u32, u32)],
        relation: &'a AnyRelation,
    ) -> Result<RelatedFeatures<'a>, AllocError>
        // the condition is on these layers
        ensures left { IfOk result (λ c. left_of c ≡ left.now.list) }
        ensures right { IfOk result (λ c. right_of c ≡ right.now.list) }
        // by this relation. The law of both, `stands_near`: features that stand in the relation
        // have boxes that meet
        ensures relation { IfOk result (λ c. wanted c ≡ relation.now) }
    {
        let left = PreparedLayer::new(alloc, left, candidates, Side::Left)?;
        let right = PreparedLayer::new(alloc, right, candidates, Side::Right)?;
        Ok(RelatedFeatures {
            left,
            right,
            relation,
        })
    }
}

impl<'a> Condition for RelatedFeatures<'a> {
    ghost use Rattle.any_join_core.specs.Conditions.{left_of, right_of, wanted};
    ghost use Rattle.filter_core.specs.Joins.{StandIn};
    ghost use Rattle.any_join_core.specs.Matches.{BoxesMeet, AreRelated, HaveMatrix};
    ghost use Rattle.any_join_core.specs.StandingNear.{standing_near};

    /// The matrix of the two geometries.
    type Answer = Matrix;

    ghost near = { λ c i j. StandIn BoxesMeet (left_of c) (right_of c) (i, j) };

    ghost stands = { λ c i j. StandIn (AreRelated (wanted c)) (left_of c) (right_of c) (i, j) };

    ghost answers = { λ c i j m. StandIn (HaveMatrix m) (left_of c) (right_of c) (i, j) };

    fn decide(&self, alloc: Global, left: u32, right: u32) -> Result<Option<Matrix>, AllocError> {
        let prepared = PreparedPair {
            first: self.left.prepared(left),
            second: self.right.prepared(right),
        };
        match (self.left.shape(left), self.right.shape(right)) {
            (Some(first), Some(second)) => related(alloc, self.relation, first, second, prepared),
            _ => Ok(None),
        }
    }

    ghost stands_near = { λ c i j stands. standing_near c.relation.now c.left c.right i j
        stands };
}
