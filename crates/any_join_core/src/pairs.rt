//! The relation of two features of two layers, as a condition that a refinement decides without an
//! answer.

use crate::features::RelatedFeatures;
use crate::matching::{PreparedPair, are_related};
use any_geometry_core::AnyGeometry;
use any_relation_core::AnyRelation;
use layer_core::Layer;
use refine_core::Condition;
use std::alloc::{AllocError, Global};

/// Which features of two layers stand in a relation, with no answer besides.
#[derive(Drop)]
pub struct RelatedPairs<'a> {
    features: RelatedFeatures<'a>,
}

impl<'a> RelatedPairs<'a> {
    ghost use Rattle.std.specs.Prelude.{◌≡◌, IfOk};
    ghost use Rattle.any_join_core.specs.Conditions.{features_of, left_of, right_of, wanted};

    /// The relation of the features of these layers, prepared as by [`RelatedFeatures::new`].
    ///
    /// # Errors
    /// If an allocation fails.
    pub fn new(
        alloc: Global,
        left: &'a Layer<AnyGeometry>,
        right: &'a Layer<AnyGeometry>,
        candidates: &[(u32, u32)],
        relation: &'a AnyRelation,
    ) -> Result<RelatedPairs<'a>, AllocError>
        // as of `RelatedFeatures::new`
        ensures left { IfOk result (λ c. left_of (features_of c) ≡ left.now.list) }
        ensures right { IfOk result (λ c. right_of (features_of c) ≡ right.now.list) }
        ensures relation { IfOk result (λ c. wanted (features_of c) ≡ relation.now) }
    {
        let features = RelatedFeatures::new(alloc, left, right, candidates, relation)?;
        Ok(RelatedPairs { features })
    }
}

impl<'a> Condition for RelatedPairs<'a> {
    ghost use Rattle.std.specs.Prelude.{⊤};
    ghost use Rattle.any_join_core.specs.Conditions.{features_of, left_of, right_of, wanted};
    ghost use Rattle.filter_core.specs.Joins.{StandIn};
    ghost use Rattle.any_join_core.specs.Matches.{BoxesMeet, AreRelated};
    ghost use Rattle.any_join_core.specs.StandingNear.{standing_near};

    /// Nothing.
    type Answer = ();

    ghost near = { λ c i j. let f = features_of c in
        StandIn BoxesMeet (left_of f) (right_of f) (i, j) };

    ghost stands = { λ c i j. let f = features_of c in
        StandIn (AreRelated (wanted f)) (left_of f) (right_of f) (i, j) };

    ghost answers = { λ c i j m. ⊤ };

    fn decide(&self, alloc: Global, left: u32, right: u32) -> Result<Option<()>, AllocError> {
        let features = &self.features;
        let prepared = PreparedPair {
            first: features.left.prepared(left),
            second: features.right.prepared(right),
        };
        match (features.left.shape(left), features.right.shape(right)) {
            (Some(first), Some(second)) => {
                let answer = are_related(alloc, features.relation, first, second, prepared)?;
                Ok(answer.then_some(()))
            }
            _ => Ok(None),
        }
    }

    ghost stands_near = { λ c i j stands. let f = c.features in
        standing_near f.relation.now f.left f.right i j stands };
}
