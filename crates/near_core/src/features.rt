//! Whether two features of two layers are near, as a condition that a refinement decides.

use crate::grown::Grown;
use crate::measure::square_if_wanted;
use crate::prepared::ForDistances;
use distance_core::Nearness;
use layer_core::{Geometry as _, Layer};
use pair_core::Side;
use planar_core::{Forms, Planar};
use prepared_core::PreparedLayer;
use refine_core::Condition;
use std::alloc::{AllocError, Global};

/// Which features of two layers are near, or near and apart.
#[derive(Drop)]
pub struct NearFeatures<'a, G: Planar> {
    left: PreparedLayer<'a, Grown<G>, G::Form, ForDistances<G>>,
    right: PreparedLayer<'a, Grown<G>, G::Form, ForDistances<G>>,
    nearness: Nearness,
}

impl<'a, G: Planar> NearFeatures<'a, G> {
    ghost use Rattle.std.specs.Prelude.{◌≡◌, IfOk};
    ghost use Rattle.near_core.specs.Conditions.{left_of, right_of, wanted};

    /// The near features of these layers, or those of them that are apart. The forms of the large
    /// geometries that occur in several of the candidates are made before.
    ///
    /// # Errors
    /// If an allocation fails.
    pub fn new(
        alloc: Global,
        left: &'a Layer<Grown<G>>,
        right: &'a Layer<Grown<G>>,
        candidates: &[(u32, u32)],
        nearness: Nearness,
    ) -> Result<NearFeatures<'a, G>, AllocError>
        // the condition is on these layers
        ensures left { IfOk result (λ c. left_of c ≡ left.now.list) }
        ensures right { IfOk result (λ c. right_of c ≡ right.now.list) }
        // by this choice of pairs. Its law `stands_near`: the boxes of near features, each grown by
        // half of its distance, meet
        ensures nearness { IfOk result (λ c. wanted c ≡ nearness) }
    {
        let left = PreparedLayer::new(alloc, left, candidates, Side::Left)?;
        let right = PreparedLayer::new(alloc, right, candidates, Side::Right)?;
        Ok(NearFeatures {
            left,
            right,
            nearness,
        })
    }
}

impl<'a, G: Planar> Condition for NearFeatures<'a, G> {
    ghost use Rattle.filter_core.specs.Joins.{StandIn};
    ghost use Rattle.near_core.specs.Conditions.{left_of, right_of, wanted};
    ghost use Rattle.near_core.specs.Near.{BoxesMeet, AreWanted, HaveSquare};
    ghost use Rattle.near_core.specs.StandingNear.{standing_near};

    /// The square of the distance of the two geometries.
    type Answer = G::Square;

    ghost near = { λ c i j. StandIn (BoxesMeet G.box_of) (left_of c) (right_of c) (i, j) };

    ghost stands = { λ c i j.
        StandIn (AreWanted G.has_point (wanted c)) (left_of c) (right_of c) (i, j) };

    ghost answers = { λ c i j s.
        StandIn (HaveSquare G.Square.fraction G.has_point s) (left_of c) (right_of c) (i, j) };

    fn decide(
        &self,
        alloc: Global,
        left: u32,
        right: u32,
    ) -> Result<Option<G::Square>, AllocError> {
        let forms = Forms {
            first: self.left.prepared(left),
            second: self.right.prepared(right),
        };
        match (self.left.shape(left), self.right.shape(right)) {
            (Some(first), Some(second)) => {
                square_if_wanted(alloc, self.nearness, first, second, forms)
            }
            _ => Ok(None),
        }
    }

    fn fetch(&self, _left: u32, right: u32) -> bool {
        // Both intervals of the box are read, since they may lie in two cache lines.
        match self.right.shape(right) {
            Some(grown) => {
                let bounds = grown.geometry.bounds();
                bounds.x1() <= bounds.x2() && bounds.y1() <= bounds.y2()
            }
            None => false,
        }
    }

    ghost stands_near = { λ c i j stands.
        standing_near G.box_of G.has_point G.in_box (wanted c) (left_of c) (right_of c) i j
        stands };
}
