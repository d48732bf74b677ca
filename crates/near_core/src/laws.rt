//! The law of one distance.

ghost use Rattle.std.specs.Prelude.{◌≡◌, ◌↔◌, ℕ};
ghost use Rattle.distance_core.specs.Units.{units_of};
ghost use Rattle.distance_core.specs.Distances.{AreWithin};
ghost use Rattle.near_core.specs.declared.grown.Grown.{Grown};
ghost use Rattle.near_core.specs.Near.{AreNear};

use planar_core::Planar;

/// Two geometries with one distance are near exactly where they are at most this distance apart.
#[tactic(auto, using(crate::proofs::NearLemmas::near_by_one))]
pub fn one_distance_law<G: Planar>()
    ensures { (g h : Grown G) (d : ℕ) → units_of g.distance ≡ d → units_of h.distance ≡ d
        → AreNear G.has_point g h ↔ AreWithin d (G.has_point g.geometry) (G.has_point h.geometry) }
{}
