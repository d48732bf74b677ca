//! The distances of features, as the last field of a report.

ghost use Rattle.std.specs.Prelude.{◌*◌, ◌≤◌, OnOk};
ghost use Rattle.distance_core.specs.Limits.{greatest_distance};
ghost use Rattle.near_run_core.specs.DistanceTexts.{AddsDistance};

use crate::amount::push_amount;
use layer_core::Layer;
use near_core::Grown;
use planar_core::{Planar, Square};
use refine_core::Refined;
use report_core::LastField;
use std::alloc::AllocError;
use wkt_core::Scale;

/// The name of the column.
const NAME: &str = "distance";

/// The distance of the geometries of a match, rounded to the nearest unit of a scale.
#[derive(Clone, Copy)]
pub struct DistanceField {
    pub scale: Scale,
}

impl<G: Planar> LastField<G, Refined<G::Square>> for DistanceField {
    ghost use Rattle.std.specs.Prelude.{Some, codes};
    ghost use Rattle.near_run_core.specs.DistanceTexts.{HasSquare, IsDistanceText};

    ghost name_of = { λ _. Some (codes "distance") };

    ghost is_match = { HasSquare G.Square.fraction G.has_point };

    ghost is_field = { λ field. IsDistanceText G.has_point field.scale };

    fn name(&self) -> Option<&'static str> {
        Some(NAME)
    }

    fn push_field(
        &self,
        text: &mut Vec<u8>,
        found: &Refined<G::Square>,
        _left: &Layer<G>,
        _right: &Layer<G>,
    ) -> Result<(), AllocError> {
        push_distance(text, &found.answer, self.scale)
    }

    fn fetch(&self, _found: &Refined<G::Square>, _right: &Layer<G>) -> bool {
        true
    }
}

/// The same of geometries that also have the distance of a join.
#[derive(Clone, Copy)]
pub struct GrownDistanceField {
    pub scale: Scale,
}

impl<G: Planar> LastField<Grown<G>, Refined<G::Square>> for GrownDistanceField {
    ghost use Rattle.std.specs.Prelude.{Some, codes};
    ghost use Rattle.near_run_core.specs.DistanceTexts.{HasSquare, IsDistanceText};
    ghost use Rattle.near_run_core.specs.NearRuns.{has_grown_point};

    ghost name_of = { λ _. Some (codes "distance") };

    ghost is_match = { HasSquare G.Square.fraction (has_grown_point G.has_point) };

    ghost is_field = { λ field. IsDistanceText (has_grown_point G.has_point) field.scale };

    fn name(&self) -> Option<&'static str> {
        Some(NAME)
    }

    fn push_field(
        &self,
        text: &mut Vec<u8>,
        found: &Refined<G::Square>,
        _left: &Layer<Grown<G>>,
        _right: &Layer<Grown<G>>,
    ) -> Result<(), AllocError> {
        push_distance(text, &found.answer, self.scale)
    }

    fn fetch(&self, _found: &Refined<G::Square>, _right: &Layer<Grown<G>>) -> bool {
        true
    }
}

/// Adds the distance that has this square, rounded to the nearest unit of the scale.
fn push_distance<S: Square>(text: &mut Vec<u8>, square: &S, scale: Scale) -> Result<(), AllocError>
    requires { (S.fraction square.now).0
        ≤ (greatest_distance * greatest_distance) * (S.fraction square.now).1 }
    ensures { OnOk result (AddsDistance scale (S.fraction square.now) text.old.items text.new.items) }
{
    let units = square.rounded_root();
    push_amount(text, units, scale)
}
