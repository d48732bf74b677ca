//! Boxes as sets of points of the plane.

use crate::forms::Forms;
use crate::planar::Planar;
use distance_core::{Distance, SquaredDistance, squared_distance};
use geom_core::Shape;
use std::alloc::{AllocError, Global};

/// The distance of two boxes takes no form, and allocates nothing.
impl Planar for Shape {
    ghost use Rattle.std.specs.Prelude.{⊤, ◌↔◌, IfOk, IsSome, IfSome};
    ghost use Rattle.distance_core.specs.Units.{units_of};
    ghost use Rattle.distance_core.specs.Distances.{AreWithin};
    ghost use Rattle.distance_core.specs.ShapePoints.{HasPoint};
    ghost use Rattle.planar_core.specs.Forms.{AreFormsOf};
    ghost use Rattle.planar_core.specs.Squares.{IsSquareOf};
    ghost use Rattle.planar_core.specs.BoxPoints.{in_itself, box_at_place, boxes_in_range};
    ghost use Rattle.planar_core.specs.BoxPoints.{boxes_in_plane};

    type Square = SquaredDistance;

    type Form = ();

    ghost has_point = { HasPoint };

    ghost is_form = { λ _ _. ⊤ };

    #[inline(always)]
    fn vertex_count(&self) -> usize {
        0
    }

    #[inline(always)]
    fn form(&self, _alloc: Global) -> Result<(), AllocError> {
        Ok(())
    }

    #[inline(always)]
    fn square_within(
        _alloc: Global,
        first: &Shape,
        second: &Shape,
        _forms: Forms<()>,
        distance: Distance,
    ) -> Result<Option<SquaredDistance>, AllocError>
        requires { AreFormsOf (λ _ _. ⊤) first.now second.now _forms }
        ensures within { IfOk result (λ found. IsSome found
            ↔ AreWithin (units_of distance) (HasPoint first.now) (HasPoint second.now)) }
        ensures square { IfOk result (λ found. IfSome found (λ square.
            IsSquareOf (square, 1) (HasPoint first.now) (HasPoint second.now))) }
    {
        let square = squared_distance(first, second);
        let units = distance.units() as SquaredDistance;
        if square <= units * units {
            Ok(Some(square))
        } else {
            Ok(None)
        }
    }

    #[inline(always)]
    fn square_of_boxes(square: SquaredDistance) -> Option<SquaredDistance> {
        Some(square)
    }

    ghost in_box = { in_itself };

    ghost at_place = { box_at_place };

    ghost in_range = { boxes_in_range };

    ghost in_plane = { boxes_in_plane };
}
