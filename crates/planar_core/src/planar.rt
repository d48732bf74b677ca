//! What a join by distance has to know of a geometry.

use crate::forms::Forms;
use crate::square::Square;
use distance_core::{Distance, SquaredDistance};
use layer_core::Geometry;
use std::alloc::{AllocError, Global};

/// A geometry that is a closed set of points of the plane, whose distances are exact.
pub trait Planar: Geometry {
    ghost use Rattle.std.specs.Prelude.{◌≡◌, ◌↔◌, ◌<◌, ◌≤◌, ◌*◌, ℕ, IfOk, IsSome, IfSome};
    ghost use Rattle.plane_core.specs.Points.{Point, IsSamePlace};
    ghost use Rattle.distance_core.specs.Units.{units_of};
    ghost use Rattle.distance_core.specs.Limits.{greatest_distance};
    ghost use Rattle.distance_core.specs.Distances.{AreWithin};
    ghost use Rattle.distance_core.specs.ShapePoints.{HasPoint};
    ghost use Rattle.planar_core.specs.Forms.{AreFormsOf};
    ghost use Rattle.planar_core.specs.Squares.{IsSquareOf};

    /// The square of a distance of two such geometries.
    type Square: Square;

    /// What is made once of a geometry that is measured often.
    type Form: Drop;

    /// The points of the closed geometry.
    ghost has_point: { Self → Point → Type 0 };

    /// The forms of a geometry.
    ghost is_form: { Self → Self.Form → Type 0 };

    /// The number of vertices, by which a geometry is large enough to have its form made before. It
    /// affects time and memory only.
    fn vertex_count(&self) -> usize;

    /// The form of a geometry.
    ///
    /// # Errors
    /// If an allocation fails.
    fn form(&self, alloc: Global) -> Result<Self::Form, AllocError>
        ensures { IfOk result (is_form self.now) };

    /// The square of the distance of two closed geometries, if they are at most a distance apart.
    /// A form that isn't given is made for this call alone, if it is needed.
    ///
    /// # Errors
    /// If an allocation fails.
    fn square_within(
        alloc: Global,
        first: &Self,
        second: &Self,
        forms: Forms<Self::Form>,
        distance: Distance,
    ) -> Result<Option<Self::Square>, AllocError>
        requires { AreFormsOf is_form first.now second.now forms }
        // a square exactly where the closed geometries are at most the distance apart
        ensures within { IfOk result (λ found. IsSome found
            ↔ AreWithin (units_of distance) (has_point first.now) (has_point second.now)) }
        // the least squared distance of a point of the one and a point of the other: two points
        // reach it, and no two are nearer
        ensures square { IfOk result (λ found. IfSome found (λ square.
            IsSquareOf (Self.Square.fraction square)
            (has_point first.now) (has_point second.now))) };

    /// The square of the distance of two such geometries, if that of their boxes tells it.
    fn square_of_boxes(square: SquaredDistance) -> Option<Self::Square>
        // the same square
        ensures value { IfSome result (λ s. Self.Square.fraction s ≡ (square, 1)) }
        // which is that of the geometries
        ensures exact { IfSome result (λ _. (g h : Self)
            → IsSquareOf (square, 1) (HasPoint (Self.box_of g)) (HasPoint (Self.box_of h))
            → IsSquareOf (square, 1) (has_point g) (has_point h)) };

    /// The box has all points.
    ghost in_box: { (g : Self) (p : Point) → 0 < p.w → has_point g p → HasPoint (Self.box_of g) p };

    /// Two pairs of coordinates of one place are both those of a point, or neither is.
    ghost at_place: { (g : Self) (p q : Point) → 0 < p.w → 0 < q.w → IsSamePlace p q
        → has_point g p → has_point g q };

    /// No two geometries are further apart than the greatest distance.
    ghost in_range: { (g h : Self) (f : ℕ × ℕ) → 0 < f.1
        → IsSquareOf f (has_point g) (has_point h)
        → f.0 ≤ (greatest_distance * greatest_distance) * f.1 };

    /// None of two geometries is beyond this distance of the other.
    ghost in_plane: { (g h : Self)
        → ¬ (¬ (AreWithin greatest_distance (has_point g) (has_point h))) };
}
