//! The laws of the distance of geometries: by their edges and single points, by its square, and how
//! great it can be.

ghost use Rattle.std.specs.Prelude.{ℕ, ◌≤◌, ◌*◌, ◌↔◌};
ghost use Rattle.plane_core.specs.Figures.{Figure, IsGeometry};
ghost use Rattle.distance_core.specs.Limits.{greatest_distance};
ghost use Rattle.distance_core.specs.Distances.{AreWithin};
ghost use Rattle.distance_core.specs.ShapePoints.{IsPointOf};
ghost use Rattle.distance_core.specs.declared.fraction.SquaredFraction.{SquaredFraction};
ghost use Rattle.distance_core.specs.Fractions.{IsSquareOf, numerator_of};
ghost use Rattle.geometry_distance_core.specs.Skeletons.{IsOnSkeleton, AreApart};

/// Closed geometries that share no point are as far apart as their edges and single points.
pub fn skeleton_law()
    // for two geometries of any kind that share no point, the least squared distance of their edges
    // and single points is that of the geometries
    ensures { (g h : Figure) (square : SquaredFraction) → IsGeometry g → IsGeometry h
        → AreApart g h → IsSquareOf square (IsOnSkeleton g) (IsOnSkeleton h)
        → IsSquareOf square (IsPointOf g) (IsPointOf h) }
{}

/// Closed geometries are at most a distance apart exactly where their squared distance is at most
/// the square of that distance.
pub fn within_law()
    // a fraction that is the least squared distance of two geometries is at most the square of a
    // distance exactly where the geometries are at most this distance apart
    ensures { (g h : Figure) (square : SquaredFraction) (units : ℕ)
        → IsSquareOf square (IsPointOf g) (IsPointOf h)
        → (numerator_of square ≤ (units * units) * square.denominator)
        ↔ AreWithin units (IsPointOf g) (IsPointOf h) }
{}

/// No two closed geometries are further apart than the greatest distance.
pub fn greatest_law()
    ensures { (g h : Figure) → IsGeometry g → IsGeometry h
        → AreWithin greatest_distance (IsPointOf g) (IsPointOf h) }
{}
