//! The laws of geometries that touch.

ghost use Rattle.std.specs.Prelude.{◌≡◌, ◌↔◌, ℕ};
ghost use Rattle.geom_core.specs.declared.shape.Shape.{Shape};
ghost use Rattle.geom_core.specs.Cells.{Meets};
ghost use Rattle.plane_core.specs.Figures.{Figure};
ghost use Rattle.distance_core.specs.Distances.{IsSquaredDistance};
ghost use Rattle.distance_core.specs.ShapePoints.{HasPoint, IsPointOf};
ghost use Rattle.distance_core.specs.declared.fraction.SquaredFraction.{SquaredFraction};
ghost use Rattle.distance_core.specs.Fractions.{IsSquareOf, numerator_of};
ghost use Rattle.planar_core.specs.Squares.{AreApart};

/// Closed geometries share a point exactly where the square of their distance is 0.
pub fn touching_law()
    // two boxes share a cell exactly where the square of their distance is 0
    ensures cells { (a b : Shape) (n : ℕ) → IsSquaredDistance n (HasPoint a) (HasPoint b)
        → (n ≡ 0) ↔ Meets a b }
    // and share no point exactly where it isn't
    ensures boxes { (a b : Shape) (n : ℕ) → IsSquaredDistance n (HasPoint a) (HasPoint b)
        → ¬ (n ≡ 0) ↔ AreApart (HasPoint a) (HasPoint b) }
    // two geometries share no point exactly where the square of their distance isn't 0
    ensures geometries { (g h : Figure) (square : SquaredFraction)
        → IsSquareOf square (IsPointOf g) (IsPointOf h)
        → ¬ (numerator_of square ≡ 0) ↔ AreApart (IsPointOf g) (IsPointOf h) }
{}
