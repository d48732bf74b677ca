//! The laws that tie the points of a shape to its cells, and to the parts of geometries.

ghost use Rattle.std.specs.Prelude.{ℤ, ◌<◌, ◌↔◌};
ghost use Rattle.geom_core.specs.declared.shape.Shape.{Shape};
ghost use Rattle.geom_core.specs.Cells.{Covers};
ghost use Rattle.plane_core.specs.Points.{Point};
ghost use Rattle.plane_core.specs.Figures.{Figure};
ghost use Rattle.agreement_core.specs.Agreement.{HasPartsOf, IsInCell};
ghost use Rattle.distance_core.specs.ShapePoints.{HasPoint, IsPointOf};

/// A point of the plane is in a closed shape exactly where its cell of the grid is, and where it is
/// in the interior or on the boundary of the geometry that is this shape. So a distance of shapes
/// is that of the geometries.
pub fn points_law()
    // a point is in a closed shape exactly where its cell is
    ensures cells { (s : Shape) (p : Point) (u v : ℤ) → IsInCell p u v
        → HasPoint s p ↔ Covers s u v }
    // exactly where it is in the interior or on the boundary of a geometry that has the shape's
    // parts
    ensures figure { (s : Shape) (g : Figure) (p : Point) → HasPartsOf s g → 0 < p.w
        → HasPoint s p ↔ IsPointOf g p }
{}
