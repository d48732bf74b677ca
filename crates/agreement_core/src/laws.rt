//! The law of agreement.

ghost use Rattle.geom_core.specs.declared.shape.Shape.{Shape};
ghost use Rattle.relation_core.specs.declared.matrix.Matrix.{Matrix};
ghost use Rattle.relation_core.specs.Matrices.{IsMatrix};
ghost use Rattle.plane_core.specs.Figures.{Figure};
ghost use Rattle.plane_core.specs.PlaneMatrices.{IsPlaneMatrix};
ghost use Rattle.agreement_core.specs.BoxFigures.{IsBoxFigure};

/// The matrix of two shapes by cells of the grid equals the matrix of their geometries by points of
/// the plane, with any number of vertices along a segment or the sides of a rectangle, wherever a
/// ring begins and in whichever direction a path goes. So two boxes can be related by comparing the
/// ends of their intervals.
#[tactic(auto, using(crate::proofs::StraightLemmas::agreement_of_boxes))]
pub fn agreement_law()
    // the matrix of two points, axis-parallel segments or rectangles by cells is the matrix of
    // their geometries by points of the plane: of polylines along a segment from either end, and of
    // rings around a rectangle from any vertex and in either direction, with any number of vertices
    // along them
    ensures { (a b : Shape) (g h : Figure) (m : Matrix) → IsBoxFigure a g → IsBoxFigure b h
        → IsMatrix a b m → IsPlaneMatrix g h m }
{}
