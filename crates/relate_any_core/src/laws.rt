//! The law of texts that both formats read.

ghost use Rattle.std.specs.Prelude.{List, ℕ};
ghost use Rattle.geom_core.specs.declared.shape.Shape.{Shape};
ghost use Rattle.relation_core.specs.declared.matrix.Matrix.{Matrix};
ghost use Rattle.relation_core.specs.Matrices.{IsMatrix};
ghost use Rattle.plane_core.specs.Figures.{Figure};
ghost use Rattle.plane_core.specs.PlaneMatrices.{IsPlaneMatrix};
ghost use Rattle.plane_core.specs.declared.rings.Rings.{Rings};
ghost use Rattle.number_core.specs.declared.scale.Scale.{Scale};
ghost use Rattle.agreement_core.specs.Agreement.{HasPartsOf};
ghost use Rattle.relate_any_core.specs.BothFormats.{ReadsBoth};

/// A text that spells a shape by `wkt_core` and a geometry by `wkt_any_core` has the same interior,
/// boundary and exterior as both, and two such texts have one matrix: that of the shapes by cells
/// of the grid is that of the geometries by points of the plane.
pub fn texts_law()
    // a text that is read as a box and as any geometry has the same interior, boundary and exterior
    // as both
    ensures same_parts { (scale : Scale) (rings : Rings) (text : List ℕ) (s : Shape) (g : Figure)
        → ReadsBoth scale rings text s g → HasPartsOf s g }
    // two such texts have one matrix: that of the boxes by cells is that of the geometries by
    // points of the plane
    ensures one_matrix { (scale : Scale) (rings : Rings) (t u : List ℕ) (a b : Shape)
        (g h : Figure) (m : Matrix) → ReadsBoth scale rings t a g → ReadsBoth scale rings u b h
        → IsMatrix a b m → IsPlaneMatrix g h m }
{}
