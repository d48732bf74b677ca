//! The laws of the filter, of boxes and of sets of points.

ghost use Rattle.std.specs.Prelude.{◌↔◌, All};
ghost use Rattle.geom_core.specs.declared.shape.Shape.{Shape};
ghost use Rattle.geom_core.specs.Cells.{IsIn, Meets};
ghost use Rattle.geom_core.specs.Sets.{AreSameSet};
ghost use Rattle.relation_core.specs.declared.matrix.Matrix.{Matrix};
ghost use Rattle.relation_core.specs.declared.relation.Relation.{Relation};
ghost use Rattle.relation_core.specs.declared.relation.Relation.TheVariants as relations;
ghost use Rattle.plane_core.specs.declared.rings.Rings.{Rings};
ghost use Rattle.plane_core.specs.Figures.{Figure, IsGeometry};
ghost use Rattle.plane_core.specs.PlaneMatrices.{IsPlaneMatrix};
ghost use Rattle.plane_core.specs.ProperRings.{IsGeometryOf};
ghost use Rattle.plane_core.specs.Vertices.{vertices_of, HoldsVertex};
ghost use Rattle.any_relation_core.specs.EnvelopeRules.{AllowsBoxes, IsEnvelope};
ghost use Rattle.any_relation_core.specs.PlaneRelations.{ForbidsDisjoint, HoldsOf};
ghost use Rattle.any_relation_core.specs.PlaneSets.{HoldsOfSets};

/// Law of the filter: the boxes of two geometries that stand in a relation meet, if no two disjoint
/// geometries stand in it. So a search by boxes finds each pair of a join.
pub fn filter_law()
    // the boxes of two geometries that stand in a relation meet, if no two geometries without a
    // common point stand in it
    ensures { (rings : Rings) (relation : Relation) (g h : Figure) (s t : Shape)
        → ForbidsDisjoint rings relation → IsGeometryOf rings g → IsGeometryOf rings h
        → All (HoldsVertex s) (vertices_of g) → All (HoldsVertex t) (vertices_of h)
        → HoldsOf relation g h → Meets s t }
{}

/// Law of boxes: the envelopes of two geometries that stand in a relation lie as its masks imply,
/// if no two disjoint geometries stand in it. So a pair whose envelopes lie otherwise needs no
/// matrix.
pub fn box_law()
    // the envelopes of two geometries that stand in a relation lie so, if no two geometries without
    // a common point stand in it
    ensures { (rings : Rings) (relation : Relation) (g h : Figure) (s t : Shape)
        → ForbidsDisjoint rings relation → IsGeometryOf rings g → IsGeometryOf rings h
        → IsEnvelope g s → IsEnvelope h t
        → HoldsOf relation g h → AllowsBoxes relation s t }
{}

/// Law of boxes by names: what the masks of the named relations imply of two boxes.
pub fn named_box_law()
    // what the masks of equals imply of two boxes is that they are the same set
    ensures equals { (s t : Shape) → AllowsBoxes relations.Equals s t ↔ AreSameSet s t }
    // that the first lies in the second
    ensures within { (s t : Shape) → AllowsBoxes relations.Within s t ↔ IsIn s t }
    ensures covered_by { (s t : Shape) → AllowsBoxes relations.CoveredBy s t ↔ IsIn s t }
    // of contains_properly, that the second lies in the first
    ensures contains { (s t : Shape) → AllowsBoxes relations.Contains s t ↔ IsIn t s }
    ensures covers { (s t : Shape) → AllowsBoxes relations.Covers s t ↔ IsIn t s }
    ensures properly { (s t : Shape) → AllowsBoxes relations.ContainsProperly s t ↔ IsIn t s }
{}

/// Law of sets: two geometries stand in a relation exactly where their points lie as its name says.
/// Masks, crosses and overlaps are defined by the matrix alone.
pub fn sets_law()
    // two geometries stand by their matrix in disjoint, intersects, touches, within, contains,
    // equals, covers, covered_by or contains_properly exactly where their points lie so. Touches
    // also means that no point is in both interiors; within, contains, equals and contains_properly
    // that some point is
    ensures { (relation : Relation) (g h : Figure) (m : Matrix)
        → IsGeometry g → IsGeometry h → IsPlaneMatrix g h m
        → HoldsOf relation g h ↔ HoldsOfSets relation g h }
{}
