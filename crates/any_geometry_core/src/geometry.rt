//! A geometry as layers of any geometry hold it.

ghost use Rattle.std.specs.Prelude.{All};
ghost use Rattle.plane_core.specs.ProperRings.{IsGeometryOf};
ghost use Rattle.plane_core.specs.Vertices.{vertices_of, HoldsVertex};
ghost use Rattle.any_geometry_core.specs.Envelopes.{IsLeastBox};

use geom_core::Shape;
use plane_core::{Geometry, Rings};

/// A geometry with its envelope, and with rings as a rule allows them.
#[derive(Drop)]
pub struct AnyGeometry {
    geometry: Geometry,
    bounds: Shape,
    rings: Rings,
    ghost is_geometry: { ∥ IsGeometryOf rings geometry ∥₁ },
    ghost holds: { ∥ All (HoldsVertex bounds) (vertices_of geometry) ∥₁ },
    ghost least: { ∥ IsLeastBox geometry bounds ∥₁ },
}

impl AnyGeometry {
    ghost use Rattle.std.specs.Prelude.{◌≡◌};
    ghost use Rattle.plane_core.specs.ProperRings.{TakesRings};
    ghost use Rattle.any_geometry_core.specs.AnyGeometries.{figure_of, rings_of, box_of};

    /// The geometry with its envelope, if the rule allows its rings.
    pub fn new(geometry: Geometry, rings: Rings) -> AnyGeometry
        requires { TakesRings rings geometry }
        // it has this geometry
        ensures figure { figure_of result ≡ geometry }
        // this rule for its rings
        ensures rings { rings_of result ≡ rings }
        // its box is the least that holds all vertices
        ensures bounds { IsLeastBox geometry (box_of result) }
    {
        let bounds = geometry.bounds();
        AnyGeometry {
            geometry,
            bounds,
            rings,
        }
    }

    /// The geometry itself.
    pub fn geometry(&self) -> &Geometry
        ensures { result.now ≡ figure_of self.now }
    {
        &self.geometry
    }

    /// The rule by which the rings are allowed.
    pub fn rings(&self) -> Rings
        ensures { result ≡ rings_of self.now }
    {
        self.rings
    }
}

impl layer_core::Geometry for AnyGeometry {
    ghost use Rattle.geom_core.specs.declared.shape.Shape.{Shape};
    ghost use Rattle.plane_core.specs.Figures as figures;
    ghost use Rattle.any_geometry_core.specs.AnyGeometries as any_geometries;

    ghost box_of = { any_geometries.box_of };

    ghost dim_of = { λ g. figures.dim_of (any_geometries.figure_of g) };

    fn bounds(&self) -> Shape {
        self.bounds
    }

    fn dim(&self) -> u8 {
        self.geometry.dim()
    }
}
