//! Geometries with improper rings, of which a run lists the rows.

ghost use Rattle.std.specs.Prelude.{◌≡◌, ◌↔◌, IfOk, IsTrue};
ghost use Rattle.run_core.specs.ImproperRings.{IsImproper, takes_improper};

use crate::marks::Marks;
use any_geometry_core::AnyGeometry;
use plane_core::{Geometry, Rings};
use ring_core::has_proper_rings;
use std::alloc::{AllocError, Global};

/// The property of a geometry that the rule by which it was read takes, and the rule for proper
/// rings refuses: its rings cross or run along each other or themselves, as a flat ring does.
#[derive(Clone, Copy)]
pub struct ImproperRings {
    /// The rule by which geometries were read.
    pub rings: Rings,
}

impl Marks<AnyGeometry> for ImproperRings {
    ghost use Rattle.any_geometry_core.specs.AnyGeometries.{figure_of};
    ghost use Rattle.run_core.specs.ImproperRings.{IsImproper};

    ghost is_marked = { λ improper g. IsImproper improper.rings (figure_of g) };

    fn marks_any(&self) -> bool {
        may_be_improper(self.rings)
    }

    fn marks(&self, alloc: Global, geometry: &AnyGeometry) -> Result<bool, AllocError> {
        is_improper(alloc, self.rings, geometry.geometry())
    }
}

/// Whether a rule takes improper rings.
pub fn may_be_improper(rings: Rings) -> bool
    ensures { result ≡ takes_improper rings }
{
    match rings {
        Rings::Proper => false,
        Rings::EvenOdd => true,
    }
}

/// Whether a geometry that was read by this rule has improper rings.
///
/// # Errors
/// If an allocation fails.
pub fn is_improper(alloc: Global, rings: Rings, geometry: &Geometry) -> Result<bool, AllocError>
    ensures { IfOk result (λ found. IsTrue found ↔ IsImproper rings geometry.now) }
{
    match rings {
        Rings::Proper => Ok(false),
        Rings::EvenOdd => {
            let is_proper = has_proper_rings(alloc, geometry)?;
            Ok(!is_proper)
        }
    }
}
