//! What was read of a text that is well formed, and the geometry that it forms.

ghost use Rattle.std.specs.Prelude.{◌≡◌, ◌↔◌, IfOk, IfErr, IsTrue};
ghost use Rattle.plane_core.specs.ProperRings.{TakesRings};
ghost use Rattle.wkt_any_core.specs.declared.fault.GeometryFault.TheVariants.{Rings as RingFault};

use crate::fault::GeometryFault;
use crate::figure::geometry_of;
use crate::paths::Paths;
use plane_core::{Geometry, Rings};
use ring_core::has_proper_rings;
use std::alloc::{AllocError, Global};
use wkt_core::Keyword;

/// Whether the rings of a geometry are proper, if they have to be.
fn takes_rings(alloc: Global, geometry: &Geometry, rings: Rings) -> Result<bool, AllocError>
    ensures { IfOk result (λ is_taken. IsTrue is_taken ↔ TakesRings rings geometry.now) }
{
    match rings {
        Rings::Proper => has_proper_rings(alloc, geometry),
        Rings::EvenOdd => Ok(true),
    }
}

/// The geometry, if the rule allows its rings, or else their fault.
fn answer(
    alloc: Global,
    rings: Rings,
    geometry: Geometry,
) -> Result<Result<Geometry, GeometryFault>, AllocError>
    ensures ok { IfOk result (λ answer. IfOk answer (λ g. (g ≡ geometry) × TakesRings rings g)) }
    ensures err { IfOk result (λ answer. IfErr answer (λ fault. (fault ≡ RingFault)
        × ¬ (TakesRings rings geometry))) }
{
    let is_taken = takes_rings(alloc, &geometry, rings)?;
    if is_taken {
        Ok(Ok(geometry))
    } else {
        Ok(Err(GeometryFault::Rings))
    }
}

/// The keyword of a text, and the paths through its points.
#[derive(Drop)]
pub struct RawGeometry {
    pub keyword: Keyword,
    pub paths: Paths,
}

impl RawGeometry {
    ghost use Rattle.std.specs.Prelude.{List, Option, IfOk};
    ghost use Rattle.wkt_core.specs.declared.position.Position.{Position};
    ghost use Rattle.wkt_any_core.specs.Held.{AreAt, IsWhole};
    ghost use Rattle.wkt_any_core.specs.Readings.{ReadsAs};

    /// The geometry that the paths form, or its fault: that of a number, of its form or of its
    /// rings.
    ///
    /// # Errors
    /// If an allocation fails.
    pub fn geometry(
        self,
        alloc: Global,
        rings: Rings,
    ) -> Result<Result<Geometry, GeometryFault>, AllocError>
        requires { IsWhole rings self.keyword self.paths }
        ensures { IfOk result (λ answer. (places : Option (List (List Position)))
            → AreAt rings self.keyword self.paths places
            → ReadsAs rings self.keyword places answer) }
    {
        if !self.paths.are_good {
            return Ok(Err(GeometryFault::Number));
        }
        match geometry_of(self.keyword, self.paths, rings) {
            Some(geometry) => answer(alloc, rings, geometry),
            None => Ok(Err(GeometryFault::Form)),
        }
    }
}
