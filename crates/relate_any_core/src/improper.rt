//! Which geometries have rings that only the even-odd rule allows.

ghost use Rattle.std.specs.Prelude.{◌↔◌, IsTrue, IfOk};
ghost use Rattle.relate_any_core.specs.TextMatrices.{IsImproper};

use plane_core::Geometry;
use ring_core::has_proper_rings;
use std::alloc::{AllocError, Global};
use wkt_any_core::Rings;

/// Which of two geometries have improper rings: rings read by the even-odd rule that cross or run
/// along each other or themselves, as a flat ring does.
#[derive(Clone, Copy, PartialEq, Eq)]
pub struct Improper {
    pub first: bool,
    pub second: bool,
}

/// Whether the geometry, which was read by this rule, has improper rings.
pub(crate) fn is_improper(
    alloc: Global,
    rings: Rings,
    geometry: &Geometry,
) -> Result<bool, AllocError>
    ensures { IfOk result (λ found. IsTrue found ↔ IsImproper rings geometry.now) }
{
    match rings {
        Rings::Proper => Ok(false),
        Rings::EvenOdd => {
            let is_proper = has_proper_rings(alloc, geometry)?;
            Ok(!is_proper)
        }
    }
}
