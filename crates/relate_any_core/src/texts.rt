//! Relating two geometries that are given as texts.

ghost use Rattle.std.specs.Prelude.{◌≡◌, ◌↔◌, Err, IfOk};
ghost use Rattle.relate_any_core.specs.TextMatrices.{HasTextFault, IsRelated};

use crate::improper::{Improper, is_improper};
use arrangement_core::relate;
use geometry_text_core::read;
use relation_core::Matrix;
use std::alloc::{AllocError, Global};
use thiserror::Error;
use wkt_any_core::{GeometryFault, Rings};
use wkt_core::Scale;

/// The matrix of two geometries, and which of them have improper rings.
#[derive(Clone, Copy, PartialEq, Eq)]
pub struct Related {
    pub matrix: Matrix,
    pub improper: Improper,
}

/// The first of two texts that spells no geometry, and its fault.
#[derive(Clone, Copy, Debug, PartialEq, Eq, Error)]
pub enum TextFault {
    /// The first text spells none.
    #[error("first: {0}")]
    First(GeometryFault),
    /// The first text spells a geometry, and the second none.
    #[error("second: {0}")]
    Second(GeometryFault),
}

/// The nine-intersection matrix of the geometries that two texts spell (OGC 06-103r4, 6.1.15.2),
/// and which of them have improper rings, or the fault of the first text that spells none. `rings`
/// is the rule for the rings of areas.
///
/// # Errors
/// If an allocation fails.
pub fn relate_texts(
    alloc: Global,
    scale: Scale,
    rings: Rings,
    a: &[u8],
    b: &[u8],
) -> Result<Result<Related, TextFault>, AllocError>
    // the matrix, by points of the plane, of the geometries that the two texts spell at the scale,
    // with rings that the rule allows, and which of them have improper rings by the even-odd rule
    ensures related { IfOk result (λ answer.
        IfOk answer (IsRelated scale rings a.now b.now)) }
    // exactly the first text that spells none, with its fault
    ensures fault { IfOk result (λ answer. (f : TextFault) →
        (answer ≡ Err f) ↔ HasTextFault scale rings a.now b.now f) }
{
    let first_read = read(alloc, a, scale, rings)?;
    let first = match first_read {
        Ok(geometry) => geometry,
        Err(fault) => return Ok(Err(TextFault::First(fault))),
    };
    let second_read = read(alloc, b, scale, rings)?;
    let second = match second_read {
        Ok(geometry) => geometry,
        Err(fault) => return Ok(Err(TextFault::Second(fault))),
    };
    let matrix = relate(alloc, &first, &second)?;
    let improper = Improper {
        first: is_improper(alloc, rings, &first)?,
        second: is_improper(alloc, rings, &second)?,
    };
    Ok(Ok(Related { matrix, improper }))
}
