//! Reading a text.

ghost use Rattle.std.specs.Prelude.{◌≡◌, List, ℕ, Option, IfOk, IfSome, IfNone, Result};
ghost use Rattle.plane_core.specs.Figures.{Figure};
ghost use Rattle.wkt_core.specs.declared.keyword.Keyword.{Keyword};
ghost use Rattle.wkt_core.specs.declared.position.Position.{Position};
ghost use Rattle.wkt_any_core.specs.declared.fault.GeometryFault.{GeometryFault};
ghost use Rattle.wkt_any_core.specs.Held.{IsRawText};
ghost use Rattle.wkt_any_core.specs.Readings.{Reads};
ghost use Rattle.wkt_any_core.specs.Spelling.{SaysText};

use crate::body::read_body;
use crate::fault::GeometryFault;
use crate::heading::Heading;
use crate::paths::Paths;
use crate::raw::RawGeometry;
use plane_core::{Geometry, Rings};
use std::alloc::{AllocError, Global};
use wkt_core::{Scale, skip_blanks};

/// The keyword of the text and the paths of its lists, if the text is in the grammar.
fn read_raw(
    alloc: Global,
    text: &[u8],
    scale: Scale,
    rings: Rings,
) -> Result<Option<RawGeometry>, AllocError>
    ensures some { IfOk result (λ read. IfSome read (IsRawText scale rings text.now)) }
    ensures none { IfOk result (λ read. IfNone read ((keyword : Keyword)
        (places : Option (List (List Position))) → SaysText scale text.now keyword places → ⊥)) }
{
    let start = skip_blanks(text);
    let Some((heading, rest)) = Heading::read(start) else {
        return Ok(None);
    };
    let mut paths = Paths::new(alloc, heading.keyword, rings);
    let body = skip_blanks(rest);
    let Some(rest) = read_body(heading, body, scale, &mut paths)? else {
        return Ok(None);
    };
    let end = skip_blanks(rest);
    match end {
        [] => Ok(Some(RawGeometry {
            keyword: heading.keyword,
            paths,
        })),
        _ => Ok(None),
    }
}

/// The geometry that the text spells.
///
/// A text is `POINT (x y)`, `LINESTRING (x y, ..)`, `POLYGON ((x y, ..), ..)`, or `MULTIPOINT`,
/// `MULTILINESTRING` or `MULTIPOLYGON` with many of these in parentheses (OGC 06-103r4, 7.2), with
/// the keyword in any ASCII case. White space and numbers are those of `wkt_core`. A point of a
/// `MULTIPOINT` may be in parentheses.
///
/// A point equal to the one before it is ignored.
///
/// # Errors
/// - [`GeometryFault::Text`] if the bytes aren't a text of this grammar.
/// - [`GeometryFault::Number`] if some number has a digit other than 0 after the decimals of the
///   scale and isn't rounded, or is beyond the limit of the scale, once rounded.
/// - [`GeometryFault::Form`] if a polyline doesn't have two distinct vertices, or a ring's last
///   point isn't its first, or its points lie on one line. With [`Rings::EvenOdd`] a ring may lie
///   on one line; a ring whose points are all equal is ignored, and some other ring must remain.
/// - [`GeometryFault::Rings`] if two edges of rings share more than one point, or one that is an
///   end of neither. With [`Rings::EvenOdd`] this fault doesn't occur.
///
/// The outer error means that memory ran out, or that there are 2^32 vertices or more.
pub fn read(
    alloc: Global,
    text: &[u8],
    scale: Scale,
    rings: Rings,
) -> Result<Result<Geometry, GeometryFault>, AllocError>
    // the answer is what the text reads as, the geometry that it spells at the scale, with rings
    // that the rule allows, or the first of four faults, the last of which is that rings have to be
    // proper and aren't
    ensures reads { IfOk result (λ answer. Reads scale rings text.now answer) }
    // nothing else is
    ensures only { IfOk result (λ answer. (other : Result Figure GeometryFault)
        → Reads scale rings text.now other → answer ≡ other) }
{
    let Some(raw) = read_raw(alloc, text, scale, rings)? else {
        return Ok(Err(GeometryFault::Text));
    };
    raw.geometry(alloc, rings)
}
