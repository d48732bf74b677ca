//! Reading the text of a geometry in either form.

ghost use Rattle.std.specs.Prelude.{◌≡◌, List, Option, Result, IfOk, IfSome, IfNone};
ghost use Rattle.plane_core.specs.Figures.{Figure};
ghost use Rattle.wkt_core.specs.declared.keyword.Keyword.{Keyword};
ghost use Rattle.wkt_core.specs.declared.position.Position.{Position};
ghost use Rattle.wkt_core.specs.TokenSteps.{skip};
ghost use Rattle.wkt_any_core.specs.declared.fault.GeometryFault.{GeometryFault};
ghost use Rattle.wkt_any_core.specs.Readings.{ReadsBy};
ghost use Rattle.geometry_text_core.specs.Binary.{IsBinary};
ghost use Rattle.geometry_text_core.specs.Held.{IsRawBinary, IsRawBytes, begins_with_zero};
ghost use Rattle.geometry_text_core.specs.Positions.{TakesPosition};
ghost use Rattle.geometry_text_core.specs.Texts.{Reads, SaysBytes, SaysWords};

use crate::head::read_head;
use crate::hexadecimal::decode;
use crate::parts::{close, read_lists};
use crate::srid::skip_srid;
use plane_core::{Geometry, Rings};
use std::alloc::{AllocError, Global};
use wkt_any_core::{GeometryFault, Paths, RawGeometry};
use wkt_core::{Scale, skip_blanks};

/// The kind of the geometry of these bytes and the paths of its lists, if they are those of one.
fn read_binary(
    alloc: Global,
    bytes: &[u8],
    scale: Scale,
    rings: Rings,
) -> Result<Option<RawGeometry>, AllocError>
    ensures some { IfOk result (λ read. IfSome read (IsRawBinary scale rings bytes.now)) }
    ensures none { IfOk result (λ read. IfNone read ((keyword : Keyword)
        (lists : List (List (Option Position)))
        → IsBinary (TakesPosition scale) bytes.now keyword lists → ⊥)) }
{
    let Some((order, heading, body)) = read_head(bytes) else {
        return Ok(None);
    };
    let keyword = heading.keyword;
    let mut paths = Paths::new(alloc, keyword, rings);
    let Some(rest) = read_lists(order, heading.is_multi, keyword, body, scale, &mut paths)? else {
        return Ok(None);
    };
    match rest {
        [] => {
            close(keyword, &mut paths)?;
            Ok(Some(RawGeometry { keyword, paths }))
        }
        _ => Ok(None),
    }
}

/// The kind of the geometry of a text of hexadecimal digits and the paths of its lists, if it is
/// such a text.
fn read_raw(
    alloc: Global,
    text: &[u8],
    scale: Scale,
    rings: Rings,
) -> Result<Option<RawGeometry>, AllocError>
    ensures some { IfOk result (λ read. IfSome read (IsRawBytes scale rings text.now)) }
    ensures none { IfOk result (λ read. IfNone read ((keyword : Keyword)
        (places : Option (List (List Position))) → SaysBytes scale text.now keyword places → ⊥)) }
{
    let Some(bytes) = decode(alloc, text)? else {
        return Ok(None);
    };
    read_binary(alloc, &bytes, scale, rings)
}

/// The geometry that a text of hexadecimal digits spells.
fn read_bytes(
    alloc: Global,
    text: &[u8],
    scale: Scale,
    rings: Rings,
) -> Result<Result<Geometry, GeometryFault>, AllocError>
    ensures { IfOk result (λ answer. ReadsBy (SaysBytes scale text.now) rings answer) }
{
    let Some(raw) = read_raw(alloc, text, scale, rings)? else {
        return Ok(Err(GeometryFault::Text));
    };
    raw.geometry(alloc, rings)
}

/// Whether a text begins, after white space, as hexadecimal well-known binary does, whose first
/// byte is 0 or 1.
fn is_binary(text: &[u8]) -> bool
    ensures { result ≡ begins_with_zero (skip text.now) }
{
    let start = skip_blanks(text);
    matches!(start, [b'0', ..])
}

/// The geometry that a well-known text spells, to which an SRID may be prefixed.
fn read_words(
    alloc: Global,
    text: &[u8],
    scale: Scale,
    rings: Rings,
) -> Result<Result<Geometry, GeometryFault>, AllocError>
    ensures { IfOk result (λ answer. ReadsBy (SaysWords scale text.now) rings answer) }
{
    match skip_srid(text) {
        Some(rest) => wkt_any_core::read(alloc, rest, scale, rings),
        None => wkt_any_core::read(alloc, text, scale, rings),
    }
}

/// The geometry that the text spells.
///
/// A text is well-known text, as `wkt_any_core::read` reads it, or hexadecimal digits in either
/// case of well-known binary (OGC 06-103r4, 8), with white space of `wkt_core` around it. `SRID=`,
/// digits and a semicolon may stand before a text (EWKT), and an SRID of 4 bytes after the code of
/// a geometry's kind that has the flag 0x20000000 (EWKB); both are read over. Codes are 1 to 6;
/// each part of many geometries has a byte order and a code of its own, which is that of its kind.
///
/// A double is the number of its shortest decimal (`double_core`).
///
/// # Errors
/// - [`GeometryFault::Text`] if the text is of neither form. Binary has no Z and no M, each of its
///   counts is at least 1, none of its coordinates is a NaN, and no byte is left.
/// - [`GeometryFault::Number`] if some number isn't whole at the scale and isn't rounded, or is
///   beyond the limit of the scale, once rounded, or infinite.
/// - [`GeometryFault::Form`] and [`GeometryFault::Rings`] as of `wkt_any_core::read`.
///
/// The outer error means that memory ran out, or that there are 2^32 vertices or more.
pub fn read(
    alloc: Global,
    text: &[u8],
    scale: Scale,
    rings: Rings,
) -> Result<Result<Geometry, GeometryFault>, AllocError>
    // the answer is what the text reads as, well-known text, with or without an SRID before it, or
    // hexadecimal digits of well-known binary: the geometry at the scale, with rings that the rule
    // allows, or the first of four faults
    ensures reads { IfOk result (λ answer. Reads scale rings text.now answer) }
    // nothing else is
    ensures only { IfOk result (λ answer. (other : Result Figure GeometryFault)
        → Reads scale rings text.now other → answer ≡ other) }
{
    if is_binary(text) {
        read_bytes(alloc, text, scale, rings)
    } else {
        read_words(alloc, text, scale, rings)
    }
}
