//! The lists of points of many geometries, and of a whole one.

ghost use Rattle.std.specs.Prelude.{◌≡◌, ℕ, List, Option, IfOk, IfSome, IfNone, OnOk};
ghost use Rattle.wkt_core.specs.declared.position.Position.{Position};
ghost use Rattle.wkt_any_core.specs.declared.paths.Paths.{Paths};
ghost use Rattle.geometry_text_core.specs.Held.{AddsPaths, AddsLists, is_one};
ghost use Rattle.geometry_text_core.specs.Binary.{TakesPart, TakesParts, TakesLists};
ghost use Rattle.geometry_text_core.specs.Binary.{code_of, gathered};
ghost use Rattle.geometry_text_core.specs.Positions.{TakesPosition};

use crate::body::{read_body, read_count};
use crate::head::read_head;
use crate::order::Order;
use std::alloc::AllocError;
use wkt_any_core::{Heading, Paths};
use wkt_core::{Keyword, Scale};

/// The code of a single geometry.
fn code_of(keyword: Keyword) -> u32
    ensures { result ≡ code_of keyword }
{
    match keyword {
        Keyword::Point => 1,
        Keyword::LineString => 2,
        Keyword::Polygon => 3,
    }
}

/// Whether a kind is that of a single geometry with this keyword.
fn is_one(heading: Heading, keyword: Keyword) -> bool
    ensures { result ≡ is_one heading keyword }
{
    !heading.is_multi && code_of(heading.keyword) == code_of(keyword)
}

/// Reads the part of many geometries at the start of bytes, and returns the bytes after it.
fn read_part<'a>(
    keyword: Keyword,
    bytes: &'a [u8],
    scale: Scale,
    paths: &mut Paths,
) -> Result<Option<&'a [u8]>, AllocError>
    ensures some { IfOk result (λ read. IfSome read (λ rest. (lists : List (List (Option Position)))
        × TakesPart (TakesPosition scale) keyword bytes.now lists rest.now
        × AddsLists keyword paths.old lists paths.new)) }
    ensures none { IfOk result (λ read. IfNone read ((lists : List (List (Option Position)))
        (rest : List ℕ) → TakesPart (TakesPosition scale) keyword bytes.now lists rest → ⊥)) }
{
    let Some((order, heading, rest)) = read_head(bytes) else {
        return Ok(None);
    };
    let fits = is_one(heading, keyword);
    if fits {
        read_body(order, keyword, rest, scale, paths)
    } else {
        Ok(None)
    }
}

/// Reads the parts of many geometries at the start of bytes, and returns the bytes after them.
fn read_parts<'a>(
    order: Order,
    keyword: Keyword,
    bytes: &'a [u8],
    scale: Scale,
    paths: &mut Paths,
) -> Result<Option<&'a [u8]>, AllocError>
    ensures some { IfOk result (λ read. IfSome read (λ rest. (lists : List (List (Option Position)))
        × TakesParts (TakesPosition scale) order keyword bytes.now lists rest.now
        × AddsLists keyword paths.old lists paths.new)) }
    ensures none { IfOk result (λ read. IfNone read ((lists : List (List (Option Position)))
        (rest : List ℕ)
        → TakesParts (TakesPosition scale) order keyword bytes.now lists rest → ⊥)) }
{
    let Some((count, mut rest)) = read_count(order, bytes) else {
        return Ok(None);
    };
    for _ in 0..count {
        let Some(behind) = read_part(keyword, rest, scale, paths)? else {
            return Ok(None);
        };
        rest = behind;
    }
    Ok(Some(rest))
}

/// Reads the lists of a geometry at the start of bytes, one or many, and returns the bytes after
/// them.
pub(crate) fn read_lists<'a>(
    order: Order,
    is_multi: bool,
    keyword: Keyword,
    bytes: &'a [u8],
    scale: Scale,
    paths: &mut Paths,
) -> Result<Option<&'a [u8]>, AllocError>
    ensures some { IfOk result (λ read. IfSome read (λ rest. (lists : List (List (Option Position)))
        × TakesLists (TakesPosition scale) order is_multi keyword bytes.now lists rest.now
        × AddsLists keyword paths.old lists paths.new)) }
    ensures none { IfOk result (λ read. IfNone read ((lists : List (List (Option Position)))
        (rest : List ℕ)
        → TakesLists (TakesPosition scale) order is_multi keyword bytes.now lists rest → ⊥)) }
{
    if is_multi {
        read_parts(order, keyword, bytes, scale, paths)
    } else {
        read_body(order, keyword, bytes, scale, paths)
    }
}

/// Ends the path of the points, which are one list.
pub(crate) fn close(keyword: Keyword, paths: &mut Paths) -> Result<(), AllocError>
    ensures { OnOk result ((start : Paths) (lists : List (List (Option Position)))
        → AddsLists keyword start lists paths.old
        → AddsPaths start (gathered keyword lists) paths.new) }
{
    match keyword {
        Keyword::Point => paths.end_path(),
        _ => Ok(()),
    }
}
