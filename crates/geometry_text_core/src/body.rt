//! The lists of points of a single geometry.

ghost use Rattle.std.specs.Prelude.{◌≡◌, ◌<◌, [], ◌∷◌, ℕ, List, Option, IfOk, IfSome, IfNone};
ghost use Rattle.wkt_core.specs.declared.position.Position.{Position};
ghost use Rattle.geometry_text_core.specs.Held.{AddsPaths, AddsLists};
ghost use Rattle.geometry_text_core.specs.Binary.{TakesNumber, TakesCounted, TakesBody};
ghost use Rattle.geometry_text_core.specs.Positions.{TakesPosition};

use crate::order::Order;
use crate::point::read_point;
use std::alloc::AllocError;
use wkt_any_core::Paths;
use wkt_core::{Keyword, Scale};

/// The number of items at the start of bytes, at least one, and the bytes after it.
pub(crate) fn read_count(order: Order, bytes: &[u8]) -> Option<(u32, &[u8])>
    ensures some { IfSome result (λ r. (0 < r.0) × TakesNumber order bytes.now r.0 r.1.now) }
    ensures none { IfNone result ((n : ℕ) (rest : List ℕ) → 0 < n
        → TakesNumber order bytes.now n rest → ⊥) }
{
    let (count, rest) = order.read_number(bytes)?;
    if count > 0 { Some((count, rest)) } else { None }
}

/// Reads the path of points at the start of bytes, and returns the bytes after it.
fn read_points<'a>(
    order: Order,
    bytes: &'a [u8],
    scale: Scale,
    paths: &mut Paths,
) -> Result<Option<&'a [u8]>, AllocError>
    ensures some { IfOk result (λ read. IfSome read (λ rest. (ps : List (Option Position))
        × TakesCounted order (TakesPosition scale order) bytes.now ps rest.now
        × AddsPaths paths.old (ps ∷ []) paths.new)) }
    ensures none { IfOk result (λ read. IfNone read ((ps : List (Option Position))
        (rest : List ℕ)
        → TakesCounted order (TakesPosition scale order) bytes.now ps rest → ⊥)) }
{
    let Some((count, mut rest)) = read_count(order, bytes) else {
        return Ok(None);
    };
    for _ in 0..count {
        let Some(behind) = read_point(order, rest, scale, paths)? else {
            return Ok(None);
        };
        rest = behind;
    }
    paths.end_path()?;
    Ok(Some(rest))
}

/// Reads the rings at the start of bytes, each as a path, and returns the bytes after them.
fn read_rings<'a>(
    order: Order,
    bytes: &'a [u8],
    scale: Scale,
    paths: &mut Paths,
) -> Result<Option<&'a [u8]>, AllocError>
    ensures some { IfOk result (λ read. IfSome read (λ rest. (lists : List (List (Option Position)))
        × TakesCounted order (TakesCounted order (TakesPosition scale order)) bytes.now lists
        rest.now
        × AddsPaths paths.old lists paths.new)) }
    ensures none { IfOk result (λ read. IfNone read ((lists : List (List (Option Position)))
        (rest : List ℕ)
        → TakesCounted order (TakesCounted order (TakesPosition scale order)) bytes.now lists rest
        → ⊥)) }
{
    let Some((count, mut rest)) = read_count(order, bytes) else {
        return Ok(None);
    };
    for _ in 0..count {
        let Some(behind) = read_points(order, rest, scale, paths)? else {
            return Ok(None);
        };
        rest = behind;
    }
    Ok(Some(rest))
}

/// Reads the lists of a single geometry at the start of bytes, and returns the bytes after them. A
/// point is added to the path that is being read, which is left open.
pub(crate) fn read_body<'a>(
    order: Order,
    keyword: Keyword,
    bytes: &'a [u8],
    scale: Scale,
    paths: &mut Paths,
) -> Result<Option<&'a [u8]>, AllocError>
    ensures some { IfOk result (λ read. IfSome read (λ rest. (lists : List (List (Option Position)))
        × TakesBody (TakesPosition scale) order keyword bytes.now lists rest.now
        × AddsLists keyword paths.old lists paths.new)) }
    ensures none { IfOk result (λ read. IfNone read ((lists : List (List (Option Position)))
        (rest : List ℕ)
        → TakesBody (TakesPosition scale) order keyword bytes.now lists rest → ⊥)) }
{
    match keyword {
        Keyword::Point => read_point(order, bytes, scale, paths),
        Keyword::LineString => read_points(order, bytes, scale, paths),
        Keyword::Polygon => read_rings(order, bytes, scale, paths),
    }
}
