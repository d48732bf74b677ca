//! Points in parentheses: a single one, a list, a list of lists, and a list of these.

ghost use Rattle.std.specs.Prelude.{◌≡◌, [], ◌∷◌, List, ℕ, IfOk, IfSome, IfNone};
ghost use Rattle.wkt_core.specs.Grammar.{RawPoint};
ghost use Rattle.wkt_core.specs.ListSteps.{TakesPoint, TakesPoints, TakesLists};
ghost use Rattle.wkt_any_core.specs.Grammar.{joined};
ghost use Rattle.wkt_any_core.specs.Held.{AddsPoint, AddsPaths};
ghost use Rattle.wkt_any_core.specs.Steps.{TakesMember, TakesMembers, TakesPolygons};

use crate::paths::Paths;
use std::alloc::AllocError;
use wkt_core::{Next, Scale, read_next, read_point, skip_blanks, skip_symbol};

/// Reads the point at the start of a text, and returns the text after it.
fn read_bare_point<'a>(
    text: &'a [u8],
    scale: Scale,
    paths: &mut Paths,
) -> Result<Option<&'a [u8]>, AllocError>
    ensures some { IfOk result (λ read. IfSome read (λ rest. (p : RawPoint)
        × TakesPoint scale text.now p rest.now × AddsPoint scale paths.old p paths.new)) }
    ensures none { IfOk result (λ read. IfNone read
        ((p : RawPoint) (rest : List ℕ) → TakesPoint scale text.now p rest → ⊥)) }
{
    let Some((point, rest)) = read_point(text, scale) else {
        return Ok(None);
    };
    paths.push(&point)?;
    Ok(Some(rest))
}

/// Reads the single point in parentheses at the start of a text, and returns the text after it.
fn read_enclosed_point<'a>(
    text: &'a [u8],
    scale: Scale,
    paths: &mut Paths,
) -> Result<Option<&'a [u8]>, AllocError>
    ensures some { IfOk result (λ read. IfSome read (λ rest. (p : RawPoint)
        × TakesPoints scale text.now (p ∷ []) rest.now × AddsPoint scale paths.old p paths.new)) }
    ensures none { IfOk result (λ read. IfNone read
        ((p : RawPoint) (rest : List ℕ) → TakesPoints scale text.now (p ∷ []) rest → ⊥)) }
{
    let Some(rest) = skip_symbol(text, b'(') else {
        return Ok(None);
    };
    let Some((point, after)) = read_point(skip_blanks(rest), scale) else {
        return Ok(None);
    };
    let Some(behind) = skip_symbol(skip_blanks(after), b')') else {
        return Ok(None);
    };
    paths.push(&point)?;
    Ok(Some(behind))
}

/// Reads a path of one point in parentheses at the start of a text, and returns the text after it.
pub(crate) fn read_single<'a>(
    text: &'a [u8],
    scale: Scale,
    paths: &mut Paths,
) -> Result<Option<&'a [u8]>, AllocError>
    ensures some { IfOk result (λ read. IfSome read (λ rest. (p : RawPoint)
        × TakesPoints scale text.now (p ∷ []) rest.now
        × AddsPaths scale paths.old ((p ∷ []) ∷ []) paths.new)) }
    ensures none { IfOk result (λ read. IfNone read
        ((p : RawPoint) (rest : List ℕ) → TakesPoints scale text.now (p ∷ []) rest → ⊥)) }
{
    let Some(rest) = read_enclosed_point(text, scale, paths)? else {
        return Ok(None);
    };
    paths.end_path()?;
    Ok(Some(rest))
}

/// Reads a point, with or without parentheses, at the start of a text, and returns the text after
/// it.
fn read_member<'a>(
    text: &'a [u8],
    scale: Scale,
    paths: &mut Paths,
) -> Result<Option<&'a [u8]>, AllocError>
    ensures some { IfOk result (λ read. IfSome read (λ rest. (p : RawPoint)
        × TakesMember scale text.now p rest.now × AddsPoint scale paths.old p paths.new)) }
    ensures none { IfOk result (λ read. IfNone read
        ((p : RawPoint) (rest : List ℕ) → TakesMember scale text.now p rest → ⊥)) }
{
    match skip_symbol(text, b'(') {
        Some(_) => read_enclosed_point(text, scale, paths),
        None => read_bare_point(text, scale, paths),
    }
}

/// Reads the path of points at the start of a text, and returns the text after it.
pub(crate) fn read_points<'a>(
    text: &'a [u8],
    scale: Scale,
    paths: &mut Paths,
) -> Result<Option<&'a [u8]>, AllocError>
    ensures some { IfOk result (λ read. IfSome read (λ rest. (ps : List RawPoint)
        × TakesPoints scale text.now ps rest.now
        × AddsPaths scale paths.old (ps ∷ []) paths.new)) }
    ensures none { IfOk result (λ read. IfNone read
        ((ps : List RawPoint) (rest : List ℕ) → TakesPoints scale text.now ps rest → ⊥)) }
{
    let Some(mut rest) = skip_symbol(text, b'(') else {
        return Ok(None);
    };
    loop {
        let start = skip_blanks(rest);
        let Some(after) = read_bare_point(start, scale, paths)? else {
            return Ok(None);
        };
        let Some(next) = read_next(after) else {
            return Ok(None);
        };
        match next {
            Next::Item(behind) => rest = behind,
            Next::End(behind) => {
                paths.end_path()?;
                return Ok(Some(behind));
            }
        }
    }
}

/// Reads points, each with or without parentheses, at the start of a text, as one path, and returns
/// the text after them.
pub(crate) fn read_members<'a>(
    text: &'a [u8],
    scale: Scale,
    paths: &mut Paths,
) -> Result<Option<&'a [u8]>, AllocError>
    ensures some { IfOk result (λ read. IfSome read (λ rest. (ps : List RawPoint)
        × TakesMembers scale text.now ps rest.now
        × AddsPaths scale paths.old (ps ∷ []) paths.new)) }
    ensures none { IfOk result (λ read. IfNone read
        ((ps : List RawPoint) (rest : List ℕ) → TakesMembers scale text.now ps rest → ⊥)) }
{
    let Some(mut rest) = skip_symbol(text, b'(') else {
        return Ok(None);
    };
    loop {
        let start = skip_blanks(rest);
        let Some(after) = read_member(start, scale, paths)? else {
            return Ok(None);
        };
        let Some(next) = read_next(after) else {
            return Ok(None);
        };
        match next {
            Next::Item(behind) => rest = behind,
            Next::End(behind) => {
                paths.end_path()?;
                return Ok(Some(behind));
            }
        }
    }
}

/// Reads the lists of points in parentheses at the start of a text, each as a path, and returns the
/// text after them.
pub(crate) fn read_lists<'a>(
    text: &'a [u8],
    scale: Scale,
    paths: &mut Paths,
) -> Result<Option<&'a [u8]>, AllocError>
    ensures some { IfOk result (λ read. IfSome read (λ rest. (lists : List (List RawPoint))
        × TakesLists scale text.now lists rest.now × AddsPaths scale paths.old lists paths.new)) }
    ensures none { IfOk result (λ read. IfNone read
        ((lists : List (List RawPoint)) (rest : List ℕ)
        → TakesLists scale text.now lists rest → ⊥)) }
{
    let Some(mut rest) = skip_symbol(text, b'(') else {
        return Ok(None);
    };
    loop {
        let start = skip_blanks(rest);
        let Some(after) = read_points(start, scale, paths)? else {
            return Ok(None);
        };
        let Some(next) = read_next(after) else {
            return Ok(None);
        };
        match next {
            Next::Item(behind) => rest = behind,
            Next::End(behind) => return Ok(Some(behind)),
        }
    }
}

/// Reads the polygons in parentheses at the start of a text, each of their lists as a path, and
/// returns the text after them.
pub(crate) fn read_polygons<'a>(
    text: &'a [u8],
    scale: Scale,
    paths: &mut Paths,
) -> Result<Option<&'a [u8]>, AllocError>
    ensures some { IfOk result (λ read. IfSome read (λ rest.
        (polygons : List (List (List RawPoint))) × TakesPolygons scale text.now polygons rest.now
        × AddsPaths scale paths.old (joined polygons) paths.new)) }
    ensures none { IfOk result (λ read. IfNone read
        ((polygons : List (List (List RawPoint))) (rest : List ℕ)
        → TakesPolygons scale text.now polygons rest → ⊥)) }
{
    let Some(mut rest) = skip_symbol(text, b'(') else {
        return Ok(None);
    };
    loop {
        let start = skip_blanks(rest);
        let Some(after) = read_lists(start, scale, paths)? else {
            return Ok(None);
        };
        let Some(next) = read_next(after) else {
            return Ok(None);
        };
        match next {
            Next::Item(behind) => rest = behind,
            Next::End(behind) => return Ok(Some(behind)),
        }
    }
}
