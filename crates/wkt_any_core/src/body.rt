//! The text after the heading.

ghost use Rattle.std.specs.Prelude.{List, ℕ, IfOk, IfSome, IfNone};
ghost use Rattle.wkt_core.specs.Grammar.{RawPoint};
ghost use Rattle.wkt_core.specs.ListSteps.{TakesBody as TakesOne};
ghost use Rattle.wkt_any_core.specs.Held.{AddsPaths};
ghost use Rattle.wkt_any_core.specs.Steps.{TakesMany, TakesBody};

use crate::heading::Heading;
use crate::list::{read_lists, read_members, read_points, read_polygons, read_single};
use crate::paths::Paths;
use std::alloc::AllocError;
use wkt_core::{Keyword, Scale};

/// Reads the lists after a keyword without `MULTI`, and returns the text after them.
fn read_one<'a>(
    keyword: Keyword,
    text: &'a [u8],
    scale: Scale,
    paths: &mut Paths,
) -> Result<Option<&'a [u8]>, AllocError>
    ensures some { IfOk result (λ read. IfSome read (λ rest. (lists : List (List RawPoint))
        × TakesOne scale keyword text.now lists rest.now
        × AddsPaths scale paths.old lists paths.new)) }
    ensures none { IfOk result (λ read. IfNone read ((lists : List (List RawPoint))
        (rest : List ℕ) → TakesOne scale keyword text.now lists rest → ⊥)) }
{
    match keyword {
        Keyword::Point => read_single(text, scale, paths),
        Keyword::LineString => read_points(text, scale, paths),
        Keyword::Polygon => read_lists(text, scale, paths),
    }
}

/// Reads the lists after a keyword with `MULTI`, and returns the text after them.
fn read_many<'a>(
    keyword: Keyword,
    text: &'a [u8],
    scale: Scale,
    paths: &mut Paths,
) -> Result<Option<&'a [u8]>, AllocError>
    ensures some { IfOk result (λ read. IfSome read (λ rest. (lists : List (List RawPoint))
        × TakesMany scale keyword text.now lists rest.now
        × AddsPaths scale paths.old lists paths.new)) }
    ensures none { IfOk result (λ read. IfNone read ((lists : List (List RawPoint))
        (rest : List ℕ) → TakesMany scale keyword text.now lists rest → ⊥)) }
{
    match keyword {
        Keyword::Point => read_members(text, scale, paths),
        Keyword::LineString => read_lists(text, scale, paths),
        Keyword::Polygon => read_polygons(text, scale, paths),
    }
}

/// Reads the lists after a heading, and returns the text after them.
pub(crate) fn read_body<'a>(
    heading: Heading,
    text: &'a [u8],
    scale: Scale,
    paths: &mut Paths,
) -> Result<Option<&'a [u8]>, AllocError>
    ensures some { IfOk result (λ read. IfSome read (λ rest. (lists : List (List RawPoint))
        × TakesBody scale heading text.now lists rest.now
        × AddsPaths scale paths.old lists paths.new)) }
    ensures none { IfOk result (λ read. IfNone read ((lists : List (List RawPoint))
        (rest : List ℕ) → TakesBody scale heading text.now lists rest → ⊥)) }
{
    if heading.is_multi {
        read_many(heading.keyword, text, scale, paths)
    } else {
        read_one(heading.keyword, text, scale, paths)
    }
}
