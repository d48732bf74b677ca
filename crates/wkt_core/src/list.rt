//! Points in parentheses: a single one, a list, and a list of lists.

ghost use Rattle.std.specs.Prelude.{◌≡◌, [], ◌∷◌, List, ℕ, IfSome, IfNone};
ghost use Rattle.wkt_core.specs.Grammar.{RawPoint};
ghost use Rattle.wkt_core.specs.ListSteps.{TakesPoints, TakesLists};
ghost use Rattle.wkt_core.specs.ReadLists.{IsReadOf, AreReadOf};

use crate::position::read_point;
use crate::read_list::{ReadList, ReadLists};
use crate::token::{Next, read_next, skip_blanks, skip_symbol};
use number_core::Scale;

/// Reads the list of points at the start of a text into an empty one, and returns the text after
/// it.
pub(crate) fn read_points<'a>(text: &'a [u8], scale: Scale, list: &mut ReadList) -> Option<&'a [u8]>
    requires { IsReadOf scale list.old [] }
    ensures some { IfSome result (λ rest.
        (ps : List RawPoint) × TakesPoints scale text.now ps rest.now
        × IsReadOf scale list.new ps) }
    ensures none { IfNone result
        ((ps : List RawPoint) (rest : List ℕ) → TakesPoints scale text.now ps rest → ⊥) }
{
    let mut rest = skip_symbol(text, b'(')?;
    loop {
        let start = skip_blanks(rest);
        let (point, after) = read_point(start, scale)?;
        list.push(point);
        let next = read_next(after)?;
        match next {
            Next::Item(behind) => rest = behind,
            Next::End(behind) => return Some(behind),
        }
    }
}

/// Reads the single point in parentheses at the start of a text into an empty list, and returns the
/// text after it.
pub(crate) fn read_one_point<'a>(
    text: &'a [u8],
    scale: Scale,
    list: &mut ReadList,
) -> Option<&'a [u8]>
    requires { IsReadOf scale list.old [] }
    ensures some { IfSome result (λ rest. (p : RawPoint)
        × TakesPoints scale text.now (p ∷ []) rest.now × IsReadOf scale list.new (p ∷ [])) }
    ensures none { IfNone result
        ((p : RawPoint) (rest : List ℕ) → TakesPoints scale text.now (p ∷ []) rest → ⊥) }
{
    let rest = skip_symbol(text, b'(')?;
    let (point, after) = read_point(skip_blanks(rest), scale)?;
    let behind = skip_symbol(skip_blanks(after), b')')?;
    list.push(point);
    Some(behind)
}

/// Reads the lists of points in parentheses at the start of a text, and returns the text after
/// them.
pub(crate) fn read_lists<'a>(
    text: &'a [u8],
    scale: Scale,
    lists: &mut ReadLists,
) -> Option<&'a [u8]>
    requires { IsReadOf scale lists.old.first [] }
    ensures some { IfSome result (λ rest. (found : List (List RawPoint))
        × TakesLists scale text.now found rest.now × AreReadOf scale lists.new found) }
    ensures none { IfNone result
        ((found : List (List RawPoint)) (rest : List ℕ)
        → TakesLists scale text.now found rest → ⊥) }
{
    let rest = skip_symbol(text, b'(')?;
    let first = skip_blanks(rest);
    let mut after = read_points(first, scale, &mut lists.first)?;
    lists.first_was_read();
    loop {
        let next = read_next(after)?;
        match next {
            Next::Item(behind) => {
                let mut further = ReadList::new();
                let start = skip_blanks(behind);
                let rest = read_points(start, scale, &mut further)?;
                lists.push(further);
                after = rest;
            }
            Next::End(behind) => return Some(behind),
        }
    }
}
