//! The keyword at the start of a text.

use crate::token::skip_word;

/// The kind of a geometry, as its text names it.
#[derive(Clone, Copy, PartialEq, Eq)]
pub enum Keyword {
    Point,
    LineString,
    Polygon,
}

impl Keyword {
    ghost use Rattle.std.specs.Prelude.{ℕ, List, IfSome, IfNone};
    ghost use Rattle.wkt_core.specs.ListSteps.{TakesWord};

    /// The keyword at the start of a text, in any case, and the text after it.
    #[inline(always)]
    pub fn read(text: &[u8]) -> Option<(Keyword, &[u8])>
        // the keyword at the front and the text behind it
        ensures some { IfSome result (λ r. TakesWord text.now r.0 r.1.now) }
        // only where there is none
        ensures none { IfNone result
            ((keyword : Keyword) (rest : List ℕ) → TakesWord text.now keyword rest → ⊥) }
    {
        match Keyword::read_capitals(text) {
            Some(read) => Some(read),
            None => Keyword::read_any_case(text),
        }
    }

    /// The keyword at the start of a text, in upper case as is usual, and the text after it.
    #[inline(always)]
    fn read_capitals(text: &[u8]) -> Option<(Keyword, &[u8])>
        ensures { IfSome result (λ r. TakesWord text.now r.0 r.1.now) }
    {
        let point = text.strip_prefix(b"POINT");
        if let Some(rest) = point {
            return Some((Keyword::Point, rest));
        }
        let polygon = text.strip_prefix(b"POLYGON");
        if let Some(rest) = polygon {
            return Some((Keyword::Polygon, rest));
        }
        let line_string = text.strip_prefix(b"LINESTRING");
        if let Some(rest) = line_string {
            return Some((Keyword::LineString, rest));
        }
        None
    }

    /// The keyword at the start of a text, in any case, and the text after it.
    #[cold]
    #[inline(never)]
    fn read_any_case(text: &[u8]) -> Option<(Keyword, &[u8])>
        ensures some { IfSome result (λ r. TakesWord text.now r.0 r.1.now) }
        ensures none { IfNone result
            ((keyword : Keyword) (rest : List ℕ) → TakesWord text.now keyword rest → ⊥) }
    {
        if let Some(rest) = skip_word(text, b"point") {
            return Some((Keyword::Point, rest));
        }
        if let Some(rest) = skip_word(text, b"linestring") {
            return Some((Keyword::LineString, rest));
        }
        if let Some(rest) = skip_word(text, b"polygon") {
            return Some((Keyword::Polygon, rest));
        }
        None
    }
}
