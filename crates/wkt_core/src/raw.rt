//! Reading a whole text by the grammar, and the shape that its points form.

use crate::form::shape_of;
use crate::keyword::Keyword;
use crate::list::{read_lists, read_one_point, read_points};
use crate::read_list::ReadLists;
use crate::token::skip_blanks;
use geom_core::Shape;
use number_core::Scale;

/// The keyword of a text of the grammar, and the positions read from its lists.
#[derive(Drop)]
pub(crate) struct RawText {
    keyword: Keyword,
    lists: ReadLists,
}

impl RawText {
    ghost use Rattle.std.specs.Prelude.{◌≡◌, ◌↔◌, [], List, ℕ, IsTrue, IfSome, IfNone};
    ghost use Rattle.std.specs.List.{list_all};
    ghost use Rattle.geom_core.specs.declared.shape.Shape.{Shape};
    ghost use Rattle.wkt_core.specs.declared.keyword.Keyword.{Keyword};
    ghost use Rattle.number_core.specs.declared.scale.Scale.{Scale};
    ghost use Rattle.wkt_core.specs.Grammar.{RawPoint};
    ghost use Rattle.wkt_core.specs.Spelling.{Forms, positions};
    ghost use Rattle.wkt_core.specs.ListSteps.{TakesBody, TakesText};
    ghost use Rattle.wkt_core.specs.ReadLists.{IsReadOf, AreReadOf, are_in_range};

    /// Reads the lists after the keyword, and returns the text after them.
    #[inline(always)]
    fn read_body<'a>(
        keyword: Keyword,
        text: &'a [u8],
        scale: Scale,
        lists: &mut ReadLists,
    ) -> Option<&'a [u8]>
        requires { IsReadOf scale lists.old.first [] }
        ensures some { IfSome result (λ rest. (found : List (List RawPoint))
            × TakesBody scale keyword text.now found rest.now × AreReadOf scale lists.new found) }
        ensures none { IfNone result ((found : List (List RawPoint)) (rest : List ℕ)
            → TakesBody scale keyword text.now found rest → ⊥) }
    {
        match keyword {
            Keyword::Point => {
                let rest = read_one_point(text, scale, &mut lists.first)?;
                lists.first_was_read();
                Some(rest)
            }
            Keyword::LineString => {
                let rest = read_points(text, scale, &mut lists.first)?;
                lists.first_was_read();
                Some(rest)
            }
            Keyword::Polygon => read_lists(text, scale, lists),
        }
    }

    /// The keyword of the text and the positions of its lists, if the text is in the grammar.
    pub(crate) fn read(text: &[u8], scale: Scale) -> Option<RawText>
        ensures some { IfSome result (λ raw. (lists : List (List RawPoint))
            × TakesText scale text.now raw.keyword lists × AreReadOf scale raw.lists lists) }
        ensures none { IfNone result ((keyword : Keyword) (lists : List (List RawPoint))
            → TakesText scale text.now keyword lists → ⊥) }
    {
        let start = skip_blanks(text);
        let (keyword, rest) = Keyword::read(start)?;
        let mut lists = ReadLists::new();
        let body = skip_blanks(rest);
        let rest = RawText::read_body(keyword, body, scale, &mut lists)?;
        let end = skip_blanks(rest);
        match end {
            [] => Some(RawText { keyword, lists }),
            _ => None,
        }
    }

    /// Whether each number is a whole number of units of the scale.
    #[inline(always)]
    fn is_whole(&self) -> bool
        ensures { result ≡ self.now.lists.whole }
    {
        self.lists.is_whole()
    }

    /// Whether each number is in range, in whole units.
    #[inline(always)]
    pub(crate) fn is_in_range(&self) -> bool
        ensures { result ≡ self.now.lists.in_range }
    {
        self.lists.is_in_range()
    }

    /// Whether each number is a whole number of units and in range.
    #[inline(always)]
    pub(crate) fn has_good_numbers(&self) -> bool
        ensures { IsTrue result ↔ (IsTrue self.now.lists.whole × IsTrue self.now.lists.in_range) }
    {
        self.is_whole() && self.is_in_range()
    }

    /// The shape that the points form, if all their numbers are in range.
    #[inline(always)]
    pub(crate) fn shape(&self) -> Option<Shape>
        ensures some { IfSome result (λ s.
            (scale : Scale) (text : List ℕ) (lists : List (List RawPoint))
            → TakesText scale text self.now.keyword lists → AreReadOf scale self.now.lists lists
            → IsTrue (list_all (are_in_range scale) lists)
            → Forms self.now.keyword (positions scale lists) s) }
        ensures none { IfNone result
            ((scale : Scale) (text : List ℕ) (lists : List (List RawPoint)) (s : Shape)
            → TakesText scale text self.now.keyword lists → AreReadOf scale self.now.lists lists
            → IsTrue (list_all (are_in_range scale) lists)
            → Forms self.now.keyword (positions scale lists) s → ⊥) }
    {
        let walk = self.lists.alone()?;
        shape_of(self.keyword, walk)
    }
}
