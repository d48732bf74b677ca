//! The heading of a text: a keyword, by itself or after `MULTI`.

use wkt_core::{Keyword, skip_word};

/// The kind of a geometry as its text names it: a single point, polyline or polygon, or many.
#[derive(Clone, Copy)]
pub struct Heading {
    pub is_multi: bool,
    pub keyword: Keyword,
}

impl Heading {
    ghost use Rattle.std.specs.Prelude.{ℕ, List, IfSome, IfNone};
    ghost use Rattle.wkt_any_core.specs.Steps.{TakesHeading};

    /// The heading at the start of a text, in any case, and the text after it.
    pub(crate) fn read(text: &[u8]) -> Option<(Heading, &[u8])>
        ensures some { IfSome result (λ r. TakesHeading text.now r.0 r.1.now) }
        ensures none { IfNone result
            ((heading : Heading) (rest : List ℕ) → TakesHeading text.now heading rest → ⊥) }
    {
        match skip_word(text, b"multi") {
            Some(behind) => {
                let (keyword, rest) = Keyword::read(behind)?;
                let heading = Heading {
                    is_multi: true,
                    keyword,
                };
                Some((heading, rest))
            }
            None => {
                let (keyword, rest) = Keyword::read(text)?;
                let heading = Heading {
                    is_multi: false,
                    keyword,
                };
                Some((heading, rest))
            }
        }
    }
}
