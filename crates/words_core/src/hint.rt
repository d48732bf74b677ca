//! Which relation a mistyped word may mean.

ghost use Rattle.std.specs.Prelude.{◌≡◌, find, map, IfOk};
ghost use Rattle.words_core.specs.Readings.{hint_of, is_near, text_in};

use std::alloc::{AllocError, Global};
use strsim::levenshtein;

/// The names of the relations that a join may use.
const NAMES: [&str; 10] = [
    "intersects",
    "touches",
    "crosses",
    "within",
    "contains",
    "overlaps",
    "equals",
    "covers",
    "covered_by",
    "contains_properly",
];

/// The greatest edit distance at which a name is suggested for a word.
const MOST_TYPOS: usize = 2;

/// The first relation name that is at most two edits from the word, or `None`.
pub fn nearest_relation(alloc: Global, word: &str) -> Result<Option<&'static str>, AllocError>
    ensures { IfOk result (λ found. text_in found ≡ hint_of word.now) }
{
    let names = NAMES.as_slice();
    nearest(alloc, word, names)
}

/// The first of the names that is at most `MOST_TYPOS` edits from the word, or `None`.
fn nearest<'a>(alloc: Global, word: &str, names: &[&'a str]) -> Result<Option<&'a str>, AllocError>
    ensures { IfOk result (λ found. text_in found
        ≡ find (is_near word.now) (map (λ name. name.now) names.now)) }
{
    for name in names {
        if levenshtein(alloc, word, name)? <= MOST_TYPOS {
            return Ok(Some(*name));
        }
    }
    Ok(None)
}
