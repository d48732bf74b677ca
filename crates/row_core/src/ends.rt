//! Tests of the ends of a text of records, and of a record.

ghost use Rattle.std.specs.Prelude.{◌≡◌, ◌↔◌, false, IsTrue};
ghost use Rattle.csv.specs.Records.{fields_of};
ghost use Rattle.row_core.specs.Cuts.{EndsWithFeed, IsClosed, IsPlain};

use csv::ByteRecord;

/// Whether a text ends with a line feed.
pub fn ends_with_feed(text: &[u8]) -> bool
    ensures { IsTrue result ↔ EndsWithFeed text.now }
{
    match text.split_last() {
        Some((last, _)) => *last == b'\n',
        None => false,
    }
}

/// Whether the last field of a record ends with a line feed, as it does if a cut was within it.
#[tactic(auto, using(crate::proofs::EndLemmas::ended_closed))]
pub(crate) fn is_unended(row: &ByteRecord) -> bool
    ensures { result ≡ false → IsClosed (fields_of row.now) }
{
    let Some(last) = row.len().checked_sub(1) else {
        return false;
    };
    match row.get(last) {
        Some(field) => ends_with_feed(field),
        None => true,
    }
}

/// Whether a text doesn't begin like a byte order mark.
#[tactic(auto, using(crate::proofs::EndLemmas::plain))]
pub fn is_plain(text: &[u8]) -> bool
    ensures { IsTrue result → IsPlain text.now }
{
    match text.first() {
        Some(first) => *first != 0xEF,
        None => true,
    }
}
