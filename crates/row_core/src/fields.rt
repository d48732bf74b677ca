//! Decoding the fields of a record.

ghost use Rattle.std.specs.Prelude.{◌≡◌, ◌≢◌, [], ◌∷◌, get_or, length, IfSome, IfNone};
ghost use Rattle.csv.specs.Records.{fields_of};
ghost use Rattle.row_core.specs.Fields.{IsId, side_named};

use csv::ByteRecord;
use layer_core::{Side, is_id};
use std::str::from_utf8;

/// The field of a record at a place, or an empty one if there is none.
#[tactic(auto, using(crate::proofs::FieldLemmas::at_place))]
pub(crate) fn field(row: &ByteRecord, place: usize) -> &[u8]
    ensures { result.now ≡ get_or (fields_of row.now) place [] }
{
    match row.get(place) {
        Some(field) => field,
        None => b"".as_slice(),
    }
}

/// The fields of a record, if it has four.
#[tactic(auto, using(crate::proofs::FieldLemmas::of_four))]
pub fn four_fields(row: &ByteRecord) -> Option<(&[u8], &[u8], &[u8], &[u8])>
    // the fields of a record
    ensures some { IfSome result
        (λ f. fields_of row.now ≡ f.0.now ∷ f.1.now ∷ f.2.now ∷ f.3.now ∷ []) }
    // it doesn't have four
    ensures none { IfNone result (length (fields_of row.now) ≢ 4) }
{
    if row.len() != 4 {
        return None;
    }
    Some((row.get(0)?, row.get(1)?, row.get(2)?, row.get(3)?))
}

/// The id in a field, if it is valid.
pub fn id_in(field: &[u8]) -> Option<&str>
    // the id that a field is
    ensures some { IfSome result (λ id. IsId field.now × (id.now ≡ field.now)) }
    // it is none
    ensures none { IfNone result (¬ (IsId field.now)) }
{
    match from_utf8(field) {
        Ok(id) if is_id(id) => Some(id),
        _ => None,
    }
}

/// The side that a field names, if any.
pub fn side_in(field: &[u8]) -> Option<Side>
    ensures { result ≡ side_named field.now }
{
    if field == b"left".as_slice() {
        Some(Side::Left)
    } else if field == b"right".as_slice() {
        Some(Side::Right)
    } else {
        None
    }
}
