//! Finding the columns of a file by the names in its header.

ghost use Rattle.std.specs.Prelude.{◌≡◌, ◌<◌, ◌+◌, ◌^◌, ◌↔◌, ℕ, Option, map, IsTrue, IfSome, IfNone};
ghost use Rattle.csv.specs.Records.{fields_of};
ghost use Rattle.row_core.specs.Rows.{IsHeader};
ghost use Rattle.row_core.specs.Tables.{AreNamed, ArePlaces, HasNoneFrom, IsIdPlace, IsNamedAt};
ghost use Rattle.row_core.specs.Tables.{IsNextNamed, IsOnlyAt};

use crate::fields::field;
use csv::ByteRecord;
use format_core::Columns;

/// The columns of a layer's file.
const COLUMNS: [&str; 2] = ["id", "wkt"];

/// The number of fields of each row of a layer's file, and the places of those that are read, from
/// 0.
#[derive(Clone, Copy, PartialEq, Eq)]
pub struct Places {
    pub count: usize,
    /// Without a place, the id of a row is its number.
    pub id: Option<usize>,
    pub geometry: usize,
}

/// The places of the columns that are read, if the header has each of them once.
pub(crate) fn places_in(header: &ByteRecord, columns: Columns<'_>) -> Option<Places>
    ensures some { IfSome result (ArePlaces columns.entry (fields_of header.now)) }
    ensures none { IfNone result
        ((places : Places) → ¬ (ArePlaces columns.entry (fields_of header.now) places)) }
{
    match columns {
        Columns::Exact => exact_places(header),
        Columns::Named { id, geometry } => named_places(header, id, geometry),
    }
}

/// The places of the id and of the geometry, if the header names these columns and no other.
fn exact_places(header: &ByteRecord) -> Option<Places>
    ensures some { IfSome result (ArePlaces Columns.Exact (fields_of header.now)) }
    ensures none { IfNone result
        ((places : Places) → ¬ (ArePlaces Columns.Exact (fields_of header.now) places)) }
{
    if is_header(header, &COLUMNS) {
        Some(Places {
            count: 2,
            id: Some(0),
            geometry: 1,
        })
    } else {
        None
    }
}

/// The places of the columns with these names.
fn named_places(header: &ByteRecord, id: Option<&str>, geometry: &str) -> Option<Places>
    ensures some { IfSome result (AreNamed id.entry geometry.now (fields_of header.now)) }
    ensures none { IfNone result
        ((places : Places) → ¬ (AreNamed id.entry geometry.now (fields_of header.now) places)) }
{
    let geometry = place_of(header, geometry)?;
    let id = id_place(header, id)?;
    Some(Places {
        count: header.len(),
        id,
        geometry,
    })
}

/// The place of the ids, which may have no column.
fn id_place(header: &ByteRecord, name: Option<&str>) -> Option<Option<usize>>
    ensures some { IfSome result (IsIdPlace name.entry (fields_of header.now)) }
    ensures none { IfNone result
        ((place : Option ℕ) → ¬ (IsIdPlace name.entry (fields_of header.now) place)) }
{
    match name {
        Some(name) => Some(Some(place_of(header, name)?)),
        None => Some(None),
    }
}

/// The place of the column with this name, if the header has the name once.
#[tactic(auto, using(crate::proofs::HeaderLemmas::only_place))]
fn place_of(header: &ByteRecord, name: &str) -> Option<usize>
    ensures some { IfSome result (IsOnlyAt name.now (fields_of header.now)) }
    ensures none { IfNone result
        ((place : ℕ) → ¬ (IsOnlyAt name.now (fields_of header.now) place)) }
{
    let place = next_named(header, name, 0)?;
    match next_named(header, name, place + 1) {
        Some(_) => None,
        None => Some(place),
    }
}

/// The first place from `start` at which the header has this name, in any ASCII case.
fn next_named(header: &ByteRecord, name: &str, start: usize) -> Option<usize>
    ensures some { IfSome result (IsNextNamed name.now (fields_of header.now) start) }
    ensures room { IfSome result (λ place. place + 1 < 2 ^ 64) }
    ensures none { IfNone result (HasNoneFrom name.now (fields_of header.now) start) }
{
    for place in start..header.len() {
        if is_named(header, place, name) {
            return Some(place);
        }
    }
    None
}

/// Whether the header has this name at a place, in any ASCII case.
fn is_named(header: &ByteRecord, place: usize, name: &str) -> bool
    ensures { IsTrue result ↔ IsNamedAt name.now (fields_of header.now) place }
{
    field(header, place).eq_ignore_ascii_case(name.as_bytes())
}

/// Whether a record names these columns, in any ASCII case.
pub(crate) fn is_header(row: &ByteRecord, columns: &[&str]) -> bool
    ensures { IsTrue result ↔ IsHeader (map (λ c. c.now) columns.now) (fields_of row.now) }
{
    if row.len() != columns.len() {
        return false;
    }
    for (i, column) in columns.iter().enumerate() {
        let Some(field) = row.get(i) else {
            return false;
        };
        let name = column.as_bytes();
        let same = field.eq_ignore_ascii_case(name);
        if !same {
            return false;
        }
    }
    true
}
