//! Reading a single row of a layer's file.

ghost use Rattle.std.specs.Prelude.{◌≡◌, ◌≢◌, Ok, Err, IfOk, IfErr, option_map};
ghost use Rattle.csv.specs.Records.{fields_of};
ghost use Rattle.layer_core.specs.Ids.{id_bytes};
ghost use Rattle.row_core.specs.LayerRows.{HasIdLength, IsIdFault, RowSays, AreGoodIds};
ghost use Rattle.row_core.specs.LayerRows.{content_of, form_of, id_field};
ghost use Rattle.row_core.specs.LayerRows.{HasId};

use crate::fields::{field, id_in};
use crate::header::Places;
use crate::read_fault::ReadFault;
use csv::ByteRecord;
use format_core::{Format, TextFault};
use layer_core::{Id, LayerFault};
use std::alloc::Global;

/// A reader of the rows of a layer's file: the allocator, the format of their geometries, and the
/// places of the columns that are read.
#[derive(Clone, Copy)]
pub struct LayerRowReader<F> {
    pub alloc: Global,
    pub format: F,
    pub places: Places,
}

/// A row with a valid id, unless its file has none, and its shape or the fault of the shape's text.
#[derive(Drop)]
pub struct ReadRow<G> {
    pub id: Option<Id>,
    pub shape: Result<G, TextFault>,
}

/// Reads the row with this number. The fault is that of the number of fields, else that of the id.
pub fn read_row<F: Format>(
    reader: LayerRowReader<F>,
    number: u32,
    row: &ByteRecord,
) -> Result<ReadRow<F::Geometry>, ReadFault>
    // the id of a row, if its file has ids, and its geometry or the fault of its text
    ensures says { IfOk result (λ read. RowSays (form_of F.reads reader) number
        (fields_of row.now) (Ok (content_of read))) }
    // the id's length is that of an id
    ensures id { IfOk result HasId }
    // the fault of the number of fields or of the id, unless memory is refused
    ensures fault { IfErr result (λ fault. fault ≢ ReadFault.Memory
        → RowSays (form_of F.reads reader) number (fields_of row.now) (Err fault)) }
    // never `Io`
    ensures no_io { result ≢ Err ReadFault.Io }
{
    if row.len() != reader.places.count {
        return Err(ReadFault::Row(number));
    }
    let id = read_id(reader.alloc, reader.places, number, row)?;
    let wkt = field(row, reader.places.geometry);
    let shape = reader.format.read(reader.alloc, wkt)?;
    Ok(ReadRow { id, shape })
}

/// The id of the row with this number, if its file has ids.
fn read_id(
    alloc: Global,
    places: Places,
    number: u32,
    row: &ByteRecord,
) -> Result<Option<Id>, ReadFault>
    ensures id { IfOk result
        (λ id. option_map id_bytes id ≡ id_field places (fields_of row.now)) }
    ensures good { IfOk result (λ id. AreGoodIds (id_field places (fields_of row.now))) }
    ensures length { IfOk result HasIdLength }
    ensures fault { IfErr result (λ fault. fault ≢ ReadFault.Memory
        → IsIdFault number (id_field places (fields_of row.now)) fault) }
    ensures no_io { result ≢ Err ReadFault.Io }
{
    let Some(place) = places.id else {
        return Ok(None);
    };
    let id = id_in(field(row, place)).ok_or(ReadFault::Layer(number, LayerFault::BadId))?;
    Ok(Some(Id::from_str(alloc, id)?))
}
