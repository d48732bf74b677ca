//! CSV files of edits.

ghost use Rattle.std.specs.Prelude.{◌≡◌, ◌≢◌, ◌↔◌, ◌≤◌, length, false, Ok, Err, IsErrOf, IsTrue};
ghost use Rattle.std.specs.Prelude.{IfOk, IfErr, IfSome};
ghost use Rattle.csv.specs.Records.{fields_of};
ghost use Rattle.layer_core.specs.Edits.{content_of};
ghost use Rattle.file_core.specs.EditFiles.{edit_contents, DeletionGives, EditRowGives};
ghost use Rattle.file_core.specs.EditFiles.{InsertionGives, IsEditFile, edit_columns};
ghost use Rattle.row_core.specs.Rows.{AreRows, IsOpened, most_rows};

use csv::ByteRecord;
use format_core::Format;
use layer_core::{Edit, LayerFault, Side};
use row_core::{ReadFault, RowReader, Rows, Source, four_fields, id_in, read_all, side_in};
use std::alloc::Global;

/// The columns of a file of edits.
const COLUMNS: [&str; 4] = ["op", "layer", "id", "wkt"];

/// The edits of a CSV file, in the order of its rows.
///
/// The file has the form of a layer's ([`crate::features_of_bytes`]). Its header is
/// `op,layer,id,wkt`. A row's `op` is `insert` or `delete`, its `layer` is `left` or `right`, and
/// in a deletion the last field is empty. Only what applies them looks up the ids.
///
/// # Errors
/// [`ReadFault::TooLong`] and [`ReadFault::Header`], in this order, and then the fault of the
/// first row that has one: [`ReadFault::Row`] if its fields aren't as above, else
/// [`LayerFault::BadId`], else, in an insertion, that of the geometry's text, which is
/// [`ReadFault::Wkt`] or [`ReadFault::Geometry`]. [`ReadFault::Memory`] may come in place of any
/// other.
pub fn edits_of_bytes<F: Format>(
    alloc: Global,
    bytes: &[u8],
    format: F,
) -> Result<Vec<Edit<F::Geometry>>, ReadFault>
    // the same of edits
    ensures file { result ≢ Err ReadFault.Memory
        → IsEditFile (F.reads format) bytes.now (edit_contents result) }
    // no more edits than rows have numbers
    ensures few { IfOk result (λ edits. length edits.items ≤ most_rows) }
    // never `Io`
    ensures no_io { result ≢ Err ReadFault.Io }
{
    let mut rows = edit_rows(alloc, format, bytes)?;
    let mut edits = Vec::new(alloc);
    let reader = RowReader { alloc, format };
    while let Some(number) = rows.next()? {
        edits.reserve(1)?;
        let record = rows.row();
        let edit = edit_of_row(reader, number, record)?;
        edits.push_reserved(edit);
    }
    Ok(edits)
}

/// The edits of a file, which is read from a source that hasn't failed.
///
/// # Errors
/// Those of [`read_all`], and then those of [`edits_of_bytes`].
pub fn read_edits<S: Source, F: Format>(
    alloc: Global,
    source: &mut S,
    format: F,
) -> Result<Vec<Edit<F::Geometry>>, ReadFault>
    requires { S.has_failed source.old ≡ false }
    // the same of edits
    ensures io { IsErrOf result ReadFault.Io ↔ IsTrue (S.has_failed source.new) }
    ensures file { result ≢ Err ReadFault.Io → result ≢ Err ReadFault.Memory
        → IfSome (S.remaining source.old)
        (λ bytes. IsEditFile (F.reads format) bytes (edit_contents result)) }
    ensures few { IfOk result (λ edits. length edits.items ≤ most_rows) }
{
    let bytes = read_all(alloc, format.limits(), source)?;
    edits_of_bytes(alloc, bytes.as_slice(), format)
}

/// The rows of a file of edits.
fn edit_rows<F: Format>(alloc: Global, format: F, bytes: &[u8]) -> Result<Rows<'_>, ReadFault>
    ensures ok { IfOk result (IsOpened (F.reads format).limits edit_columns bytes.now) }
    ensures err { IfErr result (λ fault. fault ≢ ReadFault.Memory
        → AreRows (F.reads format).limits edit_columns bytes.now (Err fault)) }
    ensures no_io { result ≢ Err ReadFault.Io }
{
    Rows::open(alloc, format.limits(), bytes, &COLUMNS)
}

/// The edit of the row with this number.
fn edit_of_row<F: Format>(
    reader: RowReader<F>,
    number: u32,
    row: &ByteRecord,
) -> Result<Edit<F::Geometry>, ReadFault>
    ensures ok { IfOk result (λ edit. EditRowGives (F.reads reader.format).text number
        (fields_of row.now) (Ok (content_of edit))) }
    ensures err { IfErr result (λ fault. fault ≢ ReadFault.Memory
        → EditRowGives (F.reads reader.format).text number (fields_of row.now) (Err fault)) }
    ensures no_io { result ≢ Err ReadFault.Io }
{
    let (op, layer, id, wkt) = four_fields(row).ok_or(ReadFault::Row(number))?;
    let side = side_in(layer).ok_or(ReadFault::Row(number))?;
    if op == b"insert".as_slice() {
        insertion(reader, number, side, id, wkt)
    } else if op == b"delete".as_slice() && wkt.is_empty() {
        deletion(reader.alloc, number, side, id)
    } else {
        Err(ReadFault::Row(number))
    }
}

fn insertion<F: Format>(
    reader: RowReader<F>,
    number: u32,
    side: Side,
    id: &[u8],
    wkt: &[u8],
) -> Result<Edit<F::Geometry>, ReadFault>
    ensures ok { IfOk result (λ edit. InsertionGives (F.reads reader.format).text number side id.now
        wkt.now (Ok (content_of edit))) }
    ensures err { IfErr result (λ fault. fault ≢ ReadFault.Memory
        → InsertionGives (F.reads reader.format).text number side id.now wkt.now (Err fault)) }
    ensures no_io { result ≢ Err ReadFault.Io }
{
    let id = id_in(id).ok_or(ReadFault::Layer(number, LayerFault::BadId))?;
    let shape = reader.geometry(number, wkt)?;
    let id = String::from_str(reader.alloc, id)?;
    Ok(Edit::Insert { side, id, shape })
}

fn deletion<G>(alloc: Global, number: u32, side: Side, id: &[u8]) -> Result<Edit<G>, ReadFault>
    ensures ok { IfOk result (λ edit. DeletionGives number side id.now (Ok (content_of edit))) }
    ensures err { IfErr result (λ fault. fault ≢ ReadFault.Memory
        → DeletionGives {G = G} number side id.now (Err fault)) }
    ensures no_io { result ≢ Err ReadFault.Io }
{
    let id = id_in(id).ok_or(ReadFault::Layer(number, LayerFault::BadId))?;
    let id = String::from_str(alloc, id)?;
    Ok(Edit::Delete { side, id })
}
