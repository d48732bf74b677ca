//! The rows of a CSV file, one after another.

ghost use Rattle.std.specs.Prelude.{◌≡◌, ◌≢◌, [], Err, map, IfOk, IfErr, MatchOption};
ghost use Rattle.std.specs.Bool.{MatchBool};
ghost use Rattle.csv.specs.Reading.{error_kind};
ghost use Rattle.csv.specs.Records.{fields_of};
ghost use Rattle.row_core.specs.Records.{records_of, records_left, IsBetweenRecords};
ghost use Rattle.row_core.specs.Records.{IsRefusedOrUnread, TakesRecord};

use crate::beginning::Beginning;
use crate::ends::is_unended;
use crate::header::{Places, is_header, places_in};
use crate::read_fault::ReadFault;
use crate::source::max_file_bytes;
use csv::{ByteRecord, Error, Reader, ReaderBuilder};
use format_core::{Delimiter, Layout};
use number_core::Limits;
use std::alloc::{AllocError, Global};

/// The rows of a file, in turn.
#[derive(Drop)]
pub struct Rows<'a> {
    /// Boxed, so that moving or dropping the rows handles one pointer.
    records: Box<TextRecords<'a>>,
    /// The number of rows read.
    count: u32,
    /// Whether a record was read whose last field ends with a line feed.
    unended: bool,
}

/// The remaining records of a text.
#[derive(Drop)]
struct TextRecords<'a> {
    reader: Reader<&'a [u8]>,
    /// The last record read.
    last: ByteRecord,
}

impl<'a> Rows<'a> {
    ghost use Rattle.std.specs.Prelude.{◌+◌, ◌≤◌, length};
    ghost use Rattle.csv.specs.Reading.{default_config, records};
    ghost use Rattle.row_core.specs.Cuts.{IsPlain};
    ghost use Rattle.row_core.specs.Rows.{last_row, rows_left, AreRows, IsOpened, IsReading};
    ghost use Rattle.row_core.specs.Rows.{HasNoFirst, IsBehindFirst};
    ghost use Rattle.row_core.specs.Tables.{IsOpenedTable, IsTable};
    ghost use Rattle.row_core.specs.Rows.{has_unended, most_rows, rows_read, IsEnded, ReadsRow};

    /// The rows of a file with commas after its header, which must name these columns in any ASCII
    /// case.
    pub fn open(
        alloc: Global,
        limits: Limits,
        file: &'a [u8],
        columns: &[&str],
    ) -> Result<Rows<'a>, ReadFault>
        // the rows of a file, those of its CSV records behind its header
        ensures ok { IfOk result
            (λ rows. IsOpened limits (map (λ c. c.now) columns.now) file.now rows) }
        // why it has none, unless memory is refused
        ensures err { IfErr result (λ fault. fault ≢ ReadFault.Memory
            → AreRows limits (map (λ c. c.now) columns.now) file.now (Err fault)) }
        // never `Io`
        ensures no_io { result ≢ Err ReadFault.Io }
    {
        let rows = Rows::behind_first(alloc, limits, Delimiter::Comma, file)?;
        if !is_header(rows.row(), columns) {
            return Err(ReadFault::Header(Beginning::new(file)));
        }
        Ok(rows)
    }

    /// The rows of a layer's file after its header, and the places of the columns that are read.
    pub(crate) fn open_table(
        alloc: Global,
        limits: Limits,
        file: &'a [u8],
        layout: Layout<'_>,
    ) -> Result<(Rows<'a>, Places), ReadFault>
        ensures ok { IfOk result
            (λ opened. IsOpenedTable limits layout.entry file.now opened.0 opened.1) }
        ensures err { IfErr result (λ fault. fault ≢ ReadFault.Memory
            → IsTable limits layout.entry file.now (Err fault)) }
        ensures no_io { result ≢ Err ReadFault.Io }
    {
        let rows = Rows::behind_first(alloc, limits, layout.delimiter, file)?;
        let Some(places) = places_in(rows.row(), layout.columns) else {
            return Err(ReadFault::Header(Beginning::new(file)));
        };
        Ok((rows, places))
    }

    /// The rows of a file after its first record, which is the last one read.
    fn behind_first(
        alloc: Global,
        limits: Limits,
        delimiter: Delimiter,
        file: &'a [u8],
    ) -> Result<Rows<'a>, ReadFault>
        ensures ok { IfOk result (IsBehindFirst limits delimiter file.now) }
        ensures err { IfErr result (λ fault. fault ≢ ReadFault.Memory
            → HasNoFirst limits delimiter file.now fault) }
        ensures no_io { result ≢ Err ReadFault.Io }
    {
        if file.len() > max_file_bytes(limits) {
            return Err(ReadFault::TooLong);
        }
        let mut records = records(alloc, delimiter, file)?;
        let first = &mut *records;
        let found = next_record(first)?;
        if !found {
            return Err(ReadFault::Header(Beginning::new(file)));
        }
        let unended = is_unended(&first.last);
        Ok(Rows {
            records,
            count: 0,
            unended,
        })
    }

    /// All records of a text with commas as rows, which follow `count` others.
    pub fn behind(alloc: Global, text: &'a [u8], count: u32) -> Result<Rows<'a>, AllocError>
        requires plain { IsPlain text.now }
        requires few { count + length (records default_config text.now) ≤ most_rows }
        // ready to be read
        ensures reading { IfOk result IsReading }
        // exactly the records of a text
        ensures rows { IfOk result (λ rows. rows_left rows ≡ records default_config text.now) }
        // with the numbers behind this many rows
        ensures count { IfOk result (λ rows. rows_read rows ≡ count) }
    {
        Ok(Rows {
            records: records(alloc, Delimiter::Comma, text)?,
            count,
            unended: false,
        })
    }

    /// Whether a record was read whose last field ends with a line feed.
    pub fn has_unended(&self) -> bool
        ensures { result ≡ has_unended self.now }
    {
        self.unended
    }

    /// Reads the next row and returns its number, from 1, or `None` at the end.
    pub fn next(&mut self) -> Result<Option<u32>, AllocError>
        requires { IsReading self.old }
        ensures { IfOk result (λ row. MatchOption row
            (IsEnded self.old self.new) (λ n. ReadsRow self.old n self.new)) }
    {
        let records = &mut *self.records;
        if !next_record(records)? {
            return Ok(None);
        }
        self.count += 1;
        self.unended |= is_unended(&records.last);
        Ok(Some(self.count))
    }

    /// The last row read.
    pub fn row(&self) -> &ByteRecord
        ensures { fields_of result.now ≡ last_row self.now }
    {
        &self.records.last
    }
}

/// A reader of all records of a text. They may differ in length, and none is taken as a header.
fn records(
    alloc: Global,
    delimiter: Delimiter,
    text: &[u8],
) -> Result<Box<TextRecords<'_>>, AllocError>
    ensures reading { IfOk result (λ all. IsBetweenRecords all.value.reader) }
    ensures records { IfOk result
        (λ all. records_left all.value.reader ≡ records_of delimiter text.now) }
{
    let reader = ReaderBuilder::new()
        .has_headers(false)
        .flexible(true)
        .delimiter(delimiter.byte())
        .from_reader(alloc, text);
    let last = ByteRecord::new(alloc);
    Ok(Box::new(alloc, TextRecords { reader, last })?)
}

/// Reads the next record. Returns false if none is left.
#[tactic(auto, using(crate::proofs::RecordLemmas::record_read))]
fn next_record(records: &mut TextRecords) -> Result<bool, AllocError>
    requires { IsBetweenRecords records.old.reader }
    ensures { IfOk result (λ found. MatchBool found
        (TakesRecord records.old.reader (fields_of records.new.last) records.new.reader)
        (records_left records.old.reader ≡ [])) }
{
    let TextRecords { reader, last } = records;
    match reader.read_byte_record(last) {
        Ok(found) => Ok(found),
        Err(error) => Err(want_of_memory(error)),
    }
}

/// The fault of a read that failed: bytes in memory can always be read, so memory ran out.
fn want_of_memory(error: Error) -> AllocError
    requires { IsRefusedOrUnread (error_kind error) }
{
    AllocError
}
