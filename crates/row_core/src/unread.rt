//! The part of a layer's file that isn't read yet.

ghost use Rattle.std.specs.Prelude.{◌≡◌, ◌≢◌, ◌++◌, Err, IfOk, IfErr, IfSome, IsTrue};
ghost use Rattle.row_core.specs.Rows.{IsReading, rows_left, rows_read};
ghost use Rattle.row_core.specs.Tables.{IsTable};
ghost use Rattle.row_core.specs.Unread.{IsHeaded, IsHeaderLine, IsUnread, IsUnreadFile};
ghost use Rattle.row_core.specs.Unread.{count_unread, records_unread};

use crate::ends::{ends_with_feed, is_plain};
use crate::header::Places;
use crate::read_fault::ReadFault;
use crate::rows::Rows;
use crate::source::max_file_bytes;
use format_core::{Delimiter, Layout};
use number_core::Limits;
use std::alloc::{AllocError, Global};

/// The number of bytes of a byte order mark.
const MARK: usize = 3;

/// The remaining rows of a file.
#[derive(Drop)]
pub enum Unread<'a> {
    /// Those of a text that begins between two records, and the number of rows before it.
    Text(&'a [u8], u32),
    /// Those that a reader hasn't read yet.
    Rows(Rows<'a>),
}

impl<'a> Unread<'a> {
    /// The rows of a file with this layout, and the places of the columns that are read.
    pub fn open(
        alloc: Global,
        limits: Limits,
        bytes: &'a [u8],
        layout: Layout<'_>,
    ) -> Result<(Unread<'a>, Places), ReadFault>
        // all rows of a layer's file, whose layout says how it is read: exactly the columns
        // `id,wkt`, or the columns with the given names, at the places where the header has them
        ensures ok { IfOk result (λ opened.
            IsUnreadFile limits layout.entry bytes.now opened.0 opened.1) }
        // why it has none, unless memory is refused
        ensures err { IfErr result (λ fault. fault ≢ ReadFault.Memory
            → IsTable limits layout.entry bytes.now (Err fault)) }
        // never `Io`
        ensures no_io { result ≢ Err ReadFault.Io }
    {
        match behind_header(alloc, limits, bytes, layout) {
            Some((text, places)) => Ok((Unread::Text(text, 0), places)),
            None => open_rows(alloc, limits, bytes, layout),
        }
    }

    /// A reader of the rows.
    pub fn into_rows(self, alloc: Global) -> Result<Rows<'a>, AllocError>
        requires { IsUnread self }
        // ready to be read
        ensures reading { IfOk result IsReading }
        // the same rows with the same numbers
        ensures rows { IfOk result (λ rows. rows_left rows ≡ records_unread self.entry) }
        ensures count { IfOk result (λ rows. rows_read rows ≡ count_unread self.entry) }
    {
        match self {
            Unread::Text(text, count) => Rows::behind(alloc, text, count),
            Unread::Rows(rows) => Ok(rows),
        }
    }
}

/// The rows of a file, which a reader reads.
#[tactic(auto, using(crate::proofs::EndLemmas::opened_unread))]
fn open_rows<'a>(
    alloc: Global,
    limits: Limits,
    bytes: &'a [u8],
    layout: Layout<'_>,
) -> Result<(Unread<'a>, Places), ReadFault>
    ensures ok { IfOk result (λ opened.
        IsUnreadFile limits layout.entry bytes.now opened.0 opened.1) }
    ensures err { IfErr result (λ fault. fault ≢ ReadFault.Memory
        → IsTable limits layout.entry bytes.now (Err fault)) }
    ensures no_io { result ≢ Err ReadFault.Io }
{
    let (rows, places) = Rows::open_table(alloc, limits, bytes, layout)?;
    Ok((Unread::Rows(rows), places))
}

/// The text after the header and the places of the columns, if commas lie between the fields and the
/// header is a line by itself.
fn behind_header<'a>(
    alloc: Global,
    limits: Limits,
    bytes: &'a [u8],
    layout: Layout<'_>,
) -> Option<(&'a [u8], Places)>
    ensures { IfSome result
        (λ found. IsUnreadFile limits layout.entry bytes.now (Unread.Text found.0 0) found.1) }
{
    let feed = bytes.iter().position(|byte| *byte == b'\n')?;
    let (line, rest) = bytes.split_at_checked(feed.saturating_add(1))?;
    headed_rest(alloc, limits, bytes, line, rest, layout)
}

/// The text after the first line of a file, if that line is the header and the text is plain.
fn headed_rest<'a>(
    alloc: Global,
    limits: Limits,
    bytes: &[u8],
    line: &[u8],
    rest: &'a [u8],
    layout: Layout<'_>,
) -> Option<(&'a [u8], Places)>
    requires { line.now ++ rest.now ≡ bytes.now }
    ensures { IfSome result (λ found. IsHeaded limits layout.entry bytes.now found.0.now found.1) }
{
    let places = header_places(alloc, line, layout)?;
    if bytes.len() <= max_file_bytes(limits) && is_plain(rest) {
        Some((rest, places))
    } else {
        None
    }
}

/// The places of the columns in a line that consists of the header alone, with commas.
#[tactic(auto, using(crate::proofs::EndLemmas::header_line))]
fn header_places(alloc: Global, line: &[u8], layout: Layout<'_>) -> Option<Places>
    ensures commas { IfSome result (λ places. layout.entry.delimiter ≡ Delimiter.Comma) }
    ensures headed { IfSome result (IsHeaderLine layout.entry.columns line.now) }
{
    if layout.delimiter != Delimiter::Comma || line.len() <= MARK || !ends_with_feed(line) {
        return None;
    }
    // The length of the line alone has no limit of its own.
    let Ok((mut rows, places)) = Rows::open_table(alloc, Limits::Any, line, layout) else {
        return None;
    };
    if !rows.has_unended() && matches!(rows.next(), Ok(None)) {
        Some(places)
    } else {
        None
    }
}
