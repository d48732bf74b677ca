//! What a file without the columns that are read begins with.

ghost use Rattle.std.specs.Prelude.{◌≡◌};
ghost use Rattle.row_core.specs.Beginnings.{IsBeginning, begins_with};

use crate::first_line::FirstLine;

/// What a file begins with.
#[derive(Clone, Copy, Debug, PartialEq, Eq)]
pub enum Beginning {
    /// A line.
    Line(FirstLine),
    /// The bytes of a GeoPackage, which is a database of SQLite.
    GeoPackage,
    /// Those of the main file of a shapefile.
    Shapefile,
    /// Those of a file packed by `gzip`.
    Gzip,
    /// The brace of a JSON object, as GeoJSON is one.
    Json,
}

impl Beginning {
    /// That of a file of these bytes.
    pub fn new(bytes: &[u8]) -> Beginning
        // what the first bytes say, else the first line
        ensures { IsBeginning bytes.now result }
    {
        if begins_with(bytes, b"SQLite format 3".as_slice()) {
            Beginning::GeoPackage
        } else if begins_with(bytes, b"\0\0\x27\x0a".as_slice()) {
            Beginning::Shapefile
        } else if begins_with(bytes, b"\x1f\x8b".as_slice()) {
            Beginning::Gzip
        } else if begins_with(bytes, b"{".as_slice()) {
            Beginning::Json
        } else {
            Beginning::Line(FirstLine::new(bytes))
        }
    }
}

/// Whether bytes begin with others.
fn begins_with(bytes: &[u8], others: &[u8]) -> bool
    ensures { result ≡ begins_with bytes.now others.now }
{
    match bytes.get(..others.len()) {
        Some(front) => front == others,
        None => false,
    }
}
