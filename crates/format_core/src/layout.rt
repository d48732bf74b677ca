//! How the file of a layer is laid out: its columns, and the character between its fields.

/// The character between the fields of a record.
#[derive(Clone, Copy, PartialEq, Eq)]
pub enum Delimiter {
    Comma,
    Semicolon,
    Tab,
}

impl Delimiter {
    ghost use Rattle.std.specs.Prelude.{◌≡◌};
    ghost use Rattle.format_core.specs.Layouts.{delimiter_byte};

    /// The character, as a byte.
    pub fn byte(self) -> u8
        ensures { result ≡ delimiter_byte self }
    {
        match self {
            Delimiter::Comma => b',',
            Delimiter::Semicolon => b';',
            Delimiter::Tab => b'\t',
        }
    }
}

/// Which columns of a layer's file are read.
#[derive(Clone, Copy, PartialEq, Eq)]
pub enum Columns<'a> {
    /// The file has the columns `id` and `wkt`, in this order, and no other.
    Exact,
    /// The file has any columns in any order. These two are read, each of which the header names
    /// once; without a name for the ids, the id of a row is its number.
    Named {
        id: Option<&'a str>,
        geometry: &'a str,
    },
}

/// The columns of a layer's file, and the character between its fields.
#[derive(Clone, Copy, PartialEq, Eq)]
pub struct Layout<'a> {
    pub delimiter: Delimiter,
    pub columns: Columns<'a>,
}

impl<'a> Layout<'a> {
    ghost use Rattle.std.specs.Prelude.{◌≡◌};
    ghost use Rattle.format_core.specs.Layouts.{plain_layout};

    /// The columns `id` and `wkt` alone, with commas between them.
    pub fn plain() -> Layout<'a>
        // the columns `id,wkt`
        ensures { result ≡ plain_layout }
    {
        Layout {
            delimiter: Delimiter::Comma,
            columns: Columns::Exact,
        }
    }
}
