//! The beginning of the first line of a file, as it is told.

ghost use Rattle.std.specs.Prelude.{◌≡◌, ◌≤◌};
ghost use Rattle.std.proofs.Props.{props};
ghost use Rattle.row_core.specs.FirstLines.{AreShown, is_line_end, most_told, shown};

use std::str::from_utf8;

/// The greatest number of bytes of a first line that are told.
const MOST_TOLD: usize = 64;

/// The beginning of the first line of a file, in printable ASCII.
#[derive(Clone, Copy, Debug, PartialEq, Eq)]
pub struct FirstLine {
    bytes: [u8; MOST_TOLD],
    len: usize,
    ghost within: { len ≤ most_told },
    ghost shown: { AreShown len bytes } by { Prim.hlevel props },
}

impl FirstLine {
    ghost use Rattle.row_core.specs.Beginnings.{IsFirstLine, line_text};

    /// That of a file, at most 64 bytes of it.
    #[tactic(auto, using(crate::proofs::FirstLineLemmas::told_ascii))]
    pub fn new(bytes: &[u8]) -> FirstLine
        // the bytes up to the line's end, those outside printable ASCII as question marks
        ensures { IsFirstLine bytes.now result }
    {
        let mut told = [b'?'; MOST_TOLD];
        let most = bytes.len().min(MOST_TOLD);
        for place in 0..most {
            let byte = bytes[place];
            if is_line_end(byte) {
                return FirstLine {
                    bytes: told,
                    len: place,
                };
            }
            told[place] = shown(byte);
        }
        FirstLine {
            bytes: told,
            len: most,
        }
    }

    /// The text that is told.
    pub fn as_str(&self) -> &str
        ensures { result.now ≡ line_text self.now }
    {
        match from_utf8(&self.bytes[..self.len]) {
            Ok(text) => text,
            Err(_) => "",
        }
    }
}

/// Whether a byte ends a line.
fn is_line_end(byte: u8) -> bool
    ensures { result ≡ is_line_end byte }
{
    byte == b'\n' || byte == b'\r'
}

/// A byte as it is told: itself if it is printable ASCII, otherwise a question mark.
fn shown(byte: u8) -> u8
    ensures { result ≡ shown byte }
{
    if b' ' <= byte && byte <= b'~' {
        byte
    } else {
        b'?'
    }
}
