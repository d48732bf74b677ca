//! Short texts on the stack: the line of a message, or the lines of a layer's counts.

ghost use Rattle.std.specs.Prelude.{◌≡◌, ◌+◌, ◌<◌, ◌≤◌, ◌↔◌, List, ℕ, [], ◌∷◌, ◌++◌, false, length};
ghost use Rattle.std.specs.Prelude.{decimal, codes, IsTrue, IsErr, OnOk, OnErr};
ghost use Rattle.std.specs.Io.KnownBytes.{Appends};
ghost use Rattle.report_core.specs.Written.{AppendsPrefix};

use crate::sink::{Sink, WriteFailed, write_text};
use arrayvec::ArrayString;
use itoa::Buffer;
use std::marker::Model;

/// The capacity of a short text, in bytes.
pub const ROOM: usize = 224;

/// A text of one or a few lines, of at most [`ROOM`] bytes.
#[derive(Drop)]
pub struct ShortText {
    text: ArrayString<ROOM>,
}

impl Model for ShortText {
    ghost Value = { List ℕ };

    ghost view = { λ l. l.text.bytes };
}

impl ShortText {
    /// The empty text.
    pub fn new() -> ShortText
        ensures { result ≡ [] }
    {
        ShortText {
            text: ArrayString::new(),
        }
    }

    /// A text that begins like each line of a message, with the program's name.
    pub fn begun() -> ShortText
        // the beginning of each line of a fault
        ensures text { result ≡ codes "rjoin: " }
        // its 7 bytes
        ensures len { length result ≡ 7 }
    {
        let mut line = ShortText::new();
        line.push("rjoin: ");
        line
    }

    /// Adds a text.
    pub fn push(&mut self, text: &str)
        requires { length self.old + length text.now ≤ ROOM }
        // it is appended
        ensures text { self.new ≡ self.old ++ text.now }
        // by as many bytes as it has, at most 10 for a number
        ensures len { length self.new ≡ length self.old + length text.now }
    {
        self.text.push_str(text);
    }

    /// Adds a number in decimal digits.
    pub fn push_number(&mut self, number: u32)
        requires { length self.old + 10 ≤ ROOM }
        // as of `ShortText::push`
        ensures text { self.new ≡ self.old ++ decimal number }
        ensures len { length self.new ≤ length self.old + 10 }
    {
        self.push(Buffer::new().format(number));
    }

    /// The text so far.
    pub fn as_str(&self) -> &str
        ensures { result.now ≡ self.now }
    {
        self.text.as_str()
    }

    /// Ends the line with a line feed and writes the text.
    pub fn write<S: Sink>(mut self, sink: &mut S) -> Result<(), WriteFailed>
        requires room { length self < ROOM }
        requires fresh { S.has_failed sink.old ≡ false }
        // as of `write_text`
        ensures ok { OnOk result (Appends (S.written sink.old) (S.written sink.new)
            (self ++ 10 ∷ [])) }
        ensures flushed { OnOk result (IsTrue (S.is_flushed sink.new)) }
        ensures err { OnErr result (AppendsPrefix (S.written sink.old) (S.written sink.new)
            (self ++ 10 ∷ [])) }
        ensures failed { IsErr result ↔ IsTrue (S.has_failed sink.new) }
    {
        self.push("\n");
        write_text(sink, self.as_str().as_bytes())
    }
}
