//! Texts that a run writes.

ghost use Rattle.std.specs.Prelude.{◌≡◌, ◌↔◌, false, IsErr, IsTrue, OnErr, OnOk};
ghost use Rattle.std.specs.Io.KnownBytes.{Appends};
ghost use Rattle.report_core.specs.Written.{AppendsPrefix};
ghost use Rattle.run_core.specs.Texts.{bytes_of_text};

use report_core::{ShortText, Sink, WriteFailed, write_text, write_texts};

/// A text that a run writes, in the form in which it was made.
#[derive(Drop)]
pub enum Text {
    /// A few lines.
    Lines(ShortText),
    /// CSV.
    Rows(Vec<u8>),
    /// SVG.
    Picture(String),
    /// CSV, as texts to be concatenated.
    Report(Vec<Vec<u8>>),
}

impl Text {
    /// Writes and flushes the text. If the device fails, a prefix of it was written.
    pub fn write<S: Sink>(&self, sink: &mut S) -> Result<(), WriteFailed>
        requires { S.has_failed sink.old ≡ false }
        // as `write_text` of its bytes
        ensures ok { OnOk result
            (Appends (S.written sink.old) (S.written sink.new) (bytes_of_text self.now)) }
        ensures flushed { OnOk result (IsTrue (S.is_flushed sink.new)) }
        ensures err { OnErr result
            (AppendsPrefix (S.written sink.old) (S.written sink.new) (bytes_of_text self.now)) }
        ensures failed { IsErr result ↔ IsTrue (S.has_failed sink.new) }
    {
        match self {
            Text::Lines(lines) => write_text(sink, lines.as_str().as_bytes()),
            Text::Rows(rows) => write_text(sink, rows.as_slice()),
            Text::Picture(picture) => write_text(sink, picture.as_bytes()),
            Text::Report(texts) => write_texts(sink, texts.as_slice()),
        }
    }
}
