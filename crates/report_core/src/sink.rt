//! Output devices, and writing whole texts to one.

ghost use Rattle.std.specs.Prelude.{◌≡◌, ℕ, ◌<◌, ◌≤◌, ◌↔◌, List, Option, Bool, false, length};
ghost use Rattle.std.specs.Prelude.{IsTrue, IsErr, IfOk, OnOk, OnErr};
ghost use Rattle.std.specs.Io.KnownBytes.{Appends, Keeps, WriteAppends};
ghost use Rattle.report_core.specs.Written.{AppendsPrefix, joined};

use thiserror::Error;

/// The device has failed.
#[derive(Clone, Copy, Debug, PartialEq, Eq, Error)]
#[error("write failed")]
pub struct WriteFailed;

/// An output device. Once it has failed, it stays failed.
///
/// A call requires that the device hasn't failed yet.
pub trait Sink {
    /// All that was written so far, or `None` if the device doesn't report it.
    ghost written: { Self → Option (List ℕ) };

    /// Whether everything written has been flushed.
    ghost is_flushed: { Self → Bool };

    /// Whether the device has failed.
    ghost has_failed: { Self → Bool };

    /// Takes a prefix of the text and returns its length, which is at least 1 unless the text is
    /// empty.
    fn write(&mut self, text: &[u8]) -> Result<usize, WriteFailed>
        requires { has_failed self.old ≡ false }
        // of each sink, it takes no more bytes than there are
        ensures within { IfOk result (λ n. n ≤ length text.now) }
        // at least one of them
        ensures some { IfOk result (λ n. 0 < length text.now → 0 < n) }
        // the first ones, behind what was written
        ensures bytes { WriteAppends (written self.old) (written self.new) result text.now }
        // it is an error exactly where the sink has failed then
        ensures failed { IsErr result ↔ IsTrue (has_failed self.new) };

    /// Flushes the text written so far.
    fn flush(&mut self) -> Result<(), WriteFailed>
        requires { has_failed self.old ≡ false }
        // nothing more is written
        ensures bytes { Keeps (written self.old) (written self.new) }
        // all that was is flushed
        ensures flushed { OnOk result (IsTrue (is_flushed self.new)) }
        // as above
        ensures failed { IsErr result ↔ IsTrue (has_failed self.new) };

    /// Whether the device has failed.
    fn failed(&self) -> bool
        ensures { result ≡ has_failed self.now };
}

/// Writes the whole text and flushes it. If the device fails, a prefix of the text was written.
pub fn write_text<S: Sink>(sink: &mut S, text: &[u8]) -> Result<(), WriteFailed>
    requires { S.has_failed sink.old ≡ false }
    // all was written
    ensures ok { OnOk result (Appends (S.written sink.old) (S.written sink.new) text.now) }
    // flushed
    ensures flushed { OnOk result (IsTrue (S.is_flushed sink.new)) }
    // a prefix was written
    ensures err { OnErr result (AppendsPrefix (S.written sink.old) (S.written sink.new) text.now) }
    // a fault exactly where the sink has failed
    ensures failed { IsErr result ↔ IsTrue (S.has_failed sink.new) }
{
    write_all(sink, text)?;
    sink.flush()
}

/// Writes these texts in order and flushes them. If the device fails, a prefix of their
/// concatenation was written.
pub fn write_texts<S: Sink>(sink: &mut S, texts: &[Vec<u8>]) -> Result<(), WriteFailed>
    requires { S.has_failed sink.old ≡ false }
    // as of `write_text`
    ensures ok { OnOk result (Appends (S.written sink.old) (S.written sink.new)
        (joined texts.now)) }
    ensures flushed { OnOk result (IsTrue (S.is_flushed sink.new)) }
    ensures err { OnErr result (AppendsPrefix (S.written sink.old) (S.written sink.new)
        (joined texts.now)) }
    ensures failed { IsErr result ↔ IsTrue (S.has_failed sink.new) }
{
    for text in texts {
        let bytes = text.as_slice();
        write_all(sink, bytes)?;
    }
    sink.flush()
}

/// Writes the whole text.
fn write_all<S: Sink>(sink: &mut S, text: &[u8]) -> Result<(), WriteFailed>
    requires { S.has_failed sink.old ≡ false }
    ensures ok { OnOk result (Appends (S.written sink.old) (S.written sink.new) text.now) }
    ensures err { OnErr result (AppendsPrefix (S.written sink.old) (S.written sink.new) text.now) }
    ensures failed { IsErr result ↔ IsTrue (S.has_failed sink.new) }
{
    let mut rest = text;
    while !rest.is_empty() {
        let taken = sink.write(rest)?;
        rest = &rest[taken..];
    }
    Ok(())
}
