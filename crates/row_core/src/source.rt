//! Sources of bytes, and reading all bytes of one.

ghost use Rattle.std.specs.Prelude.{◌≡◌, ◌≤◌, ◌<◌, ◌↔◌, ℕ, List, Option, None, Bool, true, false};
ghost use Rattle.std.specs.Prelude.{length, is_err, IfOk, IfErr, IfSome, IsErrOf, IsTrue};
ghost use Rattle.std.specs.Io.KnownBytes.{ReadConsumes};
ghost use Rattle.row_core.specs.Limits.{most_file_bytes};
ghost use Rattle.row_core.specs.Sources.{IsReadingFault};

use crate::read_fault::ReadFault;
use number_core::Limits;
use std::alloc::Global;
use std::io::{ErrorKind, Read};
use thiserror::Error;

/// The greatest number of bytes of a file with these limits.
pub fn max_file_bytes(limits: Limits) -> usize
    // 134,217,728 of boxes, or 4,294,967,295 of geometries of any kind
    ensures { result ≡ most_file_bytes limits }
{
    match limits {
        Limits::Boxes => 134_217_728,
        Limits::Any => 4_294_967_295,
    }
}

/// The number of bytes that one read asks for.
const CHUNK: usize = 65_536;

/// A read that failed.
#[derive(Clone, Copy, Debug, PartialEq, Eq, Error)]
#[error("read failed")]
pub struct Failed;

/// A source of bytes, which remembers whether a read failed.
pub trait Source {
    /// The bytes that remain to be read, if they are known.
    ghost remaining: { Self → Option (List ℕ) } = { λ _. None };

    /// Whether a read has failed.
    ghost has_failed: { Self → Bool };

    /// Reads some bytes into the buffer and returns their number, which is 0 only at the end or if
    /// the buffer is empty. If it fails, no byte is consumed.
    fn read(&mut self, buffer: &mut [u8]) -> Result<usize, Failed>
        requires { has_failed self.old ≡ false }
        // of each source, no more bytes than the buffer has
        ensures bound { IfOk result (λ n. n ≤ length buffer.new) }
        // the next of those that are left, and none only at their end
        ensures bytes { ReadConsumes (remaining self.old) (remaining self.new) result buffer.new }
        // it is an error exactly where the source has failed then
        ensures failed { has_failed self.new ≡ is_err result };

    /// Whether a read has failed.
    fn failed(&self) -> bool
        ensures { result ≡ has_failed self.now };

    /// The expected number of bytes in all. A wrong estimate costs only time or memory.
    fn likely_len(&self) -> usize;
}

/// The source of a reader's bytes. A read interrupted by a signal is tried again.
#[derive(Drop)]
pub struct FromRead<R> {
    reader: R,
    failed: bool,
    likely_len: usize,
}

impl<R: Read> FromRead<R> {
    /// A source that hasn't failed.
    pub fn new(reader: R) -> FromRead<R>
        // the reader's bytes are left
        ensures remaining { ⟦<FromRead<R> as Source>⟧.remaining result ≡ R.remaining reader }
        // it hasn't failed
        ensures fresh { ⟦<FromRead<R> as Source>⟧.has_failed result ≡ false }
    {
        FromRead::with_likely_len(reader, 0)
    }

    /// A source of about `likely_len` bytes, for which memory is reserved at once.
    pub fn with_likely_len(reader: R, likely_len: usize) -> FromRead<R>
        // as of `FromRead::new`
        ensures remaining { ⟦<FromRead<R> as Source>⟧.remaining result ≡ R.remaining reader }
        ensures fresh { ⟦<FromRead<R> as Source>⟧.has_failed result ≡ false }
    {
        FromRead {
            reader,
            failed: false,
            likely_len,
        }
    }
}

impl<R: Read> Source for FromRead<R> {
    ghost remaining = { λ source. R.remaining source.reader };

    ghost has_failed = { λ source. source.failed };

    fn read(&mut self, buffer: &mut [u8]) -> Result<usize, Failed> {
        'tries: for _ in 0..u64::MAX {
            match self.reader.read(buffer) {
                Ok(count) => return Ok(count),
                Err(e) if e.kind() == ErrorKind::Interrupted => {}
                Err(_) => break 'tries,
            }
        }
        self.failed = true;
        Err(Failed)
    }

    fn failed(&self) -> bool {
        self.failed
    }

    fn likely_len(&self) -> usize {
        self.likely_len
    }
}

/// All bytes of a source that hasn't failed.
///
/// # Errors
/// [`ReadFault::Io`] if a read fails, [`ReadFault::TooLong`] if there are more than
/// [`max_file_bytes`] bytes, and [`ReadFault::Memory`].
pub fn read_all<S: Source>(
    alloc: Global,
    limits: Limits,
    source: &mut S,
) -> Result<Vec<u8>, ReadFault>
    requires { S.has_failed source.old ≡ false }
    // all that are left
    ensures bytes { IfOk result
        (λ all. IfSome (S.remaining source.old) (λ left. all.items ≡ left)) }
    // at most as many as the limits allow
    ensures few { IfOk result (λ all. length all.items ≤ most_file_bytes limits) }
    // `TooLong` comes only where there are more
    ensures too_long { IsErrOf result ReadFault.TooLong
        → IfSome (S.remaining source.old) (λ left. most_file_bytes limits < length left) }
    // `Io` exactly where the reader has failed
    ensures io { IsErrOf result ReadFault.Io ↔ IsTrue (S.has_failed source.new) }
    // no fault of what the bytes say
    ensures others { IfErr result IsReadingFault }
{
    let most = max_file_bytes(limits);
    let mut all = Vec::with_capacity(alloc, source.likely_len().min(most))?;
    let mut chunk = [0; CHUNK];
    loop {
        let Ok(count) = source.read(&mut chunk) else {
            return Err(ReadFault::Io);
        };
        if count == 0 {
            return Ok(all);
        }
        if count > most - all.len() {
            return Err(ReadFault::TooLong);
        }
        all.extend_from_slice(&chunk[..count])?;
    }
}
