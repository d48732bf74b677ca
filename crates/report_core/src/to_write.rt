//! A sink over a writer of the standard library.

ghost use Rattle.std.specs.Prelude.{◌≡◌, false};

use crate::sink::{Sink, WriteFailed};
use std::io::{ErrorKind, Write};

/// The state in which a writer's last call left it.
#[derive(Clone, Copy, PartialEq, Eq)]
enum State {
    /// Text was written since the last flush, or nothing was flushed yet.
    Open,
    Flushed,
    Failed,
}

/// A sink over a writer. It has failed once the writer returned an error or took no byte, and
/// reports what was written if the writer does.
#[derive(Drop)]
pub struct ToWrite<W> {
    writer: W,
    state: State,
}

impl<W: Write> ToWrite<W> {
    ghost use Rattle.report_core.specs.ToWrite.{writer_of, failed_of};

    /// A sink that hasn't failed.
    pub fn new(writer: W) -> ToWrite<W>
        // the sink of that writer
        ensures writer { writer_of result ≡ writer }
        // it hasn't failed
        ensures fresh { failed_of result ≡ false }
    {
        ToWrite {
            writer,
            state: State::Open,
        }
    }

    /// Returns the writer.
    pub fn into_inner(self) -> W
        ensures { result ≡ writer_of self }
    {
        let ToWrite { writer, state: _ } = self;
        writer
    }
}

impl<W: Write> Sink for ToWrite<W> {
    ghost use Rattle.report_core.specs.ToWrite.{is_flushed, is_failed};

    ghost written = { λ s. W.contents s.writer };

    ghost is_flushed = { λ s. is_flushed s.state };

    ghost has_failed = { λ s. is_failed s.state };

    fn write(&mut self, text: &[u8]) -> Result<usize, WriteFailed> {
        self.state = State::Open;
        'tries: for _ in 0..u64::MAX {
            match self.writer.write(text) {
                Ok(0) => break,
                Ok(taken) => return Ok(taken),
                // A signal interrupted the call before a byte was written.
                Err(error) if error.kind() == ErrorKind::Interrupted => {}
                Err(_) => break,
            }
        }
        self.state = State::Failed;
        Err(WriteFailed)
    }

    fn flush(&mut self) -> Result<(), WriteFailed> {
        match self.writer.flush() {
            Ok(()) => {
                self.state = State::Flushed;
                Ok(())
            }
            Err(_) => {
                self.state = State::Failed;
                Err(WriteFailed)
            }
        }
    }

    fn failed(&self) -> bool {
        self.state == State::Failed
    }
}
