//! Writers that fail.

ghost use Rattle.std.specs.Prelude.{◌≡◌, false};
ghost use Rattle.report_core.specs.ToWrite.{failed_of};

use report_core::ToWrite;
use run_core::RunFault;
use std::alloc::Global;
use std::io;
use std::io::{ErrorKind, Write};

/// A writer that takes at most `step` bytes per call, interrupts every other call, and fails once
/// it has taken `room` bytes.
#[derive(Drop)]
pub struct Device {
    pub taken: Vec<u8>,
    room: usize,
    step: usize,
    interrupts: bool,
}

impl Write for Device {
    fn write(&mut self, text: &[u8]) -> io::Result<usize> {
        self.interrupts = !self.interrupts;
        if self.interrupts {
            return Err(io::Error::from(ErrorKind::Interrupted));
        }
        let room = self.room.saturating_sub(self.taken.len());
        if room == 0 {
            return Err(io::Error::from(ErrorKind::BrokenPipe));
        }
        let front = &text[..text.len().min(room).min(self.step)];
        self.taken.extend_from_slice(front)?;
        Ok(front.len())
    }

    fn flush(&mut self) -> io::Result<()> {
        Ok(())
    }
}

/// A sink over such a device.
pub fn make_device(alloc: Global, room: usize, step: usize) -> ToWrite<Device>
    ensures { failed_of result ≡ false }
{
    let taken = Vec::new(alloc);
    ToWrite::new(Device {
        taken,
        room,
        step,
        interrupts: false,
    })
}

/// Whether a run over a device of capacity `room` has the right result, and the device took the
/// prefix of the text that fits.
pub fn has_front(outcome: Result<(), RunFault>, taken: &[u8], text: &[u8], room: usize) -> bool {
    let answer = if room < text.len() {
        Err(RunFault::Write)
    } else {
        Ok(())
    };
    outcome == answer && Some(taken) == text.get(..room.min(text.len()))
}
