//! Numbers in path data.

ghost use Rattle.std.specs.Prelude.{◌≡◌, ◌++◌, OnOk};
ghost use Rattle.std.specs.String.{string_bytes};
ghost use Rattle.draw_core.specs.Outlines.{numbered};

use itoa::Buffer;
use std::alloc::AllocError;

/// Adds a path command and its number.
pub(crate) fn push_number(text: &mut String, command: &str, number: i64) -> Result<(), AllocError>
    ensures { OnOk result
        (string_bytes text.new ≡ string_bytes text.old ++ numbered command.now number) }
{
    let mut digits = Buffer::new();
    text.push_str(command)?;
    text.push_str(digits.format(number))
}
