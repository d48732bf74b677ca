//! Messages on geometries with improper rings, written after their matrix.

ghost use Rattle.std.specs.Prelude.{◌≡◌, ◌↔◌, false, IsErr, IsTrue};
ghost use Rattle.command_core.specs.Endings.{IsToldOfRings, improper_text};

use relate_any_core::Improper;
use report_core::{Sink, WriteFailed, write_text};

/// Writes one line for each geometry with improper rings: the even-odd rule was applied to it.
///
/// # Errors
/// If the sink has failed.
pub fn tell_improper<E: Sink>(improper: &Improper, errors: &mut E) -> Result<(), WriteFailed>
    requires { E.has_failed errors.old ≡ false }
    ensures told { IsToldOfRings E.written E.has_failed errors.old errors.new improper.now }
    ensures failed { IsErr result ↔ IsTrue (E.has_failed errors.new) }
{
    if improper.first || improper.second {
        write_text(errors, improper_text(improper).as_bytes())
    } else {
        Ok(())
    }
}

/// The lines for the geometries with improper rings.
fn improper_text(improper: &Improper) -> &'static str
    ensures { result.now ≡ improper_text improper.now }
{
    match (improper.first, improper.second) {
        (true, true) => {
            "rjoin: first: even-odd rule for improper rings\n\
             rjoin: second: even-odd rule for improper rings\n"
        }
        (true, false) => "rjoin: first: even-odd rule for improper rings\n",
        (false, true) => "rjoin: second: even-odd rule for improper rings\n",
        (false, false) => "",
    }
}
