//! The path that stands for standard input.

ghost use Rattle.std.specs.Prelude.{◌≡◌};
ghost use Rattle.words_core.specs.Readings.{is_dash};

/// The path that stands for standard input.
const STANDARD_INPUT: &str = "-";

/// Whether a path stands for standard input.
pub fn is_standard_input(path: &str) -> bool
    ensures { result ≡ is_dash path.now }
{
    path == STANDARD_INPUT
}
