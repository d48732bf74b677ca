//! One decimal number of a text at a [`Scale`]: read, exactly or as the nearest unit, and printed.
//!
//! At scale 2 a unit is 0.01:
//!
//! | Number | Read as | With [`Rounding::Nearest`] | Printed as |
//! |---|---|---|---|
//! | `1.250`, `+01.25` | 125 | 125 | `1.25` |
//! | `-0.1` | -10 | -10 | `-0.1` |
//! | `1.255` | not whole | 126 | `1.26` |
//! | `-0.005` | not whole | -1 | `-0.01` |
//! | `.5` | no number | 50 | `0.5` |
//! | `5e-1` | 500, and `e-1` is left | 50 | `0.5` |
#![tactic(auto)]

mod laws;
mod limits;
mod number;
mod printer;
mod rounded;
mod scale;

pub use laws::{nearest_law, number_law, printed_law};
pub use limits::Limits;
pub use number::{ReadNumber, read_number, read_number_to};
pub use printer::push_number;
pub use scale::{Rounding, Scale};
