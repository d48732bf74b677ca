//! The distance that a word spells.

ghost use Rattle.std.specs.Prelude.{◌≡◌, ◌≤◌, nat_abs, IfSome, IfNone};
ghost use Rattle.number_core.specs.ScaleLimits.{greatest_apart};
ghost use Rattle.number_core.specs.Scales.{limits_of};
ghost use Rattle.words_core.specs.Distances.{SpellsDistance, SpellsNoDistance};
ghost use Rattle.words_core.specs.Distances.{SpellsNoNumber, SpellsNumber};
ghost use Rattle.words_core.specs.Readings.{distance_fault};

use crate::words::WordFault;
use distance_core::Distance;
use number_core::{Limits, Scale, read_number_to};

/// The fault of a distance beyond these limits.
pub fn distance_fault(limits: Limits) -> WordFault
    ensures { result ≡ distance_fault limits }
{
    match limits {
        Limits::Boxes => WordFault::Distance,
        Limits::Any => WordFault::DistanceOfAny,
    }
}

/// The distance that a text spells, in units of the scale, or `None` if it spells none.
pub fn distance_of(text: &[u8], scale: Scale) -> Option<Distance>
    ensures some { IfSome result (SpellsDistance scale text.now) }
    ensures none { IfNone result (SpellsNoDistance scale text.now) }
{
    let units = lone_number(text, scale)?;
    if units < 0 {
        return None;
    }
    Distance::new(units as u64)
}

/// The number that the whole text spells, in units of the scale, or `None` if it spells none that
/// is whole and from -d to d, where d is the greatest distance of the limits.
fn lone_number(text: &[u8], scale: Scale) -> Option<i64>
    ensures some { IfSome result (SpellsNumber scale text.now) }
    ensures few { IfSome result (λ z. nat_abs z ≤ greatest_apart (limits_of scale)) }
    ensures none { IfNone result (SpellsNoNumber scale text.now) }
{
    let (number, rest) = read_number_to(text, scale, scale.limits().distance())?;
    if number.whole && rest.is_empty() {
        number.value
    } else {
        None
    }
}
