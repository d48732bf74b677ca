//! The square root, rounded.

ghost use Rattle.std.specs.Prelude.{◌<◌, ◌≤◌, ◌+◌, ◌*◌, ◌^◌};
ghost use Rattle.distance_core.specs.Roots.{IsRoundedRoot};

/// The whole number nearest to the square root of `square`, such as the distance of two shapes to
/// the nearest unit. The root of a whole number is never half way between two.
pub fn rounded_root(square: u128) -> u64
    requires { square < 2 ^ 126 }
    ensures { IsRoundedRoot square result }
{
    let double_root = floor_root(4 * square);
    ((double_root + 1) / 2) as u64
}

/// The greatest whole number that is at most the square root. The fewer bits a number type has, the
/// fewer steps its root takes, and most squares are small.
pub(crate) fn floor_root(square: u128) -> u128
    ensures square_le { result * result ≤ square }
    ensures next_square_gt { square < (result + 1) * (result + 1) }
    ensures bound { result < 2 ^ 64 }
{
    if square <= u128::from(u32::MAX) {
        u128::from((square as u32).isqrt())
    } else if square <= u128::from(u64::MAX) {
        u128::from((square as u64).isqrt())
    } else {
        square.isqrt()
    }
}
