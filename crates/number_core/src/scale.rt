//! The number of decimals of a coordinate, its limits, and whether numbers are rounded to it.

ghost use Rattle.std.specs.Prelude.{◌≤◌};
ghost use Rattle.number_core.specs.ScaleLimits.{most_digits};

use crate::limits::Limits;

/// How a number that is no whole number of units is read.
#[derive(Clone, Copy, PartialEq, Eq)]
pub enum Rounding {
    /// It is refused.
    Exact,
    /// As the nearest unit, and half a unit away from zero.
    Nearest,
}

/// The number of decimals of all coordinates, the limits of coordinates, and how numbers with more
/// decimals are read.
///
/// At scale k a coordinate is a whole number of units of 10^-k.
#[derive(Clone, Copy, PartialEq, Eq)]
pub struct Scale {
    digits: u8,
    rounding: Rounding,
    limits: Limits,
    ghost few: { digits ≤ most_digits limits },
}

impl Scale {
    ghost use Rattle.std.specs.Prelude.{◌≡◌, ◌≤◌, ◌^◌, ◌↔◌, IsSome, IfSome};
    ghost use Rattle.number_core.specs.declared.scale.Rounding.TheVariants.{Exact, Nearest};
    ghost use Rattle.number_core.specs.declared.limits.Limits.TheVariants.{Any, Boxes};
    ghost use Rattle.number_core.specs.ScaleLimits.{most_digits};
    ghost use Rattle.number_core.specs.Scales.{digits_of, limits_of, rounding_of};

    /// The scale of boxes with this number of decimals, or `None` if it is greater than 6. A number
    /// with a digit other than 0 after them is refused.
    pub fn new(digits: u32) -> Option<Scale>
        // Some exactly for 0 to 6 decimals
        ensures some { IsSome result ↔ (digits ≤ most_digits Boxes) }
        // it has these
        ensures digits { IfSome result (λ scale. digits_of scale ≡ digits) }
        // it has the limits of boxes
        ensures limits { IfSome result (λ scale. limits_of scale ≡ Boxes) }
        // it doesn't round
        ensures exact { IfSome result (λ scale. rounding_of scale ≡ Exact) }
    {
        Scale::within(Limits::Boxes, digits)
    }

    /// The scale with these limits and this number of decimals, or `None` if the limits allow
    /// fewer. A number with a digit other than 0 after them is refused.
    pub fn within(limits: Limits, digits: u32) -> Option<Scale>
        // Some exactly for as many decimals as the limits allow
        ensures some { IsSome result ↔ (digits ≤ most_digits limits) }
        // it has these
        ensures digits { IfSome result (λ scale. digits_of scale ≡ digits) }
        // it has these limits
        ensures limits { IfSome result (λ scale. limits_of scale ≡ limits) }
        // it doesn't round
        ensures exact { IfSome result (λ scale. rounding_of scale ≡ Exact) }
    {
        if digits <= u32::from(limits.digits()) {
            Some(Scale {
                digits: digits as u8,
                rounding: Rounding::Exact,
                limits,
            })
        } else {
            None
        }
    }

    /// The scale with as many decimals and the same limits, at which numbers are read as `rounding`
    /// says.
    pub fn with_rounding(self, rounding: Rounding) -> Scale
        // as many decimals
        ensures digits { digits_of result ≡ digits_of self }
        // the same limits
        ensures limits { limits_of result ≡ limits_of self }
        // this rounding
        ensures rounding { rounding_of result ≡ rounding }
    {
        Scale {
            digits: self.digits,
            rounding,
            limits: self.limits,
        }
    }

    /// The number of decimals of a coordinate.
    pub fn digits(&self) -> u8
        // how many decimals
        ensures digits { result ≡ digits_of self.now }
        // as few as its limits allow
        ensures few { result ≤ most_digits (limits_of self.now) }
        // at most 15
        ensures fifteen { result ≤ most_digits Any }
    {
        self.digits
    }

    /// The limits of coordinates.
    #[inline(always)]
    pub fn limits(&self) -> Limits
        ensures { result ≡ limits_of self.now }
    {
        self.limits
    }

    /// How a number that is no whole number of units is read.
    pub fn rounding(&self) -> Rounding
        ensures { result ≡ rounding_of self.now }
    {
        self.rounding
    }

    /// The number of units in 1.
    pub(crate) fn units_in_one(&self) -> u64
        ensures { result ≡ 10 ^ digits_of self.now }
    {
        10_u64.pow(u32::from(self.digits))
    }
}
