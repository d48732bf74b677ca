//! The rule for the rings of areas.

/// The rings that areas may have.
#[derive(Clone, Copy, PartialEq, Eq)]
pub enum Rings {
    /// Rings with an area that neither cross nor run along each other or themselves, so that every
    /// geometry has an interior.
    Proper,
    /// Any closed rings, whose interior is that of the even-odd rule and may be empty.
    EvenOdd,
}
