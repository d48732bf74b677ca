//! The three parts into which a geometry divides the plane: interior, boundary and exterior.

/// One value for each part (OGC 06-103r4, 6.1.15.1).
#[derive(Clone, Copy, PartialEq, Eq)]
pub struct Parts<T> {
    pub interior: T,
    pub boundary: T,
    pub exterior: T,
}
