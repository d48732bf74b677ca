//! The three parts into which a geometry divides the plane.

/// A part of a geometry (OGC 06-103r4, 6.1.15.1).
#[derive(Clone, Copy, PartialEq, Eq)]
pub enum Part {
    Interior,
    Boundary,
    Exterior,
}
