//! Which of the near pairs a join by distance gives.

/// Which pairs of features are asked for.
#[derive(Clone, Copy, PartialEq, Eq)]
pub enum Nearness {
    /// Those that are at most their distance apart.
    Within,
    /// Those of them that share no point.
    Apart,
}
