//! The output that is made of the pairs of a join.

/// The output that a join makes of its pairs.
#[derive(Clone, Copy, PartialEq, Eq)]
pub enum Product {
    /// A CSV record for each pair, in layer order, with the letters of its matrix.
    Report,
    /// A CSV record for each pair, in layer order, with the ids of its features alone.
    Pairs,
    /// The report of the first pair of each left feature that is in one.
    Firsts,
    /// The first pair of each left feature that is in one, with the ids of its features alone.
    FirstPairs,
    /// A CSV record for each left feature, in layer order, with the number of its pairs.
    Counts,
    /// A CSV record for each left feature that is in no pair, in layer order.
    Unmatched,
    /// The features of both layers as SVG, with those that occur in a pair highlighted.
    Picture,
}
