//! The descriptions of joins by distance, and of searches for the nearest features.

use near_core::{Distance, Nearness};
use nearest_core::Query;
use pair_core::Options;
use wkt_core::Scale;

/// A join of two layers by distance, after edits.
#[derive(Clone, Copy)]
pub struct NearJob {
    /// The number of decimals that coordinates of the layers and the edits may have, and distances
    /// in the report.
    pub scale: Scale,
    /// How far the geometries of a pair are apart at most, in units of the scale.
    pub distance: Distance,
    /// Whether the geometries of a pair may share a point.
    pub nearness: Nearness,
    pub options: Options,
}

/// A search for the features of a layer that are nearest to each feature of another, after edits.
#[derive(Clone, Copy)]
pub struct NearestJob {
    /// The number of decimals that coordinates of the layers and the edits may have, and distances
    /// in the report.
    pub scale: Scale,
    /// How many right features are sought for each left one, and within which distance, in units of
    /// the scale.
    pub query: Query,
    /// Of these, only the number of workers matters to the search.
    pub options: Options,
}
