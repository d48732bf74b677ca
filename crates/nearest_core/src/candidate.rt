//! What waits in the queue of a search: subtrees and features.

use distance_core::SquaredDistance;
use rtree_core::Node;

/// A subtree, or the number of a feature. A subtree comes before a feature, and features come by
/// number.
#[derive(Drop)]
#[derive_where(PartialEq, Eq, PartialOrd, Ord)]
pub(crate) enum Item<'a> {
    Subtree(#[derive_where(skip)] &'a Node),
    Feature(u32),
}

/// An item with a squared distance: that of the feature, or that of the subtree's cover, which is
/// at most that of each feature in it.
///
/// Candidates come by their squared distances, and then by their items. So a subtree whose cover is
/// as far away as a feature comes first, since it may hold a feature that is as near.
#[derive(Drop, PartialEq, Eq, PartialOrd, Ord)]
pub(crate) struct Candidate<'a> {
    pub(crate) square: SquaredDistance,
    pub(crate) item: Item<'a>,
}
