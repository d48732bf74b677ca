//! The bounding boxes of edges, as entries of a tree.

ghost use Rattle.std.specs.Prelude.{◌≤◌, ◌^◌, ◌<◌, ℕ, length, count_by, IfOk};
ghost use Rattle.rtree_core.specs.Trees.{has_number};
ghost use Rattle.edge_index_core.specs.Entries.{AreEntriesOf};

use crate::bounds::bounds_of;
use plane_core::Edge;
use rtree_core::Entry;
use std::alloc::{AllocError, Global};

/// The bounding boxes of edges, numbered by the edges' indexes.
pub fn entries_of(alloc: Global, edges: &[Edge]) -> Result<Vec<Entry>, AllocError>
    requires { length edges.now < 2 ^ 32 }
    // the box of each edge, numbered by the edge's place
    ensures entries { IfOk result (λ v. AreEntriesOf edges.now v.items) }
    // no two have one number
    ensures distinct { IfOk result (λ v. (k : ℕ) → count_by (has_number k) v.items ≤ 1) }
{
    let mut entries = Vec::with_capacity(alloc, edges.len())?;
    for (i, e) in edges.iter().enumerate() {
        let shape = bounds_of(e);
        let number = i as u32;
        entries.push(Entry { shape, number })?;
    }
    Ok(entries)
}
