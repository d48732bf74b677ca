//! Whichever allocation fails, the test of rings then has the same result as without the failure.

use crate::zigzags::{edge, zigzag};
use plane_core::Edge;
use ring_core::is_proper;
use std::alloc::Global;

/// The edges, made again if an allocation fails.
fn zigzag_at_last(alloc: Global, last: Edge) -> Option<Vec<Edge>> {
    for _ in 0..10 {
        if let Ok(edges) = zigzag(alloc, 20, last) {
            return Some(edges);
        }
    }
    None
}

/// Whether edges meet properly, tested again if an allocation fails.
fn is_proper_at_last(alloc: Global, edges: &[Edge]) -> Option<bool> {
    for _ in 0..10 {
        if let Ok(is_proper) = is_proper(alloc, edges) {
            return Some(is_proper);
        }
    }
    None
}

/// Whether the test of the edges of a zigzag and one more has the expected result.
fn is_found(alloc: Global, last: Edge, is_proper: bool) -> bool {
    zigzag_at_last(alloc, last).is_some_and(|edges| is_proper_at_last(alloc, &edges)
        == Some(is_proper))
}

#[test]
fn refused_to_proper_rings(rt: HostRuntime) {
    assert!(&rt; is_found(rt.alloc(), edge(0, 5, 20, 5), true));
}

#[test]
fn refused_to_improper_rings(rt: HostRuntime) {
    assert!(&rt; is_found(rt.alloc(), edge(10, 2, 11, -1), false));
}
