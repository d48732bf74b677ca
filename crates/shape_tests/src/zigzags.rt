//! A zigzag of edges, with one more edge.

use plane_core::{Edge, Vertex};
use std::alloc::{AllocError, Global};

/// The edge from `(a, b)` to `(c, d)`.
pub fn edge(a: i32, b: i32, c: i32, d: i32) -> Edge {
    let (a, b, c, d) = (i64::from(a), i64::from(b), i64::from(c), i64::from(d));
    Edge {
        a: Vertex { x: a, y: b },
        b: Vertex { x: c, y: d },
    }
}

/// The edges from `(0, 0)` to `(1, 1)`, from there to `(2, 0)` and so on, at most a million, with
/// `last` as the last one.
pub fn zigzag(alloc: Global, steps: u32, last: Edge) -> Result<Vec<Edge>, AllocError> {
    let mut edges = Vec::new(alloc);
    for step in 0..steps {
        let from = (step % 1_000_000) as i32;
        let low = (step % 2) as i32;
        edges.push(edge(from, low, from + 1, 1 - low))?;
    }
    edges.push(last)?;
    Ok(edges)
}
