//! What is kept from one edge of a geometry to the next.

use crate::known::Seen;
use plane_core::{Edge, Node, Vertex};

/// The edges near an edge, the single points that may be on it, the nodes of the edge, and its last
/// end, where the part of the other geometry in which this lies is known.
#[derive(Drop)]
pub(crate) struct Work {
    pub(crate) near: Vec<Edge>,
    pub(crate) points: Vec<Vertex>,
    pub(crate) nodes: Vec<Node>,
    pub(crate) seen: Option<Seen>,
}
