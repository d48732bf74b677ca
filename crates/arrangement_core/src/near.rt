//! The edges of one geometry near an edge of the other.

ghost use Rattle.std.specs.Prelude.{All, OnOk};
ghost use Rattle.noding_core.specs.Near.{IsFound, AddsAmong};
ghost use Rattle.noding_core.specs.ReadOffs.{IsOwn};
ghost use Rattle.arrangement_core.specs.Around.{HasNear};

use crate::pair::Pair;
use noding_core::{push_few, push_near};
use plane_core::Edge;
use std::alloc::AllocError;

/// The greatest number of edges around a box that are looked at one by one, and not by the index of
/// all edges.
const FEW: usize = 16;

/// Adds the edges of the second geometry whose boxes meet the box of an edge of the first. These
/// are among those around the box of the first.
pub(crate) fn push_second(near: &mut Vec<Edge>, e: &Edge, pair: &Pair) -> Result<(), AllocError>
    requires own { IsOwn pair.now.first.now e.now }
    requires around { HasNear pair.now.first.now pair.now.second.now pair.now.second_around.now }
    ensures own { let edges = pair.now.second.now.edges.items in
        OnOk result (AddsAmong edges near.old.items near.new.items) }
    ensures found { let near = near.new.items in
        OnOk result (All (IsFound e.now near) pair.now.second.now.edges.items) }
{
    if pair.second_around.len() <= FEW {
        push_few(near, e, pair.second_around)
    } else {
        push_near(near, e, pair.second)
    }
}
