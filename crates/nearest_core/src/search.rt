//! The best-first search of a layer's tree for the features nearest to a geometry.

ghost use Rattle.std.specs.Prelude.{◌≡◌, ◌↔◌, [], All, IsTrue, OnOk, IsPermutation};
ghost use Rattle.std.specs.BinaryHeap.{heap_items, IsHeap};
ghost use Rattle.rtree_core.specs.Nodes.{IsLawful};
ghost use Rattle.nearest_core.specs.Nearest.{AreNearestIn};
ghost use Rattle.nearest_core.specs.Queues.{waiting, measured_in, nearest_last, lists_of};
ghost use Rattle.nearest_core.specs.Searches.{Opens, AddsEntries, AddsNodes};
ghost use Rattle.nearest_core.specs.Steps.{EndsAt, HoldsAll, IsFull, IsVisitable, Visits};
ghost use Rattle.nearest_core.specs.Steps.{with_one};

use crate::candidate::{Candidate, Item};
use crate::measure::square_of;
use crate::neighbour::Neighbour;
use crate::next::{Measured, Next, next_of};
use crate::prepared::PreparedLayer;
use crate::queue::Queue;
use crate::sought::Sought;
use distance_core::{Query, SquaredDistance, squared_distance};
use geom_core::Shape;
use planar_core::{Planar, Square};
use rtree_core::{Entry, Node};
use std::alloc::{AllocError, Global};
use std::cmp::Reverse;

/// The lists of a search, whose room is used again by the next one.
#[derive(Drop)]
pub(crate) struct Room<'a, S: Square> {
    queue: Queue<'a>,
    measured: Measured<S>,
    pub(crate) found: Vec<Neighbour<S>>,
}

impl<'a, S: Square> Room<'a, S> {
    /// No lists.
    pub(crate) fn new(alloc: Global) -> Room<'a, S> {
        Room {
            queue: Queue::new(alloc),
            measured: Measured::new(alloc),
            found: Vec::new(alloc),
        }
    }
}

/// Finds the neighbours of a geometry that are asked for, the nearest first. What the lists hold is
/// dropped.
///
/// One queue holds subtrees and features by the distances of their boxes, and another the features
/// that were measured. What is nearest of both comes next (Hjaltason and Samet 1999): a subtree is
/// replaced by its children or entries, a feature is measured, and one that was measured is found.
/// So no subtree is opened and no feature measured that can't be one of those that are asked for.
pub(crate) fn search<'a, G: Planar>(
    alloc: Global,
    right: &PreparedLayer<'a, G>,
    sought: &Sought<'_, G>,
    room: &mut Room<'a, G::Square>,
) -> Result<(), AllocError>
    requires bounds { sought.now.bounds ≡ G.box_of sought.now.geometry.now }
    requires form { G.is_form sought.now.geometry.now sought.now.form.now }
    ensures { OnOk result (AreNearestIn G.Square.fraction G.has_point sought.now.query.now right.now
        sought.now.geometry.now room.new.found.items) }
{
    room.queue.clear();
    room.measured.clear();
    room.found.clear();
    let layer = right.layer();
    // The numbers of a layer's features are distinct, as its length's contract says.
    let _len = layer.len();
    let Some(root) = layer.tree().root() else {
        return Ok(());
    };
    room.queue.push(Candidate {
        square: squared_distance(&sought.bounds, &root.cover()),
        item: Item::Subtree(root),
    })?;
    browse(
        alloc,
        right,
        sought,
        &mut room.queue,
        &mut room.measured,
        &mut room.found,
    )
}

/// Finds those that are asked for among the features that the candidates of a queue stand for, the
/// nearest first.
fn browse<'a, G: Planar>(
    alloc: Global,
    right: &PreparedLayer<'a, G>,
    sought: &Sought<'_, G>,
    queue: &mut Queue<'a>,
    measured: &mut Measured<G::Square>,
    found: &mut Vec<Neighbour<G::Square>>,
) -> Result<(), AllocError>
    requires bounds { sought.now.bounds ≡ G.box_of sought.now.geometry.now }
    requires form { G.is_form sought.now.geometry.now sought.now.form.now }
    requires empty { (measured_in measured.old ≡ []) × (found.old.items ≡ []) }
    requires heap { IsHeap (nearest_last G.Square.fraction) (heap_items measured.old) }
    requires queue { HoldsAll G.box_of right.now sought.now.geometry.now (waiting queue.old) }
    ensures { OnOk result (AreNearestIn G.Square.fraction G.has_point sought.now.query.now right.now
        sought.now.geometry.now found.new.items) }
{
    while let Some(next) = next_of(queue, measured) {
        let ends = ends_at(sought.query, found, &next);
        if ends {
            return Ok(());
        }
        visit(alloc, right, sought, next, queue, measured, found)?;
    }
    Ok(())
}

/// Opens a subtree, measures a feature, or adds a measured one to those that are found.
fn visit<'a, G: Planar>(
    alloc: Global,
    right: &PreparedLayer<'a, G>,
    sought: &Sought<'_, G>,
    next: Next<'a, G::Square>,
    queue: &mut Queue<'a>,
    measured: &mut Measured<G::Square>,
    found: &mut Vec<Neighbour<G::Square>>,
) -> Result<(), AllocError>
    requires form { G.is_form sought.now.geometry.now sought.now.form.now }
    requires heap { IsHeap (nearest_last G.Square.fraction) (heap_items measured.old) }
    requires next { IsVisitable G.box_of sought.now.query.now right.now sought.now.geometry.now
        sought.now.bounds next }
    ensures heap { IsHeap (nearest_last G.Square.fraction) (heap_items measured.new) }
    ensures visits { OnOk result (Visits G.Square.fraction G.has_point sought.now.query.now
        right.now sought.now.geometry.now sought.now.bounds next.entry
        (lists_of queue.old measured.old found.old.items)
        (lists_of queue.new measured.new found.new.items)) }
{
    match next {
        Next::Boxed(candidate) => match candidate.item {
            Item::Subtree(node) => open(queue, &sought.bounds, node),
            Item::Feature(number) => {
                let square = square_of(alloc, right, number, candidate.square, sought)?;
                push_measured(measured, number, square)
            }
        },
        Next::Measured(neighbour) => {
            found.push(neighbour)?;
            Ok(())
        }
    }
}

/// Adds a feature to those that were measured, if it is in reach.
fn push_measured<S: Square>(
    measured: &mut Measured<S>,
    number: u32,
    square: Option<S>,
) -> Result<(), AllocError>
    requires { IsHeap (nearest_last S.fraction) (heap_items measured.old) }
    ensures heap { IsHeap (nearest_last S.fraction) (heap_items measured.new) }
    ensures added { OnOk result
        (IsPermutation (with_one number square (measured_in measured.old))
        (measured_in measured.new)) }
{
    if let Some(square) = square {
        measured.push(Reverse(Neighbour { square, number }))?;
    }
    Ok(())
}

/// Whether a search has found all that are asked for, once nothing comes before this.
fn ends_at<S: Square>(query: &Query, found: &[Neighbour<S>], next: &Next<'_, S>) -> bool
    ensures { IsTrue result ↔ EndsAt S.fraction query.now found.now next.now }
{
    match next {
        Next::Boxed(candidate) => {
            let reached = query.reaches(candidate.square);
            !reached || is_full_below(query, found, candidate.square)
        }
        Next::Measured(neighbour) => is_full_before(query, found, &neighbour.square),
    }
}

/// Whether enough are found, and the last of them is strictly nearer than a whole square.
fn is_full_below<S: Square>(query: &Query, found: &[Neighbour<S>], square: SquaredDistance) -> bool
    ensures { IsTrue result ↔ IsFull S.fraction query.now found.now (square, 1) }
{
    match found.last() {
        Some(last) => found.len() >= query.most() as usize && last.square.is_below(square),
        None => false,
    }
}

/// Whether enough are found, and the last of them is strictly nearer than a square.
fn is_full_before<S: Square>(query: &Query, found: &[Neighbour<S>], square: &S) -> bool
    ensures { IsTrue result ↔ IsFull S.fraction query.now found.now (S.fraction square.now) }
{
    match found.last() {
        Some(last) => { found.len() >= query.most() as usize && last.square.order(square).is_lt() }
        None => false,
    }
}

/// Adds the entries or the children of a node to the queue.
fn open<'a>(queue: &mut Queue<'a>, shape: &Shape, node: &'a Node) -> Result<(), AllocError>
    requires { IsLawful node.now }
    ensures { OnOk result (Opens shape.now node.now (waiting queue.old) (waiting queue.new)) }
{
    let leaf = node.is_leaf();
    if leaf {
        push_entries(queue, shape, node.entries())
    } else {
        push_children(queue, shape, node.children())
    }
}

/// Adds entries to the queue.
fn push_entries<'a>(
    queue: &mut Queue<'a>,
    shape: &Shape,
    entries: &[Entry],
) -> Result<(), AllocError>
    ensures { OnOk result
        (AddsEntries shape.now entries.now (waiting queue.old) (waiting queue.new)) }
{
    for entry in entries {
        queue.push(Candidate {
            square: squared_distance(shape, &entry.shape),
            item: Item::Feature(entry.number),
        })?;
    }
    Ok(())
}

/// Adds subtrees to the queue.
fn push_children<'a>(
    queue: &mut Queue<'a>,
    shape: &Shape,
    children: &'a [Node],
) -> Result<(), AllocError>
    requires { All IsLawful children.now }
    ensures { OnOk result
        (AddsNodes shape.now children.now (waiting queue.old) (waiting queue.new)) }
{
    for child in children {
        queue.push(Candidate {
            square: squared_distance(shape, &child.cover()),
            item: Item::Subtree(child),
        })?;
    }
    Ok(())
}
