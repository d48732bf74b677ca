//! What a search takes next: a candidate by its box, or a feature whose distance was measured.

ghost use Rattle.std.specs.Prelude.{◌≡◌, ◌<◌, [], length, All, IfSome, IfNone, IsTrue, false};
ghost use Rattle.std.specs.Prelude.{slice_index_or};
ghost use Rattle.std.specs.BinaryHeap.{heap_items, IsHeap};
ghost use Rattle.std.specs.declared.cmp.Reverse.{Reverse};
ghost use Rattle.nearest_core.specs.declared.neighbour.Neighbour.{Neighbour};
ghost use Rattle.nearest_core.specs.Queues.{waiting, measured_in, nearest_last};
ghost use Rattle.nearest_core.specs.Steps.{IsNext};
ghost use Rattle.planar_core.specs.Squares.{IsLess, IsNoMore};

use crate::candidate::Candidate;
use crate::neighbour::Neighbour;
use crate::queue::Queue;
use distance_core::SquaredDistance;
use planar_core::Square;
use std::cmp::Reverse;
use std::collections::BinaryHeap;

/// A candidate, or a feature whose distance was measured.
#[derive(Drop)]
pub(crate) enum Next<'a, S> {
    Boxed(Candidate<'a>),
    Measured(Neighbour<S>),
}

/// The features that were measured and not yet found to be the next, the nearest first.
pub(crate) type Measured<S> = BinaryHeap<Reverse<Neighbour<S>>>;

/// Takes out what comes next. A candidate comes before a measured feature that is as far away, since
/// it may hold one that is as near and has a lower number.
pub(crate) fn next_of<'a, S: Square>(
    queue: &mut Queue<'a>,
    measured: &mut Measured<S>,
) -> Option<Next<'a, S>>
    requires { IsHeap (nearest_last S.fraction) (heap_items measured.old) }
    ensures heap { IsHeap (nearest_last S.fraction) (heap_items measured.new) }
    ensures next { IfSome result (IsNext S.fraction (waiting queue.old) (measured_in measured.old)
        (waiting queue.new) (measured_in measured.new)) }
    ensures queue { IfNone result (waiting queue.old ≡ []) }
    ensures measured { IfNone result (measured_in measured.old ≡ []) }
{
    let Some(square) = queue.first_square() else {
        let Reverse(neighbour) = measured.pop()?;
        return Some(Next::Measured(neighbour));
    };
    if is_first_below(measured, square) {
        let Reverse(neighbour) = measured.pop()?;
        return Some(Next::Measured(neighbour));
    }
    let candidate = queue.pop()?;
    Some(Next::Boxed(candidate))
}

/// Whether the nearest measured feature is strictly nearer than a candidate.
fn is_first_below<S: Square>(measured: &Measured<S>, square: SquaredDistance) -> bool
    requires { IsHeap (nearest_last S.fraction) (heap_items measured.now) }
    ensures some { IsTrue result → 0 < length (heap_items measured.now) }
    ensures yes { IsTrue result → (d : Reverse (Neighbour S))
        → IsLess (S.fraction (slice_index_or (heap_items measured.now) 0 d).0.square) (square, 1) }
    ensures no { (result ≡ false)
        → All (λ m. IsNoMore (square, 1) (S.fraction m.square)) (measured_in measured.now) }
{
    match measured.peek() {
        Some(first) => first.0.square.is_below(square),
        None => false,
    }
}
