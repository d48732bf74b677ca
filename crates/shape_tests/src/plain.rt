//! A plain reading of lists of points, which examines a list as a whole.

use std::alloc::{AllocError, Global};
use std::cmp::Ordering;

/// A point by its two coordinates, and a shape by its lowest and its highest corner.
pub(crate) type Point = (i64, i64);

pub(crate) type Corners = (i64, i64, i64, i64);

/// The direction from the first point to the second along each axis.
fn heading(a: Point, b: Point) -> (Ordering, Ordering) {
    (a.0.cmp(&b.0), a.1.cmp(&b.1))
}

/// Whether two points share exactly one coordinate.
fn is_step(a: Point, b: Point) -> bool {
    (a.0 == b.0) != (a.1 == b.1)
}

/// The points without those equal to the point before, which is `before` for the first.
fn without_repeats(
    alloc: Global,
    mut before: Option<Point>,
    points: &[Point],
) -> Result<Vec<Point>, AllocError> {
    let mut kept = Vec::new(alloc);
    for point in points {
        if before != Some(*point) {
            kept.push(*point)?;
        }
        before = Some(*point);
    }
    Ok(kept)
}

/// The points of a cycle at which the direction changes.
fn turns(alloc: Global, cycle: &[Point]) -> Result<Vec<Point>, AllocError> {
    let mut kept = Vec::new(alloc);
    let mut before = cycle.last().copied().unwrap_or((0, 0));
    for (place, here) in cycle.iter().enumerate() {
        let further = cycle.get(place + 1).or(cycle.first());
        let after = further.copied().unwrap_or((0, 0));
        if heading(before, *here) != heading(*here, after) {
            kept.push(*here)?;
        }
        before = *here;
    }
    Ok(kept)
}

/// Whether all steps between consecutive points have the same direction.
fn goes_straight(points: &[Point]) -> bool {
    let mut before: Option<Point> = None;
    let mut way: Option<(Ordering, Ordering)> = None;
    for point in points {
        let step = before.map(|before| heading(before, *point));
        if way.is_some() && way != step {
            return false;
        }
        before = Some(*point);
        way = step;
    }
    true
}

/// The smallest shape that contains both points.
fn spanned(a: Point, b: Point) -> Corners {
    (a.0.min(b.0), a.1.min(b.1), a.0.max(b.0), a.1.max(b.1))
}

/// The line that the points form.
pub(crate) fn line(alloc: Global, points: &[Point]) -> Result<Option<Corners>, AllocError> {
    let kept = without_repeats(alloc, None, points)?;
    match (kept.first(), kept.last()) {
        (Some(first), Some(last)) if is_step(*first, *last) && goes_straight(&kept) => {
            Ok(Some(spanned(*first, *last)))
        }
        _ => Ok(None),
    }
}

/// The rectangle that has these corners, in order around it.
fn rectangle(corners: &[Point]) -> Option<Corners> {
    match corners {
        [a, b, c, d] => {
            let is_round = is_step(*a, *b) && is_step(*b, *c) && is_step(*c, *d) && is_step(*d, *a);
            let is_wide = a.0 != c.0 && a.1 != c.1 && b != d;
            (is_round && is_wide).then_some(spanned(*a, *c))
        }
        _ => None,
    }
}

/// The rectangle whose ring the points form.
pub(crate) fn ring(alloc: Global, points: &[Point]) -> Result<Option<Corners>, AllocError> {
    match points {
        [first, .., last] if first == last => {
            let cycle = without_repeats(alloc, points.first().copied(), points)?;
            Ok(rectangle(&turns(alloc, &cycle)?))
        }
        _ => Ok(None),
    }
}
