//! A join of a hundred shapes beside a plain double loop.

use crate::near_layers::{Corners, Row, Shapes, are_rows, joined};
use near_core::Nearness;
use pair_core::Options;
use std::alloc::{AllocError, Global};
use std::test::Fail;

/// The number of shapes of each layer.
const COUNT: u32 = 100;

/// What places the shapes of the left and of the right layer.
const PLACES: (u32, u32) = (5, 11);

/// One of some shapes of 0 to 6 units along each axis, strewn over a square of 97 units.
fn strewn(number: u32, place: u32) -> Corners {
    let (number, place) = (u64::from(number), u64::from(place));
    let x = ((number * 37 + place) % 97) as i64;
    let y = ((number * 53 + 2 * place) % 97) as i64;
    (x, y, x + (number % 7) as i64, y + (number % 5) as i64)
}

/// All of these shapes.
fn all_strewn(alloc: Global, place: u32) -> Result<Vec<Corners>, AllocError> {
    let mut shapes = Vec::new(alloc);
    for number in 0..COUNT {
        shapes.push(strewn(number, place))?;
    }
    Ok(shapes)
}

/// How far the intervals from `a1` to `a2` and from `b1` to `b2` are apart.
fn apart(a1: i64, a2: i64, b1: i64, b2: i64) -> u128 {
    if b1 > a2 {
        u128::from(b1.abs_diff(a2))
    } else if a1 > b2 {
        u128::from(a1.abs_diff(b2))
    } else {
        0
    }
}

/// The square of the distance of two shapes, if it is at most that of `distance`.
fn square_within(a: Corners, b: Corners, distance: u64) -> Option<u128> {
    let dx = apart(a.0, a.2, b.0, b.2);
    let dy = apart(a.1, a.3, b.1, b.3);
    let square = dx.checked_mul(dx)?.checked_add(dy.checked_mul(dy)?)?;
    let distance = u128::from(distance);
    if square <= distance.checked_mul(distance)? {
        Some(square)
    } else {
        None
    }
}

/// The near pairs, by a double loop.
fn plain_rows(alloc: Global, distance: u64) -> Result<Vec<Row>, AllocError> {
    let mut rows = Vec::new(alloc);
    for left in 0..COUNT {
        push_near(&mut rows, left, distance)?;
    }
    Ok(rows)
}

/// Adds the rows of one left shape.
fn push_near(rows: &mut Vec<Row>, left: u32, distance: u64) -> Result<(), AllocError> {
    let shape = strewn(left, PLACES.0);
    for right in 0..COUNT {
        if let Some(square) = square_within(shape, strewn(right, PLACES.1), distance) {
            rows.push((left, right, square))?;
        }
    }
    Ok(())
}

#[test]
fn beside_a_double_loop(rt: HostRuntime) -> Result<(), Fail> {
    let left = all_strewn(rt.alloc(), PLACES.0)?;
    let right = all_strewn(rt.alloc(), PLACES.1)?;
    let shapes = Shapes {
        left: &left,
        right: &right,
    };
    for distance in [0, 1, 2, 3, 7, 20, 200] {
        let options = Options::new(2, 16, 2)?;
        let outcome = joined(&rt, shapes, distance, Nearness::Within, &options).ok_or("a join")?;
        let rows = plain_rows(rt.alloc(), distance)?;
        assert!(rt; are_rows(&outcome.matches, &rows));
    }
    Ok(())
}
