//! The nearest of a hundred shapes a side beside a plain double loop and a sort.

use crate::nearest_layers::{Corners, Row, Shapes, are_rows, joined, query};
use std::alloc::{AllocError, Global};
use std::test::Fail;

/// The number of shapes of each layer.
const COUNT: u32 = 100;

/// What places the shapes of the left and of the right layer.
const PLACES: (u32, u32) = (5, 11);

/// One of some shapes of 0 to 6 units along each axis, strewn over a square of 97 units.
fn strewn(number: u32, place: u32) -> Corners {
    let (number, place) = (u64::from(number), u64::from(place));
    let x = ((number * 37 + place) % 97) as i64;
    let y = ((number * 53 + 2 * place) % 97) as i64;
    (x, y, x + (number % 7) as i64, y + (number % 5) as i64)
}

/// All of these shapes.
fn all_strewn(alloc: Global, place: u32) -> Result<Vec<Corners>, AllocError> {
    let mut shapes = Vec::new(alloc);
    for number in 0..COUNT {
        shapes.push(strewn(number, place))?;
    }
    Ok(shapes)
}

/// How far the intervals from `a1` to `a2` and from `b1` to `b2` are apart.
fn apart(a1: i64, a2: i64, b1: i64, b2: i64) -> u128 {
    if b1 > a2 {
        u128::from(b1.abs_diff(a2))
    } else if a1 > b2 {
        u128::from(a1.abs_diff(b2))
    } else {
        0
    }
}

/// The square of the distance of two shapes.
fn square(a: Corners, b: Corners) -> Option<u128> {
    let dx = apart(a.0, a.2, b.0, b.2);
    let dy = apart(a.1, a.3, b.1, b.3);
    dx.checked_mul(dx)?.checked_add(dy.checked_mul(dy)?)
}

/// The squared distances of all right shapes from a left one, with their numbers, ascending.
fn measured(alloc: Global, left: u32) -> Result<Vec<(u128, u32)>, Fail> {
    let shape = strewn(left, PLACES.0);
    let mut rows = Vec::new(alloc);
    for right in 0..COUNT {
        let square = square(shape, strewn(right, PLACES.1)).ok_or("a square")?;
        rows.push((square, right))?;
    }
    rows.sort()?;
    Ok(rows)
}

/// Adds the rows of one left shape: of the sorted ones those within the distance, up to the last of
/// `most` and those that tie with it.
fn push_nearest(
    rows: &mut Vec<Row>,
    alloc: Global,
    left: u32,
    most: usize,
    within: u64,
) -> Result<(), Fail> {
    let measured = measured(alloc, left)?;
    let within = u128::from(within);
    let limit = within.checked_mul(within).ok_or("a limit")?;
    let last = measured
        .get(most.saturating_sub(1))
        .map_or(limit, |row| row.0);
    for (square, right) in &measured {
        if *square <= last && *square <= limit {
            rows.push((left, *right, *square))?;
        }
    }
    Ok(())
}

/// The rows of all left shapes.
fn plain_rows(alloc: Global, most: usize, within: u64) -> Result<Vec<Row>, Fail> {
    let mut rows = Vec::new(alloc);
    for left in 0..COUNT {
        push_nearest(&mut rows, alloc, left, most, within)?;
    }
    Ok(rows)
}

#[test]
fn beside_a_double_loop(rt: HostRuntime) -> Result<(), Fail> {
    let left = all_strewn(rt.alloc(), PLACES.0)?;
    let right = all_strewn(rt.alloc(), PLACES.1)?;
    let shapes = Shapes {
        left: &left,
        right: &right,
    };
    for (most, within) in [
        (1, None),
        (2, None),
        (5, None),
        (2, Some(4)),
        (150, Some(9)),
    ] {
        let query = query(most, within).ok_or("a query")?;
        let matches = joined(&rt, shapes, &query, 3).ok_or("matches")?;
        let rows = plain_rows(rt.alloc(), most as usize, within.unwrap_or(1000))?;
        assert!(rt; are_rows(&matches, &rows));
    }
    Ok(())
}
