//! The nearest of layers with large geometries, which are indexed once, between small ones, with
//! answers worked out by hand.

use crate::any_nearest_layers::gives;
use std::alloc::{AllocError, Global};
use std::test::Fail;

/// A point below all lines of the first test, and one above them.
const POINTS: &[(&str, &str)] = &[("below", "POINT (100 0)"), ("above", "POINT (100 50)")];

/// A point in each of the two large areas of the second test, and one between them.
const WITHIN: &[(&str, &str)] = &[
    ("lower", "POINT (100 4)"),
    ("upper", "POINT (100 25)"),
    ("between", "POINT (100 15)"),
];

/// The vertices of a line with this number of them, as text: the first at (0, `low`), the next at
/// (1, `high`), then at (2, `low`), and so on.
pub(crate) fn zigzag(
    alloc: Global,
    count: u32,
    (low, high): (u32, u32),
) -> Result<String, AllocError> {
    let mut text = String::new(alloc);
    for x in 0..count {
        let comma = if x == 0 { "" } else { ", " };
        let y = if x % 2 == 0 { low } else { high };
        write!(text, "{comma}{x} {y}")?;
    }
    Ok(text)
}

/// From below the vertices at x = 100 are the nearest, and from above those at 99 and 101: they are
/// 1 aside, and 39, 29 and 19 away in y. The line of 255 vertices is small, the two others are
/// large. The last point is as far from the one below as the first of these.
#[test]
fn lines(rt: HostRuntime) -> Result<(), Fail> {
    let alloc = rt.alloc();
    let first = format!(in alloc; "LINESTRING ({})", zigzag(alloc, 256, (10, 11))?)?;
    let small = format!(in alloc; "LINESTRING ({})", zigzag(alloc, 255, (20, 21))?)?;
    let last = format!(in alloc; "LINESTRING ({})", zigzag(alloc, 600, (30, 31))?)?;
    let right: &[(&str, &str)] = &[
        ("point", "POINT (100 45)"),
        ("first", &first),
        ("small", &small),
        ("last", &last),
        ("tied", "POINT (106 8)"),
    ];
    let rows = &[
        (0, 1, (100, 1)),
        (0, 4, (100, 1)),
        (0, 2, (400, 1)),
        (0, 3, (900, 1)),
        (0, 0, (2025, 1)),
        (1, 0, (25, 1)),
        (1, 3, (362, 1)),
        (1, 2, (842, 1)),
        (1, 1, (1522, 1)),
        (1, 4, (1800, 1)),
    ];
    let nearest = &[rows[0], rows[1], rows[5]];
    assert!(rt; gives(&rt, (POINTS, right), (1, None), nearest)?);
    assert!(rt; gives(&rt, (POINTS, right), (5, None), rows)?);
    let near = &[rows[0], rows[1], rows[2], rows[5], rows[6]];
    assert!(rt; gives(&rt, (POINTS, right), (5, Some(20)), near)?);
    Ok(())
}

/// The lower area is from y = 0 up to 10, with a tooth of 1 at each odd x, and the upper one from
/// 20 up to 30 with such teeth. Neither has the point between them, and the teeth at 99 and 101 are
/// the nearest to it of the lower one: they are 1 aside, and 4 away in y.
#[test]
fn areas(rt: HostRuntime) -> Result<(), Fail> {
    let alloc = rt.alloc();
    let (below, above) = (zigzag(alloc, 301, (10, 11))?, zigzag(alloc, 301, (30, 31))?);
    let lower = format!(in alloc; "POLYGON (({below}, 300 0, 0 0, 0 10))")?;
    let upper = format!(in alloc; "POLYGON (({above}, 300 20, 0 20, 0 30))")?;
    let right: &[(&str, &str)] = &[
        ("in_upper", "POINT (100 26)"),
        ("lower", &lower),
        ("between", "POINT (100 12)"),
        ("upper", &upper),
        ("above", "POINT (100 40)"),
    ];
    let rows = &[
        (0, 1, (0, 1)),
        (0, 2, (64, 1)),
        (0, 3, (256, 1)),
        (1, 3, (0, 1)),
        (1, 0, (1, 1)),
        (1, 2, (169, 1)),
        (2, 2, (9, 1)),
        (2, 1, (17, 1)),
        (2, 3, (25, 1)),
    ];
    assert!(rt; gives(&rt, (WITHIN, right), (3, None), rows)?);
    let inside = &[rows[0], rows[3], rows[6]];
    assert!(rt; gives(&rt, (WITHIN, right), (1, None), inside)?);
    Ok(())
}
