//! The matrices of named pairs of geometries of any direction, and which have improper rings.

use relate_any_core::{Improper, relate_texts};
use std::alloc::Global;
use std::process::Abort;
use std::test::Fail;
use wkt_any_core::Rings;
use wkt_core::{Limits, Scale};

/// A name, two geometries, and their matrix.
type Row = (&'static str, &'static str, &'static str, &'static str);

const PROPER: &[Row] = &[
    (
        "point on slant",
        "POLYGON ((0 0, 4 0, 0 4, 0 0))",
        "POINT (2 2)",
        "FF20F1FF2",
    ),
    (
        "point off slant",
        "POLYGON ((0 0, 5 0, 0 3, 0 0))",
        "POINT (3 2)",
        "FF2FF10F2",
    ),
    (
        "shared slant",
        "POLYGON ((0 0, 4 0, 0 4, 0 0))",
        "POLYGON ((4 0, 4 4, 0 4, 4 0))",
        "FF2F11212",
    ),
    (
        "part of slant",
        "POLYGON ((0 0, 4 0, 0 4, 0 0))",
        "POLYGON ((3 1, 4 4, 1 3, 3 1))",
        "FF2F11212",
    ),
    (
        "hole filled",
        "POLYGON ((0 0, 6 0, 6 6, 0 6, 0 0), (2 2, 4 2, 4 4, 2 4, 2 2))",
        "POLYGON ((2 2, 4 2, 4 4, 2 4, 2 2))",
        "FF2F112F2",
    ),
    (
        "hole touches",
        "POLYGON ((0 0, 4 0, 4 4, 0 4, 0 0), (2 0, 4 2, 2 4, 0 2, 2 0))",
        "POLYGON ((1 1, 3 1, 3 3, 1 3, 1 1))",
        "FF2F01212",
    ),
    (
        "crossing lines",
        "LINESTRING (0 0, 3 2)",
        "LINESTRING (0 1, 3 0)",
        "0F1FF0102",
    ),
    (
        "closed line end",
        "LINESTRING (0 0, 4 0, 2 3, 0 0)",
        "POINT (0 0)",
        "0F1FFFFF2",
    ),
    (
        "self crossing",
        "LINESTRING (0 0, 4 4, 4 0, 0 4)",
        "POINT (2 2)",
        "0F1FF0FF2",
    ),
    (
        "even ends",
        "MULTILINESTRING ((0 0, 2 2), (2 2, 4 0))",
        "POINT (2 2)",
        "0F1FF0FF2",
    ),
    (
        "odd ends",
        "MULTILINESTRING ((0 0, 2 2), (2 2, 4 0), (2 2, 2 5))",
        "POINT (2 2)",
        "FF10F0FF2",
    ),
    (
        "line along slant",
        "LINESTRING (1 3, 5 -1)",
        "POLYGON ((0 0, 4 0, 0 4, 0 0))",
        "F11F00212",
    ),
    (
        "line at vertex",
        "LINESTRING (0 8, 8 0)",
        "POLYGON ((4 4, 8 8, 0 8, 4 4))",
        "F11F00212",
    ),
    (
        "two in one",
        "MULTIPOLYGON (((0 0, 2 0, 0 2, 0 0)), ((4 0, 6 0, 6 2, 4 0)))",
        "POLYGON ((-1 -1, 7 -1, 7 3, -1 3, -1 -1))",
        "2FF1FF212",
    ),
    (
        "points in, on and out",
        "MULTIPOINT (1 1, 2 2, 3 3)",
        "POLYGON ((0 0, 4 0, 0 4, 0 0))",
        "000FFF212",
    ),
    (
        "a hair short",
        "LINESTRING (0 0, 333333333333 0)",
        "LINESTRING (333333333333 1, 333333333334 -2)",
        "FF1FF0102",
    ),
    (
        "far corner",
        "POLYGON ((-1000000000000000000 -1000000000000000000, \
         1000000000000000000 999999999999999999, \
         -1000000000000000000 1000000000000000000, \
         -1000000000000000000 -1000000000000000000))",
        "POINT (999999999999999998 999999999999999997)",
        "FF2FF10F2",
    ),
    (
        "line in line",
        "LINESTRING (3 4, 6 2)",
        "LINESTRING (0 6, 6 2, 5 0, 6 5)",
        "1FF0FF102",
    ),
    (
        "lines run together",
        "LINESTRING (0 1, 4 4, 2 1)",
        "LINESTRING (4 4, 2 1, 4 0, 3 4)",
        "1010F0102",
    ),
    (
        "line along side",
        "LINESTRING (1 2, 2 3, 0 1)",
        "POLYGON ((4 2, 0 2, 3 4, 4 2))",
        "1F1F00212",
    ),
    (
        "hole that touches the side in a point",
        "POLYGON ((0 0, 4 0, 4 4, 0 4, 0 0), (4 2, 2 3, 2 1, 4 2))",
        "POINT (4 2)",
        "FF20F1FF2",
    ),
];

const EVEN_ODD: &[Row] = &[
    (
        "bow tie, inside",
        "POLYGON ((0 0, 4 4, 4 0, 0 4, 0 0))",
        "POINT (1 2)",
        "0F2FF1FF2",
    ),
    (
        "bow tie, between",
        "POLYGON ((0 0, 4 4, 4 0, 0 4, 0 0))",
        "POINT (2 1)",
        "FF2FF10F2",
    ),
    (
        "bow tie, crossing",
        "POLYGON ((0 0, 4 4, 4 0, 0 4, 0 0))",
        "POINT (2 2)",
        "FF20F1FF2",
    ),
    (
        "overlap is outside",
        "MULTIPOLYGON (((0 0, 4 0, 4 4, 0 4, 0 0)), ((2 2, 6 2, 6 6, 2 6, 2 2)))",
        "POINT (3 3)",
        "FF2FF10F2",
    ),
    (
        "ring twice",
        "MULTIPOLYGON (((0 0, 4 0, 0 4, 0 0)), ((0 0, 4 0, 0 4, 0 0)))",
        "POINT (1 1)",
        "FFFFF10F2",
    ),
    (
        "flat ring",
        "POLYGON ((0 0, 4 0, 8 0, 0 0))",
        "POINT (2 0)",
        "FFF0F1FF2",
    ),
];

/// The letters of the matrix of two geometries in reverse order.
fn transposed(letters: [u8; 9]) -> [u8; 9] {
    let [ii, ib, ie, bi, bb, be, ei, eb, ee] = letters;
    [ii, bi, ei, ib, bb, eb, ie, be, ee]
}

/// The letters of the matrix of two geometries, and which of them have improper rings.
fn related(alloc: Global, rings: Rings, a: &str, b: &str) -> Result<([u8; 9], Improper), Fail> {
    let scale = Scale::within(Limits::Any, 0).ok_or("no scale")?;
    let related = relate_texts(alloc, scale, rings, a.as_bytes(), b.as_bytes())??;
    Ok((related.matrix.text(), related.improper))
}

/// Checks the matrix of each row in both orders, and whether the first geometry of each has
/// improper rings, which the second has not.
fn check_rows<R: Abort + AllocGlobal>(
    rt: &R,
    rings: Rings,
    improper: bool,
    rows: &[Row],
) -> Result<(), Fail> {
    for &(name, a, b, letters) in rows {
        let (given, marks) = related(rt.alloc(), rings, a, b)?;
        assert!(rt; given.as_slice() == letters.as_bytes(), "{name}");
        assert!(rt; marks.first == improper && !marks.second, "{name}");
        let (back, marks) = related(rt.alloc(), rings, b, a)?;
        assert!(rt; transposed(back).as_slice() == letters.as_bytes(), "{name}");
        assert!(rt; marks.second == improper && !marks.first, "{name}");
    }
    Ok(())
}

#[test]
fn proper_rings(rt: HostRuntime) -> Result<(), Fail> {
    check_rows(&rt, Rings::Proper, false, PROPER)
}

#[test]
fn even_odd_rings(rt: HostRuntime) -> Result<(), Fail> {
    check_rows(&rt, Rings::EvenOdd, false, PROPER)?;
    check_rows(&rt, Rings::EvenOdd, true, EVEN_ODD)
}
