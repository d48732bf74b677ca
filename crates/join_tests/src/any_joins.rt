//! Joins of small layers by one worker, by two and by sixteen, with answers worked out by hand.

use crate::any_join_layers::{Row, Texts, are_pairs, are_rows, joined, joined_pairs, relation};
use any_join_core::{PreparedPair, related};
use pair_core::Options;
use plane_core::Rings;
use std::random::RandomSource;
use std::sync::Wait;
use std::test::Fail;
use std::thread::Threads;
use test_data::geometry_of;

/// Geometries of all kinds beside geometries that lie near one of them each.
const KINDS: Texts = Texts {
    rings: Rings::Proper,
    left: &[
        "POLYGON ((0 0, 4 0, 0 4, 0 0))",
        "LINESTRING (100 0, 103 2)",
        "POLYGON ((200 0, 206 0, 206 6, 200 6, 200 0), (202 2, 204 2, 204 4, 202 4, 202 2))",
        "MULTILINESTRING ((300 0, 302 2), (302 2, 304 0))",
        "LINESTRING (401 3, 405 -1)",
        "MULTIPOLYGON (((500 0, 502 0, 500 2, 500 0)), ((504 0, 506 0, 506 2, 504 0)))",
        "MULTIPOINT (601 1, 602 2, 603 3)",
        "POLYGON ((700 0, 705 0, 700 3, 700 0))",
    ],
    right: &[
        "POINT (2 2)",
        "LINESTRING (100 1, 103 0)",
        "POLYGON ((202 2, 204 2, 204 4, 202 4, 202 2))",
        "POINT (302 2)",
        "POLYGON ((400 0, 404 0, 400 4, 400 0))",
        "POLYGON ((499 -1, 507 -1, 507 3, 499 3, 499 -1))",
        "POLYGON ((600 0, 604 0, 600 4, 600 0))",
        "POINT (703 2)",
    ],
};

/// The two halves of a square along its slant and a triangle further right, beside a point on the
/// slant, one within the second half, and a line along the slant that goes on.
const PARCELS: Texts = Texts {
    rings: Rings::Proper,
    left: &[
        "POLYGON ((0 0, 4 0, 0 4, 0 0))",
        "POLYGON ((4 0, 4 4, 0 4, 4 0))",
        "POLYGON ((10 0, 14 0, 10 4, 10 0))",
    ],
    right: &["POINT (2 2)", "POINT (3 3)", "LINESTRING (1 3, 5 -1)"],
};

/// A ring that crosses itself, beside points within it, between its halves and where it crosses.
const CROSSED: Texts = Texts {
    rings: Rings::EvenOdd,
    left: &["POLYGON ((0 0, 4 4, 4 0, 0 4, 0 0))"],
    right: &["POINT (1 2)", "POINT (2 1)", "POINT (2 2)"],
};

const NOTHING: Texts = Texts {
    rings: Rings::Proper,
    left: &[],
    right: &["POINT (0 0)"],
};

/// Whether joins by these numbers of workers give these rows, and the pairs of these.
pub(crate) fn gives<R: RandomSource + AllocGlobal + Threads + Wait + Sync>(
    rt: &R,
    texts: Texts,
    relation: &str,
    rows: &[Row],
) -> Result<bool, Fail> {
    for workers in [1, 2, 16] {
        let options = Options::new(workers, 1, 8)?;
        let outcome = joined(rt, texts, relation, &options).ok_or("a join")?;
        let alone = joined_pairs(rt, texts, relation, &options).ok_or("a join")?;
        if !are_rows(&outcome.matches, rows) || !are_pairs(&alone.matches, rows) {
            return Ok(false);
        }
    }
    Ok(true)
}

const INTERSECTING: &[Row] = &[
    (0, 0, *b"FF20F1FF2"),
    (1, 1, *b"0F1FF0102"),
    (2, 2, *b"FF2F112F2"),
    (3, 3, *b"0F1FF0FF2"),
    (4, 4, *b"F11F00212"),
    (5, 5, *b"2FF1FF212"),
    (6, 6, *b"000FFF212"),
];

#[test]
fn intersecting(rt: HostRuntime) -> Result<(), Fail> {
    assert!(rt; gives(&rt, KINDS, "intersects", INTERSECTING)?);
    Ok(())
}

#[test]
fn crossing(rt: HostRuntime) -> Result<(), Fail> {
    let rows = &[(1, 1, *b"0F1FF0102"), (6, 6, *b"000FFF212")];
    assert!(rt; gives(&rt, KINDS, "crosses", rows)?);
    Ok(())
}

#[test]
fn within(rt: HostRuntime) -> Result<(), Fail> {
    assert!(rt; gives(&rt, KINDS, "within", &[(5, 5, *b"2FF1FF212")])?);
    Ok(())
}

#[test]
fn by_a_mask(rt: HostRuntime) -> Result<(), Fail> {
    assert!(rt; gives(&rt, KINDS, "0*1**0FF2", &[(3, 3, *b"0F1FF0FF2")])?);
    Ok(())
}

const TOUCHING: &[Row] = &[
    (0, 0, *b"FF20F1FF2"),
    (0, 2, *b"FF2101102"),
    (1, 0, *b"FF20F1FF2"),
    (1, 2, *b"FF2101102"),
];

#[test]
fn touching(rt: HostRuntime) -> Result<(), Fail> {
    assert!(rt; gives(&rt, PARCELS, "touches", TOUCHING)?);
    Ok(())
}

#[test]
fn containing(rt: HostRuntime) -> Result<(), Fail> {
    assert!(rt; gives(&rt, PARCELS, "contains", &[(1, 1, *b"0F2FF1FF2")])?);
    Ok(())
}

/// The point on the slant is covered by both halves, and in the interior of neither.
const COVERING: &[Row] = &[
    (0, 0, *b"FF20F1FF2"),
    (1, 0, *b"FF20F1FF2"),
    (1, 1, *b"0F2FF1FF2"),
];

#[test]
fn covering(rt: HostRuntime) -> Result<(), Fail> {
    assert!(rt; gives(&rt, PARCELS, "covers", COVERING)?);
    Ok(())
}

#[test]
fn covered(rt: HostRuntime) -> Result<(), Fail> {
    assert!(rt; gives(&rt, KINDS, "covered_by", &[(5, 5, *b"2FF1FF212")])?);
    Ok(())
}

#[test]
fn containing_properly(rt: HostRuntime) -> Result<(), Fail> {
    let rows = &[(1, 1, *b"0F2FF1FF2")];
    assert!(rt; gives(&rt, PARCELS, "contains_properly", rows)?);
    Ok(())
}

#[test]
fn overlapping(rt: HostRuntime) -> Result<(), Fail> {
    assert!(rt; gives(&rt, PARCELS, "overlaps", &[])?);
    Ok(())
}

#[test]
fn by_the_even_odd_rule(rt: HostRuntime) -> Result<(), Fail> {
    let rows = &[(0, 0, *b"0F2FF1FF2"), (0, 2, *b"FF20F1FF2")];
    assert!(rt; gives(&rt, CROSSED, "intersects", rows)?);
    Ok(())
}

#[test]
fn of_nothing(rt: HostRuntime) -> Result<(), Fail> {
    assert!(rt; gives(&rt, NOTHING, "intersects", &[])?);
    Ok(())
}

#[test]
fn two_geometries(rt: HostRuntime) -> Result<(), Fail> {
    let (alloc, rings) = (rt.alloc(), Rings::Proper);
    let first = geometry_of(alloc, "LINESTRING (0 0, 3 2)", rings).ok_or("a line")?;
    let second = geometry_of(alloc, "LINESTRING (0 1, 3 0)", rings).ok_or("a line")?;
    let crosses = relation("crosses", rings).ok_or("a relation")?;
    let unprepared = PreparedPair {
        first: None,
        second: None,
    };
    let found = related(alloc, &crosses, &first, &second, unprepared)?;
    assert!(rt; found.map(|matrix| matrix.text()) == Some(*b"0F1FF0102"));
    let touches = relation("touches", rings).ok_or("a relation")?;
    assert!(rt; related(alloc, &touches, &first, &second, unprepared)?.is_none());
    Ok(())
}
