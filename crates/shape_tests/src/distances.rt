//! How far geometries are apart, worked out by hand.

use distance_core::Distance;
use geometry_distance_core::{GeometryIndex, MeasuredGeometry, square_within};
use plane_core::Rings;
use std::alloc::{AllocError, Global};
use test_data::geometry_of;
use wide_core::Wide;

/// A square, the same with a hole, and that with an island in the hole.
const SQUARE: &str = "POLYGON ((0 0, 10 0, 10 10, 0 10, 0 0))";

const HOLED: &str = "POLYGON ((0 0, 10 0, 10 10, 0 10, 0 0), (2 2, 2 8, 8 8, 8 2, 2 2))";

const ISLAND: &str = "MULTIPOLYGON (((0 0, 10 0, 10 10, 0 10, 0 0), (2 2, 2 8, 8 8, 8 2, 2 2)), \
    ((4 4, 6 4, 6 6, 4 6, 4 4)))";

/// Whether the squared distance of two geometries is this fraction, where they are measured up to a
/// distance.
fn is_found(
    first: &MeasuredGeometry,
    second: &MeasuredGeometry,
    (numerator, denominator): (u128, u128),
    units: u64,
) -> bool {
    let Some(distance) = Distance::new(units) else {
        return false;
    };
    match square_within(first, second, distance) {
        Some(found) if found.numerator.high == 0 => {
            Wide::product(found.numerator.low, denominator)
                == Wide::product(numerator, found.denominator)
        }
        _ => false,
    }
}

/// Whether two geometries are further apart than a distance.
fn is_beyond(first: &MeasuredGeometry, second: &MeasuredGeometry, units: u64) -> bool {
    match Distance::new(units) {
        Some(distance) => square_within(first, second, distance).is_none(),
        None => false,
    }
}

/// Whether the geometries of two texts have this squared distance, from both sides, and are within
/// `units` of each other, but not within one less.
fn have_square(
    alloc: Global,
    (first, second): (&str, &str),
    square: (u128, u128),
    units: u64,
) -> Result<bool, AllocError> {
    let (Some(a), Some(b)) = (
        geometry_of(alloc, first, Rings::Proper),
        geometry_of(alloc, second, Rings::Proper),
    ) else {
        return Ok(false);
    };
    let indexes = (
        GeometryIndex::new(alloc, a.geometry())?,
        GeometryIndex::new(alloc, b.geometry())?,
    );
    let first = MeasuredGeometry::new(a.geometry(), &indexes.0);
    let second = MeasuredGeometry::new(b.geometry(), &indexes.1);
    Ok(
        is_found(&first, &second, square, units)
            && is_found(&second, &first, square, units.saturating_add(5))
            && (units == 0 || is_beyond(&first, &second, units - 1)),
    )
}

#[test]
fn areas(rt: HostRuntime) -> Result<(), AllocError> {
    let alloc = rt.alloc();
    let within = "POLYGON ((4 4, 5 4, 5 5, 4 4))";
    assert!(rt; have_square(alloc, (SQUARE, within), (0, 1), 0)?);
    assert!(rt; have_square(alloc, (HOLED, within), (4, 1), 2)?);
    assert!(rt; have_square(alloc, (ISLAND, within), (0, 1), 0)?);
    let right = "POLYGON ((13 2, 15 0, 15 4, 13 2))";
    assert!(rt; have_square(alloc, (SQUARE, right), (9, 1), 3)?);
    let touching = "POLYGON ((10 2, 15 0, 15 4, 10 2))";
    assert!(rt; have_square(alloc, (SQUARE, touching), (0, 1), 0)?);
    Ok(())
}

#[test]
fn lines(rt: HostRuntime) -> Result<(), AllocError> {
    let alloc = rt.alloc();
    let past_corner = "LINESTRING (20 2, 9 13)";
    assert!(rt; have_square(alloc, (SQUARE, past_corner), (2, 1), 2)?);
    let in_hole = "MULTILINESTRING ((3 3, 3 7), (20 20, 21 21))";
    assert!(rt; have_square(alloc, (HOLED, in_hole), (1, 1), 1)?);
    assert!(rt; have_square(alloc, (SQUARE, in_hole), (0, 1), 0)?);
    let slanted = "LINESTRING (0 0, 2 1)";
    assert!(rt; have_square(alloc, (slanted, "POINT (0 1)"), (4, 5), 1)?);
    Ok(())
}

#[test]
fn points(rt: HostRuntime) -> Result<(), AllocError> {
    let alloc = rt.alloc();
    assert!(rt; have_square(alloc, ("POINT (1 2)", "POINT (4 6)"), (25, 1), 5)?);
    let several = "MULTIPOINT (30 30, 4 5, 20 20)";
    assert!(rt; have_square(alloc, (SQUARE, several), (0, 1), 0)?);
    assert!(rt; have_square(alloc, (HOLED, several), (4, 1), 2)?);
    assert!(rt; have_square(alloc, (ISLAND, several), (0, 1), 0)?);
    assert!(rt; have_square(alloc, (several, "POINT (20 22)"), (4, 1), 2)?);
    Ok(())
}
