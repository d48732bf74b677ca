//! Named texts of any geometry and the results of reading them.

use plane_core::Geometry;
use std::alloc::{AllocError, Global};
use wkt_any_core::{GeometryFault, Rings, read};
use wkt_core::{Limits, Rounding, Scale};

/// The number of edges of a geometry, and the number of its points or ends of polylines.
fn counts_of(alloc: Global, geometry: &Geometry) -> Result<(usize, usize), AllocError> {
    let outline = geometry.outline(alloc)?;
    Ok((outline.edges.len(), outline.ends.len()))
}

/// The counts of the geometry that a text spells at scale 0, or the text's fault.
pub(crate) fn counts(
    alloc: Global,
    text: &str,
    rings: Rings,
) -> Result<Result<(usize, usize), GeometryFault>, AllocError> {
    let scale = Scale::within(Limits::Any, 0).unwrap();
    match read(alloc, text.as_bytes(), scale, rings)? {
        Ok(geometry) => Ok(Ok(counts_of(alloc, &geometry)?)),
        Err(fault) => Ok(Err(fault)),
    }
}

/// Texts with proper rings, and the counts of their geometries.
const READ: &[(&str, (usize, usize))] = &[
    ("POINT (1 2)", (0, 1)),
    (" mUlTiPoInT ( 1 1 , (2 2),( 3 3 ) ) ", (0, 3)),
    ("MULTIPOINT (1 1, 1 1)", (0, 1)),
    ("LINESTRING (0 0, 3 2, 3 2, 5 2)", (2, 2)),
    ("LINESTRING (0 0, 4 4, 4 0, 0 4)", (3, 2)),
    ("multilinestring((0 0,2 2),(2 2,4 0),(2 2,2 5))", (3, 6)),
    ("POLYGON ((0 0, 4 0, 0 4, 0 0))", (3, 0)),
    ("POLYGON ((0 0, 2 0, 4 0, 0 4, 0 0, 0 0))", (4, 0)),
    (
        "POLYGON ((0 0, 4 0, 4 4, 0 4, 0 0), (4 2, 2 3, 2 1, 4 2))",
        (7, 0),
    ),
    (
        "MULTIPOLYGON (((0 0, 2 0, 0 2, 0 0)), ((4 0, 6 0, 6 2, 4 0)))",
        (6, 0),
    ),
    (
        "MULTIPOLYGON(((0 0,9 0,9 9,0 9,0 0),(1 1,2 1,1 2,1 1)),((20 0,22 0,20 2,20 0)))",
        (10, 0),
    ),
    (
        "MULTIPOLYGON (((0 0, 1 0, 0 1, 0 0)), ((2 0, 3 0, 2 1, 2 0)), ((4 0, 5 0, 4 1, 4 0)), \
        ((6 0, 7 0, 6 1, 6 0)), ((8 0, 9 0, 8 1, 8 0)), ((0 1, 2 1, 2 2, 0 1)))",
        (18, 0),
    ),
];

/// Texts at a rounding scale without decimals, and the counts of their geometries or their faults.
const ROUNDED: &[(&str, Result<(usize, usize), GeometryFault>)] = &[
    ("MULTIPOINT (.4 1e0, (1.5e1 -2.5))", Ok((0, 2))),
    ("MULTIPOINT (.4 .4, 0 -0.4)", Ok((0, 1))),
    ("LINESTRING (0 0, 0.4 0.4, 3 2)", Ok((1, 2))),
    ("POLYGON ((0 0, 4.2 0, 0 3.9, 0.4 0.4))", Ok((3, 0))),
    ("LINESTRING (0 0, 0.4 0.4)", Err(GeometryFault::Form)),
    (
        "POLYGON ((0 0, 4 0.4, 8 0.2, 0 0))",
        Err(GeometryFault::Form),
    ),
    ("POINT (1000000000000000000.4 0)", Ok((0, 1))),
    (
        "POINT (1000000000000000000.5 0)",
        Err(GeometryFault::Number),
    ),
    ("POINT (1e19 0)", Err(GeometryFault::Number)),
    ("POINT (1e 0)", Err(GeometryFault::Text)),
];

#[test]
fn rounded_texts_are_read(rt: HostRuntime) -> Result<(), AllocError> {
    let scale = Scale::within(Limits::Any, 0)
        .unwrap()
        .with_rounding(Rounding::Nearest);
    for &(text, wanted) in ROUNDED {
        let counted = match read(rt.alloc(), text.as_bytes(), scale, Rings::Proper)? {
            Ok(geometry) => Ok(counts_of(rt.alloc(), &geometry)?),
            Err(fault) => Err(fault),
        };
        assert!(rt; counted == wanted, "{text}");
    }
    Ok(())
}

#[test]
fn texts_are_read(rt: HostRuntime) -> Result<(), AllocError> {
    for (text, wanted) in READ {
        assert!(rt;
            counts(rt.alloc(), text, Rings::Proper)? == Ok(*wanted),
            "{text}"
        );
    }
    Ok(())
}

/// Texts that aren't in the grammar.
const NO_TEXTS: &[&str] = &[
    "",
    "POINT",
    "POINT EMPTY",
    "POINT (1,2)",
    "POINT (1 2) x",
    "POINT ((1 2))",
    "POINT (1 2, 3 4)",
    "POINT Z (1 2 3)",
    "POINT (1e3 0)",
    "MULTI POINT (1 2)",
    "MULTIPOINT ()",
    "MULTIPOINT ((1 1, 2 2))",
    "MULTIPOINT (1 1, )",
    "MULTIPOINT (1 1) (2 2)",
    "MULTILINESTRING (0 0, 1 1)",
    "MULTILINESTRING ((0 0, 1 1)",
    "MULTIPOLYGON ((0 0, 4 0, 0 4, 0 0))",
    "MULTIPOLYGON ((((0 0, 4 0, 0 4, 0 0))))",
    "GEOMETRYCOLLECTION (POINT (1 2))",
    "SRID=4326;POINT (1 2)",
];

#[test]
fn other_texts_are_not_read(rt: HostRuntime) -> Result<(), AllocError> {
    for text in NO_TEXTS {
        let refused = Err(GeometryFault::Text);
        assert!(rt;
            counts(rt.alloc(), text, Rings::Proper)? == refused,
            "{text}"
        );
    }
    Ok(())
}

/// Texts with a number that isn't whole or is out of range.
const NO_NUMBERS: &[&str] = &[
    "POINT (1.5 0)",
    "POINT (1000000000000000001 0)",
    "MULTIPOINT (1 1, (2 2.5))",
    "LINESTRING (0.1 0, 0.1 0)",
    "MULTIPOLYGON (((0 0, 4 0, 0 4, 0 0)), ((4 0, 4 4, 0 -1000000000000000001, 4 0)))",
];

#[test]
fn numbers_are_whole_and_in_range(rt: HostRuntime) -> Result<(), AllocError> {
    for text in NO_NUMBERS {
        let refused = Err(GeometryFault::Number);
        assert!(rt;
            counts(rt.alloc(), text, Rings::Proper)? == refused,
            "{text}"
        );
    }
    Ok(())
}

/// Texts of flat or open rings, or of a polyline of length 0.
const NO_FORMS: &[&str] = &[
    "LINESTRING (1 1, 1 1)",
    "LINESTRING (1 1)",
    "MULTILINESTRING ((0 0, 2 2), (1 1, 1 1))",
    "POLYGON ((0 0, 4 0, 8 0, 0 0))",
    "POLYGON ((0 0, 4 0, 0 4, 1 1))",
    "POLYGON ((0 0, 4 0, 0 0))",
    "POLYGON ((1 1, 1 1, 1 1, 1 1))",
    "POLYGON ((0 0, 4 0, 0 4, 0 0), (1 1, 1 1))",
    "MULTIPOLYGON (((0 0, 4 0, 0 4, 0 0)), ((0 0, 1 1, 2 2, 0 0)))",
];

#[test]
fn lines_have_length_and_rings_an_area(rt: HostRuntime) -> Result<(), AllocError> {
    for text in NO_FORMS {
        let refused = Err(GeometryFault::Form);
        assert!(rt;
            counts(rt.alloc(), text, Rings::Proper)? == refused,
            "{text}"
        );
    }
    Ok(())
}

/// Texts of rings that cross or run along each other or themselves, and their edges.
const NO_RINGS: &[(&str, usize)] = &[
    ("POLYGON ((0 0, 4 4, 4 0, 0 4, 0 0))", 4),
    ("POLYGON ((0 0, 4 0, 2 0, 0 4, 0 0))", 4),
    (
        "POLYGON ((0 0, 4 0, 4 4, 0 4, 0 0), (1 1, 5 1, 1 2, 1 1))",
        7,
    ),
    (
        "MULTIPOLYGON (((0 0, 4 0, 0 4, 0 0)), ((4 0, 4 4, 0 4, 4 0)))",
        6,
    ),
    (
        "MULTIPOLYGON (((0 0, 4 0, 0 4, 0 0)), ((0 0, 4 0, 0 4, 0 0)))",
        6,
    ),
    (
        "MULTIPOLYGON (((0 0, 1 0, 0 1, 0 0)), ((2 0, 3 0, 2 1, 2 0)), ((4 0, 5 0, 4 1, 4 0)), \
        ((6 0, 7 0, 6 1, 6 0)), ((8 0, 9 0, 8 1, 8 0)), ((0 2, 1 0, 2 2, 0 2)), \
        ((0 1, 1 3, 2 1, 0 1)))",
        21,
    ),
];

#[test]
fn rings_neither_cross_nor_overlap(rt: HostRuntime) -> Result<(), AllocError> {
    for (text, edges) in NO_RINGS {
        let refused = Err(GeometryFault::Rings);
        assert!(rt;
            counts(rt.alloc(), text, Rings::Proper)? == refused,
            "{text}"
        );
        assert!(rt;
            counts(rt.alloc(), text, Rings::EvenOdd)? == Ok((*edges, 0)),
            "{text}"
        );
    }
    Ok(())
}

/// Texts with two faults, and the fault that is returned.
const FIRST_FAULTS: &[(&str, GeometryFault)] = &[
    ("POLYGON ((0 0, 4 4, 4 0, 0 4, 0 0.5)", GeometryFault::Text),
    (
        "POLYGON ((0 0, 4 4, 4 0, 0 4.5, 0 0))",
        GeometryFault::Number,
    ),
    ("POLYGON ((0 0, 4 4, 4 0, 0 4, 1 0))", GeometryFault::Form),
    (
        "MULTIPOLYGON (((0 0, 4 4, 4 0, 0 4, 0 0)), ((9 9, 8 8, 9 9)))",
        GeometryFault::Form,
    ),
];

#[test]
fn the_first_fault_is_named(rt: HostRuntime) -> Result<(), AllocError> {
    for (text, fault) in FIRST_FAULTS {
        assert!(rt;
            counts(rt.alloc(), text, Rings::Proper)? == Err(*fault),
            "{text}"
        );
    }
    Ok(())
}

/// Texts read by the even-odd rule, and the numbers of their edges.
const EVEN_ODD: &[(&str, usize)] = &[
    ("POLYGON ((0 0, 4 0, 8 0, 0 0))", 3),
    ("POLYGON ((0 0, 4 0, 0 4, 0 0), (1 1, 1 1))", 3),
];

#[test]
fn even_odd_takes_closed_rings(rt: HostRuntime) -> Result<(), AllocError> {
    for (text, edges) in EVEN_ODD {
        assert!(rt;
            counts(rt.alloc(), text, Rings::EvenOdd)? == Ok((*edges, 0)),
            "{text}"
        );
    }
    let open = "POLYGON ((0 0, 4 0, 0 4, 1 1))";
    assert!(rt; counts(rt.alloc(), open, Rings::EvenOdd)? == Err(GeometryFault::Form));
    let dots = "MULTIPOLYGON (((1 1, 1 1)), ((2 2)))";
    assert!(rt; counts(rt.alloc(), dots, Rings::EvenOdd)? == Err(GeometryFault::Form));
    let line = "LINESTRING (1 1, 1 1)";
    assert!(rt; counts(rt.alloc(), line, Rings::EvenOdd)? == Err(GeometryFault::Form));
    Ok(())
}

#[test]
fn decimals_are_those_of_the_scale(rt: HostRuntime) -> Result<(), AllocError> {
    let text = b"LINESTRING (1.25 -0.1, 1.250 3)";
    let hundredths = Scale::new(2).unwrap();
    let Ok(line) = read(rt.alloc(), text, hundredths, Rings::Proper)? else {
        assert!(rt; false, "refused");
        return Ok(());
    };
    let outline = line.outline(rt.alloc())?;
    match outline.ends.as_slice() {
        [first, last] => {
            assert!(rt; (first.x, first.y, last.x, last.y) == (125, -10, 125, 300));
        }
        _ => assert!(rt; false, "not two ends"),
    }
    Ok(())
}

/// Texts of points, the decimals of a scale of any geometry, and the points in units of the last
/// decimal, unless a number isn't whole or is out of range.
const AT_THE_LIMITS: &[(&str, u32, Option<(i64, i64)>)] = &[
    (
        "POINT (1000000000000000000 -1000000000000000000)",
        0,
        Some((1_000_000_000_000_000_000, -1_000_000_000_000_000_000)),
    ),
    ("POINT (1000000000000000001 0)", 0, None),
    ("POINT (0 -10000000000000000000)", 0, None),
    (
        "POINT (1000 -999.999999999999999)",
        15,
        Some((1_000_000_000_000_000_000, -999_999_999_999_999_999)),
    ),
    ("POINT (1000.000000000000001 0)", 15, None),
    (
        "POINT (0.000000000000001 0.1)",
        15,
        Some((1, 100_000_000_000_000)),
    ),
    ("POINT (0.0000000000000001 0)", 15, None),
];

#[test]
fn numbers_at_the_limits_of_any_geometry(rt: HostRuntime) -> Result<(), AllocError> {
    for &(text, decimals, wanted) in AT_THE_LIMITS {
        let scale = Scale::within(Limits::Any, decimals).unwrap();
        let point = match read(rt.alloc(), text.as_bytes(), scale, Rings::Proper)? {
            Ok(geometry) => geometry.path(0).first().map(|point| (point.x, point.y)),
            Err(_) => None,
        };
        assert!(rt; point == wanted, "{text}");
    }
    Ok(())
}
