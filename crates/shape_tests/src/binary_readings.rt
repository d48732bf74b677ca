//! Named texts of binary and of an SRID, and what they are read as. Their digits are Shapely's or
//! those of Python's `struct`.

use geometry_text_core::read;
use std::alloc::AllocError;
use wkt_any_core::{GeometryFault, Rings, print};
use wkt_core::{Limits, Scale};

/// A name, a text of binary, and well-known text of the same geometry as rjoin prints it.
const BINARY: &[(&str, &str, &str)] = &[
    (
        "point",
        "0101000000000000000000F03F0000000000000040",
        "POINT (1 2)",
    ),
    (
        "point, big-endian",
        "00000000013FF00000000000004000000000000000",
        "POINT (1 2)",
    ),
    (
        "point with an SRID",
        "0101000020E6100000000000000000F03F0000000000000040",
        "POINT (1 2)",
    ),
    (
        "point in small letters and white space",
        " \t0101000000000000000000f03f0000000000000040\r\n",
        "POINT (1 2)",
    ),
    (
        "minus zero",
        "01010000000000000000000080000000000000F0BF",
        "POINT (0 -1)",
    ),
    (
        "polyline",
        "01020000000300000000000000000000000000000000000000000000000000084000000000000000\
        4000000000000014400000000000000040",
        "LINESTRING (0 0, 3 2, 5 2)",
    ),
    (
        "polyline, big-endian with an SRID",
        "00200000020000000100000003000000000000000000000000000000004008000000000000400000\
        000000000040140000000000004000000000000000",
        "LINESTRING (0 0, 3 2, 5 2)",
    ),
    (
        "polyline with a point twice",
        "01020000000400000000000000000000000000000000000000000000000000084000000000000000\
        400000000000000840000000000000004000000000000014400000000000000040",
        "LINESTRING (0 0, 3 2, 5 2)",
    ),
    (
        "polygon",
        "01030000000100000004000000000000000000000000000000000000000000000000001040000000\
        00000000000000000000000000000000000000104000000000000000000000000000000000",
        "POLYGON ((0 0, 4 0, 0 4, 0 0))",
    ),
    (
        "polygon, big-endian",
        "00000000030000000100000004000000000000000000000000000000004010000000000000000000\
        00000000000000000000000000401000000000000000000000000000000000000000000000",
        "POLYGON ((0 0, 4 0, 0 4, 0 0))",
    ),
    (
        "points",
        "0104000000020000000101000000000000000000F03F000000000000F03F01010000000000000000\
        0000400000000000000040",
        "MULTIPOINT ((1 1), (2 2))",
    ),
    (
        "points, an order for each",
        "0000000004000000020101000000000000000000f03f000000000000f03f0020000001000010e640\
        000000000000004000000000000000",
        "MULTIPOINT ((1 1), (2 2))",
    ),
    (
        "polylines",
        "01050000000200000001020000000200000000000000000000000000000000000000000000000000\
        00400000000000000040010200000002000000000000000000004000000000000000400000000000\
        0010400000000000000000",
        "MULTILINESTRING ((0 0, 2 2), (2 2, 4 0))",
    ),
    (
        "polylines, big-endian with an SRID",
        "0020000005000010E600000002000000000200000002000000000000000000000000000000004000\
        00000000000040000000000000000000000002000000024000000000000000400000000000000040\
        100000000000000000000000000000",
        "MULTILINESTRING ((0 0, 2 2), (2 2, 4 0))",
    ),
    (
        "polygons",
        "01060000000200000001030000000200000005000000000000000000000000000000000000000000\
        00000000104000000000000000000000000000001040000000000000104000000000000000000000\
        0000000010400000000000000000000000000000000004000000000000000000F03F000000000000\
        F03F0000000000000040000000000000F03F000000000000F03F0000000000000040000000000000\
        F03F000000000000F03F010300000001000000040000000000000000002240000000000000224000\
        00000000002040000000000000224000000000000022400000000000002040000000000000224000\
        00000000002240",
        "MULTIPOLYGON (((0 0, 4 0, 4 4, 0 4, 0 0)), ((1 1, 2 1, 1 2, 1 1)), \
        ((9 9, 8 9, 9 8, 9 9)))",
    ),
    (
        "polygons, big-endian",
        "00000000060000000200000000030000000200000005000000000000000000000000000000004010\
        00000000000000000000000000004010000000000000401000000000000000000000000000004010\
        00000000000000000000000000000000000000000000000000043FF00000000000003FF000000000\
        000040000000000000003FF00000000000003FF000000000000040000000000000003FF000000000\
        00003FF0000000000000000000000300000001000000044022000000000000402200000000000040\
        20000000000000402200000000000040220000000000004020000000000000402200000000000040\
        22000000000000",
        "MULTIPOLYGON (((0 0, 4 0, 4 4, 0 4, 0 0)), ((1 1, 2 1, 1 2, 1 1)), \
        ((9 9, 8 9, 9 8, 9 9)))",
    ),
];

/// A name, a text with an SRID, and the text without it.
const SRIDS: &[(&str, &str, &str)] = &[
    ("SRID before a text", "SRID=4326;POINT (1 2)", "POINT (1 2)"),
    (
        "SRID in white space and small letters",
        " srid=0;\n point (1 2) ",
        "POINT (1 2)",
    ),
];

/// A name, a text, and its fault at scale 0 with proper rings.
const FAULTS: &[(&str, &str, GeometryFault)] = &[
    ("no digit", "", GeometryFault::Text),
    (
        "an odd number of digits",
        "0101000000000000000000F03F000000000000004",
        GeometryFault::Text,
    ),
    (
        "another character",
        "0101000000000000000000F03F000000000000004g",
        GeometryFault::Text,
    ),
    (
        "white space inside",
        "0101000000 000000000000F03F0000000000000040",
        GeometryFault::Text,
    ),
    (
        "a byte left",
        "0101000000000000000000F03F000000000000004000",
        GeometryFault::Text,
    ),
    (
        "a byte lacking",
        "0101000000000000000000F03F00000000000000",
        GeometryFault::Text,
    ),
    (
        "an order of 2",
        "0201000000000000000000F03F0000000000000040",
        GeometryFault::Text,
    ),
    (
        "Z by its flag",
        "0101000080000000000000f03f00000000000000400000000000000840",
        GeometryFault::Text,
    ),
    (
        "Z by its code",
        "01e9030000000000000000f03f00000000000000400000000000000840",
        GeometryFault::Text,
    ),
    (
        "M by its flag",
        "0101000040000000000000f03f00000000000000400000000000000840",
        GeometryFault::Text,
    ),
    (
        "M by its code",
        "01d1070000000000000000f03f00000000000000400000000000000840",
        GeometryFault::Text,
    ),
    (
        "Z and M by their code",
        "01b90b0000000000000000f03f000000000000004000000000000008400000000000001040",
        GeometryFault::Text,
    ),
    ("a collection", "010700000000000000", GeometryFault::Text),
    ("a curve", "010800000000000000", GeometryFault::Text),
    (
        "a code of 0",
        "0100000000000000000000f03f0000000000000040",
        GeometryFault::Text,
    ),
    (
        "a point of NaNs",
        "0101000000000000000000f87f000000000000f87f",
        GeometryFault::Text,
    ),
    (
        "one NaN",
        "01020000000200000000000000000000000000000000000000000000000000f03f000000000000f87f",
        GeometryFault::Text,
    ),
    (
        "a polyline without points",
        "010200000000000000",
        GeometryFault::Text,
    ),
    (
        "a polygon without rings",
        "010300000000000000",
        GeometryFault::Text,
    ),
    (
        "a ring without points",
        "01030000000100000000000000",
        GeometryFault::Text,
    ),
    (
        "many without parts",
        "010400000000000000",
        GeometryFault::Text,
    ),
    (
        "a count greater than the bytes",
        "0102000000ffffffff",
        GeometryFault::Text,
    ),
    (
        "a part of another kind",
        "01040000000100000001020000000200000000000000000000000000000000000000000000000000\
        f03f000000000000f03f",
        GeometryFault::Text,
    ),
    (
        "a part that is many",
        "0104000000010000000104000000010000000101000000000000000000f03f000000000000f03f",
        GeometryFault::Text,
    ),
    (
        "binary after an SRID",
        "SRID=4326;0101000000000000000000F03F0000000000000040",
        GeometryFault::Text,
    ),
    (
        "an SRID without digits",
        "SRID=;POINT (1 2)",
        GeometryFault::Text,
    ),
    (
        "an SRID with a sign",
        "SRID=-1;POINT (1 2)",
        GeometryFault::Text,
    ),
    (
        "an SRID with a comma",
        "SRID=1,POINT (1 2)",
        GeometryFault::Text,
    ),
    (
        "two SRIDs",
        "SRID=1;SRID=1;POINT (1 2)",
        GeometryFault::Text,
    ),
    (
        "infinity",
        "0101000000000000000000f07f0000000000000000",
        GeometryFault::Number,
    ),
    (
        "half a unit",
        "0101000000000000000000e03f0000000000000000",
        GeometryFault::Number,
    ),
    (
        "out of range",
        "0101000000000000000000000001c84e676dc1abc3",
        GeometryFault::Number,
    ),
    (
        "half a unit and a byte lacking",
        "010200000002000000000000000000e03f0000000000000000000000000000f03f000000000000f0",
        GeometryFault::Text,
    ),
    (
        "half a unit and no length",
        "010200000002000000000000000000e03f0000000000000000000000000000e03f0000000000000000",
        GeometryFault::Number,
    ),
    (
        "no length",
        "010200000002000000000000000000f03f000000000000f03f000000000000f03f000000000000f03f",
        GeometryFault::Form,
    ),
    (
        "an open ring",
        "01030000000100000004000000000000000000000000000000000000000000000000001040000000\
        000000000000000000000000000000000000001040000000000000f03f000000000000f03f",
        GeometryFault::Form,
    ),
    (
        "a bow tie",
        "01030000000100000005000000000000000000000000000000000000000000000000001040000000\
        00000010400000000000001040000000000000000000000000000000000000000000001040000000\
        00000000000000000000000000",
        GeometryFault::Rings,
    ),
];

#[test]
fn binary_is_read_as_its_text(rt: HostRuntime) -> Result<(), AllocError> {
    let scale = Scale::within(Limits::Any, 0).unwrap();
    for &(name, digits, wanted) in BINARY {
        let geometry = read(rt.alloc(), digits.as_bytes(), scale, Rings::EvenOdd)?.unwrap();
        let printed = print(rt.alloc(), &geometry, scale)?;
        assert!(rt; printed.as_str() == wanted, "{name}");
    }
    Ok(())
}

#[test]
fn srids_are_read_over(rt: HostRuntime) -> Result<(), AllocError> {
    let scale = Scale::within(Limits::Any, 0).unwrap();
    for &(name, text, wanted) in SRIDS {
        let geometry = read(rt.alloc(), text.as_bytes(), scale, Rings::Proper)?.unwrap();
        let printed = print(rt.alloc(), &geometry, scale)?;
        assert!(rt; printed.as_str() == wanted, "{name}");
    }
    Ok(())
}

#[test]
fn faults_are_found(rt: HostRuntime) -> Result<(), AllocError> {
    let scale = Scale::within(Limits::Any, 0).unwrap();
    for &(name, text, wanted) in FAULTS {
        let answer = read(rt.alloc(), text.as_bytes(), scale, Rings::Proper)?;
        assert!(rt; answer.err() == Some(wanted), "{name}");
    }
    Ok(())
}
