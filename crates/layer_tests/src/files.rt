//! Files of layers and of edits.

ghost use Rattle.std.specs.Prelude.{◌≡◌, false};

use crate::devices::{Device, Endless};
use crate::layers::{point, seen, state};
use crate::read_layers::{fault_of, layer_of, points_file, reader, reads_as, whole};
use file_core::edits_of_bytes;
use geom_core::Shape;
use layer_core::{Geometry, Layer, LayerFault};
use row_core::{Beginning, Failed, FromRead, ReadFault, Source};
use std::alloc::{AllocError, AllocGlobal, Global};
use std::hash::RandomState;
use std::random::RandomSource;
use std::test::Fail;
use std::thread::Threads;
use wkt_any_core::GeometryFault;
use wkt_core::WktFault;

/// Files of layers without the columns `id` and `wkt`, and the first lines that are told.
const WRONG_HEADERS: &[(&[u8], &str)] = &[
    (b"", ""),
    (b"\n", ""),
    (b"id,geom\n", "id,geom"),
    (b"fid,name,geom\r\n1,a,POINT (1 2)\r\n", "fid,name,geom"),
    (b"id,wkt,\na,POINT (1 2),\n", "id,wkt,"),
    (b"\xef\xbb\xbf\xef\xbb\xbfid,wkt\n", "??????id,wkt"),
    (b"id\twkt\x7f~ \xc3\xa4", "id?wkt?~ ??"),
    (
        b"0123456789abcdef0123456789abcdef0123456789abcdef0123456789abcdef\nid,wkt\n",
        ID_OF_64,
    ),
    (
        b"0123456789abcdef0123456789abcdef0123456789abcdef0123456789abcdefg,wkt\n",
        ID_OF_64,
    ),
];

/// The first bytes of files of other kinds.
const OTHER_FILES: [(&[u8], Beginning); 5] = [
    (b"SQLite format 3\0\x10\0\x01\x01", Beginning::GeoPackage),
    (b"\0\0\x27\x0a\0\0\0\0", Beginning::Shapefile),
    (b"\x1f\x8b\x08\0", Beginning::Gzip),
    (b"{\"type\": \"FeatureCollection\"}\n", Beginning::Json),
    (b"{", Beginning::Json),
];

const BROKEN_LAYERS: [(&[u8], ReadFault); 10] = [
    (b"id,wkt\na\n", ReadFault::Row(1)),
    (
        b"id,wkt\na,POINT (1 2",
        ReadFault::Wkt(1, WktFault::Text, false),
    ),
    (
        b"id,wkt\na,\"MULTIPOINT (1 2, 3 4)\"\n",
        ReadFault::Wkt(1, WktFault::Text, true),
    ),
    (
        b"id,wkt\na,\"LINESTRING (0 0, 1 1)\"\n",
        ReadFault::Wkt(1, WktFault::Form, true),
    ),
    (
        b"id,wkt\na,\"LINESTRING (1 1, 1 1)\"\n",
        ReadFault::Wkt(1, WktFault::Form, false),
    ),
    (
        b"id,wkt\na,POINT (1 2)\na,POINT (3 4)\n",
        ReadFault::Layer(2, LayerFault::DoubleId),
    ),
    (
        b"id,wkt\na,POINT (1 2)\na,POINT (3 4)\nb,POINT (5\n",
        ReadFault::Layer(2, LayerFault::DoubleId),
    ),
    (
        b"id,wkt\na,POINT (1 2)\nb,POINT (5\na,POINT (3 4)\n",
        ReadFault::Wkt(2, WktFault::Text, false),
    ),
    (
        b"id,wkt\n,POINT (1 2\n",
        ReadFault::Layer(1, LayerFault::BadId),
    ),
    (
        b"id,wkt\n\xff,POINT (1 2\n",
        ReadFault::Layer(1, LayerFault::BadId),
    ),
];

const ID_OF_64: &str = "0123456789abcdef0123456789abcdef0123456789abcdef0123456789abcdef";

const LONGEST_ID: &[u8] = b"id,wkt\n0123456789abcdef0123456789abcdef\
    0123456789abcdef0123456789abcdef,POINT (0 0)\n";

const TOO_LONG_ID: &[u8] = b"id,wkt\n0123456789abcdef0123456789abcdef\
    0123456789abcdef0123456789abcdef0,POINT (0 0)\n";

const BROKEN_EDITS: [(&[u8], ReadFault); 5] = [
    (
        b"op,layer,id,wkt\nreplace,left,a,POINT (0 0)\n",
        ReadFault::Row(1),
    ),
    (
        b"op,layer,id,wkt\ndelete,left,a,POINT (0 0)\n",
        ReadFault::Row(1),
    ),
    (b"op,layer,id,wkt\ndelete,middle,a,\n", ReadFault::Row(1)),
    (
        b"op,layer,id,wkt\ndelete,left,a,\ndelete,left,,\n",
        ReadFault::Layer(2, LayerFault::BadId),
    ),
    (
        b"op,layer,id,wkt\ninsert,left,a,POINT (0.5 0)\n",
        ReadFault::Wkt(1, WktFault::Number, false),
    ),
];

const ONE_POINT: &[u8] = b"id,wkt\na,POINT (1 2)\n";

const SPELLINGS: &[&[u8]] = &[
    b"id,wkt\na,\"LINESTRING (1 0, 3 0)\"\n\"b \"\"c\"\"\",POINT (4 4)\n",
    b"\xef\xbb\xbfID,Wkt\r\na,\"LINESTRING (1 0,\n3 0)\"\r\n\"b \"\"c\"\"\",POINT (4 4)",
    b"\n\n\"id\",\"wkt\"\n\na,\"LINESTRING (3 0, 1 0)\"\n\"b \"\"c\"\"\",point(4 4)\n\n",
];

fn edits_fault(alloc: Global, bytes: &[u8]) -> Result<Option<ReadFault>, Fail> {
    Ok(edits_of_bytes(alloc, bytes, whole()?).err())
}

/// The fault of reading a layer from this source, if it has one.
fn fault_from<S: Source, R: Threads + Sync + RandomSource + AllocGlobal>(
    rt: &R,
    source: &mut S,
) -> Result<Option<ReadFault>, Fail>
    requires { S.has_failed source.old ≡ false }
{
    let state = RandomState::new(rt)?;
    Ok(reader(rt, whole()?, 1).read_layer(state, source).err())
}

/// The file of a layer whose second read fails.
#[test]
fn failing_layer(rt: HostRuntime) -> Result<(), Fail> {
    let mut failing = FromRead::new(Device::new(ONE_POINT, 5, 1));
    assert!(rt; fault_from(&rt, &mut failing)? == Some(ReadFault::Io));
    assert!(rt; failing.failed());
    Ok(())
}

#[test]
fn endless_layer(rt: HostRuntime) -> Result<(), Fail> {
    let mut endless = FromRead::new(Endless);
    assert!(rt; fault_from(&rt, &mut endless)? == Some(ReadFault::TooLong));
    assert!(rt; !endless.failed());
    Ok(())
}

/// The index of the first of the broken layers whose fault isn't the expected one.
fn first_other_layer<R: Threads + Sync + RandomSource + AllocGlobal>(
    rt: &R,
) -> Result<Option<usize>, Fail> {
    for (place, (bytes, fault)) in BROKEN_LAYERS.iter().enumerate() {
        if fault_of(rt, bytes)? != Some(*fault) {
            return Ok(Some(place));
        }
    }
    Ok(None)
}

/// The index of the first of the broken lists of edits whose fault isn't the expected one.
fn first_other_edits(alloc: Global) -> Result<Option<usize>, Fail> {
    for (place, (bytes, fault)) in BROKEN_EDITS.iter().enumerate() {
        if edits_fault(alloc, bytes)? != Some(*fault) {
            return Ok(Some(place));
        }
    }
    Ok(None)
}

/// Whether a fault is that of a header, and tells this first line.
fn tells(fault: Option<ReadFault>, line: &str) -> bool {
    match fault {
        Some(ReadFault::Header(Beginning::Line(first))) => first.as_str() == line,
        _ => false,
    }
}

/// The first line is told of a file of a layer or of edits that has another header.
#[test]
fn wrong_headers(rt: HostRuntime) -> Result<(), Fail> {
    for (bytes, line) in WRONG_HEADERS {
        assert!(rt; tells(fault_of(&rt, bytes)?, line));
        assert!(rt; tells(edits_fault(rt.alloc(), bytes)?, line));
    }
    assert!(rt; tells(edits_fault(rt.alloc(), b"id,wkt\n".as_slice())?, "id,wkt"));
    Ok(())
}

#[test]
fn other_files(rt: HostRuntime) -> Result<(), Fail> {
    for (bytes, beginning) in OTHER_FILES {
        assert!(rt; fault_of(&rt, bytes)? == Some(ReadFault::Header(beginning)));
    }
    Ok(())
}

#[test]
fn broken_files(rt: HostRuntime) -> Result<(), Fail> {
    assert_eq!(rt; first_other_layer(&rt)?, None);
    assert_eq!(rt; first_other_edits(rt.alloc())?, None);
    Ok(())
}

#[test]
fn spelled_files(rt: HostRuntime) -> Result<(), Fail> {
    let segment = Shape::new(1, 0, 3, 0).ok_or("a segment")?;
    let features = [("a", segment), ("b \"c\"", point(4, 4)?)];
    for bytes in SPELLINGS {
        assert!(rt; reads_as(&rt, bytes, &features)?);
    }
    Ok(())
}

/// The fault of a file of `count` points followed by these rows, if it has one.
fn fault_behind<R: Threads + Sync + RandomSource + AllocGlobal>(
    rt: &R,
    count: u32,
    rows: &str,
) -> Result<Option<ReadFault>, Fail> {
    let mut file = points_file(rt.alloc(), count)?;
    file.push_str(rows)?;
    fault_of(rt, file.as_bytes())
}

/// The fault of a row is reported with its number, and not as lack of memory.
#[test]
fn faults_behind_a_thousand_rows(rt: HostRuntime) -> Result<(), Fail> {
    let ragged = fault_behind(&rt, 1_000, "a\n")?;
    assert!(rt; ragged == Some(ReadFault::Row(1_001)));
    let double = fault_behind(&rt, 1_000, "p999,POINT (0 0)\n")?;
    assert!(rt; double == Some(ReadFault::Layer(1_001, LayerFault::DoubleId)));
    Ok(())
}

/// An id of 64 bytes is accepted, and an id of 65 bytes is a fault.
#[test]
fn longest_ids_in_files(rt: HostRuntime) -> Result<(), Fail> {
    let origin = point(0, 0)?;
    assert!(rt; reads_as(&rt, LONGEST_ID, &[(ID_OF_64, origin)])?);
    let fault = Some(ReadFault::Layer(1, LayerFault::BadId));
    assert!(rt; fault_of(&rt, TOO_LONG_ID)? == fault);
    Ok(())
}

/// The fault of the first of two bad rows is reported, wherever the rows are among the batches of
/// 4,096 rows that are read ahead.
#[test]
fn batched_file_double_id(rt: HostRuntime) -> Result<(), Fail> {
    for count in [4_095, 4_096, 40_000] {
        let double = fault_behind(&rt, count, "p0,POINT (0 0)\nq,POINT (0\n")?;
        assert!(rt; double == Some(ReadFault::Layer(count + 1, LayerFault::DoubleId)));
    }
    Ok(())
}

#[test]
fn batched_file_broken_row(rt: HostRuntime) -> Result<(), Fail> {
    for count in [4_095, 4_096, 40_000] {
        let unread = fault_behind(&rt, count, "q,POINT (0\np0,POINT (0 0)\n")?;
        assert!(rt; unread == Some(ReadFault::Wkt(count + 1, WktFault::Text, false)));
    }
    Ok(())
}

/// The number of features of the layer of `count` points, loaded by two threads.
fn points_loaded<R: Threads + Sync + RandomSource + AllocGlobal>(
    rt: &R,
    count: u32,
) -> Result<usize, Fail> {
    let file = points_file(rt.alloc(), count)?;
    Ok(seen(layer_of(rt, file.as_bytes())?, |layer| layer.len()))
}

#[test]
fn whole_batches(rt: HostRuntime) -> Result<(), Fail> {
    assert_eq!(rt; points_loaded(&rt, 4_096)?, 4_096);
    assert_eq!(rt; points_loaded(&rt, 40_000)?, 40_000);
    Ok(())
}

/// Whether a fault is displayed as this text and is of this row.
fn shows(
    alloc: Global,
    fault: ReadFault,
    text: &str,
    row: Option<u32>,
) -> Result<bool, AllocError> {
    let shown = format!(in alloc; "{fault}")?;
    Ok(shown.as_str() == text && fault.row() == row)
}

/// Faults of files, their displayed texts, and their rows.
const FAULTS: [(ReadFault, &str, Option<u32>); 8] = [
    (ReadFault::Io, "read failed", None),
    (ReadFault::TooLong, "file is too long", None),
    (ReadFault::Header(Beginning::Json), "wrong header", None),
    (ReadFault::Row(7), "row 7: wrong fields", Some(7)),
    (
        ReadFault::Wkt(4_000_000_000, WktFault::Text, true),
        "row 4000000000: not a geometry text",
        Some(4_000_000_000),
    ),
    (
        ReadFault::Geometry(3, GeometryFault::Rings),
        "row 3: rings cross or overlap",
        Some(3),
    ),
    (
        ReadFault::Layer(12, LayerFault::DoubleId),
        "row 12: id is already there",
        Some(12),
    ),
    (ReadFault::Memory, "no memory", None),
];

/// Whether a fault is displayed as its own text after the number of its row.
fn ends_with_text(text: &str, fault: ReadFault) -> bool {
    text.ends_with(fault.text())
}

#[test]
fn fault_texts(rt: HostRuntime) -> Result<(), Fail> {
    for (fault, text, row) in FAULTS {
        assert!(rt; shows(rt.alloc(), fault, text, row)? && ends_with_text(text, fault));
    }
    let failed = format!(in rt.alloc(); "{Failed}")?;
    assert!(rt; failed.as_str() == ReadFault::Io.text());
    Ok(())
}

/// The refusals of a layer, and their displayed texts.
const REFUSALS: &[(LayerFault, &str)] = &[
    (LayerFault::BadId, "id must have 1 to 64 bytes of UTF-8"),
    (LayerFault::DoubleId, "id is already there"),
    (LayerFault::LayerFull, "layer is full"),
    (LayerFault::NoSuchId, "no such id"),
    (LayerFault::Memory, "no memory"),
];

#[test]
fn refusal_texts(rt: HostRuntime) -> Result<(), Fail> {
    for &(fault, text) in REFUSALS {
        let shown = format!(in rt.alloc(); "{fault}")?;
        assert!(rt; shown.as_str() == text && fault.text() == text);
    }
    Ok(())
}
