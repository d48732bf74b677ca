//! Short layers read without the rows whose geometry can't be read.

use crate::layers::seen;
use crate::read_layers::{reader, whole};
use crate::skipping::{has_point, is_skipped, skipping_by};
use any_geometry_core::AnyGeometry;
use file_core::{SkippedRow, Unreadable, WithSkipped};
use format_core::TextFault;
use layer_core::{FeatureList, Layer, LayerFault};
use row_core::{Beginning, ReadFault};
use std::alloc::AllocGlobal;
use std::hash::RandomState;
use std::random::RandomSource;
use std::test::Fail;
use std::thread::Threads;
use wkt_any_core::GeometryFault;
use wkt_core::WktFault;

/// A short file, the points of its layer, and the skipped rows.
type Short = (
    &'static [u8],
    &'static [(&'static str, i64, i64)],
    &'static [(u32, &'static str, GeometryFault)],
);

const SHORT: &[Short] = &[
    (b"id,wkt\n", &[], &[]),
    (b"id,wkt\na,POINT (1 2)\n", &[("a", 1, 2)], &[]),
    (
        b"id,wkt\na,POINT (1 2\nb,POINT (0.5 2)\nc,POINT (3 4)\n\
            d,\"LINESTRING (1 1, 1 1)\"\n\
            e,\"POLYGON ((0 0, 4 4, 4 0, 0 4, 0 0))\"\n",
        &[("c", 3, 4)],
        &[
            (1, "a", GeometryFault::Text),
            (2, "b", GeometryFault::Number),
            (4, "d", GeometryFault::Form),
            (5, "e", GeometryFault::Rings),
        ],
    ),
    // the id of a skipped row may be that of another row
    (
        b"id,wkt\na,POINT (1 2\na,POINT (3 4)\na,POINT (5\n",
        &[("a", 3, 4)],
        &[(1, "a", GeometryFault::Text), (3, "a", GeometryFault::Text)],
    ),
    // an empty geometry is skipped, and so is an empty field
    (
        b"id,wkt\na,POINT EMPTY\nb,\nc,POINT (3 4)",
        &[("c", 3, 4)],
        &[(1, "a", GeometryFault::Text), (2, "b", GeometryFault::Text)],
    ),
];

/// Files with a fault that no skipping avoids.
const BROKEN: [(&[u8], ReadFault); 5] = [
    (b"{", ReadFault::Header(Beginning::Json)),
    (b"id,wkt\na,POINT (1 2\nb\n", ReadFault::Row(2)),
    (
        b"id,wkt\nb,POINT (1 2\n,POINT (1 2\n",
        ReadFault::Layer(2, LayerFault::BadId),
    ),
    (
        b"id,wkt\na,POINT (1 2)\nb,POINT (5\na,POINT (3 4)\n",
        ReadFault::Layer(3, LayerFault::DoubleId),
    ),
    (
        b"id,wkt\nb,POINT (5\na,POINT (1 2)\nb,POINT (5\na,POINT (3 4)\nc\n",
        ReadFault::Layer(4, LayerFault::DoubleId),
    ),
];

/// Whether exactly these rows were skipped.
fn skips_these(skipped: &[SkippedRow], these: &[(u32, &str, GeometryFault)]) -> bool {
    for (row, (number, id, fault)) in skipped.iter().zip(these) {
        if !is_skipped(row, *number, id, *fault) {
            return false;
        }
    }
    skipped.len() == these.len()
}

/// Whether the layer has exactly these points.
fn has_these(layer: &Layer<AnyGeometry>, points: &[(&str, i64, i64)]) -> bool {
    for ((id, x, y), number) in points.iter().zip(0..) {
        if !has_point(layer, id, number, *x, *y) {
            return false;
        }
    }
    layer.len() == points.len()
}

/// The index of the first short file that `threads` threads read otherwise.
fn first_other_short<R: Threads + Sync + RandomSource + AllocGlobal>(
    rt: &R,
    threads: u32,
) -> Result<Option<usize>, Fail> {
    for (place, (bytes, points, rows)) in SHORT.iter().enumerate() {
        let skipping = skipping_by(rt, bytes, threads)??;
        if !seen(skipping, |s| {
            has_these(&s.read, points) && skips_these(s.skipped.as_slice(), rows)
        }) {
            return Ok(Some(place));
        }
    }
    Ok(None)
}

#[test]
fn short_files(rt: HostRuntime) -> Result<(), Fail> {
    for threads in [1, 4] {
        assert_eq!(rt; first_other_short(&rt, threads)?, None);
    }
    Ok(())
}

/// The index of the first broken file whose fault isn't the expected one.
fn first_other_broken<R: Threads + Sync + RandomSource + AllocGlobal>(
    rt: &R,
) -> Result<Option<usize>, Fail> {
    for (place, (bytes, fault)) in BROKEN.iter().enumerate() {
        if skipping_by(rt, bytes, 2)?.err() != Some(*fault) {
            return Ok(Some(place));
        }
    }
    Ok(None)
}

#[test]
fn broken_files(rt: HostRuntime) -> Result<(), Fail> {
    assert_eq!(rt; first_other_broken(&rt)?, None);
    Ok(())
}

/// Whether the box of `b` is the only feature, and the row before it was skipped.
fn has_box(skipping: &WithSkipped<FeatureList>) -> bool {
    let [row] = skipping.skipped.as_slice() else {
        return false;
    };
    let Some(feature) = skipping.read.iter().next() else {
        return false;
    };
    feature.id == "b"
        && skipping.read.stats().features == 1
        && row.row == 1
        && row.id.as_str() == "a"
        && row.fault == TextFault::Wkt(WktFault::Form, true)
        && row.as_fault() == ReadFault::Wkt(1, WktFault::Form, true)
}

#[test]
fn boxes(rt: HostRuntime) -> Result<(), Fail> {
    let state = RandomState::new(&rt)?;
    let bytes = b"id,wkt\na,\"LINESTRING (0 0, 1 1)\"\nb,POINT (1 2)\n";
    let features = reader(&rt, whole()?, 2).load_features(
        Unreadable::Skip,
        state,
        bytes.as_slice(),
    )?;
    assert!(rt; has_box(&features));
    Ok(())
}

/// A file with long ids, so that each skipped row takes memory.
const LONG_IDS: &[u8] = b"id,wkt\n0123456789abcdefg,POINT (0 0\n0123456789abcdefh,POINT (3 4)\n\
    0123456789abcdefi,POINT (1 2\n";

/// Whether one row of three is loaded, or the fault.
fn loads_one<R: Threads + Sync + RandomSource + AllocGlobal>(
    rt: &R,
) -> Result<Result<bool, ReadFault>, Fail> {
    let rows = &[
        (1, "0123456789abcdefg", GeometryFault::Text),
        (3, "0123456789abcdefi", GeometryFault::Text),
    ];
    let answer = skipping_by(rt, LONG_IDS, 2)?;
    Ok(answer.map(|skipping| {
        seen(skipping, |s| {
            has_these(&s.read, &[("0123456789abcdefh", 3, 4)])
                && skips_these(s.skipped.as_slice(), rows)
        })
    }))
}

/// With each allocation failing in turn, the same call with memory then has the same result as
/// without the failure.
#[test]
fn refused_skipping(rt: HostRuntime) -> Result<(), Fail> {
    let first = loads_one(&rt)?;
    assert!(rt; matches!(first, Ok(true) | Err(ReadFault::Memory)));
    assert!(rt; first == Ok(true) || loads_one(&rt)? == Ok(true));
    Ok(())
}
