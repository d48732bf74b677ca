//! Reading layers without the rows whose geometry can't be read, for the tests of it.

use crate::read_layers::{reader, whole};
use any_geometry_core::AnyGeometry;
use file_core::{LayerReader, SkippedRow, Unreadable, WithSkipped};
use format_core::{AnyFormat, Format, TextFault};
use geom_core::Shape;
use layer_core::{Geometry, Layer};
use plane_core::Rings;
use row_core::ReadFault;
use std::alloc::AllocGlobal;
use std::hash::RandomState;
use std::random::RandomSource;
use std::test::Fail;
use std::thread::Threads;
use wkt_any_core::GeometryFault;

/// Geometries of any kind without decimals, with proper rings.
pub(crate) fn any() -> Result<AnyFormat, Fail> {
    Ok(AnyFormat {
        scale: whole()?,
        rings: Rings::Proper,
    })
}

/// A layer of geometries of any kind, and the rows that were skipped.
pub(crate) type Skipping = WithSkipped<Layer<AnyGeometry>>;

fn skipping_copy<F: Format, R: Threads + Sync>(
    reader: &LayerReader<'_, F, R>,
    state: RandomState,
    bytes: &[u8],
) -> Result<WithSkipped<Layer<F::Geometry>>, ReadFault> {
    let copy = Vec::from_slice(reader.alloc, bytes)?;
    reader.load_layer(Unreadable::Skip, state, copy)
}

/// The layer of a file's bytes without the rows that can't be read, loaded by `threads` threads.
pub(crate) fn skipping_by<R: Threads + Sync + RandomSource + AllocGlobal>(
    rt: &R,
    bytes: &[u8],
    threads: u32,
) -> Result<Result<Skipping, ReadFault>, Fail> {
    let state = RandomState::new(rt)?;
    let reader = reader(rt, any()?, threads);
    Ok(skipping_copy(&reader, state, bytes))
}

/// Whether this row was skipped with this number, id and fault.
pub(crate) fn is_skipped(row: &SkippedRow, number: u32, id: &str, fault: GeometryFault) -> bool {
    row.row == number
        && row.id.as_str() == id
        && row.fault == TextFault::Geometry(fault)
        && row.as_fault() == ReadFault::Geometry(number, fault)
}

/// Whether the layer has a point under an id, with this number.
pub(crate) fn has_point(layer: &Layer<AnyGeometry>, id: &str, number: u32, x: i64, y: i64) -> bool {
    match layer.at(number) {
        Some((found, geometry)) => found == id && Some(geometry.bounds()) == Shape::new(x, y, x, y),
        None => false,
    }
}
