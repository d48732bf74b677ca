//! Layers read from the bytes of files.

use crate::layers::{has_features, seen};
use file_core::LayerReader;
use format_core::Format;
use geom_core::Shape;
use layer_core::Layer;
use row_core::ReadFault;
use std::alloc::{AllocError, AllocGlobal, Global};
use std::fmt::Write;
use std::hash::RandomState;
use std::random::RandomSource;
use std::test::Fail;
use std::thread::Threads;
use wkt_core::Scale;

/// The scale without decimals.
pub fn whole() -> Result<Scale, Fail> {
    Ok(Scale::new(0).ok_or("a scale")?)
}

/// A reader of layers of geometries of this format.
pub fn reader<F, R: AllocGlobal>(rt: &R, format: F, threads: u32) -> LayerReader<'_, F, R> {
    LayerReader {
        rt,
        alloc: rt.alloc(),
        format,
        threads,
    }
}

/// The layer of a copy of these bytes.
fn layer_of_copy<F: Format, R: Threads + Sync>(
    reader: &LayerReader<'_, F, R>,
    state: RandomState,
    bytes: &[u8],
) -> Result<Layer<F::Geometry>, ReadFault> {
    let copy = Vec::from_slice(reader.alloc, bytes)?;
    reader.layer_of_bytes(state, copy)
}

/// The result of loading the bytes of a file of geometries of this format.
pub fn answer_in<F: Format, R: Threads + Sync + RandomSource + AllocGlobal>(
    rt: &R,
    bytes: &[u8],
    format: F,
    threads: u32,
) -> Result<Result<Layer<F::Geometry>, ReadFault>, Fail> {
    let state = RandomState::new(rt)?;
    let reader = reader(rt, format, threads);
    Ok(layer_of_copy(&reader, state, bytes))
}

/// The result of loading the bytes of a file by `threads` threads.
pub fn answer_by<R: Threads + Sync + RandomSource + AllocGlobal>(
    rt: &R,
    bytes: &[u8],
    threads: u32,
) -> Result<Result<Layer, ReadFault>, Fail> {
    answer_in(rt, bytes, whole()?, threads)
}

/// The layer of a file of these bytes, loaded by `threads` threads.
pub fn layer_by<R: Threads + Sync + RandomSource + AllocGlobal>(
    rt: &R,
    bytes: &[u8],
    threads: u32,
) -> Result<Layer, Fail> {
    Ok(answer_by(rt, bytes, threads)??)
}

/// The layer of a file of these bytes, loaded by two threads.
pub fn layer_of<R: Threads + Sync + RandomSource + AllocGlobal>(
    rt: &R,
    bytes: &[u8],
) -> Result<Layer, Fail> {
    layer_by(rt, bytes, 2)
}

/// The fault of a layer's file loaded by `threads` threads, if it has one.
pub fn fault_by<R: Threads + Sync + RandomSource + AllocGlobal>(
    rt: &R,
    bytes: &[u8],
    threads: u32,
) -> Result<Option<ReadFault>, Fail> {
    Ok(answer_by(rt, bytes, threads)?.err())
}

/// The fault of a layer's file, if it has one. It must be the same for one thread and for two.
pub fn fault_of<R: Threads + Sync + RandomSource + AllocGlobal>(
    rt: &R,
    bytes: &[u8],
) -> Result<Option<ReadFault>, Fail> {
    let fault = fault_by(rt, bytes, 1)?;
    if fault_by(rt, bytes, 2)? != fault {
        return Err(Fail::new("two threads find another fault than one"));
    }
    Ok(fault)
}

/// Whether `threads` threads load exactly these features, in this order.
pub fn reads_by<R: Threads + Sync + RandomSource + AllocGlobal>(
    rt: &R,
    bytes: &[u8],
    threads: u32,
    features: &[(&str, Shape)],
) -> Result<bool, Fail> {
    let layer = layer_by(rt, bytes, threads)?;
    Ok(seen(layer, |layer| has_features(layer, features)))
}

/// Whether the layer of these bytes has exactly these features, in this order, loaded by one thread
/// and by two.
pub fn reads_as<R: Threads + Sync + RandomSource + AllocGlobal>(
    rt: &R,
    bytes: &[u8],
    features: &[(&str, Shape)],
) -> Result<bool, Fail> {
    Ok(reads_by(rt, bytes, 1, features)? && reads_by(rt, bytes, 2, features)?)
}

/// A layer file of the points (0 0), (1 0), .., with the ids p0, p1, ..
pub fn points_file(alloc: Global, count: u32) -> Result<String, AllocError> {
    let mut file = String::from_str(alloc, "id,wkt\n")?;
    for i in 0..count {
        writeln!(file, "p{i},POINT ({i} 0)")?;
    }
    Ok(file)
}
