//! Long layers, read in parts, without the rows whose geometry can't be read.

use crate::read_layers::answer_in;
use crate::skipping::{Skipping, any, has_point, is_skipped, skipping_by};
use any_geometry_core::AnyGeometry;
use file_core::{SkippedRow, WithSkipped};
use layer_core::{Layer, LayerFault};
use row_core::ReadFault;
use std::alloc::{AllocError, AllocGlobal, Global};
use std::fmt::Write;
use std::random::RandomSource;
use std::test::Fail;
use std::thread::Threads;
use wkt_any_core::GeometryFault;

/// The number of rows of a long file, enough for it to be read in parts.
const ROWS: u32 = 5_000;

/// The texts of the geometries of a long file's rows, in turn: one that is read, and one of each
/// fault.
const TEXTS: [(&str, Option<GeometryFault>); 5] = [
    ("POINT (1 2)", None),
    ("POINT (1 2", Some(GeometryFault::Text)),
    ("POINT (0.5 2)", Some(GeometryFault::Number)),
    ("\"LINESTRING (1 1, 1 1)\"", Some(GeometryFault::Form)),
    (
        "\"POLYGON ((0 0, 4 4, 4 0, 0 4, 0 0))\"",
        Some(GeometryFault::Rings),
    ),
];

/// The text of a row's geometry and its fault, in a long file that begins with this one of the
/// texts.
fn text_of(row: u32, first: u32) -> (&'static str, Option<GeometryFault>) {
    TEXTS[row.wrapping_add(first) as usize % TEXTS.len()]
}

/// A long file, whose rows have the ids p0, p1, .., and begin with this one of the texts.
fn long_file(alloc: Global, first: u32) -> Result<String, AllocError> {
    let mut file = String::from_str(alloc, "id,wkt\n")?;
    for i in 0..ROWS {
        let (text, _) = text_of(i, first);
        writeln!(file, "p{i},{text}")?;
    }
    Ok(file)
}

/// Whether the rows of a long file that can't be read were skipped, in order, and no other.
fn skips_unreadable(alloc: Global, skipped: &[SkippedRow], first: u32) -> Result<bool, AllocError> {
    let mut rest = skipped.iter();
    for i in 0..ROWS {
        let (_, Some(fault)) = text_of(i, first) else {
            continue;
        };
        let id = format!(in alloc; "p{i}")?;
        let Some(row) = rest.next() else {
            return Ok(false);
        };
        if !is_skipped(row, i + 1, id.as_str(), fault) {
            return Ok(false);
        }
    }
    Ok(rest.next().is_none())
}

/// Whether the layer has the rows of a long file that can be read, in order, and no other.
fn has_readable(alloc: Global, layer: &Layer<AnyGeometry>, first: u32) -> Result<bool, AllocError> {
    let mut number: u32 = 0;
    for i in 0..ROWS {
        if text_of(i, first).1.is_none() {
            let id = format!(in alloc; "p{i}")?;
            if !has_point(layer, id.as_str(), number, 1, 2) {
                return Ok(false);
            }
            number = number.wrapping_add(1);
        }
    }
    Ok(layer.len() == 1_000 && number == 1_000)
}

/// Whether `threads` threads read a long file as one would by hand.
fn reads_long<R: Threads + Sync + RandomSource + AllocGlobal>(
    rt: &R,
    threads: u32,
    first: u32,
) -> Result<bool, Fail> {
    let alloc = rt.alloc();
    let file = long_file(alloc, first)?;
    let WithSkipped { read, skipped } = skipping_by(rt, file.as_bytes(), threads)??;
    Ok(has_readable(alloc, &read, first)? && skips_unreadable(alloc, skipped.as_slice(), first)?)
}

/// Whether these many threads read every long file as one would by hand: the rows at each cut have
/// each fault in turn.
fn reads_all_long<R: Threads + Sync + RandomSource + AllocGlobal>(
    rt: &R,
    threads: u32,
) -> Result<bool, Fail> {
    for first in 0..5 {
        if !reads_long(rt, threads, first)? {
            return Ok(false);
        }
    }
    Ok(true)
}

#[test]
fn long_files_by_one_thread(rt: HostRuntime) -> Result<(), Fail> {
    assert!(rt; reads_all_long(&rt, 1)?);
    Ok(())
}

#[test]
fn long_files_by_two_threads(rt: HostRuntime) -> Result<(), Fail> {
    assert!(rt; reads_all_long(&rt, 2)?);
    Ok(())
}

#[test]
fn long_files_by_four_threads(rt: HostRuntime) -> Result<(), Fail> {
    assert!(rt; reads_all_long(&rt, 4)?);
    Ok(())
}

#[test]
fn long_files_by_sixteen_threads(rt: HostRuntime) -> Result<(), Fail> {
    assert!(rt; reads_all_long(&rt, 16)?);
    Ok(())
}

/// A file of rows none of which can be read, and then these.
fn unreadable_file(alloc: Global, last: &str) -> Result<String, AllocError> {
    let mut file = String::from_str(alloc, "id,wkt\n")?;
    for i in 0..ROWS {
        writeln!(file, "p{i},POINT (1 2")?;
    }
    file.push_str(last)?;
    Ok(file)
}

/// Whether all rows were skipped.
fn skips_all(alloc: Global, skipping: &Skipping) -> Result<bool, AllocError> {
    let mut rest = skipping.skipped.iter();
    for i in 0..ROWS {
        let id = format!(in alloc; "p{i}")?;
        let Some(row) = rest.next() else {
            return Ok(false);
        };
        if !is_skipped(row, i + 1, id.as_str(), GeometryFault::Text) {
            return Ok(false);
        }
    }
    Ok(skipping.read.len() == 0 && rest.next().is_none())
}

#[test]
fn all_skipped(rt: HostRuntime) -> Result<(), Fail> {
    let file = unreadable_file(rt.alloc(), "")?;
    for threads in [1, 2, 4, 16] {
        let skipping = skipping_by(&rt, file.as_bytes(), threads)??;
        assert!(rt; skips_all(rt.alloc(), &skipping)?);
    }
    Ok(())
}

/// A fault after skipped rows is reported with its row's number in the file.
#[test]
fn faults_behind_skipped(rt: HostRuntime) -> Result<(), Fail> {
    let double = unreadable_file(rt.alloc(), "p1,POINT (1 2)\np1,POINT (1 2)\n")?;
    let fields = unreadable_file(rt.alloc(), "p1,POINT (1 2)\np2\n")?;
    let bad_id = unreadable_file(rt.alloc(), "p1,POINT (1 2)\n,POINT (1 2)\n")?;
    for threads in [1, 2, 4, 16] {
        let fault = skipping_by(&rt, double.as_bytes(), threads)?.err();
        assert!(rt; fault == Some(ReadFault::Layer(5_002, LayerFault::DoubleId)));
        let fault = skipping_by(&rt, fields.as_bytes(), threads)?.err();
        assert!(rt; fault == Some(ReadFault::Row(5_002)));
        let fault = skipping_by(&rt, bad_id.as_bytes(), threads)?.err();
        assert!(rt; fault == Some(ReadFault::Layer(5_002, LayerFault::BadId)));
    }
    Ok(())
}

/// Without skipping, the first row that can't be read is the fault of a file.
#[test]
fn not_skipped(rt: HostRuntime) -> Result<(), Fail> {
    let file = long_file(rt.alloc(), 0)?;
    for threads in [1, 2, 4, 16] {
        let fault = answer_in(&rt, file.as_bytes(), any()?, threads)?.err();
        assert!(rt; fault == Some(ReadFault::Geometry(2, GeometryFault::Text)));
    }
    Ok(())
}
