//! Files that threads read in parts: wherever they are cut, the layer is the same as for one
//! thread.

use crate::layers::{has, point, seen};
use crate::read_layers::{fault_by, layer_by, points_file};
use geom_core::Shape;
use layer_core::{Layer, LayerFault};
use row_core::ReadFault;
use std::alloc::{AllocError, AllocGlobal, Global};
use std::fmt::Write;
use std::random::RandomSource;
use std::test::Fail;
use std::thread::Threads;

/// The number of rows of a file, enough for it to be read in parts.
const ROWS: u32 = 10_000;

/// The texts of a row before and after its number, with line feeds and quotes at possible cuts, and
/// the id of the last row.
const FORMS: &[(&str, &str, &str)] = &[
    ("\"p", "\n\",POINT (1 2)\n", "p9999\n"),
    ("p", ",\"POINT (1\n2)\"\n", "p9999"),
    ("x\"", ",POINT (1 2)\n", "x\"9999"),
    ("p", ",POINT (1 2)\r\n", "p9999"),
    ("p", ",POINT (1 2)\n\n\r", "p9999"),
    ("\u{feff}p", ",POINT (1 2)\n", "\u{feff}p9999"),
];

/// A layer file of rows of a form.
fn file_of(alloc: Global, front: &str, back: &str) -> Result<String, AllocError> {
    let mut file = String::from_str(alloc, "id,wkt\n")?;
    for i in 0..ROWS {
        write!(file, "{front}{i}{back}")?;
    }
    Ok(file)
}

/// Whether the layer has all rows, and the last one has this id.
fn has_all(layer: &Layer, last: &str, shape: Shape) -> bool {
    layer.len() == ROWS as usize && has(layer, last, ROWS - 1, shape)
}

/// The layer of a file of rows of a form, loaded by `threads` threads.
fn layer_of_form<R: Threads + Sync + RandomSource + AllocGlobal>(
    rt: &R,
    threads: u32,
    front: &str,
    back: &str,
) -> Result<Layer, Fail> {
    let file = file_of(rt.alloc(), front, back)?;
    layer_by(rt, file.as_bytes(), threads)
}

/// Whether `threads` threads read all rows of a file of this form.
fn reads_form<R: Threads + Sync + RandomSource + AllocGlobal>(
    rt: &R,
    threads: u32,
    (front, back, last): &(&str, &str, &str),
) -> Result<bool, Fail> {
    let shape = point(1, 2)?;
    let layer = layer_of_form(rt, threads, front, back)?;
    Ok(seen(layer, |layer| has_all(layer, last, shape)))
}

/// The index of the first form whose file `threads` threads read as another layer.
fn first_other_form<R: Threads + Sync + RandomSource + AllocGlobal>(
    rt: &R,
    threads: u32,
) -> Result<Option<usize>, Fail> {
    for (place, form) in FORMS.iter().enumerate() {
        if !reads_form(rt, threads, form)? {
            return Ok(Some(place));
        }
    }
    Ok(None)
}

#[test]
fn forms_in_parts(rt: HostRuntime) -> Result<(), Fail> {
    for threads in [1, 2, 4] {
        assert_eq!(rt; first_other_form(&rt, threads)?, None);
    }
    Ok(())
}

/// A layer file with a duplicate id in its second half, and an invalid row at its end.
fn file_with_faults(alloc: Global) -> Result<String, AllocError> {
    let mut file = points_file(alloc, ROWS)?;
    file.push_str("p0,POINT (0 0)\n")?;
    for i in 0..ROWS {
        writeln!(file, "q{i},POINT ({i} 0)")?;
    }
    file.push_str("r,POINT (0\n")?;
    Ok(file)
}

/// A fault after a cut is reported with its row's number in the file, even if a later part has a
/// fault too.
#[test]
fn faults_in_parts(rt: HostRuntime) -> Result<(), Fail> {
    let file = file_with_faults(rt.alloc())?;
    for threads in [1, 2, 4] {
        let fault = fault_by(&rt, file.as_bytes(), threads)?;
        assert!(rt; fault == Some(ReadFault::Layer(10_001, LayerFault::DoubleId)));
    }
    Ok(())
}
