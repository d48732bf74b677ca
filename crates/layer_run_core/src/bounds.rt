//! The corners of the features of a layer.

ghost use Rattle.std.specs.Prelude.{◌≡◌, false, IsTrue, IfOk, OnOk};
ghost use Rattle.layer_core.specs.Walks.{feature_read};
ghost use Rattle.run_core.specs.CsvWriting.{AddsRow};
ghost use Rattle.run_core.specs.declared.fault.Input.{Input};
ghost use Rattle.layer_run_core.specs.Bounds.{ListsCorners, bounds_row, bounds_text};
ghost use Rattle.layer_run_core.specs.Jobs.{OnlyAt};
ghost use Rattle.layer_run_core.specs.LayerRuns.{LayerGives, IsLayerRunFault};
ghost use Rattle.run_core.specs.Marks.{MarksLayer};
ghost use Rattle.run_core.specs.Runs.{NoTextFault, RunEnds};

use crate::layer_run::{DEFAULT_WORKERS, LayerText, run_marking, run_on_layer};
use csv::Writer;
use file_core::LayerReader;
use format_core::Format;
use itoa::Buffer;
use layer_core::{FeatureList, FeatureRef, Geometry};
use report_core::Sink;
use row_core::Source;
use run_core::{Marks, RunFault, Text, new_rows, push_row, rows_text};
use std::alloc::{AllocError, Global};
use std::hash::RandomState;
use std::thread::Threads;

/// Writes the corners of the features of a layer: a CSV record `id,x1,y1,x2,y2`, and then a record
/// for each feature, in layer order.
///
/// Each coordinate is a whole number of units of the last decimal that the scale allows. Several
/// threads read the layer. `state` hashes the ids.
///
/// # Errors
/// A fault of the layer, after which nothing is written, or a fault of the output.
pub fn run_bounds<R: Threads + Sync, F: Format, L: Source, S: Sink>(
    rt: &R,
    alloc: Global,
    state: RandomState,
    format: F,
    layer: &mut L,
    sink: &mut S,
) -> Result<(), RunFault>
    requires layer { L.has_failed layer.old ≡ false }
    requires sink { S.has_failed sink.old ≡ false }
    // of a file in any format: Ok means that the id of each feature and the corners of its box were
    // written, in layer order, in units of the scale; faults of the file as above
    ensures { let reads = F.reads format in
        let corners = ListsCorners F.Geometry.box_of in
        RunEnds (LayerGives corners reads (L.remaining layer.old)) NoTextFault
        (IsLayerRunFault reads (L.remaining layer.old))
        (OnlyAt Input.Layer (IsTrue (L.has_failed layer.new)))
        S.written S.is_flushed S.has_failed sink.old sink.new result }
{
    let reader = LayerReader {
        rt,
        alloc,
        format,
        threads: DEFAULT_WORKERS,
    };
    run_on_layer(&reader, state, layer, &Corners, sink)
}

/// The same over a layer that `reader` reads, and sets `rows` to the numbers of its rows whose
/// geometries have a property, from 1, after the header, in file order.
pub fn run_bounds_marking<R, F, L, M, S>(
    reader: &LayerReader<'_, F, R>,
    state: RandomState,
    layer: &mut L,
    marks: &M,
    rows: &mut Vec<u32>,
    sink: &mut S,
) -> Result<(), RunFault>
where
    R: Threads + Sync,
    F: Format,
    L: Source,
    M: Marks<F::Geometry>,
    S: Sink,
    requires layer { L.has_failed layer.old ≡ false }
    requires sink { S.has_failed sink.old ≡ false }
    // as `run_bounds`
    ensures runs { let reads = F.reads reader.now.format in
        let corners = ListsCorners F.Geometry.box_of in
        RunEnds (LayerGives corners reads (L.remaining layer.old)) NoTextFault
        (IsLayerRunFault reads (L.remaining layer.old))
        (OnlyAt Input.Layer (IsTrue (L.has_failed layer.new)))
        S.written S.is_flushed S.has_failed sink.old sink.new result }
    // as `run_marking`
    ensures marked { let reads = F.reads reader.now.format in
        let file = L.remaining layer.old in
        OnOk result (MarksLayer reads (M.is_marked marks.now) file rows.new.items) }
{
    run_marking(reader, state, layer, &Corners, marks, rows, sink)
}

/// The text of `run_bounds`: the corners of a layer's features.
#[derive(Drop)]
struct Corners;

impl<G: Geometry> LayerText<G> for Corners {
    ghost is_text_of = { λ _. ListsCorners G.box_of };

    fn text(&self, alloc: Global, features: &FeatureList<G>) -> Result<Text, AllocError> {
        Ok(Text::Rows(bounds_text(alloc, features)?))
    }
}

/// The corners of the features, as CSV.
fn bounds_text<G: Geometry>(alloc: Global, features: &FeatureList<G>) -> Result<Vec<u8>, AllocError>
    ensures { IfOk result (λ text. text.items ≡ bounds_text G.box_of features.now.features) }
{
    let mut writer = new_rows(alloc);
    push_row(&mut writer, &[b"id", b"x1", b"y1", b"x2", b"y2"])?;
    for feature in features.iter() {
        push_bounds(&mut writer, &feature)?;
    }
    rows_text(writer)
}

/// Writes the id of a feature and the corners of its box.
fn push_bounds<G: Geometry>(
    writer: &mut Writer<Vec<u8>>,
    feature: &FeatureRef<'_, G>,
) -> Result<(), AllocError>
    ensures { let row = bounds_row G.box_of (feature_read feature.now) in
        OnOk result (AddsRow writer.old writer.new row) }
{
    let shape = feature.shape.bounds();
    let mut x1 = Buffer::new();
    let mut y1 = Buffer::new();
    let mut x2 = Buffer::new();
    let mut y2 = Buffer::new();
    let row = [
        feature.id.as_bytes(),
        x1.format(shape.x1()).as_bytes(),
        y1.format(shape.y1()).as_bytes(),
        x2.format(shape.x2()).as_bytes(),
        y2.format(shape.y2()).as_bytes(),
    ];
    push_row(writer, &row)
}
