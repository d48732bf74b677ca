//! Counts of the features of a layer of any geometry.

ghost use Rattle.std.specs.Prelude.{◌≡◌, ◌++◌, false, IfOk, IsTrue, OnOk};
ghost use Rattle.format_core.specs.Formats.{ReadsAny};
ghost use Rattle.format_core.specs.Layouts.{laid_out};
ghost use Rattle.run_core.specs.declared.fault.Input.{Input};
ghost use Rattle.run_core.specs.ImproperRings.{AreRingsImproper};
ghost use Rattle.layer_run_core.specs.Jobs.{OnlyAt};
ghost use Rattle.layer_run_core.specs.LayerRuns.{LayerGives, IsLayerRunFault};
ghost use Rattle.run_core.specs.Marks.{MarksLayer};
ghost use Rattle.run_core.specs.Runs.{NoTextFault, RunEnds};
ghost use Rattle.layer_run_core.specs.StatsTexts.{count_line};
ghost use Rattle.layer_run_core.specs.AnyStats.{AreAnyCounts, any_stats_text, vertices_in};

use crate::layer_run::{DEFAULT_WORKERS, LayerText, run_marking};
use any_geometry_core::AnyGeometry;
use file_core::LayerReader;
use format_core::{AnyFormat, LaidOut};
use itoa::Buffer;
use layer_core::{FeatureList, Stats};
use report_core::Sink;
use row_core::Source;
use run_core::{ImproperRings, RunFault, Text};
use std::alloc::{AllocError, Global};
use std::hash::RandomState;
use std::thread::Threads;

/// Writes the number of features of a layer, the numbers of features that consist of points, lines
/// and areas, the number of their vertices, and the height of a tree packed from them: six lines,
/// each a word, a space and a number.
///
/// Several threads read the layer. `state` hashes the ids. `improper` becomes the numbers of the
/// rows whose geometries have improper rings, from 1, after the header, in file order.
///
/// # Errors
/// A fault of the layer, after which nothing is written, or a fault of the output.
pub fn run_any_stats<R: Threads + Sync, L: Source, S: Sink>(
    rt: &R,
    alloc: Global,
    state: RandomState,
    format: LaidOut<'_, AnyFormat>,
    layer: &mut L,
    improper: &mut Vec<u32>,
    sink: &mut S,
) -> Result<(), RunFault>
    requires layer { L.has_failed layer.old ≡ false }
    requires sink { S.has_failed sink.old ≡ false }
    // Ok means that six counts of the file's layer were written: of features, those that are
    // points, lines and areas, vertices, and the height of the tree that is packed from its
    // features; faults as `run_marking`
    ensures runs { let any = format.entry.format in
        let reads = laid_out format.entry.layout (ReadsAny any.scale any.rings) in
        let file = L.remaining layer.old in
        RunEnds (LayerGives AreAnyCounts reads file) NoTextFault (IsLayerRunFault reads file)
        (OnlyAt Input.Layer (IsTrue (L.has_failed layer.new)))
        S.written S.is_flushed S.has_failed sink.old sink.new result }
    // as `run_any_window`
    ensures improper { let any = format.entry.format in
        let reads = laid_out format.entry.layout (ReadsAny any.scale any.rings) in
        let is_marked = AreRingsImproper any.rings in
        OnOk result (MarksLayer reads is_marked (L.remaining layer.old) improper.new.items) }
{
    let reader = LayerReader {
        rt,
        alloc,
        format,
        threads: DEFAULT_WORKERS,
    };
    let marks = ImproperRings {
        rings: format.format.rings,
    };
    run_marking(&reader, state, layer, &Counts, &marks, improper, sink)
}

/// The text of `run_any_stats`: the counts of a layer's features.
#[derive(Drop)]
struct Counts;

impl LayerText<AnyGeometry> for Counts {
    ghost is_text_of = { λ _. AreAnyCounts };

    fn text(&self, alloc: Global, features: &FeatureList<AnyGeometry>) -> Result<Text, AllocError> {
        let vertices = vertex_count(features)?;
        Ok(Text::Rows(stats_lines(alloc, &features.stats(), vertices)?))
    }
}

/// The number of vertices of all features.
///
/// # Errors
/// If it is 2^64 or more, which no memory holds.
fn vertex_count(features: &FeatureList<AnyGeometry>) -> Result<u64, AllocError>
    ensures { IfOk result (λ count. count ≡ vertices_in features.now.features) }
{
    let mut count: u64 = 0;
    for feature in features.iter() {
        let vertices = feature.shape.geometry().vertex_count();
        count = count.checked_add(vertices as u64).ok_or(AllocError)?;
    }
    Ok(count)
}

/// The counts as lines.
fn stats_lines(alloc: Global, stats: &Stats, vertices: u64) -> Result<Vec<u8>, AllocError>
    ensures { IfOk result (λ text. text.items ≡ any_stats_text stats.now vertices) }
{
    let mut text = Vec::new(alloc);
    push_count(&mut text, "features", stats.features.into())?;
    push_count(&mut text, "points", stats.points.into())?;
    push_count(&mut text, "lines", stats.segments.into())?;
    push_count(&mut text, "areas", stats.rectangles.into())?;
    push_count(&mut text, "vertices", vertices)?;
    push_count(&mut text, "height", stats.height.into())?;
    Ok(text)
}

/// Adds the line of a count.
fn push_count(text: &mut Vec<u8>, word: &str, count: u64) -> Result<(), AllocError>
    ensures { OnOk result (text.new.items ≡ text.old.items ++ count_line word.now count) }
{
    let mut digits = Buffer::new();
    text.extend_from_slice(word.as_bytes())?;
    text.push(b' ')?;
    text.extend_from_slice(digits.format(count).as_bytes())?;
    text.push(b'\n')?;
    Ok(())
}
