//! Counts of the features of a layer.

ghost use Rattle.std.specs.Prelude.{◌≡◌, ◌+◌, ◌≤◌, ◌++◌, false, length, IsTrue};
ghost use Rattle.format_core.specs.Formats.{ReadsBox};
ghost use Rattle.format_core.specs.Layouts.{laid_out};
ghost use Rattle.run_core.specs.declared.fault.Input.{Input};
ghost use Rattle.layer_run_core.specs.Jobs.{OnlyAt};
ghost use Rattle.layer_run_core.specs.LayerRuns.{LayerGives, IsLayerRunFault};
ghost use Rattle.run_core.specs.Runs.{NoTextFault, RunEnds};
ghost use Rattle.layer_run_core.specs.StatsTexts.{AreCounts, count_line, stats_text};

use crate::layer_run::{DEFAULT_WORKERS, LayerText, run_on_layer};
use file_core::LayerReader;
use format_core::LaidOut;
use geom_core::Shape;
use layer_core::{FeatureList, Stats};
use report_core::{ROOM, ShortText, Sink};
use row_core::Source;
use run_core::{RunFault, Text};
use std::alloc::{AllocError, Global};
use std::hash::RandomState;
use std::thread::Threads;
use wkt_core::Scale;

/// Writes the number of features of a layer, the numbers of points, segments and rectangles among
/// them, and the height of a tree packed from them: five lines, each a word, a space and a number.
///
/// Several threads read the layer. `state` hashes the ids.
///
/// # Errors
/// A fault of the layer, after which nothing is written, or a fault of the output.
pub fn run_stats<R: Threads + Sync, L: Source, S: Sink>(
    rt: &R,
    alloc: Global,
    state: RandomState,
    format: LaidOut<'_, Scale>,
    layer: &mut L,
    sink: &mut S,
) -> Result<(), RunFault>
    requires layer { L.has_failed layer.old ≡ false }
    requires sink { S.has_failed sink.old ≡ false }
    // of boxes: Ok means that the counts of the file's layer were written, with the height of the
    // tree that is packed from its features; faults of the file as above
    ensures { let reads = laid_out format.entry.layout (ReadsBox format.entry.format) in
        RunEnds (LayerGives AreCounts reads (L.remaining layer.old)) NoTextFault
        (IsLayerRunFault reads (L.remaining layer.old))
        (OnlyAt Input.Layer (IsTrue (L.has_failed layer.new)))
        S.written S.is_flushed S.has_failed sink.old sink.new result }
{
    let reader = LayerReader {
        rt,
        alloc,
        format,
        threads: DEFAULT_WORKERS,
    };
    run_on_layer(&reader, state, layer, &Counts, sink)
}

/// The text of `run_stats`: the counts of a layer's features.
#[derive(Drop)]
struct Counts;

impl LayerText<Shape> for Counts {
    ghost is_text_of = { λ _. AreCounts };

    fn text(&self, _: Global, features: &FeatureList) -> Result<Text, AllocError> {
        Ok(Text::Lines(stats_lines(&features.stats())))
    }
}

/// The counts as lines.
fn stats_lines(stats: &Stats) -> ShortText
    ensures { result ≡ stats_text stats.now }
{
    let mut text = ShortText::new();
    push_count(&mut text, "features", stats.features);
    push_count(&mut text, "points", stats.points);
    push_count(&mut text, "segments", stats.segments);
    push_count(&mut text, "rectangles", stats.rectangles);
    push_count(&mut text, "height", stats.height);
    text
}

/// Adds the line of a count.
fn push_count(text: &mut ShortText, word: &str, count: u32)
    requires { length text.old + length word.now + 12 ≤ ROOM }
    ensures text { text.new ≡ text.old ++ count_line word.now count }
    ensures len { length text.new ≤ length text.old + length word.now + 12 }
{
    text.push(word);
    text.push(" ");
    text.push_number(count);
    text.push("\n");
}
