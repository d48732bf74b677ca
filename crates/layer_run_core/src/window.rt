//! The features of a layer that meet a window.

ghost use Rattle.std.specs.Prelude.{◌≡◌, false, IsTrue, IfOk};
ghost use Rattle.run_core.specs.declared.fault.Input.{Input};
ghost use Rattle.layer_run_core.specs.Jobs.{OnlyAt};
ghost use Rattle.run_core.specs.Runs.{RunEnds};
ghost use Rattle.layer_run_core.specs.WindowRuns.{WindowGives, HasWindowFault, IsWindowFault};
ghost use Rattle.layer_run_core.specs.Windows.{IsMeetingList};

use crate::layer_run::{DEFAULT_WORKERS, LayerText, run_on_layer};
use file_core::LayerReader;
use format_core::LaidOut;
use geom_core::Shape;
use layer_core::{FeatureList, Geometry};
use report_core::Sink;
use row_core::Source;
use run_core::{Input, RunFault, Text, new_rows, push_row, rows_text};
use std::alloc::{AllocError, Global};
use std::hash::RandomState;
use std::thread::Threads;
use wkt_core::Scale;

/// Writes the ids of the features of a layer that meet a window: a CSV record `id`, and then one
/// record for each feature whose shape shares a point with the window's, in layer order.
///
/// The text of the window is read first, then the layer, by several threads; `state` hashes its
/// ids. Each feature is tested once, which takes less time than packing a tree for one query.
///
/// # Errors
/// The first fault of the window or the layer, after which nothing is written, or a fault of the
/// output.
pub fn run_window<R: Threads + Sync, L: Source, S: Sink>(
    rt: &R,
    alloc: Global,
    state: RandomState,
    format: LaidOut<'_, Scale>,
    layer: &mut L,
    wkt: &[u8],
    sink: &mut S,
) -> Result<(), RunFault>
    requires layer { L.has_failed layer.old ≡ false }
    requires sink { S.has_failed sink.old ≡ false }
    // of boxes: Ok means that the ids of exactly the features that meet the window were written, in
    // layer order; exactly the fault of the window's text is answered, and a fault of the file, out
    // of memory too, only where the window is good; otherwise as `run_marking`
    ensures { let scale = format.entry.format in let file = L.remaining layer.old in
        RunEnds (WindowGives format.entry.layout scale wkt.now file) (HasWindowFault scale wkt.now)
        (IsWindowFault format.entry.layout scale wkt.now file)
        (OnlyAt Input.Layer (IsTrue (L.has_failed layer.new)))
        S.written S.is_flushed S.has_failed sink.old sink.new result }
{
    match wkt_core::read(wkt, format.format) {
        Ok(window) => {
            let reader = LayerReader {
                rt,
                alloc,
                format,
                threads: DEFAULT_WORKERS,
            };
            run_on_layer(&reader, state, layer, &Meeting { window }, sink)
        }
        Err(fault) => Err(RunFault::Wkt(Input::Window, fault)),
    }
}

/// A window, which some geometries meet.
pub trait Window<G: Geometry> {
    ghost use Rattle.std.specs.Prelude.{◌↔◌, IfOk, IsTrue};

    ghost is_met: { Self → G → Type 0 };

    /// Whether a geometry meets it.
    ///
    /// # Errors
    /// If an allocation fails.
    fn meets(&self, alloc: Global, geometry: &G) -> Result<bool, AllocError>
        // of each window: true exactly for the geometries that meet it, as its type says, unless
        // memory is refused; a box meets the boxes that share a point with it
        ensures { IfOk result (λ meets. IsTrue meets ↔ is_met self.now geometry.now) };
}

/// A box meets the boxes that share a point with it.
impl Window<Shape> for Shape {
    ghost use Rattle.geom_core.specs.Cells.{Meets};

    ghost is_met = { λ window s. Meets s window };

    #[inline(always)]
    fn meets(&self, _alloc: Global, geometry: &Shape) -> Result<bool, AllocError> {
        Ok(geometry.meets(self))
    }
}

/// The text of a window: the ids of a layer's features that meet it.
#[derive(Drop)]
pub struct Meeting<W> {
    pub window: W,
}

impl<G: Geometry, W: Window<G>> LayerText<G> for Meeting<W> {
    ghost is_text_of = { λ meeting. IsMeetingList (W.is_met meeting.window) };

    fn text(&self, alloc: Global, features: &FeatureList<G>) -> Result<Text, AllocError> {
        Ok(Text::Rows(meeting_text(alloc, features, &self.window)?))
    }
}

/// The ids of the features that meet the window, as CSV.
fn meeting_text<G: Geometry, W: Window<G>>(
    alloc: Global,
    features: &FeatureList<G>,
    window: &W,
) -> Result<Vec<u8>, AllocError>
    ensures { IfOk result
        (λ text. IsMeetingList (W.is_met window.now) features.now text.items) }
{
    let mut writer = new_rows(alloc);
    push_row(&mut writer, &[b"id"])?;
    for feature in features.iter() {
        let meets = window.meets(alloc, feature.shape)?;
        if meets {
            let id = feature.id.as_bytes();
            push_row(&mut writer, &[id])?;
        }
    }
    rows_text(writer)
}
