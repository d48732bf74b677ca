//! Commands over one layer of boxes or of any geometry: windows, counts and corners.

ghost use Rattle.std.specs.Prelude.{◌≡◌, [], false, OnOk};
ghost use Rattle.command_core.specs.Commands.{CommandEnds};
ghost use Rattle.command_core.specs.ImproperRows.{LayerRows};
ghost use Rattle.command_core.specs.Opening.{bytes_at};
ghost use Rattle.words_core.specs.declared.words.Command.TheVariants.{Bounds, Stats, Window};

use crate::inputs::Inputs;
use crate::opening::open_layer;
use file_core::LayerReader;
use format_core::{AnyFormat, LaidOut};
use layer_run_core::{
    DEFAULT_WORKERS, run_any_stats, run_any_window, run_bounds, run_bounds_marking, run_stats,
    run_window,
};
use report_core::Sink;
use run_core::{ImproperRings, RunFault};
use std::random::RandomSource;
use std::thread::Threads;
use words_core::{Geometries, LayerRequest};

/// Writes the ids of the features of a layer that meet the geometry of a text.
pub fn execute_window<R: RandomSource + AllocGlobal + Threads + Sync, I: Inputs, O: Sink>(
    rt: &R,
    inputs: &I,
    request: &LayerRequest<'_>,
    wkt: &str,
    output: &mut O,
    improper: &mut Vec<u32>,
) -> Result<(), RunFault>
    requires output { O.has_failed output.old ≡ false }
    requires none { improper.old.items ≡ [] }
    ensures ends { CommandEnds (I.files inputs.now) O.written O.is_flushed O.has_failed
        (Window request.now wkt.entry) output.old output.new result }
    ensures rows { let request = request.now in
        let bytes = bytes_at (I.files inputs.now) request.path.now in
        let rows = improper.new.items in
        OnOk result (LayerRows request.geometries request.layout request.scale bytes rows) }
{
    let (mut layer, state) = open_layer(rt, inputs, request.path)?;
    let wkt = wkt.as_bytes();
    let LayerRequest { layout, scale, .. } = *request;
    match request.geometries {
        Geometries::Box => {
            let format = LaidOut {
                layout,
                format: scale,
            };
            run_window(rt, rt.alloc(), state, format, &mut layer, wkt, output)
        }
        Geometries::Any(rings) => {
            let format = LaidOut {
                layout,
                format: AnyFormat { scale, rings },
            };
            let reader = LayerReader {
                rt,
                alloc: rt.alloc(),
                format,
                threads: DEFAULT_WORKERS,
            };
            run_any_window(&reader, state, &mut layer, wkt, improper, output)
        }
    }
}

/// Writes the counts of the features of a layer.
pub fn execute_stats<R: RandomSource + AllocGlobal + Threads + Sync, I: Inputs, O: Sink>(
    rt: &R,
    inputs: &I,
    request: &LayerRequest<'_>,
    output: &mut O,
    improper: &mut Vec<u32>,
) -> Result<(), RunFault>
    requires output { O.has_failed output.old ≡ false }
    requires none { improper.old.items ≡ [] }
    ensures ends { CommandEnds (I.files inputs.now) O.written O.is_flushed O.has_failed
        (Stats request.now) output.old output.new result }
    ensures rows { let request = request.now in
        let bytes = bytes_at (I.files inputs.now) request.path.now in
        let rows = improper.new.items in
        OnOk result (LayerRows request.geometries request.layout request.scale bytes rows) }
{
    let (mut layer, state) = open_layer(rt, inputs, request.path)?;
    let LayerRequest { layout, scale, .. } = *request;
    match request.geometries {
        Geometries::Box => {
            let format = LaidOut {
                layout,
                format: scale,
            };
            run_stats(rt, rt.alloc(), state, format, &mut layer, output)
        }
        Geometries::Any(rings) => {
            let format = LaidOut {
                layout,
                format: AnyFormat { scale, rings },
            };
            run_any_stats(rt, rt.alloc(), state, format, &mut layer, improper, output)
        }
    }
}

/// Writes the corners of the boxes of a layer's features.
pub fn execute_bounds<R: RandomSource + AllocGlobal + Threads + Sync, I: Inputs, O: Sink>(
    rt: &R,
    inputs: &I,
    request: &LayerRequest<'_>,
    output: &mut O,
    improper: &mut Vec<u32>,
) -> Result<(), RunFault>
    requires output { O.has_failed output.old ≡ false }
    requires none { improper.old.items ≡ [] }
    ensures ends { CommandEnds (I.files inputs.now) O.written O.is_flushed O.has_failed
        (Bounds request.now) output.old output.new result }
    ensures rows { let request = request.now in
        let bytes = bytes_at (I.files inputs.now) request.path.now in
        let rows = improper.new.items in
        OnOk result (LayerRows request.geometries request.layout request.scale bytes rows) }
{
    let (mut layer, state) = open_layer(rt, inputs, request.path)?;
    let LayerRequest { layout, scale, .. } = *request;
    match request.geometries {
        Geometries::Box => {
            let format = LaidOut {
                layout,
                format: scale,
            };
            run_bounds(rt, rt.alloc(), state, format, &mut layer, output)
        }
        Geometries::Any(rings) => {
            let format = LaidOut {
                layout,
                format: AnyFormat { scale, rings },
            };
            let reader = LayerReader {
                rt,
                alloc: rt.alloc(),
                format,
                threads: DEFAULT_WORKERS,
            };
            let marks = ImproperRings { rings };
            run_bounds_marking(&reader, state, &mut layer, &marks, improper, output)
        }
    }
}
