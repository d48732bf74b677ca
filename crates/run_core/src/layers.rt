//! Reading the two layers of a join.

ghost use Rattle.std.specs.Prelude.{◌≡◌, ◌↔◌, Ok, Err, false, IsTrue, IfOk, IfErr, IsErrOf};
ghost use Rattle.row_core.specs.declared.read_fault.ReadFault.{ReadFault};
ghost use Rattle.run_core.specs.declared.fault.Input.{Input};
ghost use Rattle.run_core.specs.Inputs.{LoadsLayer, Builds, Reads};
ghost use Rattle.run_core.specs.EditedLayers.{IsLayersFault, first_fault, skipped_lists};

use crate::fault::{Input, RunFault};
use crate::layer_input::{build_layer, read_layer};
use crate::loaded::{LoadedLayers, SkippedRows};
use file_core::{LayerReader, Unreadable, WithSkipped};
use format_core::Format;
use layer_core::{Geometry, Layer};
use row_core::{ReadFault, Source, read_all};
use std::hash::RandomState;
use std::thread::Threads;
use std::{mem, thread};

/// Reads the layers of the left and the right source, each by its own reader. `states` hash their
/// ids, and `unreadable` says what becomes of rows whose geometry can't be read.
///
/// The left source is read first. Then its layer is built while the right source is read and its
/// layer built, in parallel if there is more than one thread; each build may itself use several
/// threads, as its reader says. If the left source fails, its fault is returned at once and the
/// right source isn't read. A failing right source comes before a fault in the bytes of the left.
pub(crate) fn read_layers<R: Threads + Sync, F: Format, A: Source, B: Source>(
    left_reader: &LayerReader<'_, F, R>,
    right_reader: &LayerReader<'_, F, R>,
    unreadable: Unreadable,
    states: (RandomState, RandomState),
    left: &mut A,
    right: &mut B,
) -> Result<LoadedLayers<F::Geometry>, RunFault>
    requires left { A.has_failed left.old ≡ false }
    requires right { B.has_failed right.old ≡ false }
    ensures left { IfOk result (λ loaded.
        LoadsLayer (F.reads left_reader.now.format) unreadable (A.remaining left.old)
        loaded.layers.0.list (skipped_lists loaded.skipped).left) }
    ensures right { IfOk result (λ loaded.
        LoadsLayer (F.reads right_reader.now.format) unreadable (B.remaining right.old)
        loaded.layers.1.list (skipped_lists loaded.skipped).right) }
    ensures fault { IfErr result (IsLayersFault (F.reads left_reader.now.format)
        (F.reads right_reader.now.format) unreadable (A.remaining left.old)
        (B.remaining right.old)) }
    ensures left_io { IsErrOf result (RunFault.Read Input.Left ReadFault.Io)
        ↔ IsTrue (A.has_failed left.new) }
    ensures right_io { IsErrOf result (RunFault.Read Input.Right ReadFault.Io)
        ↔ IsTrue (B.has_failed right.new) }
{
    let left_bytes = match read_all(left_reader.alloc, left_reader.format.limits(), left) {
        Ok(bytes) => bytes,
        Err(fault) => return Err(RunFault::Read(Input::Left, fault)),
    };
    let (left_built, right_built) = build_and_read(
        left_reader,
        right_reader,
        unreadable,
        states,
        left_bytes,
        right,
    );
    match right_built {
        Ok(right_layer) => match left_built {
            Ok(left_layer) => Ok(loaded_layers(left_layer, right_layer)),
            Err(fault) => Err(RunFault::Read(Input::Left, fault)),
        },
        Err(fault) => Err(first_fault(left_built.err(), fault)),
    }
}

/// Both layers, with their skipped rows.
fn loaded_layers<G: Geometry>(
    left: WithSkipped<Layer<G>>,
    right: WithSkipped<Layer<G>>,
) -> LoadedLayers<G>
    ensures left { result.layers.0 ≡ left.read }
    ensures right { result.layers.1 ≡ right.read }
    ensures skipped { result.skipped ≡ record { left = left.skipped; right = right.skipped } }
{
    LoadedLayers {
        layers: (left.read, right.read),
        skipped: SkippedRows {
            left: left.skipped,
            right: right.skipped,
        },
    }
}

/// The fault to report if the right layer has one and the left one may have another.
fn first_fault(left: Option<ReadFault>, right: ReadFault) -> RunFault
    ensures { result ≡ first_fault left right }
{
    match left {
        Some(fault) if right != ReadFault::Io => RunFault::Read(Input::Left, fault),
        _ => RunFault::Read(Input::Right, right),
    }
}

/// The layer of the left file's bytes, and the layer of the right source.
fn build_and_read<R: Threads + Sync, F: Format, B: Source>(
    left_reader: &LayerReader<'_, F, R>,
    right_reader: &LayerReader<'_, F, R>,
    unreadable: Unreadable,
    states: (RandomState, RandomState),
    mut left: Vec<u8>,
    right: &mut B,
) -> (
    Result<WithSkipped<Layer<F::Geometry>>, ReadFault>,
    Result<WithSkipped<Layer<F::Geometry>>, ReadFault>,
)
    requires { B.has_failed right.old ≡ false }
    ensures left { Builds (F.reads left_reader.now.format) unreadable left.items result.0 }
    ensures right { Reads (F.reads right_reader.now.format) unreadable (B.remaining right.old)
        result.1 }
    ensures right_io { IsErrOf result.1 ReadFault.Io ↔ IsTrue (B.has_failed right.new) }
{
    let (left_state, right_state) = states;
    let mut build_left = || -> Result<WithSkipped<Layer<F::Geometry>>, ReadFault>
        ensures { Builds (F.reads left_reader.entry.now.format) unreadable left.entry.items result }
    { build_taken(left_reader, unreadable, left_state, &mut left) };
    let mut read_right = || -> Result<WithSkipped<Layer<F::Geometry>>, ReadFault>
        requires { B.has_failed right.now ≡ false }
        ensures reads { Reads (F.reads right_reader.entry.now.format) unreadable
            (B.remaining right.entry.now) result }
        ensures io { IsErrOf result ReadFault.Io ↔ IsTrue (B.has_failed right.exit.now) }
    { read_layer(right_reader, unreadable, right_state, right) };
    if left_reader.threads > 1 {
        thread::join_mut(left_reader.rt, &mut build_left, &mut read_right)
    } else {
        (build_left(), read_right())
    }
}

/// The layer of a file's bytes, which are taken out of `bytes`, since the closure that calls this
/// only borrows them.
fn build_taken<R: Threads + Sync, F: Format>(
    reader: &LayerReader<'_, F, R>,
    unreadable: Unreadable,
    state: RandomState,
    bytes: &mut Vec<u8>,
) -> Result<WithSkipped<Layer<F::Geometry>>, ReadFault>
    ensures { Builds (F.reads reader.now.format) unreadable bytes.old.items result }
{
    let taken = mem::replace(bytes, Vec::new(reader.alloc));
    build_layer(reader, unreadable, state, taken)
}

/// Frees both layers, in parallel if there is more than one worker.
pub(crate) fn free_layers<R: Threads, G: Geometry + Send>(
    rt: &R,
    left: Layer<G>,
    right: Layer<G>,
    workers: u32,
) {
    if workers > 1 {
        thread::join(rt, move || drop(left), move || drop(right));
    }
}
