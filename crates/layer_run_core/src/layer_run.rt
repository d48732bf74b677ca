//! Runs over one layer: its features are read, and a text made of them is written.

ghost use Rattle.std.specs.Prelude.{◌≡◌, ◌↔◌, ℕ, List, Ok, Err, false, IsTrue, IsErrOf, IfErr};
ghost use Rattle.std.specs.Prelude.{[], IfOk, OnOk};
ghost use Rattle.layer_core.specs.Layers.{Contents};
ghost use Rattle.run_core.specs.declared.fault.Input.{Input};
ghost use Rattle.run_core.specs.Inputs.{BlamesInput};
ghost use Rattle.layer_run_core.specs.Jobs.{OnlyAt};
ghost use Rattle.layer_run_core.specs.LayerRuns.{LayerGives, IsLayerRunFault};
ghost use Rattle.run_core.specs.Marks.{MarkedFrom, MarksLayer};
ghost use Rattle.run_core.specs.Runs.{NoTextFault, RunEnds};
ghost use Rattle.run_core.specs.Texts.{bytes_of_text};

use file_core::LayerReader;
use format_core::Format;
use layer_core::{FeatureList, Geometry};
use report_core::Sink;
use row_core::{ReadFault, Source};
use run_core::{Input, Marks, RunFault, Text, Unmarked, marked_rows, read_features};
use std::alloc::{AllocError, Global};
use std::hash::RandomState;
use std::thread::Threads;

/// The default number of workers of a join, and the number of threads that read a single layer.
pub const DEFAULT_WORKERS: u32 = 4;

/// The text that a run makes of a layer's features. No run needs the layer's tree, so it isn't
/// packed.
pub trait LayerText<G: Geometry> {
    ghost is_text_of: { Self → Contents G → List ℕ → Type 0 };

    /// The text of a layer, made of its features.
    fn text(&self, alloc: Global, features: &FeatureList<G>) -> Result<Text, AllocError>
        ensures { IfOk result (λ text. is_text_of self.now features.now (bytes_of_text text)) };
}

/// Reads a layer, whose ids `state` hashes, and writes the text made of it. After a fault of the
/// layer, nothing is written.
pub(crate) fn run_on_layer<R, F, L, T, S>(
    reader: &LayerReader<'_, F, R>,
    state: RandomState,
    layer: &mut L,
    made: &T,
    sink: &mut S,
) -> Result<(), RunFault>
where
    R: Threads + Sync,
    F: Format,
    L: Source,
    T: LayerText<F::Geometry>,
    S: Sink,
    requires layer { L.has_failed layer.old ≡ false }
    requires sink { S.has_failed sink.old ≡ false }
    ensures { let file = L.remaining layer.old in
        let reads = F.reads reader.now.format in
        RunEnds (LayerGives (T.is_text_of made.now) reads file)
        NoTextFault (IsLayerRunFault reads file)
        (OnlyAt Input.Layer (IsTrue (L.has_failed layer.new)))
        S.written S.is_flushed S.has_failed sink.old sink.new result }
{
    let mut rows = Vec::new(reader.alloc);
    run_marking(reader, state, layer, made, &Unmarked, &mut rows, sink)
}

/// The same, and sets `rows` to the numbers of the layer's rows whose geometries have a property,
/// from 1, after the header, in file order.
pub fn run_marking<R, F, L, T, M, S>(
    reader: &LayerReader<'_, F, R>,
    state: RandomState,
    layer: &mut L,
    made: &T,
    marks: &M,
    rows: &mut Vec<u32>,
    sink: &mut S,
) -> Result<(), RunFault>
where
    R: Threads + Sync,
    F: Format,
    L: Source,
    T: LayerText<F::Geometry>,
    M: Marks<F::Geometry>,
    S: Sink,
    requires layer { L.has_failed layer.old ≡ false }
    requires sink { S.has_failed sink.old ≡ false }
    // of a file in any format, Ok means that the text made of the file's layer was written; a fault
    // of the file is the one that the bytes give; out of memory that names no input comes only if
    // the file gives a layer; `Io` as above
    ensures runs { let file = L.remaining layer.old in
        let reads = F.reads reader.now.format in
        RunEnds (LayerGives (T.is_text_of made.now) reads file)
        NoTextFault (IsLayerRunFault reads file)
        (OnlyAt Input.Layer (IsTrue (L.has_failed layer.new)))
        S.written S.is_flushed S.has_failed sink.old sink.new result }
    // on success exactly the numbers of the file's rows whose geometry has the property, in file
    // order
    ensures marked { let reads = F.reads reader.now.format in
        let file = L.remaining layer.old in
        OnOk result (MarksLayer reads (M.is_marked marks.now) file rows.new.items) }
{
    let text = text_of(reader, state, layer, made, marks, rows)?;
    text.write(sink)?;
    Ok(())
}

/// The text made of the layer that a source is read as, which sets `rows` to the numbers of its
/// rows whose geometries have a property.
fn text_of<R, F, L, T, M>(
    reader: &LayerReader<'_, F, R>,
    state: RandomState,
    source: &mut L,
    made: &T,
    marks: &M,
    rows: &mut Vec<u32>,
) -> Result<Text, RunFault>
where
    R: Threads + Sync,
    F: Format,
    L: Source,
    T: LayerText<F::Geometry>,
    M: Marks<F::Geometry>,
    requires { L.has_failed source.old ≡ false }
    ensures ok { let file = L.remaining source.old in
        let gives = LayerGives (T.is_text_of made.now) (F.reads reader.now.format) file in
        IfOk result (λ text. gives (Ok (bytes_of_text text))) }
    ensures marked { let reads = F.reads reader.now.format in
        let file = L.remaining source.old in
        OnOk result (MarksLayer reads (M.is_marked marks.now) file rows.new.items) }
    ensures fault { let file = L.remaining source.old in
        let gives = LayerGives (T.is_text_of made.now) (F.reads reader.now.format) file in
        IfErr result (λ f. BlamesInput f → gives (Err f)) }
    ensures faults { IfErr result
        (IsLayerRunFault (F.reads reader.now.format) (L.remaining source.old)) }
    ensures io { IsErrOf result (RunFault.Read Input.Layer ReadFault.Io)
        ↔ IsTrue (L.has_failed source.new) }
{
    match read_features(reader, state, source) {
        Ok(features) => text_from(reader.alloc, &features, made, marks, rows),
        Err(fault) => Err(RunFault::Read(Input::Layer, fault)),
    }
}

/// The text made of a layer's features, which sets `rows` to the numbers of the rows of those whose
/// geometries have a property.
fn text_from<G: Geometry, T: LayerText<G>, M: Marks<G>>(
    alloc: Global,
    features: &FeatureList<G>,
    made: &T,
    marks: &M,
    rows: &mut Vec<u32>,
) -> Result<Text, RunFault>
    ensures ok { IfOk result (λ text. T.is_text_of made.now features.now (bytes_of_text text)) }
    ensures marked { let is_marked = M.is_marked marks.now in
        OnOk result (MarkedFrom is_marked 1 [] features.now.features rows.new.items) }
    ensures err { IfErr result (λ fault. fault ≡ RunFault.Memory) }
{
    *rows = marked_rows(alloc, marks, features.iter(), &[])?;
    Ok(made.text(alloc, features)?)
}
