//! Two layers after a file of edits.

ghost use Rattle.std.specs.Prelude.{◌≡◌, ◌↔◌, ◌≤◌, Ok, Err, false, map, length, IsTrue, IfOk};
ghost use Rattle.std.specs.Prelude.{IfErr, IfSome, IsErrOf, IsSomeAnd};
ghost use Rattle.row_core.specs.declared.read_fault.ReadFault.{ReadFault};
ghost use Rattle.layer_core.specs.Edits.{both, content_of};
ghost use Rattle.row_core.specs.Rows.{most_rows};
ghost use Rattle.run_core.specs.declared.fault.Input.{Input};
ghost use Rattle.run_core.specs.Inputs.{BlamesBytes};
ghost use Rattle.run_core.specs.EditedLayers.{AreEdited, EditFile, IsEditsFault, bytes_of};
ghost use Rattle.run_core.specs.EditedLayers.{files_by, skipped_lists};
ghost use Rattle.run_core.specs.Marks.{MarkedFrom, marked_lists, numbers_of};
ghost use Rattle.run_core.specs.SourceStates.{AreFresh, HasFailed};
ghost use Rattle.run_core.specs.TextRuns.{LoadsLayers};

use crate::edits::edit_both;
use crate::fault::{Input, RunFault};
use crate::layers::read_layers;
use crate::loaded::LoadedLayers;
use crate::marks::{MarkedRows, Marks, marked_rows};
use crate::sources::JoinSources;
use file_core::{LayerReader, Unreadable, read_edits};
use format_core::{Format, LaidOut};
use layer_core::{Edit, Geometry, Layer};
use row_core::{ReadFault, Source};
use std::alloc::Global;
use std::hash::RandomState;
use std::thread::Threads;

/// Reads two layers and applies the edits to them, and sets `rows` to those of the files whose
/// geometries have a property. An edit's geometry is in none of these rows, and one that an edit
/// deletes is. `states` hash the ids, and `unreadable` says what becomes of rows whose geometry
/// can't be read.
///
/// The left source is read first, then its layer is built while the right source is read and built,
/// in parallel if there is more than one thread. Then the edits are read and applied in order. The
/// first fault is returned, except that a failing right source comes before a fault in the bytes of
/// the left.
pub fn load<R, F, M, A, B, E>(
    reader: &LayerReader<'_, F, R>,
    marks: &M,
    unreadable: Unreadable,
    states: (RandomState, RandomState),
    sources: &mut JoinSources<A, B, E>,
    rows: &mut MarkedRows,
) -> Result<LoadedLayers<F::Geometry>, RunFault>
where
    R: Threads + Sync,
    F: Format,
    M: Marks<F::Geometry>,
    A: Source,
    B: Source,
    E: Source,
    requires { AreFresh A.has_failed B.has_failed E.has_failed sources.old }
    // of files in any format, both layers after the edits, in order, without the rows whose
    // geometry doesn't read where rows are skipped, and exactly these rows, of each file in its
    // order. On success `rows` are exactly the numbers of the rows of each file whose geometry has
    // the property, in file order, before any edit: rows are numbered from 1 after the header, and
    // those that were skipped have their numbers too; none if no geometry has it. A fault of an
    // input or an edit is the first; no others come but out of memory, and none before what
    // precedes it is good, except that a right source that fails comes before the left file's
    // bytes; `Io` comes of exactly the source that has failed
    ensures { let reads = F.reads reader.now.format in
        let files = files_by unreadable reads A.remaining B.remaining E.remaining sources.old in
        LoadsLayers (M.is_marked marks.now) files
        (HasFailed A.has_failed B.has_failed E.has_failed sources.new) (marked_lists rows.new)
        result }
{
    let left_reader = LayerReader {
        rt: reader.rt,
        alloc: reader.alloc,
        format: LaidOut {
            layout: sources.left_layout,
            format: reader.format,
        },
        threads: reader.threads,
    };
    let right_reader = LayerReader {
        rt: reader.rt,
        alloc: reader.alloc,
        format: LaidOut {
            layout: sources.right_layout,
            format: reader.format,
        },
        threads: reader.threads,
    };
    let (left, right) = (&mut sources.left, &mut sources.right);
    let loaded = read_layers(&left_reader, &right_reader, unreadable, states, left, right)?;
    // Lack of memory for the rows is a fault that comes after those of the edits.
    let found = rows_of(reader.alloc, marks, &loaded);
    let LoadedLayers { layers, skipped } = loaded;
    let edits = &mut sources.edits;
    let edited = edit_layers(reader.alloc, reader.format, states, edits, layers)?;
    *rows = found?;
    Ok(LoadedLayers {
        layers: edited,
        skipped,
    })
}

/// The rows of both files whose geometries have a property, before any edit.
fn rows_of<G: Geometry, M: Marks<G>>(
    alloc: Global,
    marks: &M,
    loaded: &LoadedLayers<G>,
) -> Result<MarkedRows, RunFault>
    ensures left { let skipped = numbers_of (skipped_lists loaded.now.skipped).left in
        let features = loaded.now.layers.0.list.features in
        IfOk result (λ rows. MarkedFrom (M.is_marked marks.now) 1 skipped features
        (marked_lists rows).left) }
    ensures right { let skipped = numbers_of (skipped_lists loaded.now.skipped).right in
        let features = loaded.now.layers.1.list.features in
        IfOk result (λ rows. MarkedFrom (M.is_marked marks.now) 1 skipped features
        (marked_lists rows).right) }
    ensures err { IfErr result (λ fault. fault ≡ RunFault.Memory) }
{
    let (left, right) = &loaded.layers;
    let skipped = &loaded.skipped;
    Ok(MarkedRows {
        left: marked_rows(alloc, marks, left.iter(), skipped.left.as_slice())?,
        right: marked_rows(alloc, marks, right.iter(), skipped.right.as_slice())?,
    })
}

/// Both layers after the edits of a file in order, if there is one, up to the first refused one.
fn edit_layers<F: Format, E: Source>(
    alloc: Global,
    format: F,
    states: (RandomState, RandomState),
    edits: &mut Option<E>,
    layers: (Layer<F::Geometry>, Layer<F::Geometry>),
) -> Result<(Layer<F::Geometry>, Layer<F::Geometry>), RunFault>
    requires { IfSome edits.old (λ e. E.has_failed e ≡ false) }
    ensures ok { IfOk result (λ edited. AreEdited (F.reads format)
        (bytes_of E.remaining edits.old) (both layers.0.list layers.1.list)
        (both edited.0.list edited.1.list)) }
    ensures fault { IfErr result (IsEditsFault (F.reads format) (bytes_of E.remaining edits.old)
        (both layers.0.list layers.1.list)) }
    ensures io { IsErrOf result (RunFault.Read Input.Edits ReadFault.Io)
        ↔ IsSomeAnd edits.new (λ e. IsTrue (E.has_failed e)) }
{
    let edit_list = read_edit_list(alloc, format, edits)?;
    edit_both(edit_list, states, layers)
}

/// The edits, if there is a file of them.
fn read_edit_list<F: Format, E: Source>(
    alloc: Global,
    format: F,
    edits: &mut Option<E>,
) -> Result<Vec<Edit<F::Geometry>>, RunFault>
    requires { IfSome edits.old (λ e. E.has_failed e ≡ false) }
    ensures ok { IfOk result (λ list. EditFile (F.reads format) (bytes_of E.remaining edits.old)
        (Ok (map content_of list.items))) }
    ensures few { IfOk result (λ list. length list.items ≤ most_rows) }
    ensures fault { IfErr result (λ e. (f : ReadFault) × (e ≡ RunFault.Read Input.Edits f)
        × (BlamesBytes f → EditFile (F.reads format) (bytes_of E.remaining edits.old) (Err f))) }
    ensures io { IsErrOf result (RunFault.Read Input.Edits ReadFault.Io)
        ↔ IsSomeAnd edits.new (λ e. IsTrue (E.has_failed e)) }
{
    let Some(source) = edits else {
        return Ok(Vec::new(alloc));
    };
    match read_edits(alloc, source, format) {
        Ok(list) => Ok(list),
        Err(fault) => Err(RunFault::Read(Input::Edits, fault)),
    }
}
