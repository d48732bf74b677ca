//! Adding the rows of a layer's file to those before them.

ghost use Rattle.std.specs.Prelude.{◌≡◌, ◌≢◌, ◌+◌, ◌≤◌, Ok, Err, All, OnOk, IfOk, IfErr, IsTrue};
ghost use Rattle.std.specs.Prelude.{option_map};
ghost use Rattle.layer_core.specs.Ids.{id_bytes};
ghost use Rattle.layer_core.specs.Refusals.{is_id};
ghost use Rattle.file_core.specs.Batches.{CanNumber, all_rows, with_rows};
ghost use Rattle.file_core.specs.LayerFiles.{id_in};
ghost use Rattle.row_core.specs.LayerRows.{HasId, HasIdLength};
ghost use Rattle.row_core.specs.LayerRows.{content_of};
ghost use Rattle.row_core.specs.Rows.{most_rows};
ghost use Rattle.file_core.specs.SkippedRows.{loaded_of, loaded_with, rows_in, with_reading};
ghost use Rattle.file_core.specs.SkippedRows.{with_unreadable};

use crate::loading::{Loading, next_row};
use crate::skipped::{SkippedRow, Unreadable};
use format_core::TextFault;
use itoa::Buffer;
use layer_core::{Geometry, Id};
use layer_edit_core::FeatureListBuilder;
use row_core::{ReadFault, ReadRow};
use std::alloc::{AllocError, Global};

/// Adds the next row, whose geometry was read: inserts its feature.
fn insert<G: Geometry>(
    loading: &mut Loading<FeatureListBuilder<G>>,
    id: Id,
    shape: G,
) -> Result<(), ReadFault>
    requires id { IsTrue (is_id (id_bytes id)) }
    requires few { rows_in (loaded_of loading.old) + 1 ≤ most_rows }
    ensures ok { let loaded = loaded_of loading.old in OnOk result
        (with_reading (rows_in loaded + 1) loaded (id_bytes id) (Ok shape)
        ≡ Ok (loaded_of loading.new)) }
    ensures err { let loaded = loaded_of loading.old in
        IfErr result (λ fault. fault ≢ ReadFault.Memory
        → with_reading (rows_in loaded + 1) loaded (id_bytes id) (Ok shape) ≡ Err fault) }
    ensures no_io { result ≢ Err ReadFault.Io }
{
    match loading.features.add(id, shape) {
        Ok(()) => Ok(()),
        Err(fault) => Err(ReadFault::of_row(next_row(loading), fault)),
    }
}

/// Adds the next row, whose geometry can't be read: skips it, or refuses it.
#[tactic(auto, using(crate::proofs::LoadedLemmas::skipped_push))]
fn skip_or_refuse<G: Geometry>(
    loading: &mut Loading<FeatureListBuilder<G>>,
    id: Id,
    fault: TextFault,
) -> Result<(), ReadFault>
    requires { rows_in (loaded_of loading.old) + 1 ≤ most_rows }
    ensures ok { let loaded = loaded_of loading.old in OnOk result
        (with_unreadable loaded.unreadable (rows_in loaded + 1) loaded (id_bytes id) fault
        ≡ Ok (loaded_of loading.new)) }
    ensures err { let loaded = loaded_of loading.old in
        IfErr result (λ f. f ≢ ReadFault.Memory
        → with_unreadable loaded.unreadable (rows_in loaded + 1) loaded (id_bytes id) fault
        ≡ Err f) }
    ensures no_io { result ≢ Err ReadFault.Io }
{
    let row = next_row(loading);
    match loading.unreadable {
        Unreadable::Refuse => Err(ReadFault::of_text(row, fault)),
        Unreadable::Skip => {
            loading.skipped.reserve(1)?;
            loading.skipped.push_reserved(SkippedRow { row, id, fault });
            Ok(())
        }
    }
}

/// The id of the row with this number, which is the number where the file has no ids.
#[tactic(auto, using(crate::proofs::LoadedLemmas::number_id))]
fn id_or_number(alloc: Global, id: Option<Id>, row: u32) -> Result<Id, AllocError>
    requires { HasIdLength id }
    ensures is { IfOk result (λ found. id_bytes found ≡ id_in row (option_map id_bytes id)) }
    ensures length { IfOk result (λ found. IsTrue (is_id (id_bytes found))) }
{
    match id {
        Some(id) => Ok(id),
        None => Id::from_str(alloc, Buffer::new().format(row)),
    }
}

/// Inserts the feature of the next row, or skips the row.
pub(crate) fn add_row<G: Geometry>(
    loading: &mut Loading<FeatureListBuilder<G>>,
    row: ReadRow<G>,
) -> Result<(), ReadFault>
    requires id { HasId row }
    requires few { rows_in (loaded_of loading.old) + 1 ≤ most_rows }
    ensures ok { let loaded = loaded_of loading.old in OnOk result
        (loaded_with (rows_in loaded + 1) loaded (Ok (content_of row))
        ≡ Ok (loaded_of loading.new)) }
    ensures err { let loaded = loaded_of loading.old in
        IfErr result (λ fault. fault ≢ ReadFault.Memory
        → loaded_with (rows_in loaded + 1) loaded (Ok (content_of row)) ≡ Err fault) }
    ensures no_io { result ≢ Err ReadFault.Io }
{
    let ReadRow { id, shape } = row;
    let id = id_or_number(loading.alloc, id, next_row(loading))?;
    match shape {
        Ok(shape) => insert(loading, id, shape),
        Err(fault) => skip_or_refuse(loading, id, fault),
    }
}

/// Adds the rows in turn, up to the first that is refused.
pub(crate) fn add_rows<G: Geometry>(
    loading: &mut Loading<FeatureListBuilder<G>>,
    rows: Vec<ReadRow<G>>,
) -> Result<(), ReadFault>
    requires ids { All HasId rows.items }
    requires few { CanNumber (loaded_of loading.old) rows.items }
    ensures ok { OnOk result
        (with_rows (loaded_of loading.old) rows.items ≡ Ok (loaded_of loading.new)) }
    ensures err { IfErr result (λ fault. fault ≢ ReadFault.Memory
        → with_rows (loaded_of loading.old) rows.items ≡ Err fault) }
    ensures no_io { result ≢ Err ReadFault.Io }
{
    for row in rows {
        add_row(loading, row)?;
    }
    Ok(())
}

/// Adds the rows of the parts in turn, up to the first that is refused.
pub(crate) fn add_parts<G: Geometry>(
    loading: &mut Loading<FeatureListBuilder<G>>,
    parts: Vec<Vec<ReadRow<G>>>,
) -> Result<(), ReadFault>
    requires ids { All HasId (all_rows parts.items) }
    requires few { CanNumber (loaded_of loading.old) (all_rows parts.items) }
    ensures ok { OnOk result
        (with_rows (loaded_of loading.old) (all_rows parts.items) ≡ Ok (loaded_of loading.new)) }
    ensures err { IfErr result (λ fault. fault ≢ ReadFault.Memory
        → with_rows (loaded_of loading.old) (all_rows parts.items) ≡ Err fault) }
    ensures no_io { result ≢ Err ReadFault.Io }
{
    for rows in parts {
        add_rows(loading, rows)?;
    }
    Ok(())
}
