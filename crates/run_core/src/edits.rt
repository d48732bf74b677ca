//! Applying edits to two layers in order.

ghost use Rattle.std.specs.Prelude.{◌≡◌, ◌<◌, ◌^◌, ℕ, Ok, IfOk, IfErr, OnOk, length, map};
ghost use Rattle.layer_core.specs.declared.fault.LayerFault.{LayerFault};
ghost use Rattle.layer_core.specs.Edits.{both, content_of, edits_give};
ghost use Rattle.row_core.specs.declared.read_fault.ReadFault.{ReadFault};
ghost use Rattle.run_core.specs.EditedLayers.{EndsAt, IsEditFault};

use crate::fault::{Input, RunFault};
use layer_core::{Edit, Geometry, Layer};
use layer_edit_core::{LayerEditor, apply_edit};
use row_core::ReadFault;
use std::hash::RandomState;

/// Applies the edits in order, up to the first that is refused. Edit k is that of row k + 1.
fn apply_edits<G: Geometry>(
    edits: Vec<Edit<G>>,
    left: &mut LayerEditor<G>,
    right: &mut LayerEditor<G>,
) -> Result<(), RunFault>
    requires { length edits.items < 2 ^ 32 }
    ensures ok { OnOk result
        (edits_give 1 (both left.old.list right.old.list) (map content_of edits.items)
        ≡ Ok (both left.new.list right.new.list)) }
    ensures err { IfErr result (λ e. (row : ℕ) × (f : LayerFault) × (e ≡ RunFault.Edit row f)
        × EndsAt row f (both left.old.list right.old.list) (map content_of edits.items)) }
{
    let mut row = 0;
    for edit in edits {
        row += 1;
        if let Err(fault) = apply_edit(edit, left, right) {
            return Err(RunFault::Edit(row, fault));
        }
    }
    Ok(())
}

/// Takes the layer of an input to edit it. Lack of memory is a fault of that input.
fn editor_of<G: Geometry>(
    input: Input,
    layer: Layer<G>,
    state: RandomState,
) -> Result<LayerEditor<G>, RunFault>
    ensures ok { IfOk result (λ editor. editor ≡ layer) }
    ensures err { IfErr result (λ e. e ≡ RunFault.Read input ReadFault.Memory) }
{
    match LayerEditor::of_layer(layer, state) {
        Ok(editor) => Ok(editor),
        Err(_) => Err(RunFault::Read(input, ReadFault::Memory)),
    }
}

/// Both layers after the edits in order, up to the first that is refused. Without edits they are
/// returned as they are. `states` hash the ids that are out of order.
pub(crate) fn edit_both<G: Geometry>(
    edits: Vec<Edit<G>>,
    states: (RandomState, RandomState),
    layers: (Layer<G>, Layer<G>),
) -> Result<(Layer<G>, Layer<G>), RunFault>
    requires { length edits.items < 2 ^ 32 }
    ensures ok { IfOk result (λ edited.
        edits_give 1 (both layers.0.list layers.1.list) (map content_of edits.items)
        ≡ Ok (both edited.0.list edited.1.list)) }
    ensures err { IfErr result
        (IsEditFault (both layers.0.list layers.1.list) (map content_of edits.items)) }
{
    if edits.is_empty() {
        return Ok(layers);
    }
    let mut left = editor_of(Input::Left, layers.0, states.0)?;
    let mut right = editor_of(Input::Right, layers.1, states.1)?;
    apply_edits(edits, &mut left, &mut right)?;
    let left_layer = left.finish()?;
    let right_layer = right.finish()?;
    Ok((left_layer, right_layer))
}
