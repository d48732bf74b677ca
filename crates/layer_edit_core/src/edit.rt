//! Applying an edit to two layers.

ghost use Rattle.std.specs.Prelude.{◌≡◌, OnOk, OnErr};
ghost use Rattle.layer_core.specs.Refusals.{AnswersWith};
ghost use Rattle.layer_core.specs.Edits.{content_of, edited, refusal, both, edited_layers};
ghost use Rattle.layer_core.specs.Edits.{edit_refusal};

use crate::editor::LayerEditor;
use layer_core::{Edit, Geometry, LayerFault, Side};

/// Edits the layer on the edit's side, by [`LayerEditor::insert`] or [`LayerEditor::remove`], and
/// returns their fault. A refused edit changes neither layer.
pub fn apply_edit<G: Geometry>(
    edit: Edit<G>,
    left: &mut LayerEditor<G>,
    right: &mut LayerEditor<G>,
) -> Result<(), LayerFault>
    // one step on the lists of both layers
    ensures ok { OnOk result (both left.new.list right.new.list
        ≡ edited_layers (both left.old.list right.old.list) (content_of edit)) }
    // a refusal changes neither
    ensures err_left { OnErr result (left.new ≡ left.old) }
    ensures err_right { OnErr result (right.new ≡ right.old) }
    // as above
    ensures refused { AnswersWith
        (edit_refusal (both left.old.list right.old.list) (content_of edit)) result }
{
    match edit.side() {
        Side::Left => apply_to(edit, left),
        Side::Right => apply_to(edit, right),
    }
}

/// Applies the edit to this layer, regardless of the side.
fn apply_to<G: Geometry>(edit: Edit<G>, layer: &mut LayerEditor<G>) -> Result<(), LayerFault>
    ensures ok { OnOk result (layer.new.list ≡ edited layer.old.list (content_of edit)) }
    ensures err { OnErr result (layer.new ≡ layer.old) }
    ensures refused { AnswersWith (refusal layer.old.list (content_of edit)) result }
{
    match edit {
        Edit::Insert { id, shape, .. } => layer.insert(id.as_str(), shape),
        Edit::Delete { id, .. } => {
            layer.remove(id.as_str())?;
            Ok(())
        }
    }
}
