//! Features as elements of a picture.

ghost use Rattle.std.specs.Prelude.{◌≡◌, ◌++◌, OnOk};
ghost use Rattle.std.specs.String.{string_bytes};
ghost use Rattle.layer_core.specs.Walks.{feature_read};
ghost use Rattle.draw_core.specs.Drawings.{drawing_by};
ghost use Rattle.draw_core.specs.Pictures.{title, element};

use crate::drawn::Drawn;
use crate::frame::Frame;
use crate::label::push_label;
use layer_core::FeatureRef;
use std::alloc::AllocError;

/// Adds the title of a feature, its id.
fn push_title(text: &mut String, id: &str) -> Result<(), AllocError>
    ensures { OnOk result (string_bytes text.new ≡ string_bytes text.old ++ title id.now) }
{
    text.push_str("<title>")?;
    push_label(text, id)?;
    text.push_str("</title>")
}

/// Adds the path element of a feature, with its id as title.
pub(crate) fn push_element<G: Drawn>(
    text: &mut String,
    frame: &Frame,
    feature: &FeatureRef<'_, G>,
    is_match: bool,
) -> Result<(), AllocError>
    ensures { let drawing = drawing_by G.box_of G.start_of G.path_of in
        let shown = element drawing frame.now is_match (feature_read feature.now) in
        OnOk result (string_bytes text.new ≡ string_bytes text.old ++ shown) }
{
    text.push_str(feature.shape.start(is_match))?;
    feature.shape.push_path(frame, text)?;
    text.push_str("\">")?;
    push_title(text, feature.id)?;
    text.push_str("</path>\n")
}
