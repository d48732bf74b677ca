//! Building and editing layers, whose features are found by id.
#![tactic(auto)]

mod builder;
mod edit;
mod editor;
mod features;
mod ids;

pub use builder::FeatureListBuilder;
pub use edit::apply_edit;
pub use editor::LayerEditor;
