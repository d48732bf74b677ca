//! The sources of a join.

use format_core::Layout;

/// The sources of a join's two layers, and of edits if there are any.
#[derive(Drop)]
pub struct JoinSources<'a, A, B, E> {
    pub left: A,
    pub right: B,
    pub edits: Option<E>,
    /// The layout of the left layer's file.
    pub left_layout: Layout<'a>,
    /// The layout of the right layer's file.
    pub right_layout: Layout<'a>,
}
