//! The nearest features in a layer with a gap, and queries.

use crate::nearest_layers::{are_rows, editor, layer, query};
use nearest_core::nearest_layers;
use std::hash::RandomState;
use std::test::Fail;

/// The feature 1 was deleted, and the others keep their numbers.
#[test]
fn of_a_layer_with_a_gap(rt: HostRuntime) -> Result<(), Fail> {
    let points = &[(9, 0, 9, 0), (1, 0, 1, 0), (3, 0, 3, 0)];
    let mut editor = editor(rt.alloc(), RandomState::new(&rt)?, points).ok_or("a layer")?;
    editor.remove("1")?;
    let right = editor.finish()?;
    let origin = &[(0, 0, 0, 0)];
    let left = layer(rt.alloc(), RandomState::new(&rt)?, origin).ok_or("a layer")?;
    let query = query(2, None).ok_or("a query")?;
    let found = nearest_layers(&rt, &left, &right, &query, 1)?;
    assert!(rt; are_rows(&found, &[(0, 2, 9), (0, 0, 81)]));
    Ok(())
}

#[test]
fn of_none(rt: HostRuntime) -> Result<(), Fail> {
    assert!(rt; query(0, None).is_none());
    assert_eq!(rt; query(7, Some(3)).ok_or("a query")?.most(), 7);
    Ok(())
}
