//! Layers, examined and as text.
//!
//! The proof of a function that owns a layer grows with the square of its length, and takes two
//! seconds more if it drops the layer. So layers are examined by functions that borrow them, and
//! functions that own one pass it to [`seen`].

use geom_core::Shape;
use layer_core::Layer;
use std::alloc::{AllocError, Global};
use std::fmt::Write;
use std::test::Fail;
use test_data::outline;

/// The point at these coordinates.
pub fn point(x: i64, y: i64) -> Result<Shape, Fail> {
    Ok(Shape::new(x, y, x, y).ok_or("a point in range")?)
}

/// The result of `see` on a value.
pub fn seen<V: Drop, T, F: FnOnce(&mut V) -> T>(mut value: V, see: F) -> T
    requires { F.IsAlwaysCallable see }
{
    see(&mut value)
}

/// Whether the layer has exactly these features, in this order and numbered from 0.
pub fn has_features(layer: &Layer, features: &[(&str, Shape)]) -> bool {
    for ((id, shape), number) in features.iter().zip(0..) {
        if !has(layer, id, number, *shape) {
            return false;
        }
    }
    layer.len() == features.len()
}

/// Whether the layer has this id and this shape under the number.
pub fn has(layer: &Layer, id: &str, number: u32, shape: Shape) -> bool {
    layer.at(number) == Some((id, &shape))
}

/// A layer as text: each feature by its id, number and shape, the counts, and each node of the
/// tree.
pub fn state(alloc: Global, layer: &Layer) -> Result<String, AllocError> {
    let mut text = outline(alloc, layer.tree())?;
    writeln!(text, "{:?}", layer.stats())?;
    for feature in layer.iter() {
        let (id, number, shape) = (feature.id, feature.number, feature.shape);
        writeln!(text, "{id} {number} {shape:?}")?;
    }
    Ok(text)
}
