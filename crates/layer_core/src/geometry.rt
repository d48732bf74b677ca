//! What a layer has to know of a geometry.

use geom_core::Shape;

/// A geometry that a layer can hold.
pub trait Geometry: Drop {
    ghost use Rattle.std.specs.Prelude.{◌≡◌, ℕ};
    ghost use Rattle.geom_core.specs.declared.shape.Shape.{Shape};

    ghost box_of: { Self → Shape };

    ghost dim_of: { Self → ℕ };

    /// The box that stands for it in the tree of a layer.
    fn bounds(&self) -> Shape
        ensures { result ≡ box_of self.now };

    /// Its dimension: 0 for points, 1 for lines and 2 for areas.
    fn dim(&self) -> u8
        ensures { result ≡ dim_of self.now };
}

/// A shape is its own box.
impl Geometry for Shape {
    ghost use Rattle.geom_core.specs.Shapes as shapes;

    ghost box_of = { λ s. s };

    ghost dim_of = { shapes.dim_of };

    #[inline(always)]
    fn bounds(&self) -> Shape {
        *self
    }

    #[inline(always)]
    fn dim(&self) -> u8 {
        Shape::dim(self)
    }
}
