//! The relation of a join, by the kind of the geometries of the layers.

use any_geometry_core::AnyGeometry;
use any_relation_core::AnyRelation;
use geom_core::Shape;
use layer_core::{Geometry, Layer};
use relation_core::JoinRelation;

/// A relation, and the two layers that are joined by it, all of one kind.
#[derive(Clone, Copy)]
pub enum RelatedLayers<'a> {
    /// Boxes.
    Boxes(&'a JoinRelation, &'a Layer<Shape>, &'a Layer<Shape>),
    /// Geometries of any kind.
    Any(&'a AnyRelation, &'a Layer<AnyGeometry>, &'a Layer<AnyGeometry>),
}

/// A relation of a join of layers whose geometries are `G`.
pub trait LayersRelation<G: Geometry> {
    ghost use Rattle.std.specs.Prelude.{ℕ, List};
    ghost use Rattle.pair_core.specs.declared.product.Product.{Product};
    ghost use Rattle.layer_core.specs.Edits.{both};
    ghost use Rattle.join_core.specs.Joinings.{Joining};
    ghost use Rattle.join_core.specs.Products.{HasProduct};
    ghost use Rattle.join_core.specs.RelatedLayers.{HaveProduct};

    /// Which two geometries are a pair, which matrix is theirs, and how each is drawn.
    ghost joining: { Self → Joining G };

    /// The relation and two layers, by their kind.
    fn of_layers<'a>(&'a self, left: &'a Layer<G>, right: &'a Layer<G>) -> RelatedLayers<'a>
        // what a join makes of them is a product of the two layers
        ensures { let layers = both left.now.list right.now.list in
            (product : Product) (text : List ℕ) → HaveProduct product result text
            → HasProduct product (joining self.now) layers text };
}

impl LayersRelation<Shape> for JoinRelation {
    ghost use Rattle.join_core.specs.Joinings.{box_joining};

    ghost joining = { box_joining };

    fn of_layers<'a>(
        &'a self,
        left: &'a Layer<Shape>,
        right: &'a Layer<Shape>,
    ) -> RelatedLayers<'a> {
        RelatedLayers::Boxes(self, left, right)
    }
}

impl LayersRelation<AnyGeometry> for AnyRelation {
    ghost use Rattle.join_core.specs.AnyJoinings.{any_joining};

    ghost joining = { any_joining };

    fn of_layers<'a>(
        &'a self,
        left: &'a Layer<AnyGeometry>,
        right: &'a Layer<AnyGeometry>,
    ) -> RelatedLayers<'a> {
        RelatedLayers::Any(self, left, right)
    }
}
