//! Layers.

ghost use Rattle.std.specs.Prelude.{◌≡◌};
ghost use Rattle.layer_core.specs.Refusals.{is_id};

use crate::feature_list::FeatureList;
use crate::features::Features;
use crate::geometry::Geometry;
use crate::iter::Iter;
use crate::stats::Stats;
use geom_core::Shape;
use rtree_core::{Entry, RTree};
use std::alloc::{AllocError, Global};
use std::marker::Model;
use std::thread::Threads;

/// The greatest number of bytes of an id. The least is one.
pub const MAX_ID_BYTES: usize = 64;

/// A list of features in the order of insertion, each with an id of its own, a number and a shape,
/// which is a geometry of the type `G`.
///
/// Numbers start at 0, increase by one with each insertion and are never reused, so a feature that
/// is deleted and inserted again goes to the end. An id has 1 to [`MAX_ID_BYTES`] bytes of UTF-8,
/// and ids are compared by bytes. At most [`crate::MAX_FEATURES`] features are ever inserted.
///
/// An R-tree holds exactly these features, each as its box with its number. Both are boxed, so
/// that a layer is moved and dropped as two pointers.
///
/// A lookup by number takes constant time. Lookups by id and edits are those of an editor, which
/// finds ids.
#[derive(Drop)]
pub struct Layer<G: Geometry = Shape> {
    features: Box<Features<G>>,
    tree: Box<RTree>,
}

impl<G: Geometry> Model for Layer<G> {
    ghost use Rattle.layer_core.specs.LayerTrees.{LayerState};
    ghost use Rattle.layer_core.specs.LayerCodes.{coded_layer};

    ghost Value = { LayerState G };

    ghost coded = { coded_layer G.code };

    ghost use Rattle.layer_core.specs.LayerTrees.{HoldsExactly};

    ghost view = { λ layer. record { list = layer.features.value; root = layer.tree.value } };

    ghost invariant = { λ layer. HoldsExactly G.box_of layer.features.value layer.tree.value };
}

/// Whether a text is an id: it has 1 to [`MAX_ID_BYTES`] bytes.
pub fn is_id(id: &str) -> bool
    ensures { result ≡ is_id id.now }
{
    !id.is_empty() && id.len() <= MAX_ID_BYTES
}

impl<G: Geometry> Layer<G> {
    ghost use Rattle.std.specs.Prelude.{◌≡◌, ◌↔◌, [], length, IsTrue, IfOk, IfSome};
    ghost use Rattle.rtree_core.specs.Packings.{IsPackingOf, IsPackedHeight};
    ghost use Rattle.rtree_core.specs.Trees.{height_of};
    ghost use Rattle.layer_core.specs.Layers.{IsLayer, IdAndShapeAre, ShapeIs, with_number};
    ghost use Rattle.layer_core.specs.LayerTrees.{HoldsExactly, entries_for, IsTreeOf};
    ghost use Rattle.layer_core.specs.Statistics.{stats_of};

    /// The layer of this list and of a tree that holds exactly its features.
    pub fn from_list(list: FeatureList<G>, tree: Box<RTree>) -> Layer<G>
        requires { HoldsExactly G.box_of list tree.value }
        ensures { result ≡ record { list = list; root = tree.value } }
    {
        Layer {
            features: list.into_features(),
            tree,
        }
    }

    /// The list and the tree.
    pub fn into_list(self) -> (FeatureList<G>, Box<RTree>)
        // those of the layer
        ensures list { result.0 ≡ self.list }
        ensures root { result.1.value ≡ self.root }
        // the tree holds exactly the list
        ensures exact { HoldsExactly G.box_of self.list self.root }
    {
        (FeatureList::from_features(self.features), self.tree)
    }

    /// The layer of these features, whose tree is packed from their entries.
    pub(crate) fn pack(
        alloc: Global,
        features: Box<Features<G>>,
        entries: Vec<Entry>,
    ) -> Result<Layer<G>, AllocError>
        requires { entries.items ≡ entries_for G.box_of features.value }
        ensures list { IfOk result (λ layer. layer.list ≡ features.value) }
        ensures packing { let entries = entries_for G.box_of features.value in
            IfOk result (λ layer. IfSome layer.root (IsPackingOf entries)) }
        ensures height { IfOk result
            (λ layer. IsPackedHeight (length features.value.features) (height_of layer.root)) }
    {
        // Packing requires distinct numbers, which the invariant of the features gives.
        let _len = features.len();
        let packed = RTree::pack(alloc, entries);
        Ok(Layer {
            features,
            tree: Box::new(alloc, packed?)?,
        })
    }

    /// The layer of these features, whose tree is packed by at most `threads` threads.
    pub(crate) fn pack_by_threads<R: Threads + Sync>(
        alloc: Global,
        features: Box<Features<G>>,
        entries: Vec<Entry>,
        threads: u32,
        rt: &R,
    ) -> Result<Layer<G>, AllocError>
        requires { entries.items ≡ entries_for G.box_of features.value }
        ensures list { IfOk result (λ layer. layer.list ≡ features.value) }
        ensures packing { let entries = entries_for G.box_of features.value in
            IfOk result (λ layer. IfSome layer.root (IsPackingOf entries)) }
        ensures height { IfOk result
            (λ layer. IsPackedHeight (length features.value.features) (height_of layer.root)) }
    {
        let _len = features.len();
        let packed = RTree::pack_by_threads(alloc, entries, threads, rt);
        Ok(Layer {
            features,
            tree: Box::new(alloc, packed?)?,
        })
    }

    /// The number of features of the layer.
    pub fn len(&self) -> usize
        // how many features the list has
        ensures len { result ≡ length self.now.list.features }
        // ids differ, and numbers rise and are below 1,000,000
        ensures layer { IsLayer self.now.list }
    {
        self.features.len()
    }

    /// Whether the layer has no features.
    pub fn is_empty(&self) -> bool
        ensures { IsTrue result ↔ (self.now.list.features ≡ []) }
    {
        self.len() == 0
    }

    /// The numbers of features of each dimension, and the height of the tree. It visits every
    /// feature.
    pub fn stats(&self) -> Stats
        ensures { result ≡ stats_of G.dim_of self.now }
    {
        self.features.stats(self.tree.height())
    }

    /// The tree, whose entries are the features' boxes with their numbers.
    pub fn tree(&self) -> &RTree
        // its root
        ensures root { result.now ≡ self.now.root }
        // it is lawful and holds the boxes of exactly this list with their numbers
        ensures exact { IsTreeOf G.box_of self.now.list self.now.root }
    {
        // By its invariant, the tree is lawful.
        let _root = self.tree.root();
        &self.tree
    }

    /// The id and the shape of the feature with this number.
    pub fn at(&self, number: u32) -> Option<(&str, &G)>
        // what the list has of a number
        ensures found { IdAndShapeAre result (with_number number self.now.list) }
        // as of `Layer::len`
        ensures layer { IsLayer self.now.list }
    {
        self.features.at(number)
    }

    /// The shape of the feature with this number, for which only its slot is read.
    pub fn shape(&self, number: u32) -> Option<&G>
        ensures { ShapeIs result (with_number number self.now.list) }
    {
        self.features.shape(number)
    }

    /// The features in layer order.
    pub fn iter(&self) -> Iter<'_, G>
        // the list, in order
        ensures features { result ≡ self.now.list.features }
        // as of `Layer::len`
        ensures layer { IsLayer self.now.list }
    {
        self.features.iter()
    }
}
