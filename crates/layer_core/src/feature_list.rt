//! The features of a layer without a tree, from which one may be packed.

ghost use Rattle.std.specs.Prelude.{◌≡◌, IfOk};
ghost use Rattle.layer_core.specs.LayerTrees.{entries_for};

use crate::features::{Features, Parts};
use crate::geometry::Geometry;
use crate::iter::Iter;
use crate::layer::Layer;
use crate::stats::Stats;
use geom_core::Shape;
use rtree_core::{Entry, RTree};
use std::alloc::{AllocError, Global};
use std::marker::Model;
use std::thread::Threads;

/// The features of a layer, without a tree. They are boxed, as they are in a layer.
#[derive(Drop)]
pub struct FeatureList<G: Geometry = Shape> {
    features: Box<Features<G>>,
}

impl<G: Geometry> Model for FeatureList<G> {
    ghost use Rattle.layer_core.specs.Layers.{Contents};
    ghost use Rattle.layer_core.specs.LayerCodes.{coded_contents};

    ghost Value = { Contents G };

    ghost coded = { coded_contents G.code };

    ghost view = { λ l. l.features.value };
}

impl<G: Geometry> FeatureList<G> {
    ghost use Rattle.std.specs.Prelude.{◌≡◌, length, IfOk, IfSome};
    ghost use Rattle.std.specs.Map.{keys_of};
    ghost use Rattle.rtree_core.specs.Packings.{IsPackingOf, IsPackedHeight};
    ghost use Rattle.rtree_core.specs.Trees.{height_of};
    ghost use Rattle.layer_core.specs.IdsAndSlots.{StandForLayer, contents_of};
    ghost use Rattle.layer_core.specs.Layers.{IsLayer};
    ghost use Rattle.layer_core.specs.Statistics.{counts_of};

    /// The list that these parts stand for.
    pub fn from_parts(alloc: Global, parts: Parts<G>) -> Result<FeatureList<G>, AllocError>
        requires { StandForLayer parts.ids.items parts.slots.items parts.count }
        ensures { let contents = contents_of (keys_of parts.ids.items) parts.slots.items in
            IfOk result (λ list. list ≡ contents) }
    {
        Ok(FeatureList {
            features: Box::new(alloc, Features::from_parts(parts))?,
        })
    }

    /// The parts that stand for this list.
    pub fn into_parts(self) -> Parts<G>
        // ids and slots that stand for this list
        ensures same { contents_of (keys_of result.ids.items) result.slots.items ≡ self }
        // with all that is asked of them
        ensures stand { StandForLayer result.ids.items result.slots.items result.count }
    {
        Box::into_inner(self.features).into_parts()
    }

    /// The list of these features.
    pub(crate) fn from_features(features: Box<Features<G>>) -> FeatureList<G>
        ensures { result ≡ features.value }
    {
        FeatureList { features }
    }

    pub(crate) fn into_features(self) -> Box<Features<G>>
        ensures { result.value ≡ self }
    {
        self.features
    }

    /// The features in layer order.
    pub fn iter(&self) -> Iter<'_, G>
        // the list, in order
        ensures features { result ≡ self.now.features }
        // as above
        ensures layer { IsLayer self.now }
    {
        self.features.iter()
    }

    /// The numbers of features of each dimension, and the height of a tree packed from them. It
    /// visits every feature, and packs no tree.
    pub fn stats(&self) -> Stats
        // by dimension
        ensures counts { result ≡ counts_of G.dim_of self.now result.height }
        // that of a tree packed from the list
        ensures height { IsPackedHeight (length self.now.features) result.height }
    {
        self.features
            .stats(RTree::packed_height(self.features.len() as u32))
    }

    /// The layer of these features.
    pub fn finish(self, alloc: Global) -> Result<Layer<G>, AllocError>
        // the layer with exactly that list
        ensures list { IfOk result (λ layer. layer.list ≡ self) }
        // its tree is that of Sort-Tile-Recursive, as `RTree::pack` makes it
        ensures packing { let entries = entries_for G.box_of self in
            IfOk result (λ layer. IfSome layer.root (IsPackingOf entries)) }
        // has that height
        ensures height { IfOk result
            (λ layer. IsPackedHeight (length self.features) (height_of layer.root)) }
    {
        let entries = entries_of(alloc, &self.features)?;
        Layer::pack(alloc, self.features, entries)
    }

    /// The layer of these features, whose tree is packed by at most `threads` threads.
    pub fn finish_by_threads<R: Threads + Sync>(
        self,
        alloc: Global,
        threads: u32,
        rt: &R,
    ) -> Result<Layer<G>, AllocError>
        // as of `FeatureList::finish`
        ensures list { IfOk result (λ layer. layer.list ≡ self) }
        ensures packing { let entries = entries_for G.box_of self in
            IfOk result (λ layer. IfSome layer.root (IsPackingOf entries)) }
        ensures height { IfOk result
            (λ layer. IsPackedHeight (length self.features) (height_of layer.root)) }
    {
        let entries = entries_of(alloc, &self.features)?;
        Layer::pack_by_threads(alloc, self.features, entries, threads, rt)
    }
}

/// The entries of a tree over these features.
fn entries_of<G: Geometry>(alloc: Global, features: &Features<G>) -> Result<Vec<Entry>, AllocError>
    ensures { IfOk result (λ entries. entries.items ≡ entries_for G.box_of features.now) }
{
    let mut entries = Vec::with_capacity(alloc, features.len())?;
    for feature in features.iter() {
        entries.push_reserved(Entry {
            shape: feature.shape.bounds(),
            number: feature.number,
        });
    }
    Ok(entries)
}
