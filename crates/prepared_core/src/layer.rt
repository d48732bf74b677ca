//! The geometries of a layer of a join, with those prepared that are large, or that are large and
//! occur in several pairs.

ghost use Rattle.std.specs.Prelude.{IfOk, OnOk};
ghost use Rattle.prepared_core.specs.Prepared.{ArePrepared};

use crate::preparation::{Preparation, Prepare};
use layer_core::{Geometry, Layer};
use pair_core::{Side, met_often};
use std::alloc::{AllocError, Global};
use std::marker::{Model, PhantomData};

/// The fewest vertices of a geometry that is prepared for several pairs. A smaller one is prepared
/// anew for each pair that needs it: this takes little time, while the forms of all of them would
/// take much memory.
const LARGE: usize = 32;

/// A feature whose geometry is prepared.
#[derive(Drop)]
struct PreparedFeature<P> {
    number: u32,
    geometry: P,
}

/// A layer of a join. Large geometries, or those of them that occur in several pairs, are prepared,
/// so that each is prepared once, to the form `P` and by the preparation `M`. In contracts its
/// value is the layer's list of features.
///
/// The prepared features are a sparse set (Briggs and Torczon, "An efficient representation for
/// sparse sets", 1993, section 2): `places` has the place of each of them in `features` under its
/// number, and 0 under all other numbers.
#[derive(Drop)]
pub struct PreparedLayer<'a, G: Geometry, P, M: Preparation<G, P>> {
    layer: &'a Layer<G>,
    places: Vec<u32>,
    features: Vec<PreparedFeature<P>>,
    preparation: PhantomData<M>,
}

impl<'a, G: Geometry, P, M: Preparation<G, P>> Model for PreparedLayer<'a, G, P, M> {
    ghost use Rattle.layer_core.specs.Layers.{Contents};
    ghost use Rattle.prepared_core.specs.Prepared.{ArePrepared};

    ghost Value = { Contents G };

    ghost view = { λ p. p.layer.now.list };

    ghost invariant = { λ p. ArePrepared M.is_form p.layer.now.list p.features.items };
}

impl<'a, G: Geometry, P: Drop, M: Prepare<'a, G, P>> PreparedLayer<'a, G, P, M> {
    ghost use Rattle.std.specs.Prelude.{◌≡◌, IfOk};

    /// The layer, with the large geometries prepared that occur more than once on this side of the
    /// pairs.
    ///
    /// # Errors
    /// If an allocation fails.
    pub fn new(
        alloc: Global,
        layer: &'a Layer<G>,
        pairs: &[(u32, u32)],
        side: Side,
    ) -> Result<PreparedLayer<'a, G, P, M>, AllocError>
        ensures { IfOk result (λ p. p ≡ layer.now.list) }
    {
        let large = large_features::<G, P, M>(alloc, layer, LARGE)?;
        if large.is_empty() {
            return PreparedLayer::with_prepared(alloc, layer, &large);
        }
        let often = met_often(alloc, &large, pairs, side)?;
        PreparedLayer::with_prepared(alloc, layer, &often)
    }

    /// The layer, with the geometries prepared that have at least `fewest` vertices.
    ///
    /// # Errors
    /// If an allocation fails.
    pub fn with_large(
        alloc: Global,
        layer: &'a Layer<G>,
        fewest: usize,
    ) -> Result<PreparedLayer<'a, G, P, M>, AllocError>
        ensures { IfOk result (λ p. p ≡ layer.now.list) }
    {
        let large = large_features::<G, P, M>(alloc, layer, fewest)?;
        PreparedLayer::with_prepared(alloc, layer, &large)
    }

    /// The layer, with the geometries of the features prepared that have these numbers.
    fn with_prepared(
        alloc: Global,
        layer: &'a Layer<G>,
        numbers: &[u32],
    ) -> Result<PreparedLayer<'a, G, P, M>, AllocError>
        ensures { IfOk result (λ p. p ≡ layer.now.list) }
    {
        let features = prepared_features::<G, P, M>(alloc, layer, numbers)?;
        let places = places_of(alloc, &features)?;
        Ok(PreparedLayer {
            layer,
            places,
            features,
            preparation: PhantomData,
        })
    }
}

impl<'a, G: Geometry, P, M: Preparation<G, P>> PreparedLayer<'a, G, P, M> {
    ghost use Rattle.std.specs.Prelude.{◌≡◌, IfSome};
    ghost use Rattle.layer_core.specs.Layers.{with_number, ShapeIs};
    ghost use Rattle.prepared_core.specs.Prepared.{FormIs};

    /// The layer itself.
    pub fn layer(&self) -> &'a Layer<G>
        ensures { result.now.list ≡ self.now }
    {
        self.layer
    }

    /// The geometry of the feature with this number.
    pub fn shape(&self, number: u32) -> Option<&'a G>
        ensures { ShapeIs result (with_number number self.now) }
    {
        self.layer.shape(number)
    }

    /// The prepared geometry of the feature with this number, if it is prepared.
    pub fn prepared(&self, number: u32) -> Option<&P>
        ensures { IfSome result (λ p. FormIs M.is_form self.now number p.now) }
    {
        let place = *self.places.get(number as usize)?;
        let feature = self.features.get(place as usize)?;
        if feature.number == number {
            Some(&feature.geometry)
        } else {
            None
        }
    }
}

/// The numbers of the features with at least `fewest` vertices, in ascending order.
fn large_features<G: Geometry, P, M: Preparation<G, P>>(
    alloc: Global,
    layer: &Layer<G>,
    fewest: usize,
) -> Result<Vec<u32>, AllocError> {
    let mut large = Vec::new(alloc);
    for feature in layer.iter() {
        if M::vertex_count(feature.shape) >= fewest {
            large.push(feature.number)?;
        }
    }
    Ok(large)
}

/// The features with these numbers, each prepared.
fn prepared_features<'a, G: Geometry, P: Drop, M: Prepare<'a, G, P>>(
    alloc: Global,
    layer: &'a Layer<G>,
    numbers: &[u32],
) -> Result<Vec<PreparedFeature<P>>, AllocError>
    ensures { IfOk result (λ features. ArePrepared M.is_form layer.now.list features.items) }
{
    let mut features = Vec::new(alloc);
    for number in numbers {
        push_prepared::<G, P, M>(alloc, &mut features, layer, *number)?;
    }
    Ok(features)
}

/// Prepares the feature with this number, if the layer has one.
fn push_prepared<'a, G: Geometry, P: Drop, M: Prepare<'a, G, P>>(
    alloc: Global,
    features: &mut Vec<PreparedFeature<P>>,
    layer: &'a Layer<G>,
    number: u32,
) -> Result<(), AllocError>
    requires { ArePrepared M.is_form layer.now.list features.old.items }
    ensures { OnOk result (ArePrepared M.is_form layer.now.list features.new.items) }
{
    if let Some(shape) = layer.shape(number) {
        let geometry = M::prepare(alloc, shape)?;
        features.push(PreparedFeature { number, geometry })?;
    }
    Ok(())
}

/// The places of prepared features under their numbers, and 0 under others.
fn places_of<P>(alloc: Global, features: &[PreparedFeature<P>]) -> Result<Vec<u32>, AllocError> {
    let Some(last) = features.last() else {
        return Ok(Vec::new(alloc));
    };
    let mut places = Vec::from_elem(alloc, 0, last.number as usize + 1)?;
    for (place, feature) in features.iter().enumerate() {
        if let Some(entry) = places.get_mut(feature.number as usize) {
            *entry = u32::try_from(place).unwrap_or(0);
        }
    }
    Ok(places)
}
