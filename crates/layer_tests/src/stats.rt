//! Counts of features, and the height of the tree.

use crate::edited::Edited;
use crate::layers::{point, seen, state};
use crate::read_layers::{layer_of, reader, whole};
use layer_core::{FeatureList, Stats};
use std::alloc::AllocGlobal;
use std::hash::RandomState;
use std::random::RandomSource;
use std::test::Fail;
use std::thread::Threads;

const NOTHING: Stats = Stats {
    features: 0,
    points: 0,
    segments: 0,
    rectangles: 0,
    height: 0,
};

const TWO: &[u8] = b"id,wkt\na,\"POLYGON ((0 0, 4 0, 4 4, 0 4, 0 0))\"\nb,POINT (4 4)\n";

const STATS_OF_TWO: Stats = Stats {
    features: 2,
    points: 1,
    segments: 0,
    rectangles: 1,
    height: 1,
};

fn stats_of<R: Threads + Sync + RandomSource + AllocGlobal>(
    rt: &R,
    bytes: &[u8],
) -> Result<Stats, Fail> {
    Ok(seen(layer_of(rt, bytes)?, |layer| layer.stats()))
}

/// The features of a file of these bytes.
fn features_of<R: Threads + Sync + RandomSource + AllocGlobal>(
    rt: &R,
    bytes: &[u8],
) -> Result<FeatureList, Fail> {
    let state = RandomState::new(rt)?;
    Ok(reader(rt, whole()?, 2).features_of_bytes(state, bytes)?)
}

/// The counts of features without a tree, if the first of them is the point a at (4 4).
fn stats_from_a(features: &mut FeatureList) -> Result<Option<Stats>, Fail> {
    let first = features.iter().next().ok_or("a first feature")?;
    let is_a = first.id == "a" && *first.shape == point(4, 4)?;
    Ok(is_a.then_some(features.stats()))
}

/// The counts of a layer of two features after both are removed.
fn stats_emptied(edited: &mut Edited) -> Result<Stats, Fail> {
    edited.remove("a")?;
    edited.remove("b")?;
    Ok(edited.layer.stats())
}

fn stats_of_emptied<R: Threads + Sync + RandomSource + AllocGlobal>(rt: &R) -> Result<Stats, Fail> {
    seen(Edited::of(rt, layer_of(rt, TWO)?)?, stats_emptied)
}

#[test]
fn stats_extra(rt: HostRuntime) -> Result<(), Fail> {
    assert!(rt; stats_of(&rt, TWO)? == STATS_OF_TWO);
    assert!(rt; stats_of_emptied(&rt)? == NOTHING);
    assert!(rt; stats_of(&rt, b"id,wkt\n")? == NOTHING);
    Ok(())
}

/// Nine points; eight would fill a leaf.
const NINE: &[u8] = b"id,wkt
a,POINT (4 4)
b,POINT (0 1)
c,POINT (0 2)
d,POINT (0 3)
e,POINT (0 4)
f,POINT (0 5)
g,POINT (0 6)
h,POINT (0 7)
i,POINT (0 8)
";

const STATS_OF_NINE: Stats = Stats {
    features: 9,
    points: 9,
    segments: 0,
    rectangles: 0,
    height: 2,
};

#[test]
fn stats_without_tree(rt: HostRuntime) -> Result<(), Fail> {
    let counted = seen(features_of(&rt, NINE)?, stats_from_a)?;
    assert!(rt; counted == Some(STATS_OF_NINE));
    assert!(rt; stats_of(&rt, NINE)? == STATS_OF_NINE);
    Ok(())
}
