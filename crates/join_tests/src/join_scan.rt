//! Joins of mixed, clustered and coincident features, packed and edited, compared with a nested
//! loop.

use crate::join_layers::{edited, seen};
use filter_core::join;
use layer_core::{FeatureRef, Layer};
use pair_core::Options;
use parallel_core::OpenGate;
use relation_core::{JoinRelation, Relation};
use std::alloc::{AllocError, Global};
use std::random::RandomSource;
use std::sync::Wait;
use std::test::Fail;
use std::thread::Threads;
use test_data::Random;

/// Appends the pairs of one left feature.
fn push_pairs(
    pairs: &mut Vec<(u32, u32)>,
    left: &FeatureRef<'_>,
    right: &Layer,
    relation: &JoinRelation,
) -> Result<(), AllocError> {
    for feature in right.iter() {
        if relation.holds(left.shape, feature.shape) {
            pairs.push((left.number, feature.number))?;
        }
    }
    Ok(())
}

/// The pairs found by comparing each left feature with each right one.
fn nested_loop(
    alloc: Global,
    left: &Layer,
    right: &Layer,
    relation: &JoinRelation,
) -> Result<Vec<(u32, u32)>, AllocError> {
    let mut pairs = Vec::new(alloc);
    for feature in left.iter() {
        push_pairs(&mut pairs, &feature, right, relation)?;
    }
    Ok(pairs)
}

/// The options of joins: workers, batch and cut.
const WAYS: &[(u32, u32, u32)] = &[
    (1, 256, 0),
    (2, 1, 1),
    (3, 7, 2),
    (8, 256, 3),
    (16, 4096, 8),
];

/// Two layers, and the relation by which they are joined.
#[derive(Clone, Copy)]
struct Joined<'a> {
    left: &'a Layer,
    right: &'a Layer,
    relation: &'a JoinRelation,
}

/// Whether a join with these options has the expected pairs.
fn has_pairs<R: Threads + Wait + Sync + AllocGlobal>(
    rt: &R,
    joined: &Joined<'_>,
    options: &Options,
    wanted: &[(u32, u32)],
) -> Result<bool, Fail> {
    let Joined {
        left,
        right,
        relation,
    } = *joined;
    let outcome = join(rt, left, right, relation, options, &OpenGate);
    Ok(outcome.map(|outcome| outcome.pairs() == wanted)?)
}

/// Checks that a join with any of these options has the expected pairs.
fn see_ways<R: Threads + Wait + Sync + AllocGlobal>(
    rt: &R,
    joined: &Joined<'_>,
    wanted: &[(u32, u32)],
) -> Result<(), Fail> {
    for &(workers, batch, cut) in WAYS {
        if !has_pairs(rt, joined, &Options::new(workers, batch, cut)?, wanted)? {
            return Err(Fail::new("a join differs from the nested loop"));
        }
    }
    Ok(())
}

/// Checks that a join has the pairs of the nested loop.
fn see_join<R: Threads + Wait + Sync + AllocGlobal>(
    rt: &R,
    joined: &Joined<'_>,
) -> Result<(), Fail> {
    let wanted = nested_loop(rt.alloc(), joined.left, joined.right, joined.relation)?;
    see_ways(rt, joined, wanted.as_slice())
}

/// Checks the same for two layers in either order.
fn see_both_orders<'a, R: Threads + Wait + Sync + AllocGlobal>(
    rt: &R,
    layers: &'a (Layer, Layer),
    relation: &'a JoinRelation,
) -> Result<(), Fail> {
    let (one, two) = layers;
    let joined = Joined {
        left: one,
        right: two,
        relation,
    };
    see_join(rt, &joined)?;
    let turned = Joined {
        left: two,
        right: one,
        relation,
    };
    see_join(rt, &turned)
}

/// A layer that is mostly packed, and one that is mostly edits. Both trees have at least four
/// levels.
fn layers<R: Threads + Sync + RandomSource + AllocGlobal>(rt: &R) -> Result<(Layer, Layer), Fail> {
    let mut random = Random::new(1);
    let packed = edited(rt, &mut random, 700, 140)?;
    edited(rt, &mut random, 500, 500).map(|other| (packed, other))
}

/// Checks that a join of these layers by a relation has the pairs of the nested loop.
fn see_relation<R: Threads + Wait + Sync + RandomSource + AllocGlobal>(
    rt: &R,
    name: &[u8],
) -> Result<(), Fail> {
    let relation = JoinRelation::new(Relation::read(name)?)?;
    seen(layers(rt)?, |layers| see_both_orders(rt, layers, &relation))
}

#[test]
fn join_scan_intersects(rt: HostRuntime) -> Result<(), Fail> {
    see_relation(&rt, b"intersects")
}

#[test]
fn join_scan_touches(rt: HostRuntime) -> Result<(), Fail> {
    see_relation(&rt, b"touches")
}

#[test]
fn join_scan_crosses(rt: HostRuntime) -> Result<(), Fail> {
    see_relation(&rt, b"crosses")
}

#[test]
fn join_scan_within(rt: HostRuntime) -> Result<(), Fail> {
    see_relation(&rt, b"within")
}

#[test]
fn join_scan_contains(rt: HostRuntime) -> Result<(), Fail> {
    see_relation(&rt, b"contains")
}

#[test]
fn join_scan_overlaps(rt: HostRuntime) -> Result<(), Fail> {
    see_relation(&rt, b"overlaps")
}

#[test]
fn join_scan_equals(rt: HostRuntime) -> Result<(), Fail> {
    see_relation(&rt, b"equals")
}

#[test]
fn join_scan_covers(rt: HostRuntime) -> Result<(), Fail> {
    see_relation(&rt, b"covers")
}

#[test]
fn join_scan_covered_by(rt: HostRuntime) -> Result<(), Fail> {
    see_relation(&rt, b"covered_by")
}

#[test]
fn join_scan_contains_properly(rt: HostRuntime) -> Result<(), Fail> {
    see_relation(&rt, b"contains_properly")
}

#[test]
fn join_scan_mask_of_boundaries(rt: HostRuntime) -> Result<(), Fail> {
    see_relation(&rt, b"****T****")
}

#[test]
fn join_scan_mask_of_points(rt: HostRuntime) -> Result<(), Fail> {
    see_relation(&rt, b"0********")
}
