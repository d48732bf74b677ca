//! Plans and rows of tasks: whichever allocation fails, the same call with memory then has the same
//! result as without the failure.

use crate::descent_rows::are_diagonal;
use descent_core::{Plan, row};
use relation_core::{JoinRelation, Relation};
use rtree_core::RTree;
use std::alloc::{AllocError, Global};
use test_data::on_packed;

/// The plan of two trees, made again if an allocation fails.
fn plan_at_last<'a>(
    alloc: Global,
    left: &'a RTree,
    right: &'a RTree,
    cut: u8,
) -> Result<Plan<'a>, AllocError> {
    match Plan::new(alloc, left, right, cut) {
        Ok(plan) => Ok(plan),
        Err(AllocError) => Plan::new(alloc, left, right, cut),
    }
}

/// The row of a task, made again if an allocation fails, or `None` without such a task.
fn row_at_last(
    alloc: Global,
    plan: &Plan<'_>,
    k: u32,
    relation: Relation,
) -> Option<Vec<(u32, u32)>> {
    let relation = JoinRelation::new(relation).ok()?;
    if k >= plan.len() {
        return None;
    }
    match row(alloc, plan, k, &relation) {
        Ok(pairs) => Some(pairs),
        Err(AllocError) => row(alloc, plan, k, &relation).ok(),
    }
}

/// Whether a task's row has exactly the pairs of equal numbers between these ends.
fn has_row(alloc: Global, plan: &Plan<'_>, k: u32, relation: Relation, ends: (u32, u32)) -> bool {
    row_at_last(alloc, plan, k, relation).is_some_and(|pairs| are_diagonal(&pairs, ends))
}

/// Whether task 1 of three has its rows by equals and by touches.
fn has_rows(alloc: Global, left: &RTree, right: &RTree) -> bool {
    let Ok(plan) = plan_at_last(alloc, left, right, 1) else {
        return false;
    };
    plan.len() == 3
        && has_row(alloc, &plan, 1, Relation::Equals, (7, 14))
        && has_row(alloc, &plan, 1, Relation::Touches, (0, 0))
}

#[test]
fn refused_4(rt: HostRuntime) {
    let (alloc, twenty) = (rt.alloc(), (20, 1));
    let seen = on_packed(
        alloc,
        twenty,
        twenty,
        |left, right| has_rows(alloc, left, right),
    );
    assert!(rt; seen == Ok(true));
}

/// Whether the plans of two trees at several cuts have the expected numbers of tasks.
fn plans(alloc: Global, left: &RTree, right: &RTree) -> bool {
    for (cut, count) in [(0, 1), (1, 4), (2, 169), (8, 169)] {
        let Ok(plan) = plan_at_last(alloc, left, right, cut) else {
            return false;
        };
        if plan.len() != count {
            return false;
        }
    }
    true
}

#[test]
fn plan_growths(rt: HostRuntime) {
    let (alloc, hundred) = (rt.alloc(), (100, 0));
    let seen = on_packed(
        alloc,
        hundred,
        hundred,
        |left, right| plans(alloc, left, right),
    );
    assert!(rt; seen == Ok(true));
}

/// Whether these are the 10,000 pairs of two sets of a hundred numbers, by their count and ends.
fn are_ten_thousand(pairs: &[(u32, u32)]) -> bool {
    pairs.len() == 10_000 && pairs.first() == Some(&(0, 0)) && pairs.last() == Some(&(99, 99))
}

/// Whether the only task of two trees has all pairs.
fn has_all(alloc: Global, left: &RTree, right: &RTree) -> bool {
    let Ok(plan) = plan_at_last(alloc, left, right, 0) else {
        return false;
    };
    row_at_last(alloc, &plan, 0, Relation::Equals).is_some_and(|pairs| are_ten_thousand(&pairs))
}

#[test]
fn row_growths(rt: HostRuntime) {
    let (alloc, hundred) = (rt.alloc(), (100, 0));
    let seen = on_packed(
        alloc,
        hundred,
        hundred,
        |left, right| has_all(alloc, left, right),
    );
    assert!(rt; seen == Ok(true));
}
