//! Worked rows of plans and of their tasks.

use descent_core::{Plan, row};
use relation_core::{JoinRelation, Relation};
use rtree_core::RTree;
use std::alloc::Global;
use test_data::on_packed;

/// The result of `see` on two packed trees of points, false if they can't be made.
fn sees<F: FnOnce(&RTree, &RTree) -> bool>(
    alloc: Global,
    left: (u16, u16),
    right: (u16, u16),
    see: F,
) -> bool
    requires { F.IsAlwaysCallable see }
{
    on_packed(alloc, left, right, see) == Ok(true)
}

/// Whether the plan of two trees has the expected number of tasks at each of the cuts.
fn has_tasks(alloc: Global, left: &RTree, right: &RTree, tasks: &[(u8, u32)]) -> bool {
    for (cut, count) in tasks {
        let Ok(plan) = Plan::new(alloc, left, right, *cut) else {
            return false;
        };
        if plan.len() != *count || plan.is_empty() != (*count == 0) {
            return false;
        }
    }
    true
}

/// Whether pairs are (first, first) to (last, last).
pub(crate) fn are_diagonal(pairs: &[(u32, u32)], ends: (u32, u32)) -> bool {
    pairs.iter().map(|p| p.0).eq(ends.0..ends.1) && pairs.iter().map(|p| p.1).eq(ends.0..ends.1)
}

/// The row of a task, or `None` without such a task.
fn row_of(alloc: Global, plan: &Plan<'_>, k: u32, relation: Relation) -> Option<Vec<(u32, u32)>> {
    let relation = JoinRelation::new(relation).ok()?;
    if k >= plan.len() {
        return None;
    }
    row(alloc, plan, k, &relation).ok()
}

/// Whether the row of a task has the pairs (first, first) to (last, last).
fn has_row(alloc: Global, plan: &Plan<'_>, k: u32, relation: Relation, ends: (u32, u32)) -> bool {
    row_of(alloc, plan, k, relation).is_some_and(|pairs| are_diagonal(&pairs, ends))
}

/// Whether the plan of two packed trees of points has the expected number of tasks at each cut.
fn plans(alloc: Global, left: (u16, u16), right: (u16, u16), tasks: &[(u8, u32)]) -> bool {
    sees(
        alloc,
        left,
        right,
        |left, right| has_tasks(alloc, left, right, tasks),
    )
}

/// Whether task 1 of three has its rows by equals and by touches.
fn has_rows(alloc: Global, left: &RTree, right: &RTree) -> bool {
    let Ok(plan) = Plan::new(alloc, left, right, 1) else {
        return false;
    };
    has_row(alloc, &plan, 1, Relation::Equals, (7, 14))
        && has_row(alloc, &plan, 1, Relation::Touches, (0, 0))
}

#[test]
fn plan_and_scripts(rt: HostRuntime) {
    let (alloc, twenty) = (rt.alloc(), (20, 1));
    assert!(rt; plans(alloc, twenty, twenty, &[(0, 1), (1, 3), (8, 3)]));
    assert!(rt;
        sees(
            alloc,
            twenty,
            twenty,
            |left, right| has_rows(alloc, left, right)
        )
    );
}

/// Whether the only task of a plan is of two leaves.
fn is_of_leaves(plan: &Plan<'_>) -> bool {
    if plan.len() != 1 {
        return false;
    }
    let (page, leaf) = plan.task(0);
    page.is_leaf() && leaf.is_leaf()
}

/// Whether the plan of a tree and a leaf has one task, of two leaves, with its row.
fn has_leaf(alloc: Global, left: &RTree, right: &RTree) -> bool {
    let Ok(plan) = Plan::new(alloc, left, right, 1) else {
        return false;
    };
    is_of_leaves(&plan) && has_row(alloc, &plan, 0, Relation::Equals, (0, 5))
}

#[test]
fn plan_of_a_leaf(rt: HostRuntime) {
    let alloc = rt.alloc();
    assert!(rt;
        sees(
            alloc,
            (20, 1),
            (5, 1),
            |left, right| has_leaf(alloc, left, right)
        )
    );
}

#[test]
fn plan_extra_1(rt: HostRuntime) {
    let tasks = [(0, 1), (1, 25), (2, 1444), (3, 1444), (8, 1444)];
    assert!(rt; plans(rt.alloc(), (2400, 0), (2400, 0), &tasks));
}

#[test]
fn plan_extra_2(rt: HostRuntime) {
    let tasks = [(1, 15), (2, 114), (3, 900), (4, 900)];
    assert!(rt; plans(rt.alloc(), (2400, 0), (20, 0), &tasks));
}

#[test]
fn plan_extra_3(rt: HostRuntime) {
    assert!(rt; plans(rt.alloc(), (20, 1), (0, 1), &[(0, 0), (8, 0)]));
    assert!(rt; plans(rt.alloc(), (0, 1), (20, 1), &[(0, 0), (8, 0)]));
}

/// Whether the plans of two new trees have no tasks.
fn plans_nothing(alloc: Global) -> bool {
    has_tasks(
        alloc,
        &RTree::new(alloc),
        &RTree::new(alloc),
        &[(0, 0), (2, 0)],
    )
}

#[test]
fn empty_layers(rt: HostRuntime) {
    assert!(rt; plans_nothing(rt.alloc()));
}
