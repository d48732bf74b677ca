//! The pairs of a task, found by traversing its two subtrees together.

ghost use Rattle.std.specs.Prelude.{◌<◌, [], ◌∷◌, length, All, IfOk, OnOk, IsSomeAnd, slice_get};
ghost use Rattle.std.specs.Prelude.{IsPermutation, IsSorted};
ghost use Rattle.pair_core.specs.Pairs.{pair_cmp};
ghost use Rattle.relation_core.specs.JoinRelations.{relation_of};
ghost use Rattle.std.specs.List.{flat_map};
ghost use Rattle.rtree_core.specs.Nodes.{entries_of, IsLawful, IsLeaf};
ghost use Rattle.descent_core.specs.Rows.{IsRow};
ghost use Rattle.descent_core.specs.Finds.{Adds};

use crate::lower::lower;
use crate::plan::Plan;
use pair_core::sort_pairs;
use relation_core::JoinRelation;
use rtree_core::{Entry, Node};
use std::alloc::{AllocError, Global};

/// The pairs of numbers of the entries of a task's two subtrees that stand in the relation, in
/// ascending order.
///
/// The two subtrees are traversed together, and children whose covers don't meet are skipped
/// (Brinkhoff, Kriegel and Seeger 1993).
pub fn row(
    alloc: Global,
    plan: &Plan<'_>,
    k: u32,
    relation: &JoinRelation,
) -> Result<Vec<(u32, u32)>, AllocError>
    requires { k < length plan.now }
    ensures { let task = slice_get plan.now k in
        IfOk result (λ v. IsSomeAnd task (λ t. IsRow (relation_of relation.now) t v.items)) }
{
    let (left, right) = plan.task(k);
    let mut found = Vec::new(alloc);
    descend(left, right, relation, &mut found)?;
    let pairs = sorted(found);
    Ok(pairs)
}

/// These pairs in ascending order.
#[tactic(auto, using(pair_core::proofs::SortLemmas::written_sorted))]
fn sorted(mut pairs: Vec<(u32, u32)>) -> Vec<(u32, u32)>
    ensures as_often { IsPermutation pairs.items result.items }
    ensures ascending { IsSorted pair_cmp result.items }
{
    sort_pairs(pairs.as_mut_slice());
    pairs
}

/// Adds the pairs of two subtrees: those of their entries if both are leaves, else those of the
/// nodes below.
#[cycle(descent)]
fn descend(
    left: &Node,
    right: &Node,
    relation: &JoinRelation,
    found: &mut Vec<(u32, u32)>,
) -> Result<(), AllocError>
    requires left { IsLawful left.now }
    requires right { IsLawful right.now }
    ensures { let es = entries_of left.now in let fs = entries_of right.now in
        OnOk result (Adds (relation_of relation.now) es fs found.old.items found.new.items) }
{
    let (left_leaf, right_leaf) = (left.is_leaf(), right.is_leaf());
    if left_leaf && right_leaf {
        return push_entries(left.entries(), right, relation, found);
    }
    let (lefts, rights) = (lower(left), lower(right));
    for child in lefts {
        let meet = right.meets(&child.cover());
        if !meet {
            continue;
        }
        descend_beside(child, rights, relation, found)?;
    }
    Ok(())
}

/// Adds the pairs of one subtree with each of these subtrees.
#[cycle(descent)]
fn descend_beside(
    left: &Node,
    rights: &[Node],
    relation: &JoinRelation,
    found: &mut Vec<(u32, u32)>,
) -> Result<(), AllocError>
    requires left { IsLawful left.now }
    requires rights { All IsLawful rights.now }
    ensures { let es = entries_of left.now in let fs = flat_map entries_of rights.now in
        OnOk result (Adds (relation_of relation.now) es fs found.old.items found.new.items) }
{
    for right in rights {
        let meet = right.meets(&left.cover());
        if !meet {
            continue;
        }
        descend(left, right, relation, found)?;
    }
    Ok(())
}

/// Adds the pairs of these entries with the entries of a leaf.
fn push_entries(
    lefts: &[Entry],
    right: &Node,
    relation: &JoinRelation,
    found: &mut Vec<(u32, u32)>,
) -> Result<(), AllocError>
    requires lawful { IsLawful right.now }
    requires leaf { IsLeaf right.now }
    ensures { let fs = entries_of right.now in
        OnOk result (Adds (relation_of relation.now) lefts.now fs found.old.items found.new.items) }
{
    for left in lefts {
        let meet = right.meets(&left.shape);
        if !meet {
            continue;
        }
        let rights = right.entries();
        push_beside(left, rights, relation, found)?;
    }
    Ok(())
}

/// Adds the pairs of one entry with each of these entries.
fn push_beside(
    left: &Entry,
    rights: &[Entry],
    relation: &JoinRelation,
    found: &mut Vec<(u32, u32)>,
) -> Result<(), AllocError>
    ensures { let es = left.now ∷ [] in let fs = rights.now in
        OnOk result (Adds (relation_of relation.now) es fs found.old.items found.new.items) }
{
    for right in rights {
        let holds = relation.holds(&left.shape, &right.shape);
        if !holds {
            continue;
        }
        found.push((left.number, right.number))?;
    }
    Ok(())
}
