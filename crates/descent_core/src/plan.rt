//! The plan of a join: the pairs of nodes that are its tasks.

use crate::rounds::{MAX_TASKS, Task, go_down};
use rtree_core::{Node, RTree};
use std::alloc::{AllocError, Global};
use std::marker::Model;

/// The tasks of a join of two trees, which are pairs of a left and a right node.
///
/// Each two entries that meet, one of each tree, lie below exactly one of the pairs. So tasks are
/// independent and can be processed in any order.
#[derive(Drop)]
pub struct Plan<'a> {
    tasks: Vec<Task<'a>>,
}

impl<'a> Model for Plan<'a> {
    ghost use Rattle.std.specs.Prelude.{List};
    ghost use Rattle.std.specs.Coded.{coded_list, coded×};
    ghost use Rattle.rtree_core.specs.declared.node.Node.{Node};
    ghost use Rattle.rtree_core.specs.contracts.node.Node as node;

    ghost Value = { List (Node × Node) };

    ghost coded = { coded_list (coded× node.the_row.coded node.the_row.coded) };

    ghost use Rattle.descent_core.specs.Steps.{nodes_of, AreTasks};

    ghost view = { λ p. nodes_of p.tasks.items };

    ghost invariant = { λ p. AreTasks (nodes_of p.tasks.items) };
}

impl<'a> Plan<'a> {
    ghost use Rattle.std.specs.Prelude.{◌≡◌, ◌<◌, ◌≤◌, ◌↔◌, [], Some, length, slice_get, IsTrue};
    ghost use Rattle.std.specs.Prelude.{IfOk};
    ghost use Rattle.relation_core.specs.declared.relation.Relation.{Relation};
    ghost use Rattle.relation_core.specs.Relations.{ForbidsDisjoint};
    ghost use Rattle.rtree_core.specs.Trees.{entries_in};
    ghost use Rattle.descent_core.specs.Plans.{most_tasks, IsPlan, IsTask};
    ghost use Rattle.descent_core.specs.Shares.{ShareOut, RowsJoin};

    /// The pairs of nodes at the greatest depth, up to `cut`, at which there are no more than
    /// [`MAX_TASKS`] pairs, nor at any lesser depth.
    ///
    /// At depth 0 are the roots. A leaf stays in the pairs of greater depths. Only pairs whose
    /// covers meet are tasks. They are ordered by the positions on the two paths from the roots,
    /// taken alternately, left first.
    #[tactic(auto, using(crate::proofs::TaskLemmas::length_nodes))]
    pub fn new(
        alloc: Global,
        left: &'a RTree,
        right: &'a RTree,
        cut: u8,
    ) -> Result<Plan<'a>, AllocError>
        // the pairs of nodes whose bounding boxes meet, at the greatest depth up to the cut such
        // that no depth up to it has more than 65,536, in the order of their paths
        ensures plan { IfOk result (IsPlan left.now right.now cut) }
        // each left and right entry that meet are below exactly one of them
        ensures share { let es = entries_in left.now in let fs = entries_in right.now in
            IfOk result (ShareOut es fs) }
        // for every cut, the rows of all tasks together are the pairs of the two trees in the
        // relation, each once
        ensures join { let es = entries_in left.now in let fs = entries_in right.now in
            IfOk result (λ plan. (relation : Relation) → ForbidsDisjoint relation
            → RowsJoin relation es fs plan) }
    {
        let top = meeting_roots(alloc, left, right)?;
        let tasks = go_down(alloc, top, cut)?;
        Ok(Plan { tasks })
    }

    /// The number of tasks.
    pub fn len(&self) -> u32
        // the number of tasks
        ensures len { result ≡ length self.now }
        // at most 65,536
        ensures few { result ≤ most_tasks }
    {
        self.tasks.len() as u32
    }

    /// Whether there is no task.
    pub fn is_empty(&self) -> bool
        ensures { IsTrue result ↔ (self.now ≡ []) }
    {
        self.tasks.is_empty()
    }

    /// The task with this number, a left and a right node. `k` is less than [`Plan::len`].
    pub fn task(&self, k: u32) -> (&Node, &Node)
        requires { k < length self.now }
        // the task of this number
        ensures task { slice_get self.now k ≡ Some (result.0.now, result.1.now) }
        // both its nodes are lawful
        ensures lawful { IsTask (result.0.now, result.1.now) }
    {
        self.tasks[k as usize]
    }
}

ghost use Rattle.std.specs.Prelude.{IfOk};
ghost use Rattle.descent_core.specs.Steps.{nodes_of, AreTop};

/// The pair of the two roots, if both trees have one and their covers meet.
fn meeting_roots<'a>(
    alloc: Global,
    left: &'a RTree,
    right: &'a RTree,
) -> Result<Vec<Task<'a>>, AllocError>
    ensures { IfOk result (λ top. AreTop left.now right.now (nodes_of top.items)) }
{
    let mut top = Vec::new(alloc);
    let (left_root, right_root) = (left.root(), right.root());
    let Some(left_root) = left_root else {
        return Ok(top);
    };
    let Some(right_root) = right_root else {
        return Ok(top);
    };
    let meet = right_root.meets(&left_root.cover());
    if !meet {
        return Ok(top);
    }
    top.push((left_root, right_root))?;
    Ok(top)
}
