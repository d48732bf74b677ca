//! The rows of tasks, as a worker gets them.

ghost use Rattle.std.specs.Prelude.{◌≡◌, ◌<◌, ◌≤◌, List, length, IfOk};
ghost use Rattle.relation_core.specs.JoinRelations.{relation_of};
ghost use Rattle.rtree_core.specs.declared.node.Node.{Node};
ghost use Rattle.descent_core.specs.Plans.{most_tasks};
ghost use Rattle.parallel_core.specs.Workers.{IsRowIn};

use descent_core::{Plan, row};
use relation_core::JoinRelation;
use std::alloc::{AllocError, Global};

/// Provides the rows of numbered tasks. Threads share it in place of the plan, which has a lifetime
/// parameter.
pub trait Rows {
    /// The tasks, in the order of their numbers.
    ghost tasks: { Self → List (Node × Node) };

    /// The number of tasks.
    fn len(&self) -> u32
        // of each plan that workers take, the number of tasks
        ensures len { result ≡ length (tasks self.now) }
        // at most 65,536
        ensures few { result ≤ most_tasks };

    /// The row of the task with this number.
    fn row_of(
        &self,
        alloc: Global,
        task: u32,
        relation: &JoinRelation,
    ) -> Result<Vec<(u32, u32)>, AllocError>
        requires { task < length (tasks self.now) }
        ensures { let relation = relation_of relation.now in
            IfOk result (λ v. IsRowIn relation (tasks self.now) (task, v.items)) };
}

impl<'a> Rows for Plan<'a> {
    ghost tasks = { λ plan. plan };

    fn len(&self) -> u32 {
        self.len()
    }

    fn row_of(
        &self,
        alloc: Global,
        task: u32,
        relation: &JoinRelation,
    ) -> Result<Vec<(u32, u32)>, AllocError> {
        row(alloc, self, task, relation)
    }
}
