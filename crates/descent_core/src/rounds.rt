//! The rounds that make a plan's tasks: each goes one level down.

ghost use Rattle.std.specs.Prelude.{◌≤◌, length, map, All, IfOk};
ghost use Rattle.std.specs.List.{flat_map};
ghost use Rattle.descent_core.specs.Lists.{pairs};
ghost use Rattle.descent_core.specs.Depths.{lower_pairs};
ghost use Rattle.descent_core.specs.Plans.{most_tasks, AreDeepest};
ghost use Rattle.descent_core.specs.Steps.{nodes, nodes_of, AreMeeting, IsNextRound, TakesIn};

use crate::lower::lower;
use rtree_core::Node;
use std::alloc::{AllocError, Global};

/// The greatest number of tasks of a plan.
pub const MAX_TASKS: usize = 65_536;

/// A left and a right node.
pub(crate) type Task<'a> = (&'a Node, &'a Node);

/// Goes down at most `rounds` levels, until a further one would make too many tasks.
pub(crate) fn go_down<'a>(
    alloc: Global,
    mut tasks: Vec<Task<'a>>,
    rounds: u8,
) -> Result<Vec<Task<'a>>, AllocError>
    requires few { length tasks.items ≤ most_tasks }
    requires meeting { All AreMeeting (nodes_of tasks.items) }
    ensures { let above = nodes_of tasks.entry.items in
        IfOk result (λ v. AreDeepest above rounds (nodes_of v.items)) }
{
    for _ in 0..rounds {
        let below = next_round(alloc, &tasks)?;
        match below {
            Some(next) => tasks = next,
            None => return Ok(tasks),
        }
    }
    Ok(tasks)
}

/// The tasks one level below these, or `None` if they are too many.
fn next_round<'a>(alloc: Global, tasks: &[Task<'a>]) -> Result<Option<Vec<Task<'a>>>, AllocError>
    requires { All AreMeeting (nodes_of tasks.now) }
    ensures { let offered = flat_map lower_pairs (nodes_of tasks.now) in
        IfOk result (IsNextRound offered) }
{
    let mut next = Vec::with_capacity(alloc, tasks.len())?;
    for task in tasks {
        let fits = push_below(task, &mut next)?;
        if !fits {
            return Ok(None);
        }
    }
    Ok(Some(next))
}

/// Adds the tasks one level below this one. Returns whether there was room for them.
fn push_below<'a>(task: &Task<'a>, next: &mut Vec<Task<'a>>) -> Result<bool, AllocError>
    requires meeting { AreMeeting (nodes task.now) }
    requires few { length next.old.items ≤ most_tasks }
    ensures { let offered = lower_pairs (nodes task.now) in
        IfOk result (TakesIn offered (nodes_of next.old.items) (nodes_of next.new.items)) }
{
    push_lower(lower(task.0), lower(task.1), next)
}

/// Adds the pairs of a left and a right node whose covers meet. Returns whether there was room.
fn push_lower<'a>(
    lefts: &'a [Node],
    rights: &'a [Node],
    next: &mut Vec<Task<'a>>,
) -> Result<bool, AllocError>
    requires { length next.old.items ≤ most_tasks }
    ensures { let offered = pairs lefts.now rights.now in
        IfOk result (TakesIn offered (nodes_of next.old.items) (nodes_of next.new.items)) }
{
    for left in lefts {
        let fits = push_beside(left, rights, next)?;
        if !fits {
            return Ok(false);
        }
    }
    Ok(true)
}

/// Adds the pairs of `left` and a right node whose covers meet. Returns whether there was room.
fn push_beside<'a>(
    left: &'a Node,
    rights: &'a [Node],
    next: &mut Vec<Task<'a>>,
) -> Result<bool, AllocError>
    requires { length next.old.items ≤ most_tasks }
    ensures { let offered = map (λ right. (left.now, right)) rights.now in
        IfOk result (TakesIn offered (nodes_of next.old.items) (nodes_of next.new.items)) }
{
    for right in rights {
        let meet = right.meets(&left.cover());
        if !meet {
            continue;
        }
        let full = next.len() == MAX_TASKS;
        if full {
            return Ok(false);
        }
        next.push((left, right))?;
    }
    Ok(true)
}
