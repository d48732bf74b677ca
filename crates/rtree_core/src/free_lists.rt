//! The free lists that edits use, reserved before anything changes.

ghost use Rattle.std.specs.Prelude.{◌≡◌, ◌+◌, ◌<◌, ◌≤◌, vec_len, vec_capacity, OnOk};
ghost use Rattle.split_core.specs.Splits.{IsRoom};
ghost use Rattle.rtree_core.specs.FreeLists.{IsFree};

use crate::node::{Entry, Node};
use split_core::split::MOST;
use std::alloc::{AllocError, Global};

/// Empty lists with a capacity of nine, for the nodes that an edit creates.
#[derive(Drop)]
pub(crate) struct FreeLists {
    pub(crate) leaves: Vec<Vec<Entry>>,
    pub(crate) inners: Vec<Vec<Node>>,
}

impl FreeLists {
    ghost use Rattle.rtree_core.specs.FreeLists.{AreFree};

    pub(crate) fn new(alloc: Global) -> FreeLists
        ensures { AreFree result }
    {
        FreeLists {
            leaves: Vec::new(alloc),
            inners: Vec::new(alloc),
        }
    }
}

/// Adds empty lists until there are `count`.
pub(crate) fn fill<T>(lists: &mut Vec<Vec<T>>, count: usize) -> Result<(), AllocError>
    requires { IsFree lists.old.items }
    ensures free { IsFree lists.new.items }
    ensures enough { OnOk result (count ≤ vec_len lists.new) }
{
    while lists.len() < count {
        lists.reserve(1)?;
        let list = Vec::with_capacity(*lists.allocator(), MOST + 1)?;
        lists.push_reserved(list);
    }
    Ok(())
}

/// Takes one of the free lists, which are empty.
pub(crate) fn take_list<T>(free: &mut Vec<Vec<T>>) -> Vec<T>
    requires some { 0 < vec_len free.old }
    requires free { IsFree free.old.items }
    ensures list { IsRoom result }
    ensures free { IsFree free.new.items }
    ensures len { vec_len free.new + 1 ≡ vec_len free.old }
    ensures capacity { vec_capacity free.new ≡ vec_capacity free.old }
{
    match free.pop() {
        Some(list) => list,
        None => unreachable!(),
    }
}
