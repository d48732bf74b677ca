//! The law of owners.

ghost use Rattle.std.specs.Prelude.{◌≡◌, ℕ, ◌<◌, [], All, IsPermutation, flat_map};
ghost use Rattle.deliver_core.specs.Collectors.{RefusesNone};
ghost use Rattle.deliver_core.specs.Draws.{times};
ghost use Rattle.deliver_core.specs.Marks.{IsClosed};
ghost use Rattle.deliver_core.specs.Owners.{Owners, KeepsOwners, IsComplete, BeginsScript};
ghost use Rattle.deliver_core.specs.Owners.{IsScript, owned_tasks, owned_numbers, contents};
ghost use Rattle.deliver_core.specs.Owners.{collection};
ghost use Rattle.deliver_core.specs.Scripts.{of_task};

/// Law of owners, for any number of ports: if no task has two owners, and each port sends the
/// scripts of its own tasks in order, or a prefix of them, then the messages of each task arrive as
/// in its script, however the messages of the ports interleave, and a new collector refuses none of
/// them except for lack of memory.
///
/// If, moreover, each task has an owner and each port has sent all its messages, then the history
/// is closed, each task's messages are its script, and the pairs are those of the rows, with
/// multiplicity.
pub fn owners_law()
    // where no task has two owners and each port sends a prefix of the scripts of its own tasks and
    // at most one bye, interleaved in any way, each task's messages are a prefix of its script
    ensures begins { (o : Owners) → KeepsOwners o → All (BeginsScript o) (owned_tasks o) }
    // a task without an owner has none
    ensures unowned { (o : Owners) → KeepsOwners o
        → (task : ℕ) → times task (owned_numbers o) ≡ 0 → of_task task (contents o) ≡ [] }
    // a new collector refuses none but for memory; and where each task has an owner and all was
    // sent
    ensures accepted { (o : Owners) → KeepsOwners o → RefusesNone o.tasks (contents o) }

    // the history is closed
    ensures closed { (o : Owners) → KeepsOwners o → IsComplete o
        → IsClosed o.tasks (collection o).marks }
    // each task's messages are its script
    ensures scripts { (o : Owners) → KeepsOwners o → IsComplete o
        → All (IsScript o) (owned_tasks o) }
    // the accepted pairs are those of the rows, with multiplicity
    ensures pairs { (o : Owners) → KeepsOwners o → IsComplete o → 0 < o.size
        → IsPermutation (flat_map (λ task. task.1) (owned_tasks o)) (collection o).pairs }
{}
