//! Scripts: the messages that a worker sends of one task.

ghost use Rattle.std.specs.Prelude.{◌≡◌, ℕ, ◌+◌, ◌<◌, ◌≤◌, length};
ghost use Rattle.std.specs.List.{flat_map};
ghost use Rattle.deliver_core.specs.Marks.{script_marks};
ghost use Rattle.deliver_core.specs.Scripts.{script, batches_for, piece_of, marks_in, pairs_in};

/// Law of scripts: the batches of a task's script contain, in order, the pairs of its row, `size`
/// each except the last, which has at least one, and its marks are those of such a script.
pub fn script_law(task: u32, size: u32, row: &[(u32, u32)])
    requires { 0 < size }
    // a task's messages have its row's pairs
    ensures pairs { flat_map pairs_in (script task size row.now) ≡ row.now }
    // leave the marks of a script
    ensures marks { flat_map marks_in (script task size row.now)
        ≡ script_marks task (batches_for size row.now) }
    // all batches but the last are full
    ensures full { (number : ℕ) → number + 1 < batches_for size row.now
        → length (piece_of size row.now number) ≡ size }
    ensures last { (number : ℕ) → number + 1 ≡ batches_for size row.now
        → (0 < length (piece_of size row.now number))
        × (length (piece_of size row.now number) ≤ size) }
{}
