//! The laws of the board.

ghost use Rattle.std.specs.Prelude.{◌≡◌, ℕ, ◌+◌, ◌<◌, ◌≤◌, List, true, min, length, All, Any};
ghost use Rattle.std.specs.Prelude.{count_by, sum_by, flat_map};
ghost use Rattle.std.specs.List.Sorted.{IsStrictlyIncreasing};
ghost use Rattle.deliver_core.specs.Draws.{AreNumbersBelow, after_draws};

/// The laws of a board with any number of tasks and seats, after every list of draws, each given by
/// the index of its seat.
///
/// The lists of the seats together are the numbers of tasks below the word, each once, and each
/// list ascends. The word is the count of all these numbers and of the seats that are done. If any
/// seat is done, the word is greater than the number of tasks; and it never exceeds the sum of the
/// numbers of tasks and seats.
pub fn draws_law()
    // of every list of draws, what `Board` promises
    ensures numbers { (tasks seats : ℕ) (events : List ℕ)
        → let b = after_draws tasks seats events in
        AreNumbersBelow (min b.word tasks) (flat_map (λ s. s.drawn) b.seats) }
    ensures rising { (tasks seats : ℕ) (events : List ℕ)
        → All (λ s. IsStrictlyIncreasing s.drawn) (after_draws tasks seats events).seats }
    ensures word { (tasks seats : ℕ) (events : List ℕ)
        → let b = after_draws tasks seats events in
        b.word ≡ sum_by (λ s. length s.drawn) b.seats + count_by (λ s. s.done) b.seats }
    ensures passed { (tasks seats : ℕ) (events : List ℕ)
        → let b = after_draws tasks seats events in
        Any (λ s. s.done ≡ true) b.seats → tasks < b.word }
    ensures word_bound { (tasks seats : ℕ) (events : List ℕ)
        → (after_draws tasks seats events).word ≤ tasks + seats }
{}
