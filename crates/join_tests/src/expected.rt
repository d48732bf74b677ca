//! Expected messages, as data.

use deliver_core::{Body, Message};

/// The expected content of a message.
#[derive(Clone, Copy)]
pub(crate) enum Expected {
    /// A batch of a task with its number, and the pairs (n, n) of these numbers.
    Batch(u32, u64, &'static [u32]),
    /// The end of a task, with the number of its batches.
    End(u32, u64),
}

/// Whether a message of port 0 has this content.
pub(crate) fn says(message: &Message, expected: Expected) -> bool {
    let task = match expected {
        Expected::Batch(task, _, _) | Expected::End(task, _) => task,
    };
    message.port == 0 && message.task == task && has_body(&message.body, expected)
}

fn has_body(body: &Body, expected: Expected) -> bool {
    match (body, expected) {
        (Body::Batch(number, pairs), Expected::Batch(_, wanted, numbers)) => {
            *number == wanted && are_equal_pairs(pairs, numbers)
        }
        (Body::End(count), Expected::End(_, wanted)) => *count == wanted,
        _ => false,
    }
}

/// Whether these are the pairs (n, n) of the numbers.
fn are_equal_pairs(pairs: &[(u32, u32)], numbers: &[u32]) -> bool {
    pairs.iter().map(|p| p.0).eq(numbers.iter().copied())
        && pairs.iter().map(|p| p.1).eq(numbers.iter().copied())
}
