//! The messages that workers send to the collector.

/// A message of one worker about one task.
#[derive(PartialEq, Eq, Drop)]
pub struct Message {
    /// The port of the worker that sends it.
    pub port: u32,
    /// The number of the task; in a `Bye` it is 0 and isn't read.
    pub task: u32,
    pub body: Body,
}

/// The content of a message.
#[derive(PartialEq, Eq, Drop)]
pub enum Body {
    /// The number of a batch of the task, from 0, and its pairs.
    Batch(u64, Vec<(u32, u32)>),
    /// The end of the task, with the number of its batches.
    End(u64),
    /// The end of the worker's messages: true, or false if it ran out of memory.
    Bye(bool),
}
