//! Runs of joins over files in memory.

ghost use Rattle.std.specs.Prelude.{◌≡◌, false};
ghost use Rattle.report_core.specs.ToWrite.{failed_of};

use crate::example::{EDITS, LEFT, RIGHT};
use file_core::Unreadable;
use format_core::Layout;
use join_core::{JoinJob, join_text};
use pair_core::{Options, Product};
use relation_core::{JoinRelation, Relation};
use report_core::{Sink, ToWrite};
use row_core::FromRead;
use run_core::{JoinSources, JoinText, MarkedRows, RunFault, Unmarked};
use std::hash::RandomState;
use std::io;
use std::io::{ErrorKind, Read, Write};
use std::random::RandomSource;
use std::sync::Wait;
use std::thread::Threads;
use wkt_core::Scale;

/// A text, read with at most `step` bytes per read, whose reads fail after a number of them.
#[derive(Drop, Clone, Copy)]
pub struct Reading<'a> {
    text: &'a [u8],
    step: usize,
    reads: usize,
}

impl Reading<'_> {
    /// The text, read in steps of `step` bytes.
    pub fn by(self, step: usize) -> Self {
        Reading { step, ..self }
    }

    /// The text, whose reads fail after `reads` of them.
    pub fn failing_after(self, reads: usize) -> Self {
        Reading { reads, ..self }
    }
}

/// More than the number of bytes of any text.
const MANY: usize = 10_000_000;

/// A text that is read at once.
pub fn at_once(text: &str) -> Reading<'_> {
    Reading {
        text: text.as_bytes(),
        step: MANY,
        reads: MANY,
    }
}

impl Read for Reading<'_> {
    fn read(&mut self, bytes: &mut [u8]) -> io::Result<usize> {
        if self.reads == 0 {
            return Err(io::Error::from(ErrorKind::TimedOut));
        }
        self.reads -= 1;
        let count = self.step.min(self.text.len()).min(bytes.len());
        let (now, later) = self.text.split_at(count);
        bytes[..count].copy_from_slice(now);
        self.text = later;
        Ok(count)
    }
}

/// The files of a join.
#[derive(Clone, Copy)]
pub struct Files<'a> {
    pub left: Reading<'a>,
    pub right: Reading<'a>,
    pub edits: Option<Reading<'a>>,
}

/// The files of the example.
pub fn example() -> Files<'static> {
    Files {
        left: at_once(LEFT),
        right: at_once(RIGHT),
        edits: None,
    }
}

/// The files of the example, with its edits.
pub fn edited_example() -> Files<'static> {
    Files {
        edits: Some(at_once(EDITS)),
        ..example()
    }
}

/// A join of layers of boxes.
pub type BoxJob = JoinJob<Scale, Unmarked, JoinRelation>;

/// A join of layers with integer coordinates, or `None` if the relation may hold between disjoint
/// features.
pub fn make_job(relation: Relation, options: Options, product: Product) -> Option<BoxJob> {
    Some(JoinJob {
        format: Scale::new(0)?,
        marks: Unmarked,
        relation: JoinRelation::new(relation).ok()?,
        options,
        product,
    })
}

/// The result of a join into this sink, or `None` if there are no keys for hashing.
pub fn run<R: Threads + Wait + Sync + RandomSource + AllocGlobal, W: Write>(
    rt: &R,
    files: &Files<'_>,
    job: &BoxJob,
    sink: &mut ToWrite<W>,
) -> Option<Result<(), RunFault>>
    requires { failed_of sink.old ≡ false }
{
    let states = (RandomState::new(rt).ok()?, RandomState::new(rt).ok()?);
    let mut sources = JoinSources {
        left: FromRead::new(files.left),
        right: FromRead::new(files.right),
        edits: files.edits.map(|edits| FromRead::new(edits)),
        left_layout: Layout::plain(),
        right_layout: Layout::plain(),
    };
    let mut marked = MarkedRows::none(rt.alloc());
    let made = join_text(
        rt,
        job,
        Unreadable::Refuse,
        states,
        &mut sources,
        &mut marked,
    );
    Some(write(made, sink))
}

/// Writes the text that a run made, or returns why there is none.
pub fn write<S: Sink>(made: Result<JoinText, RunFault>, sink: &mut S) -> Result<(), RunFault>
    requires { S.has_failed sink.old ≡ false }
{
    made?.text.write(sink)?;
    Ok(())
}

/// The result of a run, and its output.
#[derive(Drop)]
pub struct Ended {
    pub outcome: Result<(), RunFault>,
    pub written: Vec<u8>,
}

impl Ended {
    pub fn new(outcome: Result<(), RunFault>, written: Vec<u8>) -> Ended {
        Ended { outcome, written }
    }

    /// Whether the result and the output are these.
    pub fn is(&self, outcome: Result<(), RunFault>, text: &str) -> bool {
        self.outcome == outcome && self.written.as_slice() == text.as_bytes()
    }
}

/// The capacity reserved for a report before a join, so that writing the report of the example
/// allocates no memory.
const ROOM: usize = 200;

/// Joins the files into a list of bytes, or returns `None` without memory for it.
pub fn join<R: Threads + Wait + Sync + RandomSource + AllocGlobal>(
    rt: &R,
    files: &Files<'_>,
    relation: Relation,
    options: &Options,
) -> Option<Ended> {
    let job = make_job(relation, *options, Product::Report)?;
    let mut sink = ToWrite::new(Vec::with_capacity(rt.alloc(), ROOM).ok()?);
    let outcome = run(rt, files, &job, &mut sink)?;
    Some(Ended::new(outcome, sink.into_inner()))
}

/// Whether a join by touches with four workers has this result and writes this text.
pub fn ends<R: Threads + Wait + Sync + RandomSource + AllocGlobal>(
    rt: &R,
    files: &Files<'_>,
    outcome: Result<(), RunFault>,
    text: &str,
) -> Option<bool> {
    let options = Options::new(4, 256, 2).ok()?;
    Some(join(rt, files, Relation::Touches, &options)?.is(outcome, text))
}
