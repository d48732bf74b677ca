//! Joins by distance and searches for the nearest features over files in memory.

ghost use Rattle.run_core.specs.SourceStates.{AreFresh};

use crate::join_running::{Ended, write};
use file_core::Unreadable;
use format_core::{AnyFormat, Layout};
use near_core::Nearness;
use near_run_core::{NearForm, NearJob, NearestJob, near_text, nearest_text};
use nearest_core::{Distance, Query};
use pair_core::Options;
use plane_core::Rings;
use report_core::ToWrite;
use row_core::{FromRead, Source};
use run_core::{ImproperRings, JoinSources, JoinText, MarkedRows, RunFault, Unmarked};
use std::alloc::Global;
use std::hash::RandomState;
use std::random::RandomSource;
use std::sync::Wait;
use std::thread::Threads;
use wkt_core::Scale;

/// The texts of the files of a join.
#[derive(Clone, Copy)]
pub(crate) struct Files<'a> {
    pub(crate) left: &'a str,
    pub(crate) right: &'a str,
    pub(crate) edits: Option<&'a str>,
}

/// The join within so many units at scale 0, or `None` if there is no such distance.
fn near_job(units: u64, workers: u32) -> Option<NearJob> {
    Some(NearJob {
        scale: Scale::new(0)?,
        distance: Distance::new(units)?,
        nearness: Nearness::Within,
        options: Options::new(workers, 1, 8).ok()?,
    })
}

/// The search for so many features at any distance at scale 0, or `None` if none is sought.
fn nearest_job(most: u32, workers: u32) -> Option<NearestJob> {
    Some(NearestJob {
        scale: Scale::new(0)?,
        query: Query::new(most, None)?,
        options: Options::new(workers, 1, 8).ok()?,
    })
}

/// The capacity reserved for a report, so that writing it allocates no memory.
const ROOM: usize = 200;

/// The files, opened.
type Opened<'a> = JoinSources<'a, FromRead<&'a [u8]>, FromRead<&'a [u8]>, FromRead<&'a [u8]>>;

/// Opens these files.
fn opened<'a>(files: Files<'a>) -> Opened<'a>
    ensures fresh { let has_failed = ⟦<FromRead<&'a [u8]> as Source>⟧.has_failed in
        AreFresh has_failed has_failed has_failed result }
{
    JoinSources {
        left: FromRead::new(files.left.as_bytes()),
        right: FromRead::new(files.right.as_bytes()),
        edits: files.edits.map(|edits| FromRead::new(edits.as_bytes())),
        left_layout: Layout::plain(),
        right_layout: Layout::plain(),
    }
}

/// The result of a run that makes this text, and its output, or `None` if there is no memory for
/// the report.
fn ended(alloc: Global, made: Result<JoinText, RunFault>) -> Option<Ended> {
    let mut sink = ToWrite::new(Vec::with_capacity(alloc, ROOM).ok()?);
    let outcome = write(made, &mut sink);
    Some(Ended::new(outcome, sink.into_inner()))
}

/// The run of a join of these files within so many units by `workers` workers, or `None` if there
/// are no keys for hashing, no such job or no memory for the report.
pub(crate) fn join<R: RandomSource + AllocGlobal + Threads + Wait + Sync>(
    rt: &R,
    files: Files<'_>,
    units: u64,
    workers: u32,
) -> Option<Ended> {
    let job = near_job(units, workers)?;
    let states = (RandomState::new(rt).ok()?, RandomState::new(rt).ok()?);
    let mut sources = opened(files);
    let mut marked = MarkedRows::none(rt.alloc());
    let refuse = Unreadable::Refuse;
    let form = NearForm {
        format: job.scale,
        marks: Unmarked,
    };
    let made = near_text(rt, &job, form, refuse, states, &mut sources, &mut marked);
    ended(rt.alloc(), made)
}

/// The same of layers of any geometry.
pub(crate) fn join_any<R: RandomSource + AllocGlobal + Threads + Wait + Sync>(
    rt: &R,
    files: Files<'_>,
    units: u64,
    workers: u32,
) -> Option<Ended> {
    let job = near_job(units, workers)?;
    let rings = Rings::Proper;
    let form = NearForm {
        format: AnyFormat {
            scale: job.scale,
            rings,
        },
        marks: ImproperRings { rings },
    };
    let states = (RandomState::new(rt).ok()?, RandomState::new(rt).ok()?);
    let mut sources = opened(files);
    let mut improper = MarkedRows::none(rt.alloc());
    let refuse = Unreadable::Refuse;
    let made = near_text(rt, &job, form, refuse, states, &mut sources, &mut improper);
    ended(rt.alloc(), made)
}

/// The same of a search for so many features.
pub(crate) fn search<R: RandomSource + AllocGlobal + Threads + Wait + Sync>(
    rt: &R,
    files: Files<'_>,
    most: u32,
    workers: u32,
) -> Option<Ended> {
    let job = nearest_job(most, workers)?;
    let states = (RandomState::new(rt).ok()?, RandomState::new(rt).ok()?);
    let mut sources = opened(files);
    let mut marked = MarkedRows::none(rt.alloc());
    let refuse = Unreadable::Refuse;
    let form = NearForm {
        format: job.scale,
        marks: Unmarked,
    };
    let made = nearest_text(rt, &job, form, refuse, states, &mut sources, &mut marked);
    ended(rt.alloc(), made)
}

/// The same of a search in layers of any geometry.
pub(crate) fn search_any<R: RandomSource + AllocGlobal + Threads + Wait + Sync>(
    rt: &R,
    files: Files<'_>,
    most: u32,
    workers: u32,
) -> Option<Ended> {
    let job = nearest_job(most, workers)?;
    let rings = Rings::Proper;
    let form = NearForm {
        format: AnyFormat {
            scale: job.scale,
            rings,
        },
        marks: ImproperRings { rings },
    };
    let states = (RandomState::new(rt).ok()?, RandomState::new(rt).ok()?);
    let mut sources = opened(files);
    let mut improper = MarkedRows::none(rt.alloc());
    let refuse = Unreadable::Refuse;
    let made = nearest_text(rt, &job, form, refuse, states, &mut sources, &mut improper);
    ended(rt.alloc(), made)
}
