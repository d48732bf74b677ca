//! The line of the fault of a run.

use crate::join_running::{Files, at_once, join};
use pair_core::Options;
use relation_core::Relation;
use report_core::ToWrite;
use run_core::fault_line;
use std::random::RandomSource;
use std::sync::Wait;
use std::thread::Threads;

/// Whether a join by touches fails, writes nothing and has this fault line.
fn is_told<R: Threads + Wait + Sync + RandomSource + AllocGlobal>(
    rt: &R,
    files: &Files<'_>,
    line: &str,
) -> Option<bool> {
    let options = Options::new(4, 256, 2).ok()?;
    let ended = join(rt, files, Relation::Touches, &options)?;
    let fault = ended.outcome.err()?;
    let mut sink = ToWrite::new(Vec::new(rt.alloc()));
    fault_line(&fault, &mut sink).ok()?;
    let told: Vec<u8> = sink.into_inner();
    Some(ended.written.is_empty() && told.as_slice() == line.as_bytes())
}

/// Edits of which only the first is applied.
const UNKNOWN_ID: &str = "op,layer,id,wkt\ndelete,left,a,\ndelete,right,a,\ndelete,left,b,\n";

#[test]
fn double_id_on_the_left(rt: HostRuntime) {
    let files = Files {
        left: at_once("id,wkt\na,POINT (0 0)\nb,POINT (1 0)\na,POINT (2 0)\n"),
        right: at_once("id,wkt\nx\n"),
        edits: Some(at_once(UNKNOWN_ID)),
    };
    let line = "rjoin: left: row 3: id is already there\n";
    assert!(rt; is_told(&rt, &files, line) == Some(true));
}
