//! The lines of faults.

use deliver_core::Refusal;
use layer_core::LayerFault;
use parallel_core::JoinFault;
use report_core::{ToWrite, WriteFailed};
use row_core::{Beginning, FirstLine, ReadFault};
use run_core::{Input, RunFault, fault_line};
use std::alloc::Global;
use std::test::Fail;
use wkt_any_core::GeometryFault;
use wkt_core::WktFault;

/// The line of a fault.
fn line_of(alloc: Global, fault: &RunFault) -> Option<Vec<u8>> {
    let mut sink = ToWrite::new(Vec::new(alloc));
    fault_line(fault, &mut sink).ok()?;
    Some(sink.into_inner())
}

/// Whether the line of a fault has this text.
fn has_line(alloc: Global, fault: &RunFault, text: &str) -> Option<bool> {
    let written = line_of(alloc, fault)?;
    let line = format!(in alloc; "rjoin: {text}\n").ok()?;
    Some(written.as_slice() == line.as_bytes())
}

/// Whether a fault is displayed as this text.
fn shows(alloc: Global, fault: &RunFault, text: &str) -> Option<bool> {
    Some(format!(in alloc; "{fault}").ok()?.as_str() == text)
}

/// Whether the line of a fault has this text, and the fault is displayed as it.
fn says(alloc: Global, fault: &RunFault, text: &str) -> bool {
    has_line(alloc, fault, text) == Some(true) && shows(alloc, fault, text) == Some(true)
}

/// Whether each of these faults has its text.
fn all_say(alloc: Global, lines: &[(RunFault, &str)]) -> bool {
    for (fault, text) in lines {
        if !says(alloc, fault, text) {
            return false;
        }
    }
    true
}

const OF_FILES_AND_TEXTS: [(RunFault, &str); 10] = [
    (RunFault::NoFile(Input::Left), "left: cannot be opened"),
    (RunFault::NoFile(Input::Right), "right: cannot be opened"),
    (RunFault::NoFile(Input::Edits), "edits: cannot be opened"),
    (RunFault::NoFile(Input::Layer), "layer: cannot be opened"),
    (
        RunFault::Wkt(Input::Window, WktFault::Text),
        "window: not a geometry text",
    ),
    (
        RunFault::Wkt(Input::First, WktFault::Text),
        "first: not a geometry text",
    ),
    (
        RunFault::Wkt(Input::Second, WktFault::Number),
        "second: number not whole or out of range",
    ),
    (
        RunFault::Wkt(Input::First, WktFault::Form),
        "first: not a point, axis-parallel segment or rectangle",
    ),
    (
        RunFault::Geometry(Input::Second, GeometryFault::Number),
        "second: number not whole or out of range",
    ),
    (
        RunFault::Geometry(Input::First, GeometryFault::Form),
        "first: a line without length, or a ring that is not closed or is flat",
    ),
];

#[test]
fn files_and_texts(rt: HostRuntime) {
    assert!(rt; all_say(rt.alloc(), &OF_FILES_AND_TEXTS));
}

const OF_READING: [(RunFault, &str); 6] = [
    (
        RunFault::Read(Input::Left, ReadFault::Io),
        "left: read failed",
    ),
    (
        RunFault::Read(Input::Left, ReadFault::TooLong),
        "left: file is too long",
    ),
    (
        RunFault::Read(Input::Left, ReadFault::Row(7)),
        "left: row 7: wrong fields",
    ),
    (
        RunFault::Read(
            Input::Left,
            ReadFault::Wkt(4_000_000_000, WktFault::Text, false),
        ),
        "left: row 4000000000: not a geometry text",
    ),
    (
        RunFault::Read(Input::Left, ReadFault::Layer(1, LayerFault::DoubleId)),
        "left: row 1: id is already there",
    ),
    (
        RunFault::Read(Input::Left, ReadFault::Memory),
        "left: no memory",
    ),
];

#[test]
fn reading(rt: HostRuntime) {
    assert!(rt; all_say(rt.alloc(), &OF_READING));
}

/// Faults of headers, and the lines that follow them.
const HEADERS: [(Beginning, &str); 4] = [
    (
        Beginning::GeoPackage,
        "python3 -m rjoin and recipes/from-ogr read this GeoPackage",
    ),
    (
        Beginning::Shapefile,
        "python3 -m rjoin and recipes/from-ogr read this shapefile",
    ),
    (Beginning::Gzip, "gzip -d unpacks this file"),
    (
        Beginning::Json,
        "python3 -m rjoin and recipes/from-ogr read this GeoJSON",
    ),
];

/// Whether the line of a fault of the edits' header is followed by this one.
fn has_hint(alloc: Global, beginning: Beginning, hint: &str) -> Option<bool> {
    let fault = RunFault::Read(Input::Edits, ReadFault::Header(beginning));
    let lines = format!(in alloc; "edits: wrong header\n{hint}").ok()?;
    has_line(alloc, &fault, lines.as_str())
}

#[test]
fn headers(rt: HostRuntime) {
    for (beginning, hint) in HEADERS {
        assert!(rt; has_hint(rt.alloc(), beginning, hint) == Some(true));
    }
    let line = Beginning::Line(FirstLine::new(b"fid,name\t\nx".as_slice()));
    let hint = "the first line begins with 'fid,name?'";
    assert!(rt; has_hint(rt.alloc(), line, hint) == Some(true));
}

#[test]
fn rows_of_any_geometry(rt: HostRuntime) {
    let fault = ReadFault::Wkt(4_000_000_000, WktFault::Form, true);
    let lines = "layer: row 4000000000: not a point, axis-parallel segment or rectangle\n\
        --geometry any reads this row";
    let fault = RunFault::Read(Input::Layer, fault);
    assert!(rt; has_line(rt.alloc(), &fault, lines) == Some(true));
}

const OF_EDITS: [(RunFault, &str); 5] = [
    (
        RunFault::Edit(2, LayerFault::BadId),
        "edits: row 2: id must have 1 to 64 bytes of UTF-8",
    ),
    (
        RunFault::Edit(2, LayerFault::DoubleId),
        "edits: row 2: id is already there",
    ),
    (
        RunFault::Edit(2, LayerFault::LayerFull),
        "edits: row 2: layer is full",
    ),
    (
        RunFault::Edit(2, LayerFault::NoSuchId),
        "edits: row 2: no such id",
    ),
    (
        RunFault::Edit(2, LayerFault::Memory),
        "edits: row 2: no memory",
    ),
];

#[test]
fn edits(rt: HostRuntime) {
    assert!(rt; all_say(rt.alloc(), &OF_EDITS));
}

const OF_JOINS: [(RunFault, &str); 5] = [
    (RunFault::Join(JoinFault::Memory), "no memory"),
    (
        RunFault::Join(JoinFault::NoThread),
        "a worker could not be started",
    ),
    (
        RunFault::Join(JoinFault::Refused(Refusal::Gap)),
        "a message was refused",
    ),
    (
        RunFault::Join(JoinFault::Refused(Refusal::Stranger)),
        "a message was refused",
    ),
    (
        RunFault::Join(JoinFault::Open(65_535)),
        "task 65535 was not ended",
    ),
];

#[test]
fn joins(rt: HostRuntime) {
    assert!(rt; all_say(rt.alloc(), &OF_JOINS));
}

const OF_THE_MACHINE: [(RunFault, &str); 4] = [
    (RunFault::TooManyToDraw, "more than 100000 features to draw"),
    (RunFault::Write, "write failed"),
    (RunFault::Memory, "no memory"),
    (RunFault::NoKeys, "no random keys for hashing"),
];

#[test]
fn the_machine(rt: HostRuntime) -> Result<(), Fail> {
    assert!(rt; all_say(rt.alloc(), &OF_THE_MACHINE));
    let failed = format!(in rt.alloc(); "{WriteFailed}")?;
    assert!(rt; shows(rt.alloc(), &RunFault::Write, failed.as_str()) == Some(true));
    Ok(())
}
