//! The report of candidates that a condition decides, in several blocks.

ghost use Rattle.std.specs.Prelude.{◌<◌, All, IfSome};
ghost use Rattle.refine_core.specs.Refinements.{IsPairIn};
ghost use Rattle.output_tests.specs.Parities.{AreHeld};

use crate::parity::{EvenSum, ParityField, push_held};
use any_geometry_core::AnyGeometry;
use layer_core::Layer;
use layer_edit_core::LayerEditor;
use plane_core::Rings;
use report_core::{RefiningForm, ToWrite, WriteFailed, report_refining, write_texts};
use std::alloc::Global;
use std::hash::RandomState;
use std::io;
use std::io::{ErrorKind, Write};
use std::random::RandomSource;
use std::thread::Threads;
use test_data::geometry_of;

/// The ids of the features of a layer. Of two such layers there are 676 pairs, three blocks.
const LETTERS: [&str; 26] = [
    "a", "b", "c", "d", "e", "f", "g", "h", "i", "j", "k", "l", "m", "n", "o", "p", "q", "r", "s",
    "t", "u", "v", "w", "x", "y", "z",
];

/// A layer with a feature for each letter.
fn lettered<R: AllocGlobal + RandomSource>(rt: &R) -> Option<Layer<AnyGeometry>> {
    let mut editor = LayerEditor::new(rt.alloc(), RandomState::new(rt).ok()?).ok()?;
    for letter in &LETTERS {
        let point = geometry_of(rt.alloc(), "POINT (0 0)", Rings::EvenOdd)?;
        editor.insert(letter, point).ok()?;
    }
    editor.finish().ok()
}

/// All pairs of features of two such layers, in order.
fn all_pairs(
    alloc: Global,
    left: &Layer<AnyGeometry>,
    right: &Layer<AnyGeometry>,
) -> Option<Vec<(u32, u32)>>
    ensures { IfSome result
        (λ pairs. All (IsPairIn (AreHeld left.now.list right.now.list)) pairs.items) }
{
    let mut pairs = Vec::new(alloc);
    for place in 0..676 {
        push_held(&mut pairs, left, right, (place / 26, place % 26)).ok()?;
    }
    Some(pairs)
}

/// The report of those of these pairs whose numbers have an even sum, as its texts.
fn texts_of<R>(rt: &R, workers: u32) -> Option<Vec<Vec<u8>>>
where
    R: AllocGlobal + RandomSource + Threads + Sync,
    requires { 0 < workers }
{
    let (left, right) = (lettered(rt)?, lettered(rt)?);
    let pairs = all_pairs(rt.alloc(), &left, &right)?;
    let condition = EvenSum {
        left: &left,
        right: &right,
    };
    let form = RefiningForm {
        condition: &condition,
        field: &ParityField,
        workers,
    };
    report_refining(rt, &form, &left, &right, &pairs).ok()
}

/// The records of one left feature, of every second right one from the first or the second.
fn push_records(text: &mut Vec<u8>, left: usize) -> Option<()> {
    for right in 0..LETTERS.len() {
        if left % 2 == right % 2 {
            let ids = [LETTERS.get(left)?, ",", LETTERS.get(right)?, ",even\n"];
            push_parts(text, &ids)?;
        }
    }
    Some(())
}

/// Adds some parts of a record.
fn push_parts(text: &mut Vec<u8>, parts: &[&str]) -> Option<()> {
    for part in parts {
        text.extend_from_slice(part.as_bytes()).ok()?;
    }
    Some(())
}

/// The report, by a plain loop.
fn plain_report(alloc: Global) -> Option<Vec<u8>> {
    let mut text = Vec::new(alloc);
    text.extend_from_slice(b"left,right,parity\n").ok()?;
    for left in 0..LETTERS.len() {
        push_records(&mut text, left)?;
    }
    Some(text)
}

/// The texts as one.
fn joined(alloc: Global, texts: &[Vec<u8>]) -> Option<Vec<u8>> {
    let mut all = Vec::new(alloc);
    for text in texts {
        all.extend_from_slice(text).ok()?;
    }
    Some(all)
}

/// Whether the report by at most `workers` threads is that of the plain loop.
fn is_plain<R>(rt: &R, workers: u32) -> Option<bool>
where
    R: AllocGlobal + RandomSource + Threads + Sync,
    requires { 0 < workers }
{
    let texts = texts_of(rt, workers)?;
    let report = joined(rt.alloc(), &texts)?;
    let expected = plain_report(rt.alloc())?;
    Some(report.as_slice() == expected.as_slice())
}

/// One thread decides and writes three blocks.
#[test]
fn three_blocks_by_one_thread(rt: HostRuntime) {
    assert!(rt; is_plain(&rt, 1) == Some(true));
}

/// Two threads decide and write two blocks each.
#[test]
fn four_blocks_by_two_threads(rt: HostRuntime) {
    assert!(rt; is_plain(&rt, 2) == Some(true));
}

#[test]
fn a_block_for_each_of_16_threads(rt: HostRuntime) {
    assert!(rt; is_plain(&rt, 16) == Some(true));
}

/// A writer that takes so many bytes in all, and fails after them.
#[derive(Drop)]
struct Cut {
    taken: Vec<u8>,
    room: usize,
}

impl Write for Cut {
    fn write(&mut self, text: &[u8]) -> io::Result<usize> {
        let room = self.room.saturating_sub(self.taken.len());
        if room == 0 {
            return Err(io::Error::from(ErrorKind::StorageFull));
        }
        let front = &text[..text.len().min(room)];
        self.taken.extend_from_slice(front)?;
        Ok(front.len())
    }

    fn flush(&mut self) -> io::Result<()> {
        Ok(())
    }
}

/// Whether a writer that fails after `room` bytes of the texts of two threads gives its fault, and
/// has taken these bytes and no other.
fn is_cut<R>(rt: &R, room: usize) -> Option<bool>
where
    R: AllocGlobal + RandomSource + Threads + Sync,
{
    let texts = texts_of(rt, 2)?;
    let taken = Vec::new(rt.alloc());
    let mut sink = ToWrite::new(Cut { taken, room });
    let outcome = write_texts(&mut sink, &texts);
    let taken = sink.into_inner().taken;
    let expected = plain_report(rt.alloc())?;
    Some(outcome == Err(WriteFailed) && expected.get(..room) == Some(taken.as_slice()))
}

/// The text of a thread has 169 records of 9 bytes, after the 18 of the header. The writer fails at
/// the beginning, in the middle and near the end of the second thread's text.
#[test]
fn cut_in_the_second_text(rt: HostRuntime) {
    assert!(rt; is_cut(&rt, 18 + 169 * 9) == Some(true));
    assert!(rt; is_cut(&rt, 18 + 250 * 9 + 4) == Some(true));
    assert!(rt; is_cut(&rt, 18 + 338 * 9 - 1) == Some(true));
}

/// It fails in the header or in the first thread's text: nothing of the second is written.
#[test]
fn cut_before_the_second_text(rt: HostRuntime) {
    assert!(rt; is_cut(&rt, 5) == Some(true));
    assert!(rt; is_cut(&rt, 18 + 100) == Some(true));
}
