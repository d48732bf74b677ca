//! The lines of faults of words, and the status that they end with.

use command_core::{NotOpened, WordFault, read_words, word_line, word_status};
use pair_core::OptionFault;
use relation_core::MaskFault;
use report_core::ToWrite;
use std::alloc::Global;
use std::test::Fail;

/// The words between `|`.
pub(crate) fn parted(alloc: Global, words: &'static str) -> Result<Vec<&'static str>, Fail> {
    Ok(words.split('|').collect(alloc)?)
}

/// The text shown for a fault.
fn line_of(alloc: Global, fault: &WordFault) -> Result<Vec<u8>, Fail> {
    let mut sink = ToWrite::new(Vec::new(alloc));
    word_line(fault, &mut sink)?;
    Ok(sink.into_inner())
}

/// The text shown for words and the status; no text if the words are a command.
pub(crate) fn shown(alloc: Global, words: &[&str]) -> Result<(Vec<u8>, u8), Fail> {
    match read_words(alloc, words) {
        Ok(_) => Ok((Vec::new(alloc), 0)),
        Err(fault) => Ok((line_of(alloc, &fault)?, word_status(&fault))),
    }
}

#[test]
fn no_memory_line(rt: HostRuntime) -> Result<(), Fail> {
    let fault = WordFault::Memory;
    let line = b"rjoin: no memory\n".as_slice();
    assert!(rt; line_of(rt.alloc(), &fault)?.as_slice() == line);
    assert!(rt; word_status(&fault) == 1);
    Ok(())
}

/// Whether the line of a fault is its displayed text after the program's name.
fn shows_its_line(alloc: Global, fault: &WordFault) -> Result<bool, Fail> {
    let line = format!(in alloc; "rjoin: {fault}\n")?;
    Ok(line_of(alloc, fault)?.as_slice() == line.as_bytes())
}

#[test]
fn faults_show_their_lines(rt: HostRuntime) -> Result<(), Fail> {
    let alloc = rt.alloc();
    assert!(rt; shows_its_line(alloc, &WordFault::Relation(MaskFault::Length))?);
    assert!(rt; shows_its_line(alloc, &WordFault::Relation(MaskFault::Letter(8)))?);
    assert!(rt; shows_its_line(alloc, &WordFault::AllowsDisjoint)?);
    assert!(rt; shows_its_line(alloc, &WordFault::Options(OptionFault::Workers))?);
    assert!(rt; shows_its_line(alloc, &WordFault::Options(OptionFault::Batch))?);
    assert!(rt; shows_its_line(alloc, &WordFault::Options(OptionFault::Cut))?);
    assert!(rt; shows_its_line(alloc, &WordFault::Scale)?);
    assert!(rt; shows_its_line(alloc, &WordFault::ScaleOfAny)?);
    assert!(rt; shows_its_line(alloc, &WordFault::Distance)?);
    assert!(rt; shows_its_line(alloc, &WordFault::DistanceOfAny)?);
    assert!(rt; shows_its_line(alloc, &WordFault::Most)?);
    assert!(rt; shows_its_line(alloc, &WordFault::Geometry)?);
    assert!(rt; shows_its_line(alloc, &WordFault::RingsOfBoxes)?);
    assert!(rt; shows_its_line(alloc, &WordFault::Rings)?);
    assert!(rt; shows_its_line(alloc, &WordFault::Memory)?);
    let usage = WordFault::Usage {
        text: String::from_str(alloc, "error: COMMAND is missing\n")?,
        help: false,
    };
    let shown = format!(in alloc; "{usage}")?;
    assert!(rt; line_of(alloc, &usage)?.as_slice() == shown.as_str().as_bytes());
    Ok(())
}

#[test]
fn a_file_that_is_not_opened(rt: HostRuntime) -> Result<(), Fail> {
    let shown = format!(in rt.alloc(); "{NotOpened}")?;
    assert!(rt; shown.as_str() == "cannot be opened");
    Ok(())
}
