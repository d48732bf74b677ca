//! The program: from the words of the command line to the exit status.

ghost use Rattle.std.specs.Prelude.{◌≡◌, false, map, string_bytes, IfOk, IfErr};
ghost use Rattle.command_core.specs.Endings.{IsShownBy, ProgramIsDone, WordsAreDone};
ghost use Rattle.words_core.specs.Readings.{IsUngiven};

use crate::command::{FAILED, run_command};
use crate::inputs::Inputs;
use crate::outputs::Outputs;
use crate::word_fault::{word_line, word_status};
use report_core::{Sink, WriteFailed};
use run_core::{RunFault, fault_line};
use std::alloc::{AllocError, Global};
use std::random::RandomSource;
use std::rt::Env;
use std::sync::Wait;
use std::thread::Threads;
use std::{env, io};
use words_core::{WordFault, read_words};

/// Runs the program on the words of the command line and returns the exit status. Results and help
/// go to `output`, the line of a fault to `errors`.
pub fn run_program<
    R: Env + RandomSource + AllocGlobal + Threads + Wait + Sync,
    I: Inputs + Outputs,
    O: Sink,
    E: Sink,
>(rt: &R, files: &mut I, output: &mut O, errors: &mut E) -> u8
    requires output { O.has_failed output.old ≡ false }
    requires errors { E.has_failed errors.old ≡ false }
    ensures { ProgramIsDone (I.files files.old) (I.stored files.old) (I.stored files.new)
        O.written O.is_flushed O.has_failed output.old output.new
        E.written E.has_failed errors.old errors.new result }
{
    match given_words(rt) {
        Ok(words) => run_words(rt, &words, files, output, errors),
        Err(fault) => show_word_fault(&fault, output, errors),
    }
}

/// The words of the command line.
fn given_words<R: Env + AllocGlobal>(rt: &R) -> Result<Vec<String>, WordFault>
    ensures { IfErr result IsUngiven }
{
    match env::args(rt) {
        Ok(words) => Ok(words.collect(rt.alloc())?),
        Err(error) if error.kind() == io::ErrorKind::OutOfMemory => Err(WordFault::Memory),
        Err(_) => Err(WordFault::Usage {
            text: String::from_str(rt.alloc(), "error: a word is not UTF-8\n")?,
            help: false,
        }),
    }
}

/// Runs the program on the given words.
pub fn run_words<
    R: RandomSource + AllocGlobal + Threads + Wait + Sync,
    I: Inputs + Outputs,
    O: Sink,
    E: Sink,
>(rt: &R, words: &[String], files: &mut I, output: &mut O, errors: &mut E) -> u8
    requires output { O.has_failed output.old ≡ false }
    requires errors { E.has_failed errors.old ≡ false }
    ensures { WordsAreDone (map string_bytes words.now)
        (I.files files.old) (I.stored files.old) (I.stored files.new)
        O.written O.is_flushed O.has_failed output.old output.new
        E.written E.has_failed errors.old errors.new result }
{
    match texts_of(rt.alloc(), words) {
        Ok(words) => run_read(rt, &words, files, output, errors),
        Err(AllocError) => show_word_fault(&WordFault::Memory, output, errors),
    }
}

/// The words as string slices.
fn texts_of(alloc: Global, words: &[String]) -> Result<Vec<&str>, AllocError>
    ensures { IfOk result (λ texts.
        map (λ text. text.now) texts.items ≡ map string_bytes words.now) }
{
    let mut texts = Vec::new(alloc);
    for word in words {
        texts.push(word.as_str())?;
    }
    Ok(texts)
}

/// Reads the words as a command and runs it, or shows why they are none.
fn run_read<
    R: RandomSource + AllocGlobal + Threads + Wait + Sync,
    I: Inputs + Outputs,
    O: Sink,
    E: Sink,
>(rt: &R, words: &[&str], files: &mut I, output: &mut O, errors: &mut E) -> u8
    requires output { O.has_failed output.old ≡ false }
    requires errors { E.has_failed errors.old ≡ false }
    ensures { WordsAreDone (map (λ word. word.now) words.now)
        (I.files files.old) (I.stored files.old) (I.stored files.new)
        O.written O.is_flushed O.has_failed output.old output.new
        E.written E.has_failed errors.old errors.new result }
{
    match read_words(rt.alloc(), words) {
        Ok(command) => run_command(rt, files, &command, output, errors),
        Err(fault) => show_word_fault(&fault, output, errors),
    }
}

/// Shows the fault of the words, or the help they ask for, and returns the exit status.
fn show_word_fault<O: Sink, E: Sink>(fault: &WordFault, output: &mut O, errors: &mut E) -> u8
    requires output { O.has_failed output.old ≡ false }
    requires errors { E.has_failed errors.old ≡ false }
    ensures { IsShownBy O.written O.has_failed output.old output.new
        E.written E.has_failed errors.old errors.new fault.now result }
{
    let status = word_status(fault);
    if status != 0 {
        let _ = word_line(fault, errors);
        return status;
    }
    match word_line(fault, output) {
        Ok(()) => status,
        Err(WriteFailed) => {
            let _ = fault_line(&RunFault::Write, errors);
            FAILED
        }
    }
}
