//! The text of a fault and of what may help, and writing them as lines.

ghost use Rattle.std.specs.Prelude.{◌≡◌, ◌+◌, ◌≤◌, ◌↔◌, ◌++◌, false, length, IsTrue, IsErr, OnOk};
ghost use Rattle.std.specs.Prelude.{OnErr};
ghost use Rattle.std.specs.Io.KnownBytes.{Appends};
ghost use Rattle.row_core.specs.FaultTexts.{read_text, row_text};
ghost use Rattle.parallel_core.specs.Faults.{join_text};
ghost use Rattle.run_core.specs.FaultTexts.{run_text};
ghost use Rattle.run_core.specs.Hints.{beginning_hint, read_hint, run_hint};
ghost use Rattle.run_core.specs.Lines.{run_line};
ghost use Rattle.report_core.specs.Written.{AppendsPrefix};

use crate::fault::RunFault;
use parallel_core::JoinFault;
use report_core::{ROOM, ShortText, Sink, WriteFailed};
use row_core::{Beginning, ReadFault};

/// Writes the line of a fault: the program's name, the input at fault and the fault; and a line of
/// what may help, if there is something. It allocates no memory.
pub fn fault_line<S: Sink>(fault: &RunFault, sink: &mut S) -> Result<(), WriteFailed>
    requires { S.has_failed sink.old ≡ false }
    // the line of every fault, and that of what may help
    ensures ok { OnOk result (Appends (S.written sink.old) (S.written sink.new)
        (run_line fault.now)) }
    ensures flushed { OnOk result (IsTrue (S.is_flushed sink.new)) }
    ensures err { OnErr result (AppendsPrefix (S.written sink.old) (S.written sink.new)
        (run_line fault.now)) }
    ensures failed { IsErr result ↔ IsTrue (S.has_failed sink.new) }
{
    let mut line = ShortText::begun();
    push_run_text(&mut line, fault);
    push_run_hint(&mut line, fault);
    line.write(sink)
}

fn push_run_hint(line: &mut ShortText, fault: &RunFault)
    requires { length line.old ≤ 101 }
    ensures text { line.new ≡ line.old ++ run_hint fault.now }
    ensures short { length line.new ≤ 201 }
{
    if let RunFault::Read(_, fault) = fault {
        push_read_hint(line, fault);
    }
}

fn push_read_hint(line: &mut ShortText, fault: &ReadFault)
    requires { length line.old ≤ 101 }
    ensures text { line.new ≡ line.old ++ read_hint fault.now }
    ensures short { length line.new ≤ 201 }
{
    match fault {
        ReadFault::Header(beginning) => {
            line.push("\n");
            push_beginning_hint(line, beginning);
        }
        ReadFault::Wkt(_, _, true) => line.push("\n--geometry any reads this row"),
        _ => {}
    }
}

fn push_beginning_hint(line: &mut ShortText, beginning: &Beginning)
    requires { length line.old ≤ 102 }
    ensures text { line.new ≡ line.old ++ beginning_hint beginning.now }
    ensures short { length line.new ≤ 201 }
{
    match beginning {
        Beginning::Line(first) => {
            line.push("the first line begins with '");
            line.push(first.as_str());
            line.push("'");
        }
        Beginning::GeoPackage => {
            line.push("python3 -m rjoin and recipes/from-ogr read this GeoPackage");
        }
        Beginning::Shapefile => {
            line.push("python3 -m rjoin and recipes/from-ogr read this shapefile");
        }
        Beginning::Gzip => line.push("gzip -d unpacks this file"),
        Beginning::Json => line.push("python3 -m rjoin and recipes/from-ogr read this GeoJSON"),
    }
}

fn push_run_text(line: &mut ShortText, fault: &RunFault)
    requires { length line.old ≤ 7 }
    ensures text { line.new ≡ line.old ++ run_text fault.now }
    ensures short { length line.new ≤ 101 }
{
    match fault {
        RunFault::NoFile(input) => {
            line.push(input.word());
            line.push(": cannot be opened");
        }
        RunFault::Read(input, fault) => {
            line.push(input.word());
            line.push(": ");
            push_read_text(line, fault);
        }
        RunFault::Wkt(input, fault) => {
            line.push(input.word());
            line.push(": ");
            line.push(fault.text());
        }
        RunFault::Geometry(input, fault) => {
            line.push(input.word());
            line.push(": ");
            line.push(fault.text());
        }
        RunFault::Edit(row, fault) => {
            line.push("edits: ");
            push_row(line, *row);
            line.push(fault.text());
        }
        RunFault::Join(fault) => push_join_text(line, fault),
        RunFault::TooManyToDraw => line.push("more than 100000 features to draw"),
        RunFault::Write => line.push("write failed"),
        RunFault::NotStored => line.push("skip: cannot be written"),
        RunFault::Memory => line.push("no memory"),
        RunFault::NoKeys => line.push("no random keys for hashing"),
    }
}

fn push_read_text(line: &mut ShortText, fault: &ReadFault)
    requires { length line.old ≤ 15 }
    ensures text { line.new ≡ line.old ++ read_text fault.now }
    ensures short { length line.new ≤ length line.old + 86 }
{
    if let Some(row) = fault.row() {
        push_row(line, row);
    }
    line.push(fault.text());
}

/// Adds the number of a row and the separator after it.
fn push_row(line: &mut ShortText, row: u32)
    requires { length line.old + 16 ≤ ROOM }
    ensures text { line.new ≡ line.old ++ row_text row }
    ensures len { length line.new ≤ length line.old + 16 }
{
    line.push("row ");
    line.push_number(row);
    line.push(": ");
}

fn push_join_text(line: &mut ShortText, fault: &JoinFault)
    requires { length line.old ≤ 7 }
    ensures text { line.new ≡ line.old ++ join_text fault.now }
    ensures short { length line.new ≤ 100 }
{
    match fault {
        JoinFault::Memory => line.push("no memory"),
        JoinFault::NoThread => line.push("a worker could not be started"),
        JoinFault::Refused(_) => line.push("a message was refused"),
        JoinFault::Open(task) => {
            line.push("task ");
            line.push_number(*task);
            line.push(" was not ended");
        }
    }
}
