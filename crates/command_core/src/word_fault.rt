//! The message for words that are no command, and the exit status.

ghost use Rattle.std.specs.Prelude.{◌≡◌, ◌+◌, ◌≤◌, ◌↔◌, ◌++◌, ◌∷◌, [], false, length, IsTrue};
ghost use Rattle.std.specs.Prelude.{IsErr, OnOk, OnErr};
ghost use Rattle.std.specs.Io.KnownBytes.{Appends};
ghost use Rattle.relation_core.specs.FaultTexts.{mask_text};
ghost use Rattle.report_core.specs.Written.{AppendsPrefix};
ghost use Rattle.command_core.specs.WordFaults.{word_status_of, word_fault_line};

use relation_core::{AllowsDisjoint, MaskFault};
use report_core::{ShortText, Sink, WriteFailed, write_text};
use words_core::WordFault;

/// The exit status: 0 for help, 1 if memory ran out, otherwise 2.
pub fn word_status(fault: &WordFault) -> u8
    ensures { result ≡ word_status_of fault.now }
{
    match fault {
        WordFault::Usage { help: true, .. } => 0,
        WordFault::Usage { help: false, .. } => 2,
        WordFault::Relation(_) => 2,
        WordFault::AllowsDisjoint => 2,
        WordFault::Options(_) => 2,
        WordFault::Scale => 2,
        WordFault::ScaleOfAny => 2,
        WordFault::Distance => 2,
        WordFault::DistanceOfAny => 2,
        WordFault::Most => 2,
        WordFault::Geometry => 2,
        WordFault::RingsOfBoxes => 2,
        WordFault::Rings => 2,
        WordFault::Delimiter => 2,
        WordFault::LeftDelimiter => 2,
        WordFault::RightDelimiter => 2,
        WordFault::Memory => 1,
    }
}

/// Writes the message for words that are no command: the text from `clap`, or one of the program's
/// own lines.
pub fn word_line<S: Sink>(fault: &WordFault, sink: &mut S) -> Result<(), WriteFailed>
    requires { S.has_failed sink.old ≡ false }
    // the line of every fault of the words
    ensures ok { OnOk result (Appends (S.written sink.old) (S.written sink.new)
        (word_fault_line fault.now)) }
    ensures flushed { OnOk result (IsTrue (S.is_flushed sink.new)) }
    ensures err { OnErr result (AppendsPrefix (S.written sink.old) (S.written sink.new)
        (word_fault_line fault.now)) }
    ensures failed { IsErr result ↔ IsTrue (S.has_failed sink.new) }
{
    let mut line = ShortText::begun();
    match fault {
        WordFault::Usage { text, .. } => return write_text(sink, text.as_bytes()),
        WordFault::Relation(fault) => {
            line.push("--relation: ");
            push_mask_text(&mut line, fault);
        }
        WordFault::AllowsDisjoint => {
            line.push("--relation: ");
            let text = AllowsDisjoint.text();
            line.push(text);
        }
        WordFault::Options(fault) => {
            let text = fault.text();
            line.push(text);
        }
        WordFault::Scale => line.push("--scale must be 0 to 6"),
        WordFault::ScaleOfAny => line.push("--scale must be 0 to 15"),
        WordFault::Distance => {
            line.push("--distance must be a number of the scale, 0 to 4000000000000 units");
        }
        WordFault::DistanceOfAny => {
            line.push("--distance must be a number of the scale, 0 to 4000000000000000000 units");
        }
        WordFault::Most => line.push("--most must be 1 to 4294967295"),
        WordFault::Geometry => line.push("--geometry must be box or any"),
        WordFault::RingsOfBoxes => line.push("--rings needs --geometry any"),
        WordFault::Rings => line.push("--rings must be proper or even-odd"),
        WordFault::Delimiter => line.push("--delimiter must be , ; or tab"),
        WordFault::LeftDelimiter => line.push("--left-delimiter must be , ; or tab"),
        WordFault::RightDelimiter => line.push("--right-delimiter must be , ; or tab"),
        WordFault::Memory => line.push("no memory"),
    }
    line.write(sink)
}

fn push_mask_text(line: &mut ShortText, fault: &MaskFault)
    requires { length line.old ≤ 19 }
    ensures text { line.new ≡ line.old ++ mask_text fault.now }
    ensures short { length line.new ≤ 100 }
{
    line.push(fault.text());
    if let MaskFault::Letter(place) = fault {
        line.push_number(*place);
    }
}
