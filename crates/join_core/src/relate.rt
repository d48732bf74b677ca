//! The matrix of two geometries given as texts.

ghost use Rattle.std.specs.Prelude.{◌≡◌, ◌↔◌, ◌++◌, ◌∷◌, [], Err, false, IfOk, IfErr};
ghost use Rattle.relation_core.specs.Matrices.{letters_of};
ghost use Rattle.wkt_core.specs.declared.fault.WktFault.{WktFault};
ghost use Rattle.run_core.specs.declared.fault.Input.{Input};
ghost use Rattle.join_core.specs.Relating.{RelateGives, HasFirstFault, IsMatrixLine, IsTextFault};
ghost use Rattle.run_core.specs.Runs.{RunEnds};

use relation_core::{Matrix, relate};
use report_core::{Sink, write_text};
use run_core::{Input, RunFault};
use wkt_core::Scale;

/// Letters of a matrix and a line feed.
const LINE: usize = 10;

/// Writes how two geometries lie to each other: the nine letters of their matrix and a line feed.
///
/// Both texts are read before anything is written, and no memory is allocated.
///
/// # Errors
/// The fault of the first text that spells no shape, or a fault of the output.
pub fn run_relate<S: Sink>(scale: Scale, a: &[u8], b: &[u8], sink: &mut S) -> Result<(), RunFault>
    requires { S.has_failed sink.old ≡ false }
    // of boxes: Ok means that the letters of the matrix and a line feed were written; exactly the
    // first fault of a text is answered, and none besides but `Write`
    ensures { RunEnds (RelateGives scale a.now b.now) (HasFirstFault scale a.now b.now)
        IsTextFault (λ _. ⊥) S.written S.is_flushed S.has_failed sink.old sink.new result }
{
    let line = related(scale, a, b)?;
    write_text(sink, &line)?;
    Ok(())
}

/// The line of the matrix of two geometries, which are given as texts.
fn related(scale: Scale, a: &[u8], b: &[u8]) -> Result<[u8; LINE], RunFault>
    ensures ok { IfOk result (λ line. IsMatrixLine scale a.now b.now line) }
    ensures wkt { (i : Input) (f : WktFault) →
        (result ≡ Err (RunFault.Wkt i f)) ↔ HasFirstFault scale a.now b.now i f }
    ensures faults { IfErr result IsTextFault }
{
    let first_read = wkt_core::read(a, scale);
    let first = match first_read {
        Ok(shape) => shape,
        Err(fault) => return Err(RunFault::Wkt(Input::First, fault)),
    };
    let second_read = wkt_core::read(b, scale);
    let second = match second_read {
        Ok(shape) => shape,
        Err(fault) => return Err(RunFault::Wkt(Input::Second, fault)),
    };
    Ok(matrix_line(&relate(&first, &second)))
}

/// The letters of a matrix, and a line feed.
pub fn matrix_line(matrix: &Matrix) -> [u8; LINE]
    ensures { result ≡ letters_of matrix.now ++ 10 ∷ [] }
{
    let [ii, ib, ie, bi, bb, be, ei, eb, ee] = matrix.text();
    [ii, ib, ie, bi, bb, be, ei, eb, ee, b'\n']
}
