//! The matrix of two geometries given as texts.

ghost use Rattle.std.specs.Prelude.{◌≡◌, ◌≢◌, Option, Ok, Err, false, IfOk, IfErr, OnOk};
ghost use Rattle.command_core.specs.Commands.{AreImproper, BlamesCommand, CommandEnds};
ghost use Rattle.command_core.specs.Commands.{GeometriesGive, IsRelateFault, none_improper};
ghost use Rattle.command_core.specs.Opening.{Files};
ghost use Rattle.run_core.specs.Runs.{Ends};
ghost use Rattle.relate_any_core.specs.TextMatrices.{IsRelated};
ghost use Rattle.words_core.specs.declared.words.Command.TheVariants.{Relate};
ghost use Rattle.words_core.specs.declared.condition.Geometries.TheVariants.{Any};

use join_core::{matrix_line, run_relate};
use relate_any_core::{Improper, Related, TextFault, relate_texts};
use report_core::{Sink, write_text};
use run_core::{Input, RunFault};
use std::alloc::Global;
use wkt_any_core::Rings;
use words_core::{Geometries, RelateRequest};

/// Writes the matrix of two geometries, and records in `improper` which of them have improper
/// rings.
pub fn execute_relate<O: Sink>(
    alloc: Global,
    request: &RelateRequest<'_>,
    output: &mut O,
    improper: &mut Improper,
) -> Result<(), RunFault>
    requires output { O.has_failed output.old ≡ false }
    requires none { improper.old ≡ none_improper }
    ensures ends { (known : Option Files) → CommandEnds known O.written O.is_flushed O.has_failed
        (Relate request.now) output.old output.new result }
    ensures improper { OnOk result (AreImproper request.now.geometries request.now.scale
        request.now.a.now request.now.b.now improper.new) }
{
    match request.geometries {
        Geometries::Box => {
            let a = request.a.as_bytes();
            let b = request.b.as_bytes();
            run_relate(request.scale, a, b, output)
        }
        Geometries::Any(rings) => relate_any(alloc, request, rings, output, improper),
    }
}

/// Writes the matrix of two geometries of any direction: nine letters and a line feed.
///
/// Both texts are read before anything is written.
fn relate_any<O: Sink>(
    alloc: Global,
    request: &RelateRequest<'_>,
    rings: Rings,
    output: &mut O,
    improper: &mut Improper,
) -> Result<(), RunFault>
    requires { O.has_failed output.old ≡ false }
    ensures writes { Ends (λ text. GeometriesGive (Any rings) request.now.scale request.now.a.now
        request.now.b.now (Ok text))
        O.written O.is_flushed O.has_failed output.old output.new result }
    ensures fault { IfErr result (λ f. BlamesCommand f → GeometriesGive (Any rings)
        request.now.scale request.now.a.now request.now.b.now (Err f)) }
    ensures faults { IfErr result (λ f. f ≢ RunFault.Write → IsRelateFault (Any rings) f) }
    ensures improper { OnOk result (AreImproper (Any rings) request.now.scale
        request.now.a.now request.now.b.now improper.new) }
{
    let related = related_any(alloc, request, rings)?;
    let line = matrix_line(&related.matrix);
    write_text(output, &line)?;
    *improper = related.improper;
    Ok(())
}

/// The matrix of two geometries of any direction, and which of them have improper rings. If a text
/// spells no geometry, the fault names the first such text.
fn related_any(
    alloc: Global,
    request: &RelateRequest<'_>,
    rings: Rings,
) -> Result<Related, RunFault>
    ensures related { IfOk result (IsRelated request.now.scale rings request.now.a.now
        request.now.b.now) }
    ensures fault { IfErr result (λ f. BlamesCommand f → GeometriesGive (Any rings)
        request.now.scale request.now.a.now request.now.b.now (Err f)) }
    ensures faults { IfErr result (IsRelateFault (Any rings)) }
{
    let a = request.a.as_bytes();
    let b = request.b.as_bytes();
    match relate_texts(alloc, request.scale, rings, a, b)? {
        Ok(related) => Ok(related),
        Err(TextFault::First(fault)) => Err(RunFault::Geometry(Input::First, fault)),
        Err(TextFault::Second(fault)) => Err(RunFault::Geometry(Input::Second, fault)),
    }
}
