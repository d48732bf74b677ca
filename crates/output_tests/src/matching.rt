//! Pairs of features with their matrices, and the reports of these.

ghost use Rattle.std.specs.Prelude.{All, IfSome};
ghost use Rattle.report_core.specs.AnyMatches.{IsAnyMatch};

use any_geometry_core::AnyGeometry;
use arrangement_core::relate;
use layer_core::Layer;
use refine_core::Refined;
use relation_core::Matrix;
use report_core::{MatrixLetters, ReportForm, report_by};
use std::alloc::Global;
use std::thread::Threads;

/// A pair of features with the matrix of their geometries.
fn matched(
    alloc: Global,
    left: &Layer<AnyGeometry>,
    right: &Layer<AnyGeometry>,
    pair: (u32, u32),
) -> Option<Refined<Matrix>>
    ensures { IfSome result (IsAnyMatch left.now.list right.now.list) }
{
    let first = left.shape(pair.0)?;
    let second = right.shape(pair.1)?;
    match relate(alloc, first.geometry(), second.geometry()) {
        Ok(answer) => Some(Refined { pair, answer }),
        Err(_) => None,
    }
}

/// These pairs with the matrices of their geometries.
fn matches_of(
    alloc: Global,
    left: &Layer<AnyGeometry>,
    right: &Layer<AnyGeometry>,
    pairs: &[(u32, u32)],
) -> Option<Vec<Refined<Matrix>>>
    ensures { IfSome result
        (λ matches. All (IsAnyMatch left.now.list right.now.list) matches.items) }
{
    let mut matches = Vec::new(alloc);
    for pair in pairs {
        let found = matched(alloc, left, right, *pair)?;
        matches.push(found).ok()?;
    }
    Some(matches)
}

/// The report of these pairs by at most `workers` threads, as one text.
pub(crate) fn report_of<R: AllocGlobal + Threads + Sync>(
    rt: &R,
    left: &Layer<AnyGeometry>,
    right: &Layer<AnyGeometry>,
    pairs: &[(u32, u32)],
    workers: u32,
) -> Option<Vec<u8>> {
    let matches = matches_of(rt.alloc(), left, right, pairs)?;
    let form = ReportForm {
        field: &MatrixLetters,
        workers,
    };
    let texts = report_by(rt, &form, left, right, matches.as_slice()).ok()?;
    let mut report = Vec::new(rt.alloc());
    for text in &texts {
        report.extend_from_slice(text).ok()?;
    }
    Some(report)
}
