//! The output made of the pairs of two layers.

ghost use Rattle.std.specs.Prelude.{◌≡◌, true, false, All, AllPairs, IfOk, IfErr, map};
ghost use Rattle.descent_core.specs.Rows.{Precedes};
ghost use Rattle.layer_core.specs.Edits.{both};
ghost use Rattle.draw_core.specs.Drawings.{drawing_by};
ghost use Rattle.report_core.specs.Reports.{IsHeld, IsReportBy};
ghost use Rattle.join_core.specs.Firsts.{firsts_of};
ghost use Rattle.join_core.specs.Products.{IsFew, IsPlain};
ghost use Rattle.run_core.specs.Texts.{bytes_of_text};

use crate::counts::{counts_text, unmatched_text};
use crate::firsts::first_pairs;
use draw_core::{Drawn, can_be_drawn, picture};
use layer_core::{Geometry, Layer};
use pair_core::Product;
use refine_core::AsPair;
use report_core::{LastField, NoField, ReportForm, report_by};
use run_core::{RunFault, Text};
use std::thread::Threads;

/// The product of these matches of two layers without matrices: of a report that has them, the
/// report of ids.
///
/// # Errors
/// If an allocation fails.
pub(crate) fn plain_product<R, G, M>(
    rt: &R,
    product: Product,
    workers: u32,
    left: &Layer<G>,
    right: &Layer<G>,
    matches: &[M],
) -> Result<Text, RunFault>
where
    R: AllocGlobal + Threads + Sync,
    G: Drawn + Sync,
    M: AsPair + Sync,
    requires held { let is_held = IsHeld left.now.list right.now.list in
        All (λ found. is_held (M.pair_of found)) matches.now }
    requires order { AllPairs Precedes (map M.pair_of matches.now) }
    ensures ok { let is = IsPlain product (drawing_by G.box_of G.start_of G.path_of) in
        let layers = both left.now.list right.now.list in
        IfOk result (λ text. is layers (map M.pair_of matches.now) (bytes_of_text text)) }
    ensures err { IfErr result (λ f. f ≡ RunFault.Memory) }
{
    match product {
        Product::Report | Product::Pairs => report(rt, &NoField, workers, left, right, matches),
        Product::Firsts | Product::FirstPairs => {
            first_report(rt, &NoField, workers, left, right, matches)
        }
        Product::Counts => Ok(Text::Rows(counts_text(rt.alloc(), left, matches)?)),
        Product::Unmatched => Ok(Text::Rows(unmatched_text(rt.alloc(), left, matches)?)),
        Product::Picture => Ok(Text::Picture(picture(rt.alloc(), left, right, matches)?)),
    }
}

/// The report of these matches, with this last field.
pub(crate) fn report<R, F, G, M>(
    rt: &R,
    field: &F,
    workers: u32,
    left: &Layer<G>,
    right: &Layer<G>,
    matches: &[M],
) -> Result<Text, RunFault>
where
    R: AllocGlobal + Threads + Sync,
    F: LastField<G, M> + Sync,
    G: Geometry + Sync,
    M: AsPair + Sync,
    requires { All (F.is_match left.now.list right.now.list) matches.now }
    ensures ok { let name = F.name_of field.now in let is_field = F.is_field field.now in
        let is = IsReportBy name is_field left.now.list right.now.list in
        IfOk result (λ text. is (map M.pair_of matches.now) (bytes_of_text text)) }
    ensures err { IfErr result (λ f. f ≡ RunFault.Memory) }
{
    let form = ReportForm { field, workers };
    Ok(Text::Report(report_by(rt, &form, left, right, matches)?))
}

/// The report of the first pair of each left feature, with this last field.
pub(crate) fn first_report<R, F, G, M>(
    rt: &R,
    field: &F,
    workers: u32,
    left: &Layer<G>,
    right: &Layer<G>,
    matches: &[M],
) -> Result<Text, RunFault>
where
    R: AllocGlobal + Threads + Sync,
    F: LastField<G, (u32, u32)> + Sync,
    G: Geometry + Sync,
    M: AsPair,
    requires held { All (F.is_match left.now.list right.now.list) (map M.pair_of matches.now) }
    requires order { AllPairs Precedes (map M.pair_of matches.now) }
    ensures ok { let name = F.name_of field.now in let is_field = F.is_field field.now in
        let is = IsReportBy name is_field left.now.list right.now.list in
        let firsts = firsts_of (map M.pair_of matches.now) in
        IfOk result (λ text. is firsts (bytes_of_text text)) }
    ensures err { IfErr result (λ f. f ≡ RunFault.Memory) }
{
    let firsts = first_pairs(rt.alloc(), matches)?;
    report(rt, field, workers, left, right, firsts.as_slice())
}

/// Whether the output can be made of two layers: a picture of at most
/// [`MAX_DRAWN`](draw_core::MAX_DRAWN) features, all else of any number.
pub(crate) fn can_be_made<G: Geometry>(product: Product, left: &Layer<G>, right: &Layer<G>) -> bool
    ensures few { result ≡ true → IsFew product (both left.now.list right.now.list) }
    ensures many { result ≡ false → ¬ (IsFew product (both left.now.list right.now.list)) }
{
    match product {
        Product::Picture => can_be_drawn(left, right),
        _ => true,
    }
}
