//! The product of a join of two layers of boxes.

ghost use Rattle.std.specs.Prelude.{◌≡◌, All, AllPairs, IfOk, IfErr, map};
ghost use Rattle.descent_core.specs.Rows.{Precedes};
ghost use Rattle.draw_core.specs.Outlines.{box_drawing};
ghost use Rattle.layer_core.specs.Edits.{both};
ghost use Rattle.relation_core.specs.Matrices.{IsMatrix};
ghost use Rattle.report_core.specs.Reports.{IsHeld};
ghost use Rattle.join_core.specs.Joinings.{box_joining};
ghost use Rattle.join_core.specs.Products.{HasProduct, IsMadeOf};
ghost use Rattle.run_core.specs.EditedLayers.{IsLateFault};
ghost use Rattle.run_core.specs.Texts.{bytes_of_text};

use crate::output::{first_report, plain_product, report};
use filter_core::join_layers;
use layer_core::Layer;
use pair_core::{Options, Product};
use relation_core::JoinRelation;
use report_core::BoxLetters;
use run_core::{RunFault, Text};
use std::sync::Wait;
use std::thread::Threads;

/// The product of two layers of boxes. The filter decides their pairs.
pub(crate) fn box_product<R: AllocGlobal + Threads + Wait + Sync>(
    rt: &R,
    product: Product,
    options: &Options,
    relation: &JoinRelation,
    left: &Layer,
    right: &Layer,
) -> Result<Text, RunFault>
    ensures ok { let joining = box_joining relation.now in
        let layers = both left.now.list right.now.list in
        IfOk result (λ text. HasProduct product joining layers (bytes_of_text text)) }
    ensures err { IfErr result IsLateFault }
{
    let outcome = join_layers(rt, left, right, relation, options)?;
    product_of_pairs(rt, product, options.workers(), left, right, outcome.pairs())
}

/// The product of these pairs of two layers of boxes, made by at most `workers` threads.
///
/// # Errors
/// If an allocation fails.
fn product_of_pairs<R: AllocGlobal + Threads + Sync>(
    rt: &R,
    product: Product,
    workers: u32,
    left: &Layer,
    right: &Layer,
    pairs: &[(u32, u32)],
) -> Result<Text, RunFault>
    requires held { All (IsHeld left.now.list right.now.list) pairs.now }
    requires order { AllPairs Precedes pairs.now }
    ensures ok { let made = IsMadeOf product IsMatrix box_drawing in
        let layers = both left.now.list right.now.list in
        let listed = map (λ pair. pair) pairs.now in
        IfOk result (λ text. made layers listed (bytes_of_text text)) }
    ensures err { IfErr result (λ f. f ≡ RunFault.Memory) }
{
    match product {
        Product::Report => report(rt, &BoxLetters::new(), workers, left, right, pairs),
        Product::Firsts => first_report(rt, &BoxLetters::new(), workers, left, right, pairs),
        _ => plain_product(rt, product, workers, left, right, pairs),
    }
}
