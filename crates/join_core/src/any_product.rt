//! The product of a join of two layers of any geometry.

ghost use Rattle.std.specs.Prelude.{◌<◌, All, IfOk, IfErr};
ghost use Rattle.filter_core.specs.Joins.{StandIn};
ghost use Rattle.layer_core.specs.Edits.{both};
ghost use Rattle.refine_core.specs.Refinements.{IsPairIn};
ghost use Rattle.any_join_core.specs.Matches.{BoxesMeet};
ghost use Rattle.join_core.specs.AnyJoinings.{any_joining, IsRelatedReport};
ghost use Rattle.join_core.specs.Products.{HasProduct, IsPlainProduct};
ghost use Rattle.run_core.specs.EditedLayers.{IsLateFault};
ghost use Rattle.run_core.specs.Texts.{bytes_of_text};

use crate::firsts::first_pairs;
use crate::output::plain_product;
use any_geometry_core::AnyGeometry;
use any_join_core::{RelatedFeatures, RelatedPairs, join_any_pairs};
use any_relation_core::AnyRelation;
use filter_core::meeting_layers;
use layer_core::Layer;
use pair_core::{Options, Product};
use report_core::{MatrixLetters, NoField, RefiningForm, report_refining};
use run_core::{RunFault, Text};
use std::sync::Wait;
use std::thread::Threads;

/// The product of two layers of any geometry.
pub(crate) fn any_product<R: AllocGlobal + Threads + Wait + Sync>(
    rt: &R,
    product: Product,
    options: &Options,
    relation: &AnyRelation,
    left: &Layer<AnyGeometry>,
    right: &Layer<AnyGeometry>,
) -> Result<Text, RunFault>
    ensures ok { let joining = any_joining relation.now in
        let layers = both left.now.list right.now.list in
        IfOk result (λ text. HasProduct product joining layers (bytes_of_text text)) }
    ensures err { IfErr result IsLateFault }
{
    match product {
        Product::Report => report(rt, options, relation, left, right),
        Product::Pairs => pair_report(rt, options, relation, left, right),
        Product::Firsts => first_report(rt, options, relation, left, right),
        _ => listed(rt, product, options, relation, left, right),
    }
}

/// The report of the pairs with their matrices, which are decided as it is written.
fn report<R: AllocGlobal + Threads + Wait + Sync>(
    rt: &R,
    options: &Options,
    relation: &AnyRelation,
    left: &Layer<AnyGeometry>,
    right: &Layer<AnyGeometry>,
) -> Result<Text, RunFault>
    ensures ok { let joining = any_joining relation.now in
        let layers = both left.now.list right.now.list in
        IfOk result (λ text. HasProduct Product.Report joining layers (bytes_of_text text)) }
    ensures err { IfErr result IsLateFault }
{
    let outcome = meeting_layers(rt, left, right, options)?;
    matrix_report(
        rt,
        options.workers(),
        relation,
        left,
        right,
        outcome.pairs(),
    )
}

/// The report of the pairs alone, which are decided as it is written.
fn pair_report<R: AllocGlobal + Threads + Wait + Sync>(
    rt: &R,
    options: &Options,
    relation: &AnyRelation,
    left: &Layer<AnyGeometry>,
    right: &Layer<AnyGeometry>,
) -> Result<Text, RunFault>
    ensures ok { let joining = any_joining relation.now in
        let layers = both left.now.list right.now.list in
        IfOk result (λ text. HasProduct Product.Pairs joining layers (bytes_of_text text)) }
    ensures err { IfErr result IsLateFault }
{
    let outcome = meeting_layers(rt, left, right, options)?;
    let candidates = outcome.pairs();
    let condition = RelatedPairs::new(rt.alloc(), left, right, candidates, relation)?;
    let form = RefiningForm {
        condition: &condition,
        field: &NoField,
        workers: options.workers(),
    };
    let texts = report_refining(rt, &form, left, right, candidates)?;
    Ok(Text::Report(texts))
}

/// The report of the first pair of each left feature. All pairs are decided, and the matrices of
/// these alone are computed.
fn first_report<R: AllocGlobal + Threads + Wait + Sync>(
    rt: &R,
    options: &Options,
    relation: &AnyRelation,
    left: &Layer<AnyGeometry>,
    right: &Layer<AnyGeometry>,
) -> Result<Text, RunFault>
    ensures ok { let joining = any_joining relation.now in
        let layers = both left.now.list right.now.list in
        IfOk result (λ text. HasProduct Product.Firsts joining layers (bytes_of_text text)) }
    ensures err { IfErr result IsLateFault }
{
    let outcome = join_any_pairs(rt, left, right, relation, options)?;
    let firsts = first_pairs(rt.alloc(), outcome.matches.as_slice())?;
    matrix_report(
        rt,
        options.workers(),
        relation,
        left,
        right,
        firsts.as_slice(),
    )
}

/// The report, with their matrices, of those of these candidates that stand in the relation.
fn matrix_report<R: AllocGlobal + Threads + Sync>(
    rt: &R,
    workers: u32,
    relation: &AnyRelation,
    left: &Layer<AnyGeometry>,
    right: &Layer<AnyGeometry>,
    candidates: &[(u32, u32)],
) -> Result<Text, RunFault>
    requires workers { 0 < workers }
    requires near { let meet = StandIn BoxesMeet left.now.list right.now.list in
        All (IsPairIn (λ i j. meet (i, j))) candidates.now }
    ensures ok { let layers = both left.now.list right.now.list in
        let is = IsRelatedReport relation.now layers candidates.now in
        IfOk result (λ text. is (bytes_of_text text)) }
    ensures err { IfErr result IsLateFault }
{
    let condition = RelatedFeatures::new(rt.alloc(), left, right, candidates, relation)?;
    let form = RefiningForm {
        condition: &condition,
        field: &MatrixLetters,
        workers,
    };
    let texts = report_refining(rt, &form, left, right, candidates)?;
    Ok(Text::Report(texts))
}

/// The product without matrices, of pairs that are listed first.
fn listed<R: AllocGlobal + Threads + Wait + Sync>(
    rt: &R,
    product: Product,
    options: &Options,
    relation: &AnyRelation,
    left: &Layer<AnyGeometry>,
    right: &Layer<AnyGeometry>,
) -> Result<Text, RunFault>
    ensures ok { let joining = any_joining relation.now in
        let layers = both left.now.list right.now.list in
        IfOk result (λ text. IsPlainProduct product joining layers (bytes_of_text text)) }
    ensures err { IfErr result IsLateFault }
{
    let outcome = join_any_pairs(rt, left, right, relation, options)?;
    let matches = outcome.matches.as_slice();
    plain_product(rt, product, options.workers(), left, right, matches)
}
