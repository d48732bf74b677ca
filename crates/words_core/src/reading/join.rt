//! Reading a join, and which output is asked for.

ghost use Rattle.std.specs.Prelude.{◌≡◌, ◌≢◌, codes, IfOk, IfErr, IfSome, IfNone, OnOk, OnErr};
ghost use Rattle.words_core.specs.Readings.{AllowsDisjointIn, ForbidsDisjointIn, HasJoinFault};
ghost use Rattle.words_core.specs.Readings.{HasReportFault, IsCommandIn, IsConditionIn, IsJoinIn};
ghost use Rattle.words_core.specs.Readings.{IsProductIn, NamesNoKind, found_in, is_flagged};
ghost use Rattle.words_core.specs.Readings.{name_of, product_in};

use super::arguments::{optional, required, usage_fault};
use super::geometries::{geometry_fault, named_geometries, read_scale};
use super::options::read_options;
use super::paths::read_paths;
use super::relation::read_relation;
use crate::condition::Condition;
use crate::words::{Command, JoinRequest, WordFault};
use clap::ArgMatches;
use pair_core::Product;
use relation_core::{AllowsDisjoint, Relation};
use std::alloc::Global;

/// Reads a join of which CSV is asked for.
pub fn read_join<'a>(alloc: Global, given: &ArgMatches<'a>) -> Result<Command<'a>, WordFault>
    ensures ok { IfOk result (IsCommandIn (codes "join") (found_in given.now)) }
    ensures err { IfErr result (λ f. f ≢ WordFault.Memory
        → HasReportFault (found_in given.now) f) }
{
    let Some(product) = asked_product(given) else {
        return Err(usage_fault(
            alloc,
            "error: --count and --unmatched can't be given with each other, --pairs or --first\n",
        ));
    };
    let join = read_request(alloc, given, product)?;
    Ok(Command::Join(join))
}

/// Reads a join of which a picture is asked for.
pub fn read_draw<'a>(alloc: Global, given: &ArgMatches<'a>) -> Result<Command<'a>, WordFault>
    ensures ok { IfOk result (IsCommandIn (codes "draw") (found_in given.now)) }
    ensures err { IfErr result (λ f. f ≢ WordFault.Memory → HasJoinFault (found_in given.now) f) }
{
    let join = read_request(alloc, given, Product::Picture)?;
    Ok(Command::Join(join))
}

/// What is asked for in place of a picture, or `None` where options are given that exclude each
/// other.
fn asked_product(given: &ArgMatches<'_>) -> Option<Product>
    ensures asked { result ≡ product_in (found_in given.now) }
    ensures names { IfSome result (λ product. (codes "join" ≡ name_of product)
        × IsProductIn (found_in given.now) product) }
{
    let pairs = is_flagged(given, "pairs");
    let first = is_flagged(given, "first");
    let count = is_flagged(given, "count");
    let unmatched = is_flagged(given, "unmatched");
    match (pairs, first, count, unmatched) {
        (false, false, false, false) => Some(Product::Report),
        (true, false, false, false) => Some(Product::Pairs),
        (false, true, false, false) => Some(Product::Firsts),
        (true, true, false, false) => Some(Product::FirstPairs),
        (false, false, true, false) => Some(Product::Counts),
        (false, false, false, true) => Some(Product::Unmatched),
        _ => None,
    }
}

/// Whether an option without a value is given.
fn is_flagged(given: &ArgMatches<'_>, name: &str) -> bool
    ensures { result ≡ is_flagged name.now (found_in given.now) }
{
    match optional(given, name) {
        Some(value) => value == "true",
        None => false,
    }
}

/// Reads a join with this product.
///
/// A relation that disjoint geometries of the kind asked for may fit is a fault that comes before
/// those of the options and of the scale; a fault of the kind itself comes after them.
fn read_request<'a>(
    alloc: Global,
    given: &ArgMatches<'a>,
    product: Product,
) -> Result<JoinRequest<'a>, WordFault>
    requires { IsProductIn (found_in given.now) product }
    ensures ok { IfOk result (IsJoinIn (found_in given.now)) }
    ensures product { IfOk result (λ join. join.product ≡ product) }
    ensures err { IfErr result (λ f. f ≢ WordFault.Memory → HasJoinFault (found_in given.now) f) }
{
    let paths = read_paths(alloc, given)?;
    let word = required(alloc, given, "relation")?;
    let relation = read_relation(alloc, word)?;
    let named = named_condition(given, relation)?;
    let (options, workers) = read_options(alloc, given)?;
    let scale = read_scale(alloc, given)?;
    match named {
        Some(condition) => Ok(JoinRequest {
            product,
            paths,
            condition,
            options,
            workers,
            scale,
        }),
        None => Err(geometry_fault(alloc, given)),
    }
}

/// The condition of a join by this relation, or `None` if the words name no kind of geometries.
fn named_condition(
    given: &ArgMatches<'_>,
    relation: Relation,
) -> Result<Option<Condition>, AllowsDisjoint>
    ensures ok { IfOk result (λ named. IfSome named (IsConditionIn (found_in given.now) relation)) }
    ensures none { IfOk result (λ named. IfNone named (NamesNoKind (found_in given.now))) }
    ensures forbids { OnOk result (ForbidsDisjointIn (found_in given.now) relation) }
    ensures err { OnErr result (AllowsDisjointIn (found_in given.now) relation) }
{
    match named_geometries(given) {
        Some(geometries) => {
            let condition = Condition::new(relation, geometries)?;
            Ok(Some(condition))
        }
        None => Ok(None),
    }
}
