//! The last field of the records of a report: what it says of a pair of features besides the ids.

use layer_core::{Geometry, Layer};
use refine_core::AsPair;
use std::alloc::AllocError;

/// The last field of a report's records, for matches `M` of features of two layers of `G`, or that
/// they have none.
pub trait LastField<G: Geometry, M: AsPair> {
    ghost use Rattle.std.specs.Prelude.{◌≡◌, ℕ, List, Option, OnOk};
    ghost use Rattle.layer_core.specs.Layers.{Contents};
    ghost use Rattle.report_core.specs.LastFields.{AddsLast};
    ghost use Rattle.report_core.specs.ReportRows.{name_in};

    /// The name of the column, in the header, or `None` if the records have the two ids alone.
    ghost name_of: { Self → Option (List ℕ) };

    /// The match is a pair of features of these two layers.
    ghost is_match: { Contents G → Contents G → M → Type 0 };

    /// The fields that two geometries may have.
    ghost is_field: { Self → G → G → List ℕ → Type 0 };

    /// The name of the column, in the header, if there is one.
    fn name(&self) -> Option<&'static str>
        ensures { name_in result ≡ name_of self.now };

    /// Adds the field of a match of these two layers, in quotes if it needs them; nothing if there
    /// is no such column.
    ///
    /// # Errors
    /// If an allocation fails.
    fn push_field(
        &self,
        text: &mut Vec<u8>,
        found: &M,
        left: &Layer<G>,
        right: &Layer<G>,
    ) -> Result<(), AllocError>
        requires { is_match left.now.list right.now.list found.now }
        // of each field: a field that the geometries of the match's features may have is added, in
        // quotes if it needs them; of two boxes, the letters of their matrix, by their corners
        // (`BoxLetters`); of two geometries of any kind, those of the matrix that comes with the
        // pair (`MatrixLetters`), which the caller has to be right about; nothing where there is no
        // column (`NoField`)
        ensures { let pair = M.pair_of found.now in
            let adds = AddsLast (name_of self.now) (is_field self.now) left.now.list
            right.now.list pair in
            OnOk result (adds text.old.items text.new.items) };

    /// Reads what [`LastField::push_field`] reads of the right layer, so that the processor fetches
    /// it. It is false if there is nothing to be fetched.
    fn fetch(&self, found: &M, right: &Layer<G>) -> bool;
}
