//! The laws of the texts.

ghost use Rattle.std.specs.Prelude.{◌≡◌, List, ℕ};
ghost use Rattle.geom_core.specs.declared.shape.Shape.{Shape};
ghost use Rattle.wkt_core.specs.declared.keyword.Keyword.{Keyword};
ghost use Rattle.wkt_core.specs.declared.position.Position.{Position};
ghost use Rattle.number_core.specs.declared.scale.Scale.{Scale};
ghost use Rattle.wkt_core.specs.Grammar.{RawPoint, Raw};
ghost use Rattle.wkt_core.specs.Drawing.{Draws};
ghost use Rattle.wkt_core.specs.DrawnBefore.{DrewBefore};
ghost use Rattle.number_core.specs.declared.scale.Rounding.TheVariants.{Exact};
ghost use Rattle.number_core.specs.Scales.{digits_of, limits_of, rounding_of};
ghost use Rattle.wkt_core.specs.SpelledBefore.{SpelledBefore};
ghost use Rattle.wkt_core.specs.Spelling.{Spells};

/// A text has at most one raw form and spells at most one shape, at a given scale.
pub fn one_shape_law()
    // a text has at most one raw form at a scale
    ensures one_raw_form { (scale : Scale) (text : List ℕ) (k l : Keyword)
        (xs ys : List (List RawPoint)) → Raw scale text k xs → Raw scale text l ys
        → (k ≡ l) × (xs ≡ ys) }
    // it spells at most one shape at a scale
    ensures one_shape { (scale : Scale) (text : List ℕ) (s t : Shape)
        → Spells scale text s → Spells scale text t → s ≡ t }
{}

/// Lists of two and of five points that formed a shape before longer lists were read still form it.
#[tactic(auto, using(crate::proofs::DrawnLemmas::drawn_still))]
pub fn widened_law()
    // what lists of two and of five points draw alone is drawn the same by the rule that allows
    // more points
    ensures drawn_still { (keyword : Keyword) (ps : List Position) (s : Shape)
        → DrewBefore keyword ps s → Draws keyword ps s }
{}

/// A text that spelled a shape when numbers had to be integers of absolute value at most 10^9 still
/// spells it at scale 0.
#[tactic(auto, using(crate::proofs::MigrationLemmas::spelled_still))]
pub fn migration_law()
    // what a text spelled when numbers were whole and within 10^9, and lists had one, two or five
    // points, it spells at scale 0
    ensures spelled_still { (scale : Scale) (text : List ℕ) (s : Shape)
        → digits_of scale ≡ 0 → SpelledBefore text s → Spells scale text s }
{}

/// A text that spells a shape at a scale without rounding spells it with rounding, too.
pub fn rounding_law()
    // what a text spells at a scale without rounding it spells at one with it, of as many decimals
    // and the same limits
    ensures spelled_alike { (exact scale : Scale) (text : List ℕ) (s : Shape)
        → rounding_of exact ≡ Exact → digits_of scale ≡ digits_of exact
        → limits_of scale ≡ limits_of exact
        → Spells exact text s → Spells scale text s }
{}
