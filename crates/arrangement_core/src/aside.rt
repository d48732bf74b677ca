//! Edges that share no point, since one lies on one side of the other's line.

ghost use Rattle.std.specs.Prelude.{◌≡◌};
ghost use Rattle.std.specs.List.{list_all};
ghost use Rattle.arrangement_core.specs.Aside.{are_aside};

use noding_core::is_aside;
use plane_core::Edge;

/// Whether one of two edges lies strictly on one side of the other's line.
#[inline]
fn are_aside(e: &Edge, f: &Edge) -> bool
    ensures { result ≡ are_aside e.now f.now }
{
    is_aside(e, f) || is_aside(f, e)
}

/// Whether that is so of an edge and each of some others.
pub(crate) fn is_aside_of_all(e: &Edge, others: &[Edge]) -> bool
    ensures { result ≡ list_all (λ f. are_aside e.now f) others.now }
{
    others.iter().all(|f| are_aside(e, f))
}
