//! The distance of a feature of a layer from a geometry.

ghost use Rattle.std.specs.Prelude.{◌≡◌, IfOk};
ghost use Rattle.distance_core.specs.Queries.{within_of, IsInReach};
ghost use Rattle.distance_core.specs.Units.{units_of};
ghost use Rattle.nearest_core.specs.Limits.{limit_of};
ghost use Rattle.nearest_core.specs.Steps.{IsBoxOf, IsMeasuredAs};

use crate::prepared::PreparedLayer;
use crate::sought::Sought;
use distance_core::{Distance, MAX_DISTANCE, Query, SquaredDistance};
use planar_core::{Forms, Planar};
use std::alloc::{AllocError, Global};

/// The square of the distance of the feature with this number, if it is in reach. `square` is that
/// of the boxes.
pub(crate) fn square_of<G: Planar>(
    alloc: Global,
    right: &PreparedLayer<'_, G>,
    number: u32,
    square: SquaredDistance,
    sought: &Sought<'_, G>,
) -> Result<Option<G::Square>, AllocError>
    requires boxes { IsBoxOf G.box_of right.now sought.now.geometry.now
        (record { square = square; number = number }) }
    requires form { G.is_form sought.now.geometry.now sought.now.form.now }
    requires reach { IsInReach (within_of sought.now.query.now) square }
    ensures { IfOk result (IsMeasuredAs G.Square.fraction G.has_point sought.now.query.now right.now
        sought.now.geometry.now number) }
{
    if let Some(known) = G::square_of_boxes(square) {
        return Ok(Some(known));
    }
    let Some(geometry) = right.shape(number) else {
        return Ok(None);
    };
    let forms = Forms {
        first: Some(sought.form),
        second: right.prepared(number),
    };
    let limit = limit_for(sought.query);
    G::square_within(alloc, sought.geometry, geometry, forms, limit)
}

/// The distance of a query, or the greatest distance if it has none: no two geometries are further
/// apart.
fn limit_for(query: &Query) -> Distance
    ensures { units_of result ≡ limit_of query.now }
{
    match query.within().or(Distance::new(MAX_DISTANCE)) {
        Some(distance) => distance,
        None => unreachable!(),
    }
}
