//! The shapes of an object.

ghost use Rattle.std.specs.Prelude.{◌≡◌};
ghost use Rattle.std.specs.Ordering.{int_eq};
ghost use Rattle.live_model.specs.Geometry.{is_closed, kind_shapes};

use live_model::{Entity, Kind, Shape};

static POINT: [Shape; 1] = [Shape::Point];

static LINE: [Shape; 1] = [Shape::Line];

static LINE_AND_AREA: [Shape; 2] = [Shape::Line, Shape::Area];

static NOTHING: [Shape; 0] = [];

/// Whether a way with these references is closed: there are at least four, and the last is the first again.
pub fn is_closed(refs: &[i64]) -> bool
    ensures { result ≡ is_closed refs.now }
{
    match refs {
        [first, _, _, .., last] => are_same(first, last),
        _ => false,
    }
}

/// The shapes that an object is drawn as, if it has points: a node is a point, an open way a line, and a
/// closed way a line and an area. A relation has none.
pub fn shapes(entity: &Entity) -> &'static [Shape]
    ensures { result.now ≡ kind_shapes entity.now.id.kind entity.now.refs }
{
    match entity.id.kind() {
        Kind::Node => &POINT,
        Kind::Way => {
            if is_closed(entity.refs.as_slice()) {
                &LINE_AND_AREA
            } else {
                &LINE
            }
        }
        Kind::Relation => &NOTHING,
    }
}

fn are_same(a: &i64, b: &i64) -> bool
    ensures { result ≡ int_eq a.now b.now }
{
    a == b
}
