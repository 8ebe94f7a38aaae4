//! Questions to a map.

use crate::points::Rect;
use owned_data::Text;

/// A question: what is shown in a rectangle at a zoom of at most 22, the points of interest of a category
/// in a rectangle, the places and streets whose name begins so, the houses of a street, or the roads and
/// turn restrictions in a rectangle.
#[derive(Debug, Drop)]
pub enum Query {
    View { rect: Rect, zoom: u8 },
    Category { category: Text, rect: Rect },
    Prefix { text: Text },
    Street { text: Text },
    Roads { rect: Rect },
}
