//! How the search below a level ends.

use lin_term::{Point, Wide};

/// The point that a cube determines, that lines were added which close it, or a number past the cap.
#[derive(Drop)]
pub(crate) enum Found {
    Point(Point),
    Refuted,
    Wide(Wide),
}
