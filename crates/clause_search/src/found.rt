//! How the search of a goal ends.

use cube_elim::WideCube;
use dom_core::Domain;
use lin_term::Point;

/// A point that solves the system, that lines were added which close the goal's context, or a wide cube.
#[derive(Drop)]
pub enum Found<D: Domain> {
    Point(Point),
    Refuted,
    Wide(WideCube<D>),
}
