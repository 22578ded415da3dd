//! What is found out of a cube.

use crate::wide_cube::WideCube;
use cube_rules::Step;
use dom_core::Domain;
use lin_term::Point;
use sqlite_items::Items;

/// A point at which a cube holds, lines that close its bare context, or that it is wide.
#[derive(Drop)]
pub enum Decided<D: Domain> {
    /// A value for each variable.
    Point(Point),
    /// The lines of a proof.
    Refuted(Items<Step>),
    /// A cube of literals of the given one, and its number past the cap.
    Wide(WideCube<D>),
}
