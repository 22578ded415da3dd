//! What a way offers.

use cube_rules::Step;
use lin_term::Point;
use sqlite_items::Items;

/// What a way offers. Nothing is known of it: a point is to be tested by `System::is_solved_by`, lines by `check`.
#[derive(Drop)]
pub enum Candidate {
    /// A point that may solve the system.
    Point(Point),
    /// Lines that may refute it.
    Steps(Items<Step>),
}
