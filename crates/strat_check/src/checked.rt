//! What a section is worth.

use cube_rules::Rule;
use dom_core::Side;

/// The outcome of checking a section.
#[derive(Clone, Copy, Debug, PartialEq, Eq)]
pub enum Checked {
    /// The claim is proved: of Exists that the goal is true, of Forall that it is false.
    Accepted(Side),
    /// The section claims nothing.
    Unclaimed,
    /// The first line of the file that is not in order, counted from 1, and the rule that it breaks.
    Rejected { line: u64, rule: Rule },
}
