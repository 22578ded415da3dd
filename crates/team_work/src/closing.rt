//! Where a game that is played alone ends.

use dom_core::Side;

/// Why no further turn is taken.
#[derive(Clone, Copy, Debug, PartialEq, Eq, Drop)]
pub enum Closing {
    /// The side has won.
    Won(Side),
    /// Neither side has work.
    Blocked,
    /// A counter came when the budget of rounds was spent.
    Spent,
    /// The union with a counter has so many nodes, more than 1,048,576.
    TooLarge(u64),
}
