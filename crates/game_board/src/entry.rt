//! What happened in a game.

use crate::why::Wideness;
use dom_core::{Domain, Side};
use game_tree::Skeleton;

/// One entry of a history. The first four are of the side that plays a counter and name a version of the other side;
/// `paths` is the counter.
#[derive(Drop)]
pub enum Entry<D: Domain> {
    /// The union of the newest version and the counter is the version of number `made`.
    Added {
        side: Side,
        version: u32,
        paths: Skeleton<D>,
        made: u32,
    },
    /// The newest version has every path of the counter.
    Held {
        side: Side,
        version: u32,
        paths: Skeleton<D>,
    },
    /// The budget of rounds is spent.
    Spent {
        side: Side,
        version: u32,
        paths: Skeleton<D>,
    },
    /// The union has this number of nodes, more than 1,048,576.
    TooLarge {
        side: Side,
        version: u32,
        paths: Skeleton<D>,
        nodes: u64,
    },
    /// The side's version is not attacked further.
    Noted {
        side: Side,
        version: u32,
        why: Wideness<D>,
    },
    /// The losing system of the side's version has no solution.
    Won {
        side: Side,
        version: u32,
    },
    /// That of this skeleton of the side, which need be no version, has none.
    Found {
        side: Side,
        tree: Skeleton<D>,
    },
}
