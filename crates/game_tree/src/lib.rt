//! Trees of moves: the written form of a player's strategy.
#![tactic(auto)]

mod containing;
mod counting;
mod following;
mod group;
mod key;
mod lent;
mod places;
mod same;
mod skeleton;
mod tree;
mod union;
mod zero;

pub use dom_core::Side;
pub use lent::SkeletonRef;
pub use skeleton::Skeleton;
pub use tree::{Branch, Tree};
pub use union::merge_trees;
