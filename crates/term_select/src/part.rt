//! What is selected below a node.

ghost use Rattle.std.specs.Prelude.{◌≡◌, []};

use dom_core::Cube;
use game_tree::Tree;
use lin_term::{Lit, Point};
use sqlite_items::Items;
use std::alloc::Global;

/// What is selected below a node: a cube over the positions before it, the tree of the player who selects from there on, and
/// the number of the next node.
#[derive(Drop)]
pub struct Part {
    pub cube: Cube,
    pub tree: Tree,
    pub next: u32,
}

/// What is selected below a node whose variable has a value: the cube has that variable too, and the point has the values of
/// the nodes down to it.
#[derive(Drop)]
pub struct LowerPart {
    pub part: Part,
    pub here: Point,
}

/// A number past the cap, with the position at which it was formed.
#[derive(Clone, Copy, Drop)]
pub struct Stop {
    pub var: u32,
    pub number: i128,
}

/// The literals and the trees of the branches so far, in order, and the number of the next node.
#[derive(Drop)]
pub struct Met {
    pub lits: Items<Lit>,
    pub trees: Vec<Tree>,
    pub next: u32,
}

impl Met {
    /// No branch yet.
    pub fn none(alloc: Global, next: u32) -> Met
        ensures lits { result.lits ≡ [] }
        ensures trees { result.trees.items ≡ [] }
        ensures next { result.next ≡ next }
    {
        Met {
            lits: Items::new(alloc),
            trees: Vec::new(alloc),
            next,
        }
    }
}
