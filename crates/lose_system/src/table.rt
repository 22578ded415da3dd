//! The nodes of a skeleton in preorder, each with the node above it: an array in place of the tree, so that a node and a
//! path are found at once. It takes 16 bytes a node and 4 a path.

ghost use Rattle.std.specs.Prelude.{◌≡◌, ◌+◌, ◌≤◌, ◌<◌, ◌^◌, ◌++◌, length, OnOk};
ghost use Rattle.game_tree.specs.Skeleton.{nodes, branch_nodes};
ghost use Rattle.game_tree.specs.View.{skeleton_of, branches_of};
ghost use Rattle.lose_system.specs.Table.{places_of, places, branch_places, leaves, branch_leaves};

use game_tree::{Branch, Tree};
use lin_term::{Memory, Move};
use sqlite_items::Items;

/// A node: its move, none at a variable of the other player; the position of its variable in the prefix; and the node
/// above it, where there is one.
#[derive(Clone, Copy)]
pub struct Node<'a> {
    pub term: Option<&'a Move>,
    pub depth: u32,
    pub above: u32,
}

/// Adds the nodes of the tree from position `depth` on, below node `above`, and the last nodes of its paths.
#[cycle(fill)]
pub fn fill<'a>(
    list: &mut Items<Node<'a>>,
    ends: &mut Items<u32>,
    tree: &'a Tree,
    depth: u32,
    above: u32,
) -> Result<(), Memory>
    requires few { length list.old + nodes (skeleton_of tree.now) ≤ 2 ^ 20 }
    requires deep { depth ≤ length list.old }
    ensures nodes { OnOk result (places_of list.new ≡ places_of list.old ++ places (skeleton_of tree.now) depth above (length list.old)) }
    ensures ends { OnOk result (ends.new ≡ ends.old ++ leaves (skeleton_of tree.now) above (length list.old)) }
{
    match tree {
        Tree::End => {
            ends.push(above)?;
            Ok(())
        }
        Tree::Theirs(rest) => {
            let number = list.len() as u32;
            list.push(Node {
                term: None,
                depth,
                above,
            })?;
            fill(list, ends, rest.get(), depth + 1, number)
        }
        Tree::Mine(branches) => fill_branches(list, ends, branches.as_slice(), depth, above),
    }
}

/// Adds the nodes of the branches, one branch after the other.
#[cycle(fill)]
fn fill_branches<'a>(
    list: &mut Items<Node<'a>>,
    ends: &mut Items<u32>,
    branches: &'a [Branch],
    depth: u32,
    above: u32,
) -> Result<(), Memory>
    requires few { length list.old + branch_nodes (branches_of branches.now) ≤ 2 ^ 20 }
    requires deep { depth ≤ length list.old }
    ensures nodes { OnOk result (places_of list.new ≡ places_of list.old ++ branch_places (branches_of branches.now) depth above (length list.old)) }
    ensures ends { OnOk result (ends.new ≡ ends.old ++ branch_leaves (branches_of branches.now) above (length list.old)) }
{
    for branch in branches {
        let number = list.len() as u32;
        list.push(Node {
            term: Some(&branch.term),
            depth,
            above,
        })?;
        fill(list, ends, &branch.rest, depth + 1, number)?;
    }
    Ok(())
}
