//! Whether the newest version has every path of a tree.

ghost use Rattle.std.specs.Prelude.{◌≡◌, ◌↔◌, ◌∷◌, IsTrue};
ghost use Rattle.dom_core.specs.declared.Quant.TheVariants.{Exists};
ghost use Rattle.game_tree.specs.Full.{IsDistinctTree, AreDistinctTrees, IsFullTree, AreFullTrees, AllIn};
ghost use Rattle.game_tree.specs.Skeleton.{mine};
ghost use Rattle.game_tree.specs.Union.{In};
ghost use Rattle.game_tree.specs.View.{skeleton_of, branches_of};
ghost use Rattle.grown_tree.specs.Shown.{shown, all_shown, visible, is_sound, are_sound};

use crate::marks::Marks;
use crate::node::Node;
use dom_core::Quant;
use game_tree::{Branch, Tree};

/// Whether each path of the part is a path of the newest version. It calls itself once a variable of the prefix, and takes
/// no memory.
#[cycle(having)]
pub fn has_all(node: &Node, prefix: &[Quant], version: u32, part: &Tree) -> bool
    requires sound { IsTrue (is_sound version node.now) }
    requires distinct { IsDistinctTree (skeleton_of (shown version node.now prefix.now)) }
    requires full { IsFullTree (skeleton_of part.now) }
    ensures { IsTrue result ↔ In (skeleton_of part.now) (skeleton_of (shown version node.now prefix.now)) }
{
    match prefix {
        [] => match part {
            Tree::End => return true,
            _ => return false,
        },
        [Quant::Forall, rest @ ..] => match part {
            Tree::Theirs(below) => return has_all(node, rest, version, below.get()),
            _ => return false,
        },
        [Quant::Exists, rest @ ..] => match part {
            Tree::Mine(branches) => return have_all(node, rest, version, branches.as_slice()),
            _ => return false,
        },
    }
}

/// The same of the branches of a node.
#[cycle(having)]
fn have_all(node: &Node, rest: &[Quant], version: u32, branches: &[Branch]) -> bool
    requires sound { IsTrue (is_sound version node.now) }
    requires distinct { IsDistinctTree (skeleton_of (shown version node.now (Exists ∷ rest.now))) }
    requires full { IsFullTree (mine (branches_of branches.now)) }
    ensures { IsTrue result ↔ In (mine (branches_of branches.now)) (skeleton_of (shown version node.now (Exists ∷ rest.now))) }
{
    match node {
        Node::End => return false,
        Node::Mine(marks, below) => return have_marked(
            marks,
            below.as_slice(),
            rest,
            version,
            branches,
        ),
    }
}

/// The same, with the moves of the node.
#[cycle(having)]
fn have_marked(
    marks: &Marks,
    below: &[Node],
    rest: &[Quant],
    version: u32,
    branches: &[Branch],
) -> bool
    requires sound { IsTrue (are_sound version marks.now below.now) }
    requires distinct { AreDistinctTrees (branches_of (visible version marks.now (all_shown version below.now rest.now))) }
    requires full { AreFullTrees (branches_of branches.now) }
    ensures { IsTrue result ↔ AllIn (branches_of branches.now) (branches_of (visible version marks.now (all_shown version below.now rest.now))) }
{
    for branch in branches {
        match marks.find(&branch.term) {
            None => return false,
            Some(place) => {
                if !has_all(&below[place], rest, version, &branch.rest) {
                    return false;
                }
            }
        }
    }
    true
}
