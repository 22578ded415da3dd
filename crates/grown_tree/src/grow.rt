//! A tree takes the paths of another over: what is new gets the number of the new version.

ghost use Rattle.std.specs.Prelude.{◌≡◌, ◌<◌, ℕ, [], ◌∷◌, ◌++◌, IsTrue, not};
ghost use Rattle.dom_core.specs.declared.Quant.TheVariants.{Exists};
ghost use Rattle.dom_core.specs.declared.Quant.{Quant as QuantValue};
ghost use Rattle.std.specs.Prelude.{List};
ghost use Rattle.game_tree.specs.declared.Tree.TheVariants.{Mine as mine_tree};
ghost use Rattle.game_tree.specs.Union.{put_branch, with_paths};
ghost use Rattle.game_tree.specs.Skeleton.{mine};
ghost use Rattle.game_tree.specs.View.{skeleton_of, branches_of};
ghost use Rattle.grown_tree.specs.Fitting.{Fits, EachFits};
ghost use Rattle.grown_tree.specs.Shown.{shown, visible, all_shown, is_sound, are_sound};

use crate::marks::{Mark, Marks};
use crate::node::Node;
use crate::slots::Slots;
use dom_core::Quant;
use game_tree::{Branch, Tree};
use std::alloc::Global;

/// The moves of a node, and what stands below each.
fn parts(alloc: Global, node: Node) -> (Marks, Slots<Node>)
    ensures sound { (n : ℕ) → IsTrue (is_sound n node) → IsTrue (are_sound n result.0 result.1) }
    ensures shown { (v : ℕ) (qs : List QuantValue) → shown v node (Exists ∷ qs) ≡ mine_tree (visible v result.0 (all_shown v result.1 qs)) }
{
    match node {
        Node::End => return (Marks::new(alloc), Slots::new(alloc)),
        Node::Mine(marks, below) => return (marks, below),
    }
}

/// A new move with what stands below it; where memory does not suffice, nothing changes.
fn add(
    alloc: Global,
    marks: &mut Marks,
    below: &mut Slots<Node>,
    branch: &Branch,
    node: Node,
    stamp: u32,
) -> bool
    ensures added { IsTrue result → marks.new ≡ marks.old ++ (record { term = branch.now.term; since = stamp }) ∷ [] }
    ensures below { IsTrue result → below.new ≡ below.old ++ node ∷ [] }
    ensures marks_kept { IsTrue (not result) → marks.new ≡ marks.old }
    ensures below_kept { IsTrue (not result) → below.new ≡ below.old }
{
    let Ok(term) = branch.term.copy(alloc) else {
        return false;
    };
    if below.push(node).is_err() {
        return false;
    }
    let mark = Mark { term, since: stamp };
    if marks.push(mark).is_err() {
        let _node = below.pop();
        return false;
    }
    true
}

/// The node with the paths of the tree along the rest of the prefix, new moves with this number, and whether memory
/// sufficed; where it did not, some of the new moves may be missing. It calls itself once a variable of the prefix.
#[cycle(grow)]
pub fn grow(alloc: Global, node: Node, prefix: &[Quant], tree: &Tree, stamp: u32) -> (Node, bool)
    requires sound { IsTrue (is_sound stamp node) }
    requires fits { Fits (skeleton_of tree.now) prefix.now }
    ensures sound { IsTrue (is_sound stamp result.0) }
    ensures old { (v : ℕ) → v < stamp → shown v result.0 prefix.now ≡ shown v node prefix.now }
    ensures new { IsTrue result.1 → skeleton_of (shown stamp result.0 prefix.now) ≡ with_paths (skeleton_of tree.now) (skeleton_of (shown stamp node prefix.now)) }
{
    match prefix {
        [] => (node, true),
        [Quant::Forall, rest @ ..] => match tree {
            Tree::Theirs(below) => grow(alloc, node, rest, below.get(), stamp),
            _ => (node, true),
        },
        [Quant::Exists, rest @ ..] => match tree {
            Tree::Mine(branches) => grow_all(alloc, node, rest, branches.as_slice(), stamp),
            _ => (node, true),
        },
    }
}

/// The same for all branches of a node.
#[cycle(grow)]
fn grow_all(
    alloc: Global,
    node: Node,
    rest: &[Quant],
    branches: &[Branch],
    stamp: u32,
) -> (Node, bool)
    requires sound { IsTrue (is_sound stamp node) }
    requires fits { EachFits (branches_of branches.now) rest.now }
    ensures sound { IsTrue (is_sound stamp result.0) }
    ensures old { (v : ℕ) → v < stamp → shown v result.0 (Exists ∷ rest.now) ≡ shown v node (Exists ∷ rest.now) }
    ensures new { IsTrue result.1 → skeleton_of (shown stamp result.0 (Exists ∷ rest.now)) ≡ with_paths (mine (branches_of branches.now)) (skeleton_of (shown stamp node (Exists ∷ rest.now))) }
{
    let (marks, below) = parts(alloc, node);
    let mut marks = marks;
    let mut below = below;
    for branch in branches {
        let done = grow_branch(alloc, &mut marks, &mut below, rest, branch, stamp);
        if !done {
            return (Node::Mine(marks, below), false);
        }
    }
    (Node::Mine(marks, below), true)
}

/// One branch goes below its move, which is added behind the others if it is new; whether memory sufficed.
#[cycle(grow)]
fn grow_branch(
    alloc: Global,
    marks: &mut Marks,
    below: &mut Slots<Node>,
    rest: &[Quant],
    branch: &Branch,
    stamp: u32,
) -> bool
    requires sound { IsTrue (are_sound stamp marks.old below.old) }
    requires fits { Fits (skeleton_of branch.now.rest) rest.now }
    ensures sound { IsTrue (are_sound stamp marks.new below.new) }
    ensures old { (v : ℕ) → v < stamp → visible v marks.new (all_shown v below.new rest.now) ≡ visible v marks.old (all_shown v below.old rest.now) }
    ensures new { IsTrue result → branches_of (visible stamp marks.new (all_shown stamp below.new rest.now)) ≡ put_branch branch.now.term (λ S. with_paths (skeleton_of branch.now.rest) S) (skeleton_of branch.now.rest) (branches_of (visible stamp marks.old (all_shown stamp below.old rest.now))) }
{
    match marks.find(&branch.term) {
        Some(place) => {
            let old = below.replace(place, Node::End);
            let (new, done) = grow(alloc, old, rest, &branch.rest, stamp);
            below.set(place, new);
            return done;
        }
        None => {
            let (new, done) = grow(alloc, Node::End, rest, &branch.rest, stamp);
            if !done {
                return false;
            }
            return add(alloc, marks, below, branch, new, stamp);
        }
    }
}
