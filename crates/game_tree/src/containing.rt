//! Whether a tree has every path of another.

ghost use Rattle.std.specs.Prelude.{◌≡◌, ◌<◌, ◌↔◌, IsTrue, IfOk, IfSome, length};
ghost use Rattle.game_tree.specs.Union.{In};
ghost use Rattle.game_tree.specs.View.{skeleton_of, branches_of};
ghost use Rattle.game_tree.specs.Full.{IsDistinctTree, AreDistinctTrees, IsFullTree, AreFullTrees, AllIn};
ghost use Rattle.game_tree.specs.Gather.{place as place_of, moves_of};
ghost use Rattle.game_tree.specs.Known.{Knows};

use crate::key::MoveKey;
use crate::places::{first_place, known_places};
use crate::tree::{Branch, Tree};
use lin_term::Move;
use std::alloc::{AllocError, Global};
use std::collections::BTreeMap;

/// The first place of the move: by what is known, and one by one where memory was refused for that.
fn place_in<'a>(
    known: &Result<BTreeMap<MoveKey<'a>, usize>, AllocError>,
    branches: &'a [Branch],
    term: &'a Move,
) -> Option<usize>
    requires { IfOk known.now (λ map. Knows map (moves_of branches.now)) }
    ensures value { result ≡ place_of term.now (moves_of branches.now) }
    ensures within { IfSome result (λ i. i < length branches.now) }
{
    match known {
        Ok(places) => match places.get(&MoveKey { term }) {
            Some(place) => return Some(*place),
            None => return None,
        },
        Err(_) => return first_place(branches, term),
    }
}

/// Whether each path of the part is a path of the whole.
#[cycle(contains)]
pub fn has_paths<'a>(alloc: Global, whole: &'a Tree, part: &'a Tree) -> bool
    requires distinct { IsDistinctTree (skeleton_of whole.now) }
    requires full { IsFullTree (skeleton_of part.now) }
    ensures { IsTrue result ↔ In (skeleton_of part.now) (skeleton_of whole.now) }
{
    match whole {
        Tree::End => match part {
            Tree::End => true,
            _ => false,
        },
        Tree::Theirs(rest) => match part {
            Tree::Theirs(other) => has_paths(alloc, rest.get(), other.get()),
            _ => false,
        },
        Tree::Mine(branches) => match part {
            Tree::Mine(others) => have_paths(alloc, branches.as_slice(), others.as_slice()),
            _ => false,
        },
    }
}

/// The same of the branches of a node.
#[cycle(contains)]
fn have_paths<'a>(alloc: Global, branches: &'a [Branch], others: &'a [Branch]) -> bool
    requires distinct { AreDistinctTrees (branches_of branches.now) }
    requires full { AreFullTrees (branches_of others.now) }
    ensures { IsTrue result ↔ AllIn (branches_of others.now) (branches_of branches.now) }
{
    let known = known_places(alloc, branches);
    have_known_paths(alloc, &known, branches, others)
}

/// The same, with what is known of the places of the first branches.
#[cycle(contains)]
fn have_known_paths<'a>(
    alloc: Global,
    known: &Result<BTreeMap<MoveKey<'a>, usize>, AllocError>,
    branches: &'a [Branch],
    others: &'a [Branch],
) -> bool
    requires known { IfOk known.now (λ map. Knows map (moves_of branches.now)) }
    requires distinct { AreDistinctTrees (branches_of branches.now) }
    requires full { AreFullTrees (branches_of others.now) }
    ensures { IsTrue result ↔ AllIn (branches_of others.now) (branches_of branches.now) }
{
    for other in others {
        match place_in(known, branches, &other.term) {
            None => return false,
            Some(place) => {
                if !has_paths(alloc, &branches[place].rest, &other.rest) {
                    return false;
                }
            }
        }
    }
    true
}
