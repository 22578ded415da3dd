//! Whether a tree follows a prefix, within the limit of nodes.

ghost use Rattle.std.specs.Prelude.{◌≡◌, ◌↔◌, ◌+◌, ◌<◌, ◌≤◌, ℕ, [], IsTrue, MatchOption, length};
ghost use Rattle.lin_term.specs.declared.Sort.{Sort};
ghost use Rattle.lin_term.specs.Linear.{BelowTerms};
ghost use Rattle.game_tree.specs.Skeleton.{IsMoveAt, IsNew, IsSomeBranch, Follows, EachFollows, nodes, branch_nodes, node_limit};
ghost use Rattle.game_tree.specs.Distinct.{AreDistinct};
ghost use Rattle.game_tree.specs.View.{skeleton_of, branches_of};

use crate::tree::{Branch, Tree};
use dom_core::Quant;
use lin_term::{Move, Sort};

/// The greatest number of nodes of a skeleton that is played: 1,048,576.
const NODES: u64 = 1_048_576;

/// Whether all variables are below k.
fn is_below(coefs: &[(u32, i64)], k: u32) -> bool
    ensures { IsTrue result ↔ BelowTerms k coefs.now }
{
    for term in coefs {
        if term.0 >= k {
            return false;
        }
    }
    true
}

/// Whether a move may stand at the variable at position k.
fn is_move_at(sort: Sort, term: &Move, k: u32) -> bool
    ensures { IsTrue result ↔ IsMoveAt sort k term.now }
{
    let row = term.row();
    let coefs = row.coefs();
    // What is read of a move says that it is one.
    let _constant = row.constant_part();
    let _div = term.div();
    if !is_below(coefs, k) {
        return false;
    }
    term.is_kept(sort)
}

/// Whether none of the branches has this move.
fn is_new(term: &Move, others: &[Branch]) -> bool
    ensures { IsTrue result ↔ IsNew term.now (branches_of others.now) }
{
    for other in others {
        if term.is_same(&other.term) {
            return false;
        }
    }
    true
}

/// Whether no two of the branches have the same move. Each is compared to those behind it, which takes no memory.
fn are_distinct(branches: &[Branch]) -> bool
    ensures { IsTrue result ↔ AreDistinct (branches_of branches.now) }
{
    for i in 0..branches.len() {
        if !is_new(&branches[i].term, &branches[i + 1..]) {
            return false;
        }
    }
    true
}

fn is_end(tree: &Tree) -> bool
    ensures { (sort : Sort) (k : ℕ) → IsTrue result ↔ Follows (skeleton_of tree.now) sort [] k }
{
    match tree {
        Tree::End => true,
        _ => false,
    }
}

/// Whether the tree follows the rest of a prefix from position k on. It calls itself once a variable of the prefix.
#[cycle(follows)]
pub fn follows(sort: Sort, tree: &Tree, prefix: &[Quant], k: u32) -> bool
    requires { k + length prefix.now ≤ 1024 }
    ensures { IsTrue result ↔ Follows (skeleton_of tree.now) sort prefix.now k }
{
    match prefix {
        [] => is_end(tree),
        [Quant::Forall, rest @ ..] => match tree {
            Tree::Theirs(below) => follows(sort, below.get(), rest, k + 1),
            _ => false,
        },
        [Quant::Exists, rest @ ..] => match tree {
            Tree::Mine(branches) => branches_follow(sort, branches.as_slice(), rest, k),
            _ => false,
        },
    }
}

/// The same of the branches of a node at position k, of which there must be one.
#[cycle(follows)]
fn branches_follow(sort: Sort, branches: &[Branch], rest: &[Quant], k: u32) -> bool
    requires { k + 1 + length rest.now ≤ 1024 }
    ensures { IsTrue result ↔ IsSomeBranch (branches_of branches.now) × EachFollows (branches_of branches.now) sort rest.now k }
{
    if branches.is_empty() {
        return false;
    }
    if !are_distinct(branches) {
        return false;
    }
    for branch in branches {
        if !is_move_at(sort, &branch.term, k) {
            return false;
        }
        if !follows(sort, &branch.rest, rest, k + 1) {
            return false;
        }
    }
    true
}

/// How many nodes are left of so many; none where the tree has more.
#[cycle(room)]
fn room_left(tree: &Tree, room: u64) -> Option<u64>
    ensures { MatchOption result (room < nodes (skeleton_of tree.now)) (λ left. left + nodes (skeleton_of tree.now) ≡ room) }
{
    match tree {
        Tree::End => Some(room),
        Tree::Theirs(rest) => {
            if room == 0 {
                return None;
            }
            room_left(rest.get(), room - 1)
        }
        Tree::Mine(branches) => branch_room_left(branches.as_slice(), room),
    }
}

/// The same of the branches of a node.
#[cycle(room)]
fn branch_room_left(branches: &[Branch], room: u64) -> Option<u64>
    ensures { MatchOption result (room < branch_nodes (branches_of branches.now)) (λ left. left + branch_nodes (branches_of branches.now) ≡ room) }
{
    let mut left = room;
    for branch in branches {
        if left == 0 {
            return None;
        }
        match room_left(&branch.rest, left - 1) {
            Some(more) => left = more,
            None => return None,
        }
    }
    Some(left)
}

/// Whether the tree has at most 1,048,576 nodes.
pub fn is_within_limit(tree: &Tree) -> bool
    ensures { IsTrue result ↔ (nodes (skeleton_of tree.now) ≤ node_limit) }
{
    match room_left(tree, NODES) {
        Some(_) => true,
        None => false,
    }
}
