//! The lines of a tree in the file: the first one that is the node past the limit or has a move that is not kept.

ghost use Rattle.std.specs.Prelude.{◌≡◌, ◌+◌, ◌*◌, ◌-◌, ◌<◌, ◌≤◌, ◌^◌, ◌&&◌, nat_lt, IfNone};
ghost use Rattle.game_tree.specs.Skeleton.{nodes, branch_nodes, node_limit};
ghost use Rattle.game_tree.specs.View.{skeleton_of, branches_of};
ghost use Rattle.strat_check.specs.Section.{is_kept, tree_lines, branch_lines, bad_move, bad_branch};

use game_tree::{Branch, Tree};
use lin_term::{Move, Sort};

/// The greatest number of nodes of a tree.
const NODES: u64 = 1_048_576;

/// A line of the file, and how many nodes of the tree lie before it.
#[derive(Clone, Copy)]
pub struct Spot {
    pub line: u64,
    pub before: u64,
}

/// Whether a node behind so many others may have this move.
fn is_fit(sort: Sort, term: &Move, before: u64) -> bool
    ensures { result ≡ (nat_lt before node_limit && is_kept sort term.now) }
{
    if before >= NODES {
        return false;
    }
    term.is_kept(sort)
}

/// The line behind, and one more node.
fn next(at: Spot) -> Spot
    requires line { at.line < 2 ^ 64 - 1 }
    requires before { at.before < 2 ^ 64 - 1 }
    ensures line { result.line ≡ at.line + 1 }
    ensures before { result.before ≡ at.before + 1 }
{
    Spot {
        line: at.line + 1,
        before: at.before + 1,
    }
}

/// The first bad line of the tree that begins here; where there is none, `at` stands behind the tree.
#[cycle(walk)]
pub fn bad_line(sort: Sort, tree: &Tree, at: &mut Spot) -> Option<u64>
    requires few { at.old.before ≤ 2 ^ 20 }
    requires room { at.old.line + 1 ≤ 2 ^ 63 + 8 + 2 * at.old.before }
    ensures bad { result ≡ bad_move (skeleton_of tree.now) sort at.old.line at.old.before }
    ensures line { IfNone result (at.new.line ≡ at.old.line + tree_lines (skeleton_of tree.now)) }
    ensures before { IfNone result (at.new.before ≡ at.old.before + nodes (skeleton_of tree.now)) }
    ensures few { at.new.before ≤ 2 ^ 20 }
{
    match tree {
        Tree::End => None,
        Tree::Theirs(rest) => {
            if at.before >= NODES {
                return Some(at.line);
            }
            *at = next(*at);
            bad_line(sort, rest.get(), at)
        }
        Tree::Mine(branches) => {
            at.line += 1;
            bad_branch(sort, branches.as_slice(), at)
        }
    }
}

/// The same of the branches of a node.
#[cycle(walk)]
fn bad_branch(sort: Sort, branches: &[Branch], at: &mut Spot) -> Option<u64>
    requires few { at.old.before ≤ 2 ^ 20 }
    requires room { at.old.line ≤ 2 ^ 63 + 8 + 2 * at.old.before }
    ensures bad { result ≡ bad_branch (branches_of branches.now) sort at.old.line at.old.before }
    ensures line { IfNone result (at.new.line ≡ at.old.line + branch_lines (branches_of branches.now)) }
    ensures before { IfNone result (at.new.before ≡ at.old.before + branch_nodes (branches_of branches.now)) }
    ensures few { at.new.before ≤ 2 ^ 20 }
{
    for branch in branches {
        if !is_fit(sort, &branch.term, at.before) {
            return Some(at.line);
        }
        *at = next(*at);
        if let Some(line) = bad_line(sort, &branch.rest, at) {
            return Some(line);
        }
    }
    None
}
