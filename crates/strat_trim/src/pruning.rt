//! A tree with the chosen paths alone.

ghost use Rattle.std.specs.Prelude.{◌≡◌, ◌+◌, ◌≤◌, ◌<◌, ◌^◌, ◌++◌, ◌∷◌, length, IfOk, OnOk};
ghost use Rattle.game_tree.specs.Skeleton.{nodes, branch_nodes, paths, branch_paths};
ghost use Rattle.game_tree.specs.View.{skeleton_of, branches_of};
ghost use Rattle.strat_trim.specs.Parts.{IsPart, Adds};
ghost use Rattle.strat_trim.specs.Trimmed.{marked, has_path, prune_branches, on_path, each_on_path, numbers};

use crate::choice::ask;
use crate::naming::is_marked;
use game_tree::{Branch, Tree};
use lin_term::Memory;
use sqlite_items::{Boxed, Items};
use std::alloc::Global;

/// The tree's chosen paths, where there are any. `path` is the number of its first path, and is left at the number behind
/// its last one; for each node a mark is added, whether a chosen path goes through it. It calls itself once a level, at
/// most 1,024 times, and refuses only for memory.
#[cycle(pruned)]
pub fn pruned(
    alloc: Global,
    tree: &Tree,
    chosen: &[bool],
    path: &mut usize,
    marks: &mut Items<bool>,
) -> Result<Option<Tree>, Memory>
    requires { path.old + length (paths (skeleton_of tree.now)) ≤ length chosen.now }
    ensures tree { IfOk result (λ o. IsPart o (skeleton_of tree.now) (marked chosen.now) path.old) }
    ensures marks { OnOk result (marks.new ≡ marks.old ++ on_path (skeleton_of tree.now) (marked chosen.now) path.old) }
    ensures path { OnOk result (path.new ≡ path.old + length (paths (skeleton_of tree.now))) }
{
    match tree {
        Tree::End => {
            let is_chosen = is_marked(chosen, *path);
            *path += 1;
            if is_chosen {
                Ok(Some(Tree::End))
            } else {
                Ok(None)
            }
        }
        Tree::Theirs(rest) => match pruned_below(alloc, rest.get(), chosen, path, marks)? {
            Some(left) => Ok(Some(Tree::Theirs(Boxed::new(alloc, left)?))),
            None => Ok(None),
        },
        Tree::Mine(branches) => {
            let left = pruned_each(alloc, branches.as_slice(), chosen, path, marks)?;
            if left.is_empty() {
                Ok(None)
            } else {
                Ok(Some(Tree::Mine(left)))
            }
        }
    }
}

/// What is left below a node, with a mark for the node.
#[cycle(pruned)]
fn pruned_below(
    alloc: Global,
    rest: &Tree,
    chosen: &[bool],
    path: &mut usize,
    marks: &mut Items<bool>,
) -> Result<Option<Tree>, Memory>
    requires { path.old + length (paths (skeleton_of rest.now)) ≤ length chosen.now }
    ensures tree { IfOk result (λ o. IsPart o (skeleton_of rest.now) (marked chosen.now) path.old) }
    ensures marks { OnOk result (marks.new ≡ marks.old ++ has_path (skeleton_of rest.now) (marked chosen.now) path.old ∷ on_path (skeleton_of rest.now) (marked chosen.now) path.old) }
    ensures path { OnOk result (path.new ≡ path.old + length (paths (skeleton_of rest.now))) }
{
    let node = marks.len();
    marks.push(false)?;
    let left = pruned(alloc, rest, chosen, path, marks)?;
    match left {
        Some(tree) => {
            ask(marks, node, true);
            Ok(Some(tree))
        }
        None => Ok(None),
    }
}

/// What is left of a branch is added to the others.
#[cycle(pruned)]
fn add_pruned(
    alloc: Global,
    branch: &Branch,
    chosen: &[bool],
    path: &mut usize,
    marks: &mut Items<bool>,
    left: &mut Items<Branch>,
) -> Result<(), Memory>
    requires { path.old + length (paths (skeleton_of branch.now.rest)) ≤ length chosen.now }
    ensures left { OnOk result (Adds branch.now.term (skeleton_of branch.now.rest) (marked chosen.now) path.old left.old left.new) }
    ensures marks { OnOk result (marks.new ≡ marks.old ++ has_path (skeleton_of branch.now.rest) (marked chosen.now) path.old ∷ on_path (skeleton_of branch.now.rest) (marked chosen.now) path.old) }
    ensures path { OnOk result (path.new ≡ path.old + length (paths (skeleton_of branch.now.rest))) }
{
    match pruned_below(alloc, &branch.rest, chosen, path, marks)? {
        Some(rest) => {
            let term = branch.term.copy(alloc)?;
            left.push(Branch { term, rest })?;
            Ok(())
        }
        None => Ok(()),
    }
}

/// The branches of a node of which something is left.
#[cycle(pruned)]
fn pruned_each(
    alloc: Global,
    branches: &[Branch],
    chosen: &[bool],
    path: &mut usize,
    marks: &mut Items<bool>,
) -> Result<Items<Branch>, Memory>
    requires { path.old + length (branch_paths (branches_of branches.now)) ≤ length chosen.now }
    ensures tree { IfOk result (λ bs. branches_of bs ≡ prune_branches (branches_of branches.now) (marked chosen.now) path.old) }
    ensures marks { OnOk result (marks.new ≡ marks.old ++ each_on_path (branches_of branches.now) (marked chosen.now) path.old) }
    ensures path { OnOk result (path.new ≡ path.old + length (branch_paths (branches_of branches.now))) }
{
    let mut left = Items::new(alloc);
    for branch in branches {
        add_pruned(alloc, branch, chosen, path, marks, &mut left)?;
    }
    Ok(left)
}
