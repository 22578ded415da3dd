//! Unions of trees. The moves of a node are found by their order: a node with n moves takes n log n comparisons. What stands
//! in one of the trees alone is moved and not copied.

ghost use Rattle.std.specs.Prelude.{◌≡◌, IfOk, OnOk, map, ◌++◌, [], ◌∷◌};
ghost use Rattle.game_tree.specs.Union.{union, union_all};
ghost use Rattle.game_tree.specs.View.{skeleton_of, branches_of};
ghost use Rattle.game_tree.specs.Gather.{group_of, gathered, seen, rests, joined_branches, pairs_of};

use crate::group::{Group, add_branches, from_the_last, single_groups};
use crate::places::homes;
use crate::tree::{Branch, Tree};
use lin_term::Memory;
use sqlite_items::{Boxed, Items};
use std::alloc::{AllocError, Global};

/// What stands below the tree, if it begins with a variable of the other player.
fn push_rest(below: &mut Vec<Tree>, tree: Tree) -> Result<(), AllocError>
    ensures { OnOk result (map skeleton_of below.new.items ≡ map skeleton_of below.old.items ++ rests (skeleton_of tree ∷ [])) }
{
    match tree {
        Tree::End => return Ok(()),
        Tree::Theirs(rest) => {
            below.push(rest.into_inner())?;
            return Ok(());
        }
        Tree::Mine(_) => return Ok(()),
    }
}

/// What stands below those trees that begin with a variable of the other player.
fn moved_rests(alloc: Global, trees: Vec<Tree>) -> Result<Vec<Tree>, AllocError>
    ensures { IfOk result (λ v. map skeleton_of v.items ≡ rests (map skeleton_of trees.items)) }
{
    let mut below = Vec::new(alloc);
    for tree in trees {
        push_rest(&mut below, tree)?;
    }
    Ok(below)
}

/// The branches of the tree, if it begins with a variable of the owner.
fn push_branches(all: &mut Items<Branch>, tree: Tree) -> Result<(), AllocError>
    ensures { OnOk result (pairs_of all.new ≡ pairs_of all.old ++ joined_branches (skeleton_of tree ∷ [])) }
{
    match tree {
        Tree::End => return Ok(()),
        Tree::Theirs(_) => return Ok(()),
        Tree::Mine(branches) => {
            all.append(branches)?;
            return Ok(());
        }
    }
}

/// The branches of those trees that begin with a variable of the owner.
fn moved_branches(alloc: Global, trees: Vec<Tree>) -> Result<Items<Branch>, AllocError>
    ensures { IfOk result (λ it. pairs_of it ≡ joined_branches (map skeleton_of trees.items)) }
{
    let mut all = Items::new(alloc);
    for tree in trees {
        push_branches(&mut all, tree)?;
    }
    Ok(all)
}

/// The branches, and those of the others, with equal moves in one group.
fn grouped(
    alloc: Global,
    branches: Items<Branch>,
    others: Items<Branch>,
) -> Result<Vec<Group>, AllocError>
    ensures { IfOk result (λ v. map group_of v.items ≡ gathered (pairs_of branches) (pairs_of others)) }
{
    let homes = homes(alloc, branches.as_slice(), others.as_slice())?;
    let groups = single_groups(alloc, branches)?;
    let turned = from_the_last(alloc, others)?;
    let groups = add_branches(alloc, groups, turned, homes.as_slice())?;
    Ok(groups)
}

/// The union of the trees. It calls itself once a level.
#[cycle(merge)]
fn merged(alloc: Global, first: Tree, more: Vec<Tree>) -> Result<Tree, AllocError>
    ensures { IfOk result (λ t. skeleton_of t ≡ union_all (skeleton_of first) (map skeleton_of more.items)) }
{
    if more.as_slice().is_empty() {
        return Ok(first);
    }
    match first {
        Tree::End => Ok(Tree::End),
        Tree::Theirs(rest) => {
            let rests = moved_rests(alloc, more)?;
            let rest = merged(alloc, rest.into_inner(), rests)?;
            Ok(Tree::Theirs(Boxed::new(alloc, rest)?))
        }
        Tree::Mine(branches) => {
            let others = moved_branches(alloc, more)?;
            let groups = grouped(alloc, branches, others)?;
            Ok(Tree::Mine(merge_groups(alloc, groups)?))
        }
    }
}

/// A branch for each group, with the union of its trees below its move.
#[cycle(merge)]
fn merge_groups(alloc: Global, groups: Vec<Group>) -> Result<Items<Branch>, AllocError>
    ensures { IfOk result (λ it. branches_of it ≡ seen (map group_of groups.items)) }
{
    let mut all = Items::new(alloc);
    for group in groups {
        let Group { term, first, more } = group;
        let rest = merged(alloc, first, more)?;
        all.push(Branch { term, rest })?;
    }
    Ok(all)
}

/// The paths of all of these trees: the moves of the first keep their order, and the new ones of each follow those of the
/// trees before it, in their own order. A tree that begins otherwise than the first adds nothing. It takes n log n
/// comparisons for n moves at one place, and refuses only for memory.
pub fn merge_trees(alloc: Global, first: Tree, more: Vec<Tree>) -> Result<Tree, Memory>
    ensures { IfOk result (λ t. skeleton_of t ≡ union_all (skeleton_of first) (map skeleton_of more.items)) }
{
    Ok(merged(alloc, first, more)?)
}

/// The paths of both.
pub fn merge_two(alloc: Global, first: Tree, second: Tree) -> Result<Tree, AllocError>
    ensures { IfOk result (λ t. skeleton_of t ≡ union (skeleton_of first) (skeleton_of second)) }
{
    let mut more = Vec::new(alloc);
    more.push(second)?;
    merged(alloc, first, more)
}
