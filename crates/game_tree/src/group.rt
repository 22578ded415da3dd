//! Branches that are grouped by their moves, each group in the order in which its trees came.

ghost use Rattle.std.specs.Prelude.{◌≡◌, ◌<◌, IfOk, OnOk, map, reverse, length};
ghost use Rattle.lin_term.specs.Move.{Move as MoveValue};
ghost use Rattle.game_tree.specs.View.{skeleton_of};
ghost use Rattle.game_tree.specs.Gather.{group_of, single, add_at, add_all, pairs_of};

use crate::tree::{Branch, Tree};
use lin_term::Move;
use sqlite_items::Items;
use std::alloc::{AllocError, Global};

/// A move with the trees that stand below it, the first apart.
#[derive(Debug, Drop)]
pub struct Group {
    pub term: Move,
    pub first: Tree,
    pub more: Vec<Tree>,
}

/// Each branch as a group of its own.
pub fn single_groups(alloc: Global, branches: Items<Branch>) -> Result<Vec<Group>, AllocError>
    ensures { IfOk result (λ v. map group_of v.items ≡ map single (pairs_of branches)) }
{
    let mut left = branches;
    let mut groups = Vec::new(alloc);
    while let Some(branch) = left.pop() {
        let Branch { term, rest } = branch;
        groups.push(Group {
            term,
            first: rest,
            more: Vec::new(alloc),
        })?;
    }
    groups.reverse();
    Ok(groups)
}

/// The branches from the last to the first.
pub fn from_the_last(alloc: Global, branches: Items<Branch>) -> Result<Vec<Branch>, AllocError>
    ensures { IfOk result (λ v. v.items ≡ reverse branches) }
{
    let mut left = branches;
    let mut turned = Vec::new(alloc);
    while let Some(branch) = left.pop() {
        turned.push(branch)?;
    }
    Ok(turned)
}

/// The tree goes behind those of the group at this place.
fn add_to_group(groups: &mut Vec<Group>, home: usize, rest: Tree) -> Result<(), AllocError>
    requires { home < length groups.old.items }
    ensures { (m : MoveValue) → OnOk result (map group_of groups.new.items ≡ add_at home m (skeleton_of rest) (map group_of groups.old.items)) }
{
    let group = &mut groups[home];
    group.more.push(rest)?;
    Ok(())
}

/// The branch goes to the group at this place, or opens one behind the others.
fn add_branch(
    alloc: Global,
    groups: &mut Vec<Group>,
    branch: Branch,
    home: usize,
) -> Result<(), AllocError>
    ensures { OnOk result (map group_of groups.new.items ≡ add_at home branch.term (skeleton_of branch.rest) (map group_of groups.old.items)) }
{
    let Branch { term, rest } = branch;
    if home < groups.len() {
        return add_to_group(groups, home, rest);
    }
    groups.push(Group {
        term,
        first: rest,
        more: Vec::new(alloc),
    })?;
    Ok(())
}

/// The branches, of which the last comes first, go to these places one after the other.
pub fn add_branches(
    alloc: Global,
    groups: Vec<Group>,
    turned: Vec<Branch>,
    homes: &[usize],
) -> Result<Vec<Group>, AllocError>
    ensures { IfOk result (λ v. map group_of v.items ≡ add_all homes.now (map group_of groups.items) (pairs_of (reverse turned.items))) }
{
    let mut groups = groups;
    let mut turned = turned;
    for home in homes {
        match turned.pop() {
            Some(branch) => add_branch(alloc, &mut groups, branch, *home)?,
            None => return Ok(groups),
        }
    }
    Ok(groups)
}
