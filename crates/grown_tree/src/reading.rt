//! What a version of the shared tree shows: its size, and a copy of it.

ghost use Rattle.std.specs.Prelude.{◌≡◌, ◌≤◌, ◌^◌, ◌++◌, [], ◌∷◌, IfOk, OnOk};
ghost use Rattle.game_tree.specs.Skeleton.{nodes, branch_nodes};
ghost use Rattle.game_tree.specs.View.{skeleton_of, branches_of};
ghost use Rattle.grown_tree.specs.Shown.{shown, all_shown, visible};

use crate::marks::Mark;
use crate::node::Node;
use dom_core::Quant;
use game_tree::{Branch, Tree};
use lin_term::Memory;
use sqlite_items::{Boxed, Items};
use std::alloc::Global;

/// How many nodes a version has. It calls itself once a variable of the prefix.
#[cycle(count)]
pub fn count_at(node: &Node, prefix: &[Quant], version: u32) -> u64
    requires { nodes (skeleton_of (shown version node.now prefix.now)) ≤ 2 ^ 63 }
    ensures { result ≡ nodes (skeleton_of (shown version node.now prefix.now)) }
{
    match prefix {
        [] => return 0,
        [Quant::Forall, rest @ ..] => return 1 + count_at(node, rest, version),
        [Quant::Exists, rest @ ..] => match node {
            Node::End => return 0,
            Node::Mine(marks, below) => return count_all(
                marks.as_slice(),
                below.as_slice(),
                rest,
                version,
            ),
        },
    }
}

/// The same of the moves of a node.
#[cycle(count)]
fn count_all(marks: &[Mark], below: &[Node], rest: &[Quant], version: u32) -> u64
    requires { branch_nodes (branches_of (visible version marks.now (all_shown version below.now rest.now))) ≤ 2 ^ 63 }
    ensures { result ≡ branch_nodes (branches_of (visible version marks.now (all_shown version below.now rest.now))) }
{
    let mut count = 0;
    for i in 0..marks.len() {
        if i >= below.len() {
            return count;
        }
        count += count_one(&marks[i], &below[i], rest, version);
    }
    count
}

/// The same of one move.
#[cycle(count)]
fn count_one(mark: &Mark, node: &Node, rest: &[Quant], version: u32) -> u64
    requires { branch_nodes (branches_of (visible version (mark.now ∷ []) (shown version node.now rest.now ∷ []))) ≤ 2 ^ 63 }
    ensures { result ≡ branch_nodes (branches_of (visible version (mark.now ∷ []) (shown version node.now rest.now ∷ []))) }
{
    if mark.since > version {
        return 0;
    }
    1 + count_at(node, rest, version)
}

/// The tree of a version, copied out; refuses only for memory. It calls itself once a variable of the prefix.
#[cycle(copy)]
pub fn copy_at(alloc: Global, node: &Node, prefix: &[Quant], version: u32) -> Result<Tree, Memory>
    ensures { IfOk result (λ t. t ≡ shown version node.now prefix.now) }
{
    match prefix {
        [] => return Ok(Tree::End),
        [Quant::Forall, rest @ ..] => {
            let below = copy_at(alloc, node, rest, version)?;
            return Ok(Tree::Theirs(Boxed::new(alloc, below)?));
        }
        [Quant::Exists, rest @ ..] => match node {
            Node::End => return Ok(Tree::Mine(Items::new(alloc))),
            Node::Mine(marks, below) => {
                let all = copy_all(alloc, marks.as_slice(), below.as_slice(), rest, version)?;
                return Ok(Tree::Mine(all));
            }
        },
    }
}

/// The same for the moves of a node.
#[cycle(copy)]
fn copy_all(
    alloc: Global,
    marks: &[Mark],
    below: &[Node],
    rest: &[Quant],
    version: u32,
) -> Result<Items<Branch>, Memory>
    ensures { IfOk result (λ it. it ≡ visible version marks.now (all_shown version below.now rest.now)) }
{
    let mut all = Items::new(alloc);
    for i in 0..marks.len() {
        if i >= below.len() {
            return Ok(all);
        }
        copy_one(alloc, &mut all, &marks[i], &below[i], rest, version)?;
    }
    Ok(all)
}

/// The same for one move.
#[cycle(copy)]
fn copy_one(
    alloc: Global,
    all: &mut Items<Branch>,
    mark: &Mark,
    node: &Node,
    rest: &[Quant],
    version: u32,
) -> Result<(), Memory>
    ensures { OnOk result (all.new ≡ all.old ++ visible version (mark.now ∷ []) (shown version node.now rest.now ∷ [])) }
{
    if mark.since > version {
        return Ok(());
    }
    let term = mark.term.copy(alloc)?;
    let below = copy_at(alloc, node, rest, version)?;
    all.push(Branch { term, rest: below })?;
    Ok(())
}
