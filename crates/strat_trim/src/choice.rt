//! Which paths stay: those that the proof names, and the first one through each node that it names and that lies on none
//! of these.

ghost use Rattle.std.specs.Prelude.{◌≡◌, ◌+◌, ◌≤◌, ◌^◌, ◌++◌, ◌&&◌, ◌||◌, not, suc, Bool, List, length, IfOk, OnOk};
ghost use Rattle.std.specs.List.{list_any};
ghost use Rattle.game_tree.specs.Skeleton.{nodes, branch_nodes};
ghost use Rattle.game_tree.specs.View.{skeleton_of, branches_of};
ghost use Rattle.strat_trim.specs.Trimmed.{marked, has_path, some_has_path, with_first, stays, each_stays, or_first};

use crate::naming::{Named, is_marked};
use game_tree::{Branch, Tree};
use lin_term::Memory;
use sqlite_items::Items;
use std::alloc::Global;

/// Where it is asked for, the flag at `first` is set, if there is one.
#[tactic(auto, using(crate::proofs::ChoiceLemmas::first_unset, crate::proofs::ChoiceLemmas::first_past))]
pub fn ask(flags: &mut Items<bool>, first: usize, asked: bool)
    ensures { (before rest : List Bool) → flags.old ≡ before ++ rest → first ≡ length before → flags.new ≡ before ++ with_first asked rest }
{
    if asked && first < flags.len() {
        flags.set(first, true);
    }
}

/// One of the two.
fn either(first: bool, second: bool) -> bool
    ensures { result ≡ (first || second) }
{
    first || second
}

/// The first and not the second.
fn alone(asked: bool, has: bool) -> bool
    ensures { result ≡ (asked && not has) }
{
    asked && !has
}

/// Adds a flag for each path of the tree, and says whether one of the paths is named. `node` is the number of its first
/// node, and is left at the number behind its last one. It calls itself once a level, at most 1,024 times, and refuses
/// only for memory.
#[cycle(stay)]
fn stay(tree: &Tree, named: &Named, node: &mut u32, flags: &mut Items<bool>) -> Result<bool, Memory>
    requires { node.old + nodes (skeleton_of tree.now) ≤ 2 ^ 20 }
    ensures has { IfOk result (λ b. b ≡ has_path (skeleton_of tree.now) (marked named.now.paths) (length flags.old)) }
    ensures flags { OnOk result (flags.new ≡ flags.old ++ stays (skeleton_of tree.now) (marked named.now.paths) (marked named.now.nodes) (length flags.old) node.old) }
    ensures node { OnOk result (node.new ≡ node.old + nodes (skeleton_of tree.now)) }
{
    match tree {
        Tree::End => {
            let path = flags.len();
            let is_named = is_marked(named.paths.as_slice(), path);
            flags.push(is_named)?;
            Ok(is_named)
        }
        Tree::Theirs(rest) => stay_below(rest.get(), named, node, flags),
        Tree::Mine(branches) => stay_each(branches.as_slice(), named, node, flags),
    }
}

/// The same of a node and what is below it.
#[cycle(stay)]
fn stay_below(
    rest: &Tree,
    named: &Named,
    node: &mut u32,
    flags: &mut Items<bool>,
) -> Result<bool, Memory>
    requires { node.old + (1 + nodes (skeleton_of rest.now)) ≤ 2 ^ 20 }
    ensures has { IfOk result (λ b. b ≡ has_path (skeleton_of rest.now) (marked named.now.paths) (length flags.old)) }
    ensures flags { OnOk result (flags.new ≡ flags.old ++ with_first (marked named.now.nodes node.old && not (has_path (skeleton_of rest.now) (marked named.now.paths) (length flags.old))) (stays (skeleton_of rest.now) (marked named.now.paths) (marked named.now.nodes) (length flags.old) (suc node.old))) }
    ensures node { OnOk result (node.new ≡ node.old + (1 + nodes (skeleton_of rest.now))) }
{
    let first = flags.len();
    let asked = is_marked(named.nodes.as_slice(), *node as usize);
    *node += 1;
    let has = stay(rest, named, node, flags)?;
    ask(flags, first, alone(asked, has));
    Ok(has)
}

/// The same of the branches of a node, one after the other.
#[cycle(stay)]
fn stay_each(
    branches: &[Branch],
    named: &Named,
    node: &mut u32,
    flags: &mut Items<bool>,
) -> Result<bool, Memory>
    requires { node.old + branch_nodes (branches_of branches.now) ≤ 2 ^ 20 }
    ensures has { IfOk result (λ b. b ≡ some_has_path (branches_of branches.now) (marked named.now.paths) (length flags.old)) }
    ensures flags { OnOk result (flags.new ≡ flags.old ++ each_stays (branches_of branches.now) (marked named.now.paths) (marked named.now.nodes) (length flags.old) node.old) }
    ensures node { OnOk result (node.new ≡ node.old + branch_nodes (branches_of branches.now)) }
{
    let mut has = false;
    for branch in branches {
        let one = stay_below(&branch.rest, named, node, flags)?;
        has = either(has, one);
    }
    Ok(has)
}

/// Whether one of the flags is set.
fn any(flags: &[bool]) -> bool
    ensures { result ≡ list_any (λ b. b) flags.now }
{
    for flag in flags {
        if *flag {
            return true;
        }
    }
    false
}

/// A flag for each path of a tree of at most 1,048,576 nodes: whether it stays, the first one where else none would. It
/// refuses only for memory.
pub fn staying(alloc: Global, tree: &Tree, named: &Named) -> Result<Items<bool>, Memory>
    requires { nodes (skeleton_of tree.now) ≤ 2 ^ 20 }
    ensures { IfOk result (λ flags. flags ≡ or_first (stays (skeleton_of tree.now) (marked named.now.paths) (marked named.now.nodes) 0 0)) }
{
    let mut flags = Items::new(alloc);
    let mut node: u32 = 0;
    let _has = stay(tree, named, &mut node, &mut flags)?;
    let some = any(flags.as_slice());
    ask(&mut flags, 0, !some);
    Ok(flags)
}
