//! The newest version of Exists in the game of the problem that is made by itself.

ghost use Rattle.std.specs.Prelude.{◌≡◌, ◌≤◌, ◌++◌, ℕ, IfOk, OnOk, map, length};
ghost use Rattle.lin_term.specs.declared.Sort.TheVariants.{Rat as rationals};
ghost use Rattle.game_tree.specs.Skeleton.{nodes, zero_tree};
ghost use Rattle.game_tree.specs.Union.{union_all};
ghost use Rattle.game_tree.specs.View.{skeleton_of};
ghost use Rattle.game_history.specs.History.{replay};
ghost use Rattle.game_history.specs.Legal.{Legal};
ghost use Rattle.game_board.specs.Entries.{entry_of, entries_of};
ghost use Rattle.solve_texts.specs.Generated.{generated};
ghost use Rattle.solve_texts.specs.Tally.{paths_by, paths_in};

use crate::made::made_prefix;
use dom_core::{Domain, Quant, Side};
use dom_rat::Rat;
use game_board::Entry;
use game_tree::{Skeleton, Tree, merge_trees};
use lin_term::Memory;
use std::alloc::Global;

/// The tree that Exists added by this entry, copied.
fn push_paths<D: Domain>(
    alloc: Global,
    trees: &mut Vec<Tree>,
    entry: &Entry<D>,
) -> Result<(), Memory>
    ensures { OnOk result (map skeleton_of trees.new.items ≡ map skeleton_of trees.old.items ++ paths_by (entry_of entry.now)) }
{
    match entry {
        Entry::Added { side, paths, .. } => match side {
            Side::Exists => {
                let tree = paths.tree().copy(alloc)?;
                match trees.push(tree) {
                    Ok(()) => Ok(()),
                    Err(_) => Err(Memory),
                }
            }
            Side::Forall => Ok(()),
        },
        Entry::Held { .. } => Ok(()),
        Entry::Spent { .. } => Ok(()),
        Entry::TooLarge { .. } => Ok(()),
        Entry::Noted { .. } => Ok(()),
        Entry::Won { .. } => Ok(()),
        Entry::Found { .. } => Ok(()),
    }
}

/// The trees that Exists added, in order, copied.
fn paths_added<D: Domain>(alloc: Global, entries: &[Entry<D>]) -> Result<Vec<Tree>, Memory>
    ensures { IfOk result (λ trees. map skeleton_of trees.items ≡ paths_in (entries_of entries.now)) }
{
    let mut trees = Vec::new(alloc);
    for entry in entries {
        push_paths(alloc, &mut trees, entry)?;
    }
    Ok(trees)
}

/// The tree that plays 0 along a prefix of at most 1,024 variables.
fn first_tree(alloc: Global, prefix: &[Quant]) -> Result<Tree, Memory>
    requires { length prefix.now ≤ 1024 }
    ensures { IfOk result (λ t. skeleton_of t ≡ zero_tree prefix.now) }
{
    let zero: Skeleton<Rat> = Skeleton::zero(alloc, prefix)?;
    zero.tree().copy(alloc)
}

/// That tree with all that Exists added.
fn newest_tree<D: Domain>(
    alloc: Global,
    prefix: &[Quant],
    entries: &[Entry<D>],
) -> Result<Tree, Memory>
    requires { length prefix.now ≤ 1024 }
    ensures { IfOk result (λ t. skeleton_of t ≡ union_all (zero_tree prefix.now) (paths_in (entries_of entries.now))) }
{
    let first = first_tree(alloc, prefix)?;
    let added = paths_added(alloc, entries)?;
    merge_trees(alloc, first, added)
}

/// The nodes of the newest version of Exists after a legal history of the problem of this size, at most 512. All trees are
/// merged at once. It refuses only for memory.
#[tactic(auto, using(crate::proofs::Making::short_prefix, crate::proofs::Replaying::newest_is))]
pub fn newest_nodes<D: Domain>(alloc: Global, n: u32, entries: &[Entry<D>]) -> Result<u64, Memory>
    requires few { n ≤ 512 }
    requires legal { (B : ℕ) × Legal rationals (generated n) B (entries_of entries.now) }
    ensures { IfOk result (λ k. k ≡ nodes (replay rationals (generated n) (entries_of entries.now)).of_exists.newest) }
{
    let prefix = made_prefix(alloc, n)?;
    let tree = newest_tree(alloc, prefix.as_slice(), entries)?;
    let newest: Skeleton<Rat> = Skeleton::from_parts(prefix, tree);
    Ok(newest.nodes())
}
