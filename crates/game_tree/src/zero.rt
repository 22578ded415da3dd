//! The tree that plays 0.

ghost use Rattle.std.specs.Prelude.{◌≡◌, pos, IfOk};
ghost use Rattle.game_tree.specs.Skeleton.{branch, no_more, constant_move, zero_tree};
ghost use Rattle.game_tree.specs.View.{skeleton_of, branches_of};

use crate::tree::{Branch, Tree};
use dom_core::Quant;
use lin_term::{Memory, Move, Row};
use sqlite_items::{Boxed, Items};
use std::alloc::Global;

/// The move 0.
fn zero_move(alloc: Global) -> Move
    ensures { result ≡ constant_move (pos 0) }
{
    Move::from_parts(Row::constant(alloc, 0), 1)
}

/// One branch with the move 0; refuses only for memory.
fn zero_branch(alloc: Global, rest: Tree) -> Result<Items<Branch>, Memory>
    ensures { IfOk result (λ bs. branches_of bs ≡ branch (constant_move (pos 0)) (skeleton_of rest) no_more) }
{
    let mut branches = Items::new(alloc);
    branches.push(Branch {
        term: zero_move(alloc),
        rest,
    })?;
    Ok(branches)
}

/// The move 0 at each variable of Exists. It calls itself once a variable. It refuses only for memory.
pub fn zero_tree(alloc: Global, prefix: &[Quant]) -> Result<Tree, Memory>
    ensures { IfOk result (λ t. skeleton_of t ≡ zero_tree prefix.now) }
{
    match prefix {
        [] => Ok(Tree::End),
        [Quant::Forall, rest @ ..] => {
            let below = zero_tree(alloc, rest)?;
            Ok(Tree::Theirs(Boxed::new(alloc, below)?))
        }
        [Quant::Exists, rest @ ..] => {
            let below = zero_tree(alloc, rest)?;
            Ok(Tree::Mine(zero_branch(alloc, below)?))
        }
    }
}
