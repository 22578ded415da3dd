//! A strategy as it is written: a tree along the variables of a prefix.

ghost use Rattle.std.specs.Prelude.{◌≡◌, IfOk};

use lin_term::{Memory, Move};
use sqlite_items::{Boxed, Items};
use std::alloc::Global;

/// The written form of a strategy of one player, the owner, along a prefix.
#[cycle(tree)]
#[derive(Debug, Drop)]
pub enum Tree {
    /// No variable is left.
    End,
    /// A variable of the other player: what follows answers each value.
    Theirs(Boxed<Tree>),
    /// A variable of the owner: one or more moves, each with what follows it.
    Mine(Items<Branch>),
}

/// A move of the owner, and what follows it.
#[cycle(tree)]
#[derive(Debug, Drop)]
pub struct Branch {
    pub term: Move,
    pub rest: Tree,
}

impl Tree {
    /// An equal tree; refuses only for memory.
    #[cycle(copy)]
    pub fn copy(&self, alloc: Global) -> Result<Tree, Memory>
        ensures { IfOk result (λ t. t ≡ self.now) }
    {
        match self {
            Tree::End => Ok(Tree::End),
            Tree::Theirs(rest) => {
                let rest = rest.get().copy(alloc)?;
                Ok(Tree::Theirs(Boxed::new(alloc, rest)?))
            }
            Tree::Mine(branches) => Ok(Tree::Mine(copy_branches(alloc, branches.as_slice())?)),
        }
    }
}

/// Equal branches; refuses only for memory.
#[cycle(copy)]
fn copy_branches(alloc: Global, branches: &[Branch]) -> Result<Items<Branch>, Memory>
    ensures { IfOk result (λ items. items ≡ branches.now) }
{
    let mut copies = Items::new(alloc);
    for branch in branches {
        let term = branch.term.copy(alloc)?;
        let rest = branch.rest.copy(alloc)?;
        copies.push(Branch { term, rest })?;
    }
    Ok(copies)
}
