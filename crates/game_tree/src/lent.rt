//! Borrowed trees that follow their prefix.

ghost use Rattle.std.specs.Prelude.{◌≡◌, IfOk};
ghost use Rattle.game_tree.specs.Written.{WrittenSkeleton, FollowsPrefix};

use crate::skeleton::Skeleton;
use crate::tree::Tree;
use dom_core::{Domain, Quant};
use lin_term::Memory;
use sqlite_items::Items;
use std::alloc::Global;
use std::marker::{Model, PhantomData};

/// A skeleton whose prefix and tree are borrowed. It is seen as a `Skeleton`, and keeps the same.
#[derive(Drop)]
pub struct SkeletonRef<'a, D: Domain> {
    prefix: &'a [Quant],
    tree: &'a Tree,
    of: PhantomData<D>,
}

impl<'a, D: Domain> Model for SkeletonRef<'a, D> {
    ghost use Rattle.game_tree.specs.contracts.tree.Tree as t;
    ghost use Rattle.std.specs.Coded.{codes};
    ghost use Rattle.game_tree.specs.Written.{WrittenSkeleton, FollowsPrefix};

    ghost Value = { WrittenSkeleton };

    ghost coded = { Prim.hlevel (codes, t.the_row.coded) };

    ghost view = { λ s. record { prefix = s.prefix.now; tree = s.tree.now } };

    ghost invariant = { λ s. FollowsPrefix D.SORT (record { prefix = s.prefix.now; tree = s.tree.now }) };
}

impl<'a, D: Domain> SkeletonRef<'a, D> {
    /// The skeleton of a tree that follows this prefix; takes no memory.
    pub fn from_tree(prefix: &'a [Quant], tree: &'a Tree) -> SkeletonRef<'a, D>
        requires { FollowsPrefix D.SORT (record { prefix = prefix.now; tree = tree.now }) }
        ensures { result ≡ record { prefix = prefix.now; tree = tree.now } }
    {
        SkeletonRef {
            prefix,
            tree,
            of: PhantomData,
        }
    }

    /// The same skeleton once more; takes no memory.
    pub fn again(&self) -> SkeletonRef<'a, D>
        ensures { result ≡ self.now }
    {
        SkeletonRef {
            prefix: self.prefix,
            tree: self.tree,
            of: PhantomData,
        }
    }

    /// Who chooses each variable, from the outside in.
    pub fn prefix(&self) -> &'a [Quant]
        ensures { result.now ≡ self.now.prefix }
    {
        self.prefix
    }

    /// The tree, which follows the prefix.
    pub fn tree(&self) -> &'a Tree
        ensures value { result.now ≡ self.now.tree }
        ensures kept { FollowsPrefix D.SORT self.now }
    {
        self.tree
    }

    /// A skeleton of its own, equal to the one that is lent; refuses only for memory.
    pub fn copy(&self, alloc: Global) -> Result<Skeleton<D>, Memory>
        ensures { IfOk result (λ S. S ≡ self.now) }
    {
        let prefix = Items::from_slice(alloc, self.prefix)?;
        let tree = self.tree.copy(alloc)?;
        Ok(Skeleton::from_parts(prefix, tree))
    }
}
