//! Versions that are lent.

ghost use Rattle.std.specs.Prelude.{◌≡◌, ◌≤◌, ◌↔◌, IsTrue, IfOk};
ghost use Rattle.game_tree.specs.Skeleton.{nodes, node_limit};
ghost use Rattle.game_tree.specs.View.{skeleton_of};
ghost use Rattle.game_tree.specs.Written.{FollowsPrefix};
ghost use Rattle.grown_tree.specs.Shown.{shown};
ghost use Rattle.grown_tree.specs.Versions.{IsLent};

use crate::node::Node;
use crate::reading::{copy_at, count_at};
use crate::same::is_same_at;
use dom_core::{Domain, Quant};
use game_tree::{Skeleton, SkeletonRef};
use lin_term::Memory;
use sqlite_items::Items;
use std::alloc::Global;
use std::marker::{Model, PhantomData};

/// A version of a growing skeleton, lent. It is seen as a `Skeleton`, and keeps the same, with at most 1,048,576 nodes.
#[derive(Drop)]
pub struct View<'a, D: Domain> {
    prefix: &'a [Quant],
    node: &'a Node,
    version: u32,
    of: PhantomData<D>,
}

impl<'a, D: Domain> Model for View<'a, D> {
    ghost use Rattle.game_tree.specs.contracts.Tree as t;
    ghost use Rattle.std.specs.Coded.{codes};
    ghost use Rattle.game_tree.specs.Written.{WrittenSkeleton};
    ghost use Rattle.grown_tree.specs.Shown.{shown};
    ghost use Rattle.grown_tree.specs.Versions.{IsLent};

    ghost Value = { WrittenSkeleton };

    ghost coded = { Prim.hlevel (codes, t.the_row.coded) };

    ghost view = { λ s. record { prefix = s.prefix.now; tree = shown s.version s.node.now s.prefix.now } };

    ghost invariant = { λ s. IsLent D.SORT (record { prefix = s.prefix.now; tree = shown s.version s.node.now s.prefix.now }) };
}

impl<'a, D: Domain> View<'a, D> {
    /// What a version shows of a tree along this prefix.
    pub(crate) fn of_version(prefix: &'a [Quant], node: &'a Node, version: u32) -> View<'a, D>
        requires { IsLent D.SORT (record { prefix = prefix.now; tree = shown version node.now prefix.now }) }
        ensures { result ≡ record { prefix = prefix.now; tree = shown version node.now prefix.now } }
    {
        View {
            prefix,
            node,
            version,
            of: PhantomData,
        }
    }

    /// Who chooses each variable, from the outside in.
    pub fn prefix(&self) -> &'a [Quant]
        ensures { result.now ≡ self.now.prefix }
    {
        self.prefix
    }

    /// Whether the version is this tree: the same moves in the same order; takes no memory.
    pub fn is_same(&self, other: &SkeletonRef<'_, D>) -> bool
        ensures { IsTrue result ↔ (skeleton_of self.now.tree ≡ skeleton_of other.now.tree) }
    {
        is_same_at(self.node, self.prefix, self.version, other.tree())
    }

    /// How many nodes there are, at most 1,048,576; takes no memory.
    pub fn nodes(&self) -> u64
        ensures count { result ≡ nodes (skeleton_of self.now.tree) }
        ensures few { result ≤ node_limit }
        ensures kept { FollowsPrefix D.SORT self.now }
    {
        count_at(self.node, self.prefix, self.version)
    }

    /// A skeleton of its own, equal to the one that is lent; refuses only for memory.
    pub fn copy(&self, alloc: Global) -> Result<Skeleton<D>, Memory>
        ensures { IfOk result (λ S. S ≡ self.now) }
    {
        let prefix = Items::from_slice(alloc, self.prefix)?;
        let tree = copy_at(alloc, self.node, self.prefix, self.version)?;
        Ok(Skeleton::from_parts(prefix, tree))
    }
}
