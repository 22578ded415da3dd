//! Trees that follow their prefix.

ghost use Rattle.std.specs.Prelude.{◌≡◌, ◌≤◌, ◌↔◌, IsTrue, IfOk, MatchOption, length};
ghost use Rattle.game_tree.specs.Skeleton.{nodes, paths, zero_tree as zero_tree_of};
ghost use Rattle.game_tree.specs.Union.{In, union};
ghost use Rattle.game_tree.specs.View.{skeleton_of};
ghost use Rattle.game_tree.specs.Written.{WrittenSkeleton, FollowsPrefix, IsWithinLimit};

use crate::containing::has_paths;
use crate::counting::{leaf_count, node_count};
use crate::following::{follows, is_within_limit};
use crate::lent::SkeletonRef;
use crate::same::{is_same_prefix, is_same_tree};
use crate::tree::Tree;
use crate::union::merge_two;
use crate::zero::zero_tree;
use dom_core::{Domain, Quant};
use lin_term::Memory;
use sqlite_items::Items;
use std::alloc::Global;
use std::marker::{Model, PhantomData};

/// More nodes than any memory holds: 2^62.
const COUNT: u64 = 4_611_686_018_427_387_904;

/// A strategy of Exists, the owner, along a prefix of at most 1,024 variables: one child at each variable of Forall, one
/// or more distinct moves over earlier variables at each of Exists. Each move is in lowest form, and it and its two
/// definition literals are within the cap.
#[derive(Drop)]
pub struct Skeleton<D: Domain> {
    prefix: Items<Quant>,
    tree: Tree,
    of: PhantomData<D>,
}

impl<D: Domain> Model for Skeleton<D> {
    ghost use Rattle.game_tree.specs.contracts.tree.Tree as t;
    ghost use Rattle.std.specs.Coded.{codes};
    ghost use Rattle.game_tree.specs.Written.{WrittenSkeleton, FollowsPrefix};

    ghost Value = { WrittenSkeleton };

    ghost coded = { Prim.hlevel (codes, t.the_row.coded) };

    ghost view = { λ s. record { prefix = s.prefix; tree = s.tree } };

    ghost invariant = { λ s. FollowsPrefix D.SORT (record { prefix = s.prefix; tree = s.tree }) };
}

impl<D: Domain> Skeleton<D> {
    /// The skeleton of a tree along a prefix of at most 1,024 variables. None comes exactly where the tree does not follow
    /// the prefix, a node of Exists has no move or two equal ones, or a move is not in lowest form, has a variable at or
    /// above its position, or has a number or a definition literal past the cap, or the tree has more than 1,048,576
    /// nodes. It takes no memory: the moves of a node are compared two by two.
    pub fn make(prefix: Items<Quant>, tree: Tree) -> Option<Skeleton<D>>
        requires { length prefix ≤ 1024 }
        ensures { MatchOption result (¬ IsWithinLimit D.SORT (record { prefix = prefix; tree = tree })) (λ S. (S ≡ record { prefix = prefix; tree = tree }) × IsWithinLimit D.SORT S) }
    {
        if !follows(D::SORT, &tree, prefix.as_slice(), 0) {
            return None;
        }
        if !is_within_limit(&tree) {
            return None;
        }
        Some(Skeleton::from_parts(prefix, tree))
    }

    /// The skeleton of a tree that follows this prefix.
    pub fn from_parts(prefix: Items<Quant>, tree: Tree) -> Skeleton<D>
        requires { FollowsPrefix D.SORT (record { prefix = prefix; tree = tree }) }
        ensures { result ≡ record { prefix = prefix; tree = tree } }
    {
        Skeleton {
            prefix,
            tree,
            of: PhantomData,
        }
    }

    /// The skeleton whose moves along a prefix of at most 1,024 variables are all the constant 0; refuses only for memory.
    pub fn zero(alloc: Global, prefix: &[Quant]) -> Result<Skeleton<D>, Memory>
        requires { length prefix.now ≤ 1024 }
        ensures prefix { IfOk result (λ S. S.prefix ≡ prefix.now) }
        ensures zero { IfOk result (λ S. skeleton_of S.tree ≡ zero_tree_of prefix.now) }
    {
        let tree = zero_tree(alloc, prefix)?;
        let prefix = Items::from_slice(alloc, prefix)?;
        Ok(Skeleton::from_parts(prefix, tree))
    }

    /// Who chooses each variable, from the outside in.
    pub fn prefix(&self) -> &[Quant]
        ensures { result.now ≡ self.now.prefix }
    {
        self.prefix.as_slice()
    }

    /// The tree, which follows the prefix.
    pub fn tree(&self) -> &Tree
        ensures value { result.now ≡ self.now.tree }
        ensures kept { FollowsPrefix D.SORT self.now }
    {
        &self.tree
    }

    /// How many nodes there are: the variables of Forall and the moves.
    pub fn nodes(&self) -> u64
        ensures { result ≡ nodes (skeleton_of self.now.tree) }
    {
        node_count(&self.tree)
    }

    /// How many paths there are.
    pub fn leaves(&self) -> u64
        ensures { result ≡ length (paths (skeleton_of self.now.tree)) }
    {
        leaf_count(&self.tree)
    }

    /// Whether the skeletons are equal: the same prefix, and the same moves in the same order.
    pub fn is_same(&self, other: &Skeleton<D>) -> bool
        ensures { IsTrue result ↔ (self.now ≡ other.now) }
    {
        if !is_same_prefix(self.prefix.as_slice(), other.prefix.as_slice()) {
            return false;
        }
        is_same_tree(&self.tree, &other.tree)
    }

    /// The paths of both, along the same prefix: the moves of this skeleton keep their order, and new ones follow in the
    /// order of the other. It takes n log n comparisons at a node with n moves, and refuses only for memory, which no
    /// union of more than 2^62 nodes has; the union may have more than 1,048,576 nodes.
    pub fn merge(&self, alloc: Global, other: &Skeleton<D>) -> Result<Skeleton<D>, Memory>
        requires { self.now.prefix ≡ other.now.prefix }
        ensures prefix { IfOk result (λ S. S.prefix ≡ self.now.prefix) }
        ensures union { IfOk result (λ S. skeleton_of S.tree ≡ union (skeleton_of self.now.tree) (skeleton_of other.now.tree)) }
    {
        let own = self.tree();
        let others = other.tree();
        if self.nodes() + other.nodes() > COUNT {
            return Err(Memory);
        }
        let first = own.copy(alloc)?;
        let second = others.copy(alloc)?;
        let tree = merge_two(alloc, first, second)?;
        let prefix = Items::from_slice(alloc, self.prefix())?;
        Ok(Skeleton::from_parts(prefix, tree))
    }

    /// Whether every path of the other skeleton is a path of this one. It takes n log n comparisons at a node with n moves;
    /// where it is refused memory for that, it compares them one by one and answers the same.
    pub fn contains(&self, alloc: Global, other: &Skeleton<D>) -> bool
        ensures { IsTrue result ↔ In (skeleton_of other.now.tree) (skeleton_of self.now.tree) }
    {
        has_paths(alloc, self.tree(), other.tree())
    }

    /// The skeleton, lent.
    pub fn lend(&self) -> SkeletonRef<'_, D>
        ensures { result ≡ self.now }
    {
        SkeletonRef::from_tree(self.prefix.as_slice(), &self.tree)
    }

    /// An equal skeleton; refuses only for memory.
    pub fn copy(&self, alloc: Global) -> Result<Skeleton<D>, Memory>
        ensures { IfOk result (λ S. S ≡ self.now) }
    {
        let prefix = Items::from_slice(alloc, self.prefix.as_slice())?;
        let tree = self.tree.copy(alloc)?;
        Ok(Skeleton {
            prefix,
            tree,
            of: PhantomData,
        })
    }
}
