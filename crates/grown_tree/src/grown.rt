//! A skeleton that grows, with all its versions.

ghost use Rattle.std.specs.Prelude.{◌≡◌, ◌≤◌, ◌<◌, ◌+◌, ◌^◌, ◌↔◌, ℕ, [], ◌∷◌, Err, IsTrue, MatchOption, IfOk, OnOk, OnErr, length, slice_get, Some};
ghost use Rattle.game_tree.specs.Skeleton.{nodes, node_limit};
ghost use Rattle.game_tree.specs.Union.{In, union};
ghost use Rattle.game_tree.specs.View.{skeleton_of};
ghost use Rattle.grown_tree.specs.Shown.{shown};
ghost use Rattle.grown_tree.specs.Versions.{Grows, newest};
ghost use Rattle.grown_tree.specs.declared.fault.GrowFault.TheVariants.{Large};

use crate::cut::cut;
use crate::fault::GrowFault;
use crate::grow::grow;
use crate::having::has_all;
use crate::node::Node;
use crate::reading::count_at;
use crate::view::View;
use dom_core::{Domain, Quant};
use game_tree::Skeleton;
use lin_term::Memory;
use sqlite_items::Items;
use std::alloc::Global;
use std::marker::{Model, PhantomData};

/// The greatest number of nodes of a version: 1,048,576.
const NODES: u64 = 1_048_576;

/// How many nodes a version has at most, and exactly how many where there may be more than 1,048,576. Only there are
/// they counted.
fn bound_at(root: &Node, prefix: &[Quant], version: u32, most: u64) -> u64
    requires most { nodes (skeleton_of (shown version root.now prefix.now)) ≤ most }
    requires fits { most ≤ 2 ^ 63 }
    ensures bound { nodes (skeleton_of (shown version root.now prefix.now)) ≤ result }
    ensures exact { node_limit < result → result ≡ nodes (skeleton_of (shown version root.now prefix.now)) }
{
    if most <= NODES {
        return most;
    }
    count_at(root, prefix, version)
}

/// A skeleton that grows, seen as the list of its versions. They are kept in one tree, in which each move has the number of
/// the version that brought it. Every version follows the prefix and has at most 1,048,576 nodes.
#[derive(Drop)]
pub struct Grown<D: Domain> {
    prefix: Items<Quant>,
    root: Node,
    last: u32,
    bound: u64,
    of: PhantomData<D>,
}

impl<D: Domain> Model for Grown<D> {
    ghost use Rattle.game_tree.specs.contracts.Tree as t;
    ghost use Rattle.std.specs.Coded.{codes};
    ghost use Rattle.grown_tree.specs.Versions.{Versions, up_to, IsGrown};

    ghost Value = { Versions };

    ghost coded = { Prim.hlevel (codes, t.the_row.coded) };

    ghost view = { λ s. record { prefix = s.prefix; versions = up_to s.root s.prefix s.last } };

    ghost invariant = { λ s. IsGrown D.SORT s.prefix s.root s.last s.bound };
}

impl<D: Domain> Grown<D> {
    /// With this skeleton of at most 1,048,576 nodes as version 0; refuses only for memory.
    pub fn begin(alloc: Global, first: &Skeleton<D>) -> Result<Grown<D>, Memory>
        requires { nodes (skeleton_of first.now.tree) ≤ node_limit }
        ensures prefix { IfOk result (λ g. g.prefix ≡ first.now.prefix) }
        ensures one { IfOk result (λ g. length g.versions ≡ 1) }
        ensures first { IfOk result (λ g. skeleton_of (newest g.versions) ≡ skeleton_of first.now.tree) }
    {
        let tree = first.tree();
        let prefix = Items::from_slice(alloc, first.prefix())?;
        let (root, done) = grow(alloc, Node::End, prefix.as_slice(), tree, 0);
        if !done {
            return Err(Memory);
        }
        let bound = first.nodes();
        Ok(Grown {
            prefix,
            root,
            last: 0,
            bound,
            of: PhantomData,
        })
    }

    /// The newest version gets the paths of a skeleton along the same prefix, as a further version, whose number is
    /// answered. Large comes exactly where the union has so many nodes and they exceed 1,048,576. After a refusal all
    /// versions are as before.
    pub fn grow(&mut self, alloc: Global, paths: &Skeleton<D>) -> Result<u32, GrowFault>
        requires { self.old.prefix ≡ paths.now.prefix }
        ensures number { IfOk result (λ v. v ≡ length self.old.versions) }
        ensures grown { OnOk result (Grows self.old.versions (skeleton_of paths.now.tree) self.new.versions) }
        ensures few { OnOk result (nodes (skeleton_of (newest self.new.versions)) ≤ node_limit) }
        ensures prefix { self.new.prefix ≡ self.old.prefix }
        ensures large { (n : ℕ) → result ≡ Err (Large n) → (n ≡ nodes (union (skeleton_of (newest self.old.versions)) (skeleton_of paths.now.tree))) × (node_limit < n) }
        ensures kept { OnErr result (self.new ≡ self.old) }
    {
        if self.last == u32::MAX {
            return Err(GrowFault::Memory);
        }
        let stamp = self.last + 1;
        let old = std::mem::replace(&mut self.root, Node::End);
        let (root, done) = grow(alloc, old, self.prefix.as_slice(), paths.tree(), stamp);
        if !done {
            self.root = cut(root, self.last);
            return Err(GrowFault::Memory);
        }
        let most = self.bound + paths.nodes();
        let nodes = bound_at(&root, self.prefix.as_slice(), stamp, most);
        if nodes > NODES {
            self.root = cut(root, self.last);
            return Err(GrowFault::Large { nodes });
        }
        self.root = root;
        self.last = stamp;
        self.bound = nodes;
        Ok(stamp)
    }

    /// The number of the newest version.
    pub fn last(&self) -> u32
        ensures { length self.now.versions ≡ result + 1 }
    {
        self.last
    }

    /// Who chooses each variable, from the outside in.
    pub fn prefix(&self) -> &[Quant]
        ensures { result.now ≡ self.now.prefix }
    {
        self.prefix.as_slice()
    }

    /// A version, lent. None comes exactly where there is none of this number. It takes no memory.
    pub fn view(&self, version: u32) -> Option<View<'_, D>>
        ensures { MatchOption result (length self.now.versions ≤ version) (λ V. (slice_get self.now.versions version ≡ Some V.tree) × (V.prefix ≡ self.now.prefix)) }
    {
        if version > self.last {
            return None;
        }
        Some(View::of_version(self.prefix.as_slice(), &self.root, version))
    }

    /// The newest version, lent; takes no memory.
    pub fn newest(&self) -> View<'_, D>
        ensures tree { result.tree ≡ newest self.now.versions }
        ensures prefix { result.prefix ≡ self.now.prefix }
    {
        View::of_version(self.prefix.as_slice(), &self.root, self.last)
    }

    /// Whether the newest version has every path of a skeleton; takes no memory.
    pub fn contains(&self, paths: &Skeleton<D>) -> bool
        ensures { IsTrue result ↔ In (skeleton_of paths.now.tree) (skeleton_of (newest self.now.versions)) }
    {
        has_all(&self.root, self.prefix.as_slice(), self.last, paths.tree())
    }

    /// How many nodes the newest version has; takes no memory.
    pub fn nodes(&self) -> u64
        ensures { result ≡ nodes (skeleton_of (newest self.now.versions)) }
    {
        count_at(&self.root, self.prefix.as_slice(), self.last)
    }
}
