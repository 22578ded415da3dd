//! The losing system of a problem and a skeleton of the player who is Exists in it. Both are borrowed; the system adds a
//! table of 16 bytes a node and 4 bytes a path.

ghost use Rattle.std.specs.Prelude.{◌≡◌, ◌≤◌, ◌↔◌, IsTrue, [], slice_get, length, option_map, IfOk, IfSome};
ghost use Rattle.dom_core.specs.Problem.{problem_of, IsProblem};
ghost use Rattle.dom_core.specs.View.{matrix_of};
ghost use Rattle.game_tree.specs.Skeleton.{IsSkeleton, nodes, node_limit};
ghost use Rattle.game_tree.specs.View.{skeleton_of};
ghost use Rattle.lin_term.specs.Rising.{IsRising};
ghost use Rattle.lose_system.specs.Losing.{routes, AllDefined, AllLose, Solves, HoldsAt};
ghost use Rattle.lose_system.specs.Written.{definition_literal, system_of};
ghost use Rattle.lose_system.specs.Rising.{IsWay};

use crate::literal::defining;
use crate::lost::lost_matrix;
use crate::route::add_route;
use crate::solved::{is_point, loses};
use crate::table::{Node, fill};
use dom_core::{Domain, Matrix, Problem};
use game_tree::{SkeletonRef, Tree};
use lin_term::{Lit, Memory, Point, literal_holds};
use sqlite_items::Items;
use std::alloc::Global;
use std::marker::Model;

/// One variable for each node of the skeleton, numbered in preorder from 0; the definitions of all moves; and on each
/// path the negated matrix with the path's nodes for the positions of the prefix.
#[derive(Drop)]
pub struct System<'a, D: Domain> {
    problem: &'a Problem<D>,
    tree: &'a Tree,
    nodes: Items<Node<'a>>,
    ends: Items<u32>,
}

impl<'a, D: Domain> Model for System<'a, D> {
    ghost use Rattle.dom_core.specs.contracts.Matrix as m;
    ghost use Rattle.game_tree.specs.contracts.Tree as t;
    ghost use Rattle.std.specs.Coded.{codes};
    ghost use Rattle.lose_system.specs.Written.{WrittenSystem};

    ghost Value = { WrittenSystem };

    ghost coded = { Prim.hlevel (codes, m.the_row.coded, t.the_row.coded) };

    ghost use Rattle.lose_system.specs.Kept.{IsTable};

    ghost view = { λ s. record { problem = s.problem.now; tree = s.tree.now } };

    ghost invariant = { λ s. IsTable D.SORT (record { problem = s.problem.now; tree = s.tree.now }) s.nodes s.ends };
}

impl<'a, D: Domain> System<'a, D> {
    /// The losing system of a problem and a skeleton over the same prefix that has at most 1,048,576 nodes; refuses only
    /// for memory.
    pub fn of(
        alloc: Global,
        problem: &'a Problem<D>,
        skeleton: SkeletonRef<'a, D>,
    ) -> Result<System<'a, D>, Memory>
        requires prefix { skeleton.prefix ≡ problem.now.prefix }
        requires few { nodes (skeleton_of skeleton.tree) ≤ node_limit }
        ensures { IfOk result (λ s. s ≡ record { problem = problem.now; tree = skeleton.entry.tree }) }
    {
        System::of_tree(alloc, problem, skeleton.tree())
    }

    /// The same of a tree that is a skeleton of the problem.
    fn of_tree(
        alloc: Global,
        problem: &'a Problem<D>,
        tree: &'a Tree,
    ) -> Result<System<'a, D>, Memory>
        requires { IsSkeleton D.SORT (problem_of problem.now) (skeleton_of tree.now) }
        ensures { IfOk result (λ s. s ≡ record { problem = problem.now; tree = tree.now }) }
    {
        let _kept = problem.matrix();
        let mut nodes = Items::new(alloc);
        let mut ends = Items::new(alloc);
        fill(&mut nodes, &mut ends, tree, 0, 0)?;
        Ok(System {
            problem,
            tree,
            nodes,
            ends,
        })
    }

    /// The problem.
    pub fn problem(&self) -> &'a Problem<D>
        ensures { result.now ≡ self.now.problem }
    {
        self.problem
    }

    /// The skeleton, lent.
    pub fn skeleton(&self) -> SkeletonRef<'a, D>
        ensures { result ≡ record { prefix = self.now.problem.prefix; tree = self.now.tree } }
    {
        let _kept = self.problem.matrix();
        SkeletonRef::from_tree(self.problem.prefix(), self.tree)
    }

    /// How many nodes, and so variables, there are.
    pub fn node_count(&self) -> u32
        ensures { result ≡ nodes (skeleton_of self.now.tree) }
    {
        self.nodes.len() as u32
    }

    /// How many paths there are.
    pub fn path_count(&self) -> u32
        ensures { result ≡ length (routes (skeleton_of self.now.tree) [] 0) }
    {
        self.ends.len() as u32
    }

    /// The problem's matrix, which each path negates. The problem is one that its type keeps, and the tree a skeleton of
    /// it.
    pub fn matrix(&self) -> &'a Matrix
        ensures value { result.now ≡ self.now.problem.matrix }
        ensures kept { IsProblem D.SORT self.now.problem }
        ensures skeleton { IsSkeleton D.SORT (problem_of self.now.problem) (skeleton_of self.now.tree) }
    {
        self.problem.matrix()
    }

    /// The nodes of path k in preorder, from 0, for the positions of the prefix; none exactly where there is no such path.
    /// It refuses only for memory.
    pub fn path_nodes(&self, alloc: Global, k: u32) -> Result<Option<Items<u32>>, Memory>
        ensures value { IfOk result (λ o. o ≡ slice_get (routes (skeleton_of self.now.tree) [] 0) k) }
        ensures kept { IfOk result (λ o. IfSome o (λ names. IsWay (length self.now.problem.prefix) names)) }
        ensures within { IfOk result (λ o. IfSome o (λ names. IsRising names (nodes (skeleton_of self.now.tree)))) }
    {
        let Some(end) = self.ends.get(k as usize) else {
            return Ok(None);
        };
        let mut names = Items::new(alloc);
        let depth = self.problem.prefix().len() as u32;
        add_route(self.nodes.as_slice(), depth, *end, &mut names)?;
        Ok(Some(names))
    }

    /// What path k, in preorder from 0, asserts: the negated matrix with the path's nodes for the positions of the prefix;
    /// none exactly where there is no such path. It is built here, and refuses only for memory.
    pub fn path(&self, alloc: Global, k: u32) -> Result<Option<Matrix>, Memory>
        ensures { IfOk result (λ o. option_map matrix_of o ≡ slice_get (system_of D.SORT self.now).paths k) }
    {
        let Some(names) = self.path_nodes(alloc, k)? else {
            return Ok(None);
        };
        let built = lost_matrix(alloc, D::SORT, self.matrix(), names.as_slice())?;
        Ok(Some(built))
    }

    /// Definition literal `which` of a move's node; none exactly where the node is no move or `which` is above 1. It
    /// refuses only for memory.
    pub fn definition(&self, alloc: Global, node: u32, which: u32) -> Result<Option<Lit>, Memory>
        ensures { IfOk result (λ o. o ≡ definition_literal D.SORT self.now node which) }
    {
        let Some(place) = self.nodes.get(node as usize) else {
            return Ok(None);
        };
        let Some(term) = place.term else {
            return Ok(None);
        };
        let mut names = Items::new(alloc);
        add_route(self.nodes.as_slice(), place.depth, place.above, &mut names)?;
        defining::<D>(alloc, term, node, names.as_slice(), which)
    }

    /// Whether the definition of a node holds at the point, where the node is a move.
    fn is_defined(&self, alloc: Global, node: u32, point: &Point) -> Result<bool, Memory>
        requires { length point.now.nums ≡ nodes (skeleton_of self.now.tree) }
        ensures { IfOk result (λ b. IsTrue b ↔ HoldsAt (system_of D.SORT self.now).defs point.now node) }
    {
        let _kept = self.matrix();
        let Some(upper) = self.definition(alloc, node, 0)? else {
            return Ok(true);
        };
        let Some(lower) = self.definition(alloc, node, 1)? else {
            return Ok(true);
        };
        if !literal_holds(&upper, point) {
            return Ok(false);
        }
        Ok(literal_holds(&lower, point))
    }

    /// Whether the definitions of all moves hold at the point.
    fn are_defined(&self, alloc: Global, point: &Point) -> Result<bool, Memory>
        requires { length point.now.nums ≡ nodes (skeleton_of self.now.tree) }
        ensures { IfOk result (λ b. IsTrue b ↔ AllDefined (system_of D.SORT self.now).defs point.now) }
    {
        for node in 0..self.node_count() {
            let holds = self.is_defined(alloc, node, point)?;
            if !holds {
                return Ok(false);
            }
        }
        Ok(true)
    }

    /// Whether all paths lose at the point.
    fn are_lost(&self, alloc: Global, point: &Point) -> Result<bool, Memory>
        requires { length point.now.nums ≡ nodes (skeleton_of self.now.tree) }
        ensures { IfOk result (λ b. IsTrue b ↔ AllLose (system_of D.SORT self.now).paths point.now) }
    {
        let matrix = self.matrix();
        for k in 0..self.path_count() {
            let Some(names) = self.path_nodes(alloc, k)? else {
                return Ok(true);
            };
            let lost = loses(alloc, D::SORT, matrix, names.as_slice(), point)?;
            if !lost {
                return Ok(false);
            }
        }
        Ok(true)
    }

    /// Whether the point solves the system: one value of the sort for each node, each move's node has its value, and each
    /// path loses. By exact arithmetic; it takes memory for the nodes of one path and for one literal, and refuses only
    /// for memory.
    pub fn is_solved_by(&self, alloc: Global, point: &Point) -> Result<bool, Memory>
        ensures { IfOk result (λ b. IsTrue b ↔ Solves D.SORT (system_of D.SORT self.now) point.now) }
    {
        if !is_point(D::SORT, point) {
            return Ok(false);
        }
        if point.nums().len() != self.node_count() as usize {
            return Ok(false);
        }
        let defined = self.are_defined(alloc, point)?;
        if !defined {
            return Ok(false);
        }
        self.are_lost(alloc, point)
    }
}
