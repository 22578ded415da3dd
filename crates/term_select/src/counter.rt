//! Counters: what is selected against a skeleton of the other player.

ghost use Rattle.std.specs.Prelude.{◌≡◌, ◌≤◌};
ghost use Rattle.dom_core.specs.Game.{flip_all};
ghost use Rattle.dom_core.specs.Problem.{problem_of};
ghost use Rattle.game_tree.specs.Skeleton.{nodes, node_limit};
ghost use Rattle.game_tree.specs.View.{skeleton_of};
ghost use Rattle.term_select.specs.Counter.{IsCounter};
ghost use Rattle.term_select.specs.Selected.{Selected};

use dom_core::{Domain, Problem, Side};
use game_tree::Skeleton;
use std::marker::Model;

/// A skeleton that a side has selected against one of the other side, from a solution of the losing system of that one,
/// within the cap. It beats the other, and has at most as many paths and nodes.
#[derive(Drop)]
pub struct Counter<D: Domain> {
    side: Side,
    problem: Problem<D>,
    against: Skeleton<D>,
    paths: Skeleton<D>,
}

impl<D: Domain> Model for Counter<D> {
    ghost use Rattle.dom_core.specs.contracts.Matrix as m;
    ghost use Rattle.game_tree.specs.contracts.Tree as t;
    ghost use Rattle.std.specs.Coded.{codes};
    ghost use Rattle.term_select.specs.Counter.{WrittenCounter, IsCounter};

    ghost Value = { WrittenCounter };

    ghost coded = { Prim.hlevel (codes, m.the_row.coded, t.the_row.coded) };

    ghost view = { λ c. record { side = c.side; problem = c.problem; against = c.against; paths = c.paths } };

    ghost invariant = { λ c. IsCounter D.SORT (record { side = c.side; problem = c.problem; against = c.against; paths = c.paths }) };
}

impl<D: Domain> Counter<D> {
    /// The counter of `side`, who is Exists in the problem: `paths` is what is selected against `against`, a skeleton of the
    /// other player with at most 1,048,576 nodes. It takes no memory.
    pub fn from_parts(
        side: Side,
        problem: Problem<D>,
        against: Skeleton<D>,
        paths: Skeleton<D>,
    ) -> Counter<D>
        requires own { paths.prefix ≡ problem.prefix }
        requires other { against.prefix ≡ flip_all problem.prefix }
        requires few { nodes (skeleton_of against.tree) ≤ node_limit }
        requires selected { Selected D.SORT (problem_of problem) (skeleton_of against.tree) (skeleton_of paths.tree) }
        ensures { result ≡ record { side = side; problem = problem; against = against; paths = paths } }
    {
        // What is read of the parts says what their types keep.
        let _problem = problem.matrix();
        let _against = against.tree();
        let _paths = paths.tree();
        Counter {
            side,
            problem,
            against,
            paths,
        }
    }

    /// The side that plays.
    pub fn side(&self) -> Side
        ensures { result ≡ self.now.side }
    {
        self.side
    }

    /// The problem in which that side is Exists.
    pub fn problem(&self) -> &Problem<D>
        ensures { result.now ≡ self.now.problem }
    {
        &self.problem
    }

    /// The skeleton of the other side that is beaten.
    pub fn against(&self) -> &Skeleton<D>
        ensures { result.now ≡ self.now.against }
    {
        &self.against
    }

    /// The skeleton of the side that plays.
    pub fn paths(&self) -> &Skeleton<D>
        ensures value { result.now ≡ self.now.paths }
        ensures kept { IsCounter D.SORT self.now }
    {
        &self.paths
    }

    /// The skeleton of the side that plays, taken out.
    pub fn into_paths(self) -> Skeleton<D>
        ensures value { result ≡ self.paths }
        ensures kept { IsCounter D.SORT self }
    {
        let Counter {
            side: _side,
            problem: _problem,
            against: _against,
            paths,
        } = self;
        paths
    }
}
