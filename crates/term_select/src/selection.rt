//! The counter that a solution of the losing system gives.

ghost use Rattle.std.specs.Prelude.{◌≡◌, ◌≤◌, IfOk};
ghost use Rattle.dom_core.specs.Game.{flip_all};
ghost use Rattle.dom_core.specs.Problem.{problem_of};
ghost use Rattle.game_tree.specs.Skeleton.{nodes, node_limit};
ghost use Rattle.game_tree.specs.View.{skeleton_of};
ghost use Rattle.game_tree.specs.Written.{FollowsPrefix};
ghost use Rattle.lose_system.specs.Losing.{system, Solves};
ghost use Rattle.term_select.specs.Answers.{Answers, IsStop};
ghost use Rattle.term_select.specs.Selected.{Selected};

use crate::counter::Counter;
use crate::fault::{SelectFault, WideChoice};
use crate::part::Stop;
use crate::rows::read_rows;
use crate::walk::walk;
use dom_core::{Domain, Problem, Side};
use game_tree::{Skeleton, Tree};
use lin_term::{Memory, Point, Short};
use sqlite_items::Items;
use std::alloc::Global;

/// The counter with this tree; refuses only for memory.
fn made<D: Domain>(
    alloc: Global,
    side: Side,
    problem: Problem<D>,
    against: Skeleton<D>,
    tree: Tree,
) -> Result<Counter<D>, Memory>
    requires own { FollowsPrefix D.SORT (record { prefix = problem.prefix; tree = tree }) }
    requires other { against.prefix ≡ flip_all problem.prefix }
    requires few { nodes (skeleton_of against.tree) ≤ node_limit }
    requires selected { Selected D.SORT (problem_of problem) (skeleton_of against.tree) (skeleton_of tree) }
    ensures { IfOk result (λ c. c ≡ record { side = side; problem = problem; against = against; paths = record { prefix = problem.prefix; tree = tree } }) }
{
    let prefix = Items::from_slice(alloc, problem.prefix())?;
    let paths = Skeleton::from_parts(prefix, tree);
    Ok(Counter::from_parts(side, problem, against, paths))
}

/// The stop with the point from which the selection began.
fn stopped(alloc: Global, point: &Point, fault: Short<Stop>) -> SelectFault
    ensures { IsStop point.now fault result }
{
    match fault {
        Short::Memory => SelectFault::Memory,
        Short::Fault(stop) => match point.copy(alloc) {
            Ok(point) => SelectFault::Choice(WideChoice {
                point,
                var: stop.var,
                number: stop.number,
            }),
            Err(_) => SelectFault::Memory,
        },
    }
}

/// The counter of `side` to `against`, a skeleton of at most 1,048,576 nodes of the player who is Exists in `problem`, from a
/// point that solves its losing system. At each leaf the implicant of the other player's matrix is taken: of an And all
/// children, of an Or the first that is true. From the leaves up a move of `against` is put in for its variable, and the cubes
/// and trees of several moves meet; for a variable of `side` one move is picked and put in. Choice comes exactly where this
/// forms a number past the cap; it has the point, the position and the first such number. Besides it refuses only for memory.
pub fn select<D: Domain>(
    alloc: Global,
    problem: &Problem<D>,
    side: Side,
    against: Skeleton<D>,
    point: &Point,
) -> Result<Counter<D>, SelectFault>
    requires prefix { against.prefix ≡ problem.now.prefix }
    requires few { nodes (skeleton_of against.tree) ≤ node_limit }
    requires solves { Solves D.SORT (system D.SORT (problem_of problem.now) (skeleton_of against.tree)) point.now }
    ensures { Answers D.SORT side problem.now against point.now result }
{
    let own = problem.dual(alloc)?;
    read_rows(own.matrix());
    let mut way = Items::new(alloc);
    match walk::<D>(alloc, own.matrix(), point, against.tree(), 0, &mut way) {
        Ok(part) => {
            let counter = made(alloc, side, own, against, part.tree)?;
            Ok(counter)
        }
        Err(fault) => Err(stopped(alloc, point, fault)),
    }
}
