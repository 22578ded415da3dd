//! Whether what a note says belongs to a losing system.

ghost use Rattle.std.specs.Prelude.{◌≡◌, ◌≤◌, ◌↔◌, IsTrue, IfOk};
ghost use Rattle.dom_core.specs.Problem.{problem_of};
ghost use Rattle.game_tree.specs.Skeleton.{nodes, node_limit};
ghost use Rattle.game_tree.specs.View.{skeleton_of};
ghost use Rattle.lose_system.specs.Losing.{system};
ghost use Rattle.game_tree.specs.Among.{EachIs};
ghost use Rattle.game_history.specs.Legal.{IsOfSystem};
ghost use Rattle.game_board.specs.Entries.{wideness_of};
ghost use Rattle.game_board.specs.Replies.{BelongsTo};

use crate::why::Wideness;
use dom_core::{Domain, Problem};
use game_history::are_of_system;
use grown_tree::View;
use lin_term::{Lit, Memory};
use lose_system::System;
use std::alloc::Global;

/// Whether all literals are ones of the losing system of a problem and a version of its Exists with at most 1,048,576 nodes.
fn are_of_version<D: Domain>(
    alloc: Global,
    problem: &Problem<D>,
    view: &View<'_, D>,
    lits: &[Lit],
) -> Result<bool, Memory>
    requires prefix { view.now.prefix ≡ problem.now.prefix }
    requires few { nodes (skeleton_of view.now.tree) ≤ node_limit }
    ensures { IfOk result (λ b. IsTrue b ↔ EachIs (IsOfSystem (system D.SORT (problem_of problem.now) (skeleton_of view.now.tree))) lits.now) }
{
    let copy = view.copy(alloc)?;
    let system = System::of(alloc, problem, copy.lend())?;
    are_of_system(alloc, &system, lits)
}

/// Whether the literals of a cube are ones of that losing system, or the point has one value for each node. It refuses only for
/// memory, which a point does not take.
pub(crate) fn belongs<D: Domain>(
    alloc: Global,
    problem: &Problem<D>,
    view: &View<'_, D>,
    why: &Wideness<D>,
) -> Result<bool, Memory>
    requires prefix { view.now.prefix ≡ problem.now.prefix }
    requires few { nodes (skeleton_of view.now.tree) ≤ node_limit }
    ensures { IfOk result (λ b. IsTrue b ↔ BelongsTo (system D.SORT (problem_of problem.now) (skeleton_of view.now.tree)) (wideness_of why.now)) }
{
    match why {
        Wideness::Cube(wide) => are_of_version(alloc, problem, view, wide.cube().lits()),
        Wideness::Choice(choice) => Ok(choice.point.nums().len() as u64 == view.nodes()),
    }
}
