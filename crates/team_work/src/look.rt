//! An attack on a version of a side, and what comes of it.

ghost use Rattle.std.specs.Prelude.{◌≡◌, ◌≤◌, IfOk};
ghost use Rattle.dom_core.specs.Problem.{problem_of};
ghost use Rattle.game_tree.specs.Skeleton.{nodes, node_limit};
ghost use Rattle.game_tree.specs.View.{skeleton_of};
ghost use Rattle.lose_system.specs.Losing.{system, Solves};
ghost use Rattle.clause_search.specs.Attacks.{IsAttack};
ghost use Rattle.game_history.specs.History.{of_side, newest_number};
ghost use Rattle.game_board.specs.Board.{state_of};
ghost use Rattle.team_work.specs.Turn.{HasDual, Comes, IsLooked};

use clause_search::{Attack, Attacker};
use dom_core::{Domain, Problem, Side};
use game_board::{Board, Wideness};
use game_tree::Skeleton;
use lin_term::{Memory, Point};
use lose_system::System;
use proof_rules::Won;
use search_attack::Values;
use std::alloc::Global;
use term_select::{Counter, SelectFault, select};

/// In how many orders a version is attacked before a choice is noted. Measured: of 196 games one meets such a choice at all, and
/// it ends with a note after 0, 1, 4 and 16 further orders alike.
const ORDERS: u64 = 4;

/// The order of each try: simpler points first, then from nothing, then other children.
pub(crate) fn order_of(turn: u64) -> u64 {
    match turn {
        0 => 0,
        1 => 32,
        2 => 40,
        3 => 41,
        _ => 16,
    }
}

/// What an attack on a version comes to.
#[derive(Drop)]
pub enum Looked<D: Domain> {
    /// The version loses on no path: its side has won.
    Won(Won<D>),
    /// The other side has a counter to it.
    Beaten(Counter<D>),
    /// No branch is solved within the cap, or selection from a solution passes it.
    Wide(Wideness<D>),
}

/// The attack on the losing system of a skeleton of the problem's Exists with at most 1,048,576 nodes; refuses only for memory.
pub(crate) fn attacked<D: Domain, A: Attacker<D>>(
    alloc: Global,
    attacker: &A,
    problem: &Problem<D>,
    skeleton: &Skeleton<D>,
    order: u64,
    values: &mut Values,
) -> Result<Attack<D>, Memory>
    requires prefix { skeleton.now.prefix ≡ problem.now.prefix }
    requires few { nodes (skeleton_of skeleton.now.tree) ≤ node_limit }
    ensures { IfOk result (λ a. IsAttack D.SORT (record { problem = problem.now; tree = skeleton.now.tree }) a) }
{
    let system = System::of(alloc, problem, skeleton.lend())?;
    attacker.attack_from(alloc, &system, order, values)
}

/// What the other side selects from a point that solves the losing system; refuses only for memory.
fn selected<D: Domain>(
    alloc: Global,
    problem: &Problem<D>,
    side: Side,
    skeleton: Skeleton<D>,
    point: &Point,
) -> Result<Looked<D>, Memory>
    requires prefix { skeleton.prefix ≡ problem.now.prefix }
    requires few { nodes (skeleton_of skeleton.tree) ≤ node_limit }
    requires solves { Solves D.SORT (system D.SORT (problem_of problem.now) (skeleton_of skeleton.tree)) point.now }
    ensures { IfOk result (λ l. Comes D.SORT side problem.now skeleton l) }
{
    match select(alloc, problem, side.other(), skeleton, point) {
        Ok(counter) => Ok(Looked::Beaten(counter)),
        Err(SelectFault::Choice(choice)) => Ok(Looked::Wide(Wideness::Choice(choice))),
        Err(SelectFault::Memory) => Err(Memory),
    }
}

/// What the attack on a skeleton of the side comes to; refuses only for memory.
pub(crate) fn answered<D: Domain>(
    alloc: Global,
    problem: &Problem<D>,
    side: Side,
    skeleton: Skeleton<D>,
    attack: Attack<D>,
) -> Result<Looked<D>, Memory>
    requires prefix { skeleton.prefix ≡ problem.now.prefix }
    requires few { nodes (skeleton_of skeleton.tree) ≤ node_limit }
    requires attack { IsAttack D.SORT (record { problem = problem.now; tree = skeleton.tree }) attack }
    ensures { IfOk result (λ l. Comes D.SORT side problem.now skeleton l) }
{
    match attack {
        Attack::Point(point) => selected(alloc, problem, side, skeleton, &point),
        Attack::Refuted(lines) => {
            let problem = problem.copy(alloc)?;
            Ok(Looked::Won(Won::from_refuted(problem, skeleton, lines)))
        }
        Attack::Wide(cube) => Ok(Looked::Wide(Wideness::Cube(cube))),
    }
}

/// What one attack on the newest version of a side comes to; refuses only for memory.
#[tactic(auto, using(crate::proofs::Looking::comes_looked, crate::proofs::Looking::look_found))]
fn looked_once<D: Domain, A: Attacker<D>>(
    alloc: Global,
    attacker: &A,
    board: &Board<D>,
    side: Side,
    version: u32,
    order: u64,
    values: &mut Values,
) -> Result<Looked<D>, Memory>
    requires duals { HasDual D.SORT board.now }
    requires newest { version ≡ newest_number (of_side side (state_of D.SORT board.now)) }
    ensures { IfOk result (λ l. IsLooked D.SORT board.now side version l) }
{
    // What is read of the history says how many nodes a version has.
    let _played = board.history();
    let Some(view) = board.look(side, version) else {
        unreachable!();
    };
    let skeleton = view.copy(alloc)?;
    let problem = board.problem(side);
    let attack = attacked(alloc, attacker, problem, &skeleton, order, values)?;
    answered(alloc, problem, side, skeleton, attack)
}

impl<D: Domain> Looked<D> {
    /// Whether a solution was found from which selection passes the cap.
    pub(crate) fn is_choice(&self) -> bool {
        match self {
            Looked::Wide(Wideness::Choice(_)) => true,
            _ => false,
        }
    }
}

/// The newest version of a side is attacked. Where selection from a solution passes the cap, other orders are tried before
/// that is the answer. It refuses only for memory.
pub fn look<D: Domain, A: Attacker<D>>(
    alloc: Global,
    attacker: &A,
    board: &Board<D>,
    side: Side,
    version: u32,
    values: &mut Values,
) -> Result<Looked<D>, Memory>
    requires duals { HasDual D.SORT board.now }
    requires newest { version ≡ newest_number (of_side side (state_of D.SORT board.now)) }
    ensures { IfOk result (λ l. IsLooked D.SORT board.now side version l) }
{
    for turn in 0..ORDERS {
        let looked = looked_once(
            alloc,
            attacker,
            board,
            side,
            version,
            order_of(turn),
            values,
        )?;
        if !looked.is_choice() {
            return Ok(looked);
        }
    }
    looked_once(
        alloc,
        attacker,
        board,
        side,
        version,
        order_of(ORDERS),
        values,
    )
}
