//! A game that one worker plays for both sides.

ghost use Rattle.std.specs.Prelude.{◌≡◌, ◌≤◌, IfOk};
ghost use Rattle.dom_core.specs.Problem.{problem_of, IsTrueProblem};
ghost use Rattle.team_work.specs.Outcome.{IsOutcome, IsRight, HasFewRounds};
ghost use Rattle.team_work.specs.Turn.{HasDual, IsBoardOf, IsGoing, IsSameGame, Stops};

use crate::closing::Closing;
use crate::ending::ended;
use crate::kept::Kept;
use crate::outcome::Outcome;
use crate::turn::turn;
use clause_search::{Attacker, PlainAttacker};
use dom_core::{Domain, Problem, Side};
use game_board::Board;
use lin_term::Memory;
use std::alloc::Global;

/// The board on which nothing has happened; refuses only for memory.
#[tactic(auto, using(crate::proofs::Playing::first_board, crate::proofs::Playing::first_goings))]
fn opened<D: Domain>(alloc: Global, problem: Problem<D>, rounds: u32) -> Result<Board<D>, Memory>
    requires { rounds ≤ 4096 }
    ensures board { IfOk result (λ b. IsBoardOf D.SORT problem rounds b) }
    ensures going { IfOk result (λ b. IsGoing D.SORT b) }
{
    // Its clauses say that the dual's dual is the problem.
    let _dual = problem.dual(alloc)?;
    Board::begin(alloc, problem, rounds)
}

/// Turns are taken until the game stops. The wish begins with Exists and changes after each. It refuses only for memory.
#[tactic(auto, using(crate::proofs::Playing::same_on, crate::proofs::Playing::same_self, crate::proofs::Playing::less_room, crate::proofs::States::still_dual))]
fn play<D: Domain, A: Attacker<D>>(
    alloc: Global,
    attacker: &A,
    board: &mut Board<D>,
) -> Result<Closing, Memory>
    requires duals { HasDual D.SORT board.old }
    requires going { IsGoing D.SORT board.old }
    ensures stops { IfOk result (λ x. Stops D.SORT board.new x) }
    ensures same { IfOk result (λ x. IsSameGame board.old board.new) }
{
    let mut wish = Side::Exists;
    let mut kept = Kept::new(alloc);
    loop {
        // What is read of the history says how long it can be.
        let _few = board.history();
        if let Some(stop) = turn(alloc, attacker, board, wish, &mut kept)? {
            return Ok(stop);
        }
        let _few = board.history();
        wish = wish.other();
    }
}

/// The game of a problem within a budget of at most 4,096 rounds, played alone to its end: a verdict, both sides without work,
/// a counter when the budget is spent, or a union that is too large. The journal is legal; a game that is won keeps the paths
/// that its proof needs. A verdict is right: Sat where the problem is true, Unsat where it is not. Spent rounds are the cause
/// only where the budget is less than is known to be enough (`round_bounds`). It refuses only for memory.
#[tactic(auto, using(crate::proofs::Playing::last_rounds, crate::proofs::Playing::outcome_of, crate::proofs::Playing::right_of, crate::proofs::Rounds::rounds_of, crate::proofs::States::still_dual))]
pub fn solve_alone<D: Domain>(
    alloc: Global,
    problem: Problem<D>,
    rounds: u32,
) -> Result<Outcome<D>, Memory>
    requires { rounds ≤ 4096 }
    ensures outcome { IfOk result (λ o. IsOutcome D.SORT (problem_of problem) rounds o) }
    ensures right { IfOk result (λ o. IsRight (IsTrueProblem D.SORT problem) o.verdict) }
    ensures few { IfOk result (λ o. HasFewRounds D.SORT (problem_of problem) rounds o.verdict) }
{
    let _kept = problem.matrix();
    let mut board = opened(alloc, problem, rounds)?;
    let stop = play(alloc, &PlainAttacker, &mut board)?;
    ended(alloc, board, stop, rounds)
}
