//! One turn of a game that is played alone.

ghost use Rattle.std.specs.Prelude.{◌≡◌, IfOk};
ghost use Rattle.game_history.specs.Legal.{OfVersion};
ghost use Rattle.game_history.specs.History.{of_side};
ghost use Rattle.game_history.specs.Work.{HasWork};
ghost use Rattle.dom_core.specs.Sides.{other};
ghost use Rattle.dom_core.specs.Problem.{problem_of};
ghost use Rattle.game_board.specs.Board.{state_of};
ghost use Rattle.game_board.specs.Entries.{wideness_of};
ghost use Rattle.game_board.specs.Replies.{AttacksVersion, WinsVersion, IsAttackBy};
ghost use Rattle.team_work.specs.Shown.{ShownFor};
ghost use Rattle.team_work.specs.Turn.{HasDual, IsGoing, IsSameGame, Turns};

use crate::closing::Closing;
use crate::kept::Kept;
use crate::look::{Looked, look};
use clause_search::Attacker;
use dom_core::{Domain, Side};
use game_board::{Board, Job, Published, WideNote, Wideness};
use lin_term::Memory;
use proof_rules::Won;
use std::alloc::Global;
use term_select::Counter;

/// The side has won by its version.
#[tactic(auto, using(crate::proofs::Turning::finished_turns))]
fn finish<D: Domain>(board: &mut Board<D>, won: Won<D>, side: Side, version: u32) -> Option<Closing>
    requires going { IsGoing D.SORT board.old }
    requires wins { WinsVersion D.SORT board.old won side version }
    ensures turns { Turns D.SORT board.old result board.new }
    ensures same { IsSameGame board.old board.new }
{
    let _set = board.finish(won, side, version);
    Some(Closing::Won(side))
}

/// A counter of the side that has work, to the version that it attacks.
#[tactic(auto, using(crate::proofs::Turning::published_turns))]
fn publish<D: Domain>(
    alloc: Global,
    board: &mut Board<D>,
    counter: Counter<D>,
    version: u32,
) -> Result<Option<Closing>, Memory>
    requires going { IsGoing D.SORT board.old }
    requires attacks { AttacksVersion D.SORT board.old counter version }
    requires work { IsAttackBy D.SORT board.old counter.side (other counter.side) version }
    ensures turns { IfOk result (λ o. Turns D.SORT board.old o board.new) }
    ensures same { IfOk result (λ o. IsSameGame board.old board.new) }
{
    match board.publish(alloc, counter, version)? {
        Published::Added(_) => Ok(None),
        Published::Held => Ok(None),
        Published::Spent => Ok(Some(Closing::Spent)),
        Published::TooLarge { nodes } => Ok(Some(Closing::TooLarge(nodes))),
        Published::Over => unreachable!(),
        Published::Foreign => unreachable!(),
        Published::Stale { reach: _ } => unreachable!(),
    }
}

/// A note on a newest version of a side without one.
#[tactic(auto, using(crate::proofs::Turning::noted_turns))]
fn note<D: Domain>(
    alloc: Global,
    board: &mut Board<D>,
    why: Wideness<D>,
    side: Side,
    version: u32,
) -> Result<Option<Closing>, Memory>
    requires going { IsGoing D.SORT board.old }
    requires shown { OfVersion (of_side side (state_of D.SORT board.old)) version (ShownFor D.SORT (problem_of board.old.problem) side (wideness_of why)) }
    requires work { IsAttackBy D.SORT board.old (other side) side version }
    ensures turns { IfOk result (λ o. Turns D.SORT board.old o board.new) }
    ensures same { IfOk result (λ o. IsSameGame board.old board.new) }
{
    let note = WideNote { side, version, why };
    let _kept = board.note(alloc, note, version)?;
    Ok(None)
}

/// An attack on the newest version of a side, which the other side wishes for.
fn attack<D: Domain, A: Attacker<D>>(
    alloc: Global,
    attacker: &A,
    board: &mut Board<D>,
    side: Side,
    version: u32,
    kept: &mut Kept,
) -> Result<Option<Closing>, Memory>
    requires duals { HasDual D.SORT board.old }
    requires going { IsGoing D.SORT board.old }
    requires work { IsAttackBy D.SORT board.old (other side) side version }
    ensures turns { IfOk result (λ o. Turns D.SORT board.old o board.new) }
    ensures same { IfOk result (λ o. IsSameGame board.old board.new) }
{
    match look(alloc, attacker, board, side, version, kept.of_side(side))? {
        Looked::Won(won) => Ok(finish(board, won, side, version)),
        Looked::Beaten(counter) => publish(alloc, board, counter, version),
        Looked::Wide(why) => note(alloc, board, why, side, version),
    }
}

/// The next job is done, that of the side that is wished for before that of the other: one entry is added, or the game stops.
/// It refuses only for memory.
#[tactic(auto, using(crate::proofs::Turning::not_both))]
pub fn turn<D: Domain, A: Attacker<D>>(
    alloc: Global,
    attacker: &A,
    board: &mut Board<D>,
    wish: Side,
    kept: &mut Kept,
) -> Result<Option<Closing>, Memory>
    requires duals { HasDual D.SORT board.old }
    requires going { IsGoing D.SORT board.old }
    ensures turns { IfOk result (λ o. Turns D.SORT board.old o board.new) }
    ensures same { IfOk result (λ o. IsSameGame board.old board.new) }
{
    match board.next(wish) {
        Job::Attack { side, version } => attack(alloc, attacker, board, side, version, kept),
        Job::Blocked => Ok(Some(Closing::Blocked)),
        Job::Over => unreachable!(),
    }
}
