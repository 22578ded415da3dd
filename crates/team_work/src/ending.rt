//! What a game that has stopped comes to.

ghost use Rattle.std.specs.Prelude.{◌≡◌, ◌↔◌, IsTrue, IfOk};
ghost use Rattle.dom_core.specs.Problem.{problem_of};
ghost use Rattle.dom_core.specs.declared.Side.TheVariants.{Exists, Forall};
ghost use Rattle.game_history.specs.History.{of_side, newest_number};
ghost use Rattle.game_history.specs.Legal.{IsAbove};
ghost use Rattle.game_history.specs.Work.{IsUnbeaten, IsBlocked};
ghost use Rattle.game_board.specs.Board.{state_of};
ghost use Rattle.game_board.specs.Entries.{entry_of, entries_of};
ghost use Rattle.team_work.specs.Noting.{ReadsNote, FindsNote, verdict_of};
ghost use Rattle.team_work.specs.Outcome.{IsOutcome, SaysWhy};
ghost use Rattle.team_work.specs.Turn.{HasDual, IsWonOn, Stops};
ghost use Rattle.team_work.specs.declared.closing.Closing.TheVariants as closing;

use crate::closing::Closing;
use crate::outcome::{Outcome, Verdict};
use dom_core::{Domain, Side};
use game_board::{Board, Closed, Entry, Why, WideNote};
use lin_term::Memory;
use proof_rules::Won;
use std::alloc::Global;
use strat_trim::trim;

/// The verdict that a side has won.
pub(crate) fn verdict_for<D: Domain>(side: Side, won: Won<D>) -> Verdict<D>
    ensures { result ≡ verdict_of side won }
{
    match side {
        Side::Exists => Verdict::Sat(won),
        Side::Forall => Verdict::Unsat(won),
    }
}

/// The outcome of a game that a side has won; what is kept of its skeleton is what the proof needs. It refuses only for memory.
fn decided<D: Domain>(
    alloc: Global,
    board: Board<D>,
    side: Side,
    rounds: u32,
) -> Result<Outcome<D>, Memory>
    requires duals { HasDual D.SORT board }
    requires won { IsWonOn D.SORT board side }
    requires rounds { rounds ≡ board.rounds }
    ensures { IfOk result (λ o. IsOutcome D.SORT (problem_of board.problem) rounds o) }
{
    let Closed { history, won } = board.close();
    let Some(won) = won else {
        unreachable!();
    };
    let won = trim(alloc, won)?;
    // What is read of the parts says what the type of the game keeps.
    let _lost = won.skeleton();
    let _refutes = won.proof();
    Ok(Outcome {
        verdict: verdict_for(side, won),
        journal: history,
        rounds,
    })
}

/// The outcome of a game without a verdict.
fn undecided<D: Domain>(board: Board<D>, why: Why<D>, rounds: u32) -> Outcome<D>
    requires says { SaysWhy D.SORT (problem_of board.problem) rounds (entries_of board.history) why }
    requires rounds { rounds ≡ board.rounds }
    ensures { IsOutcome D.SORT (problem_of board.problem) rounds result }
{
    let Closed { history, won: _won } = board.close();
    Outcome {
        verdict: Verdict::Unknown(why),
        journal: history,
        rounds,
    }
}

/// The note of an entry, copied, where it is one on this version of the side; refuses only for memory.
fn read_note<D: Domain>(
    alloc: Global,
    entry: &Entry<D>,
    side: Side,
    version: u32,
) -> Result<Option<WideNote<D>>, Memory>
    ensures { IfOk result (λ o. ReadsNote (entry_of entry.now) side version o) }
{
    match entry {
        Entry::Noted {
            side: own,
            version: named,
            why,
        } => {
            if *own != side || *named != version {
                return Ok(None);
            }
            let why = why.copy(alloc)?;
            Ok(Some(WideNote { side, version, why }))
        }
        _ => Ok(None),
    }
}

/// The note on a version of a side, copied; none exactly where no entry is one. It refuses only for memory.
#[tactic(auto, using(crate::proofs::Noted::note_found))]
pub(crate) fn find_note<D: Domain>(
    alloc: Global,
    entries: &[Entry<D>],
    side: Side,
    version: u32,
) -> Result<Option<WideNote<D>>, Memory>
    ensures { IfOk result (λ o. FindsNote (entries_of entries.now) side version o) }
{
    for entry in entries {
        if let Some(note) = read_note(alloc, entry, side, version)? {
            return Ok(Some(note));
        }
    }
    Ok(None)
}

/// A side whose newest version is not beaten, Exists before Forall, and the number of that version.
fn unbeaten<D: Domain>(board: &Board<D>) -> (Side, u32)
    requires { IsBlocked D.SORT (problem_of board.now.problem) (entries_of board.now.history) }
    ensures unbeaten { IsUnbeaten result.0 (state_of D.SORT board.now) }
    ensures newest { result.1 ≡ newest_number (of_side result.0 (state_of D.SORT board.now)) }
    ensures exists_first { result.0 ≡ Forall → ¬ IsUnbeaten Exists (state_of D.SORT board.now) }
{
    let standing = board.standing();
    if is_reached(standing.reach_forall, standing.exists) {
        (Side::Forall, standing.forall)
    } else {
        (Side::Exists, standing.exists)
    }
}

/// Whether a reach is at least this version.
pub(crate) fn is_reached(reach: Option<u32>, version: u32) -> bool
    ensures { IsTrue result ↔ ¬ IsAbove version reach }
{
    match reach {
        Some(reach) => version <= reach,
        None => false,
    }
}

/// The outcome of a game in which neither side has work; refuses only for memory.
fn blocked<D: Domain>(alloc: Global, board: Board<D>, rounds: u32) -> Result<Outcome<D>, Memory>
    requires stops { Stops D.SORT board closing.Blocked }
    requires rounds { rounds ≡ board.rounds }
    ensures { IfOk result (λ o. IsOutcome D.SORT (problem_of board.problem) rounds o) }
{
    let (side, version) = unbeaten(&board);
    let found = find_note(alloc, board.history(), side, version)?;
    let Some(note) = found else {
        unreachable!();
    };
    Ok(undecided(board, Why::Coefficient(note), rounds))
}

/// The outcome of a game that has stopped; refuses only for memory.
pub fn ended<D: Domain>(
    alloc: Global,
    board: Board<D>,
    stop: Closing,
    rounds: u32,
) -> Result<Outcome<D>, Memory>
    requires duals { HasDual D.SORT board }
    requires stops { Stops D.SORT board stop }
    requires rounds { rounds ≡ board.rounds }
    ensures { IfOk result (λ o. IsOutcome D.SORT (problem_of board.problem) rounds o) }
{
    match stop {
        Closing::Won(side) => decided(alloc, board, side, rounds),
        Closing::Blocked => blocked(alloc, board, rounds),
        Closing::Spent => Ok(undecided(board, Why::Rounds(rounds), rounds)),
        Closing::TooLarge(nodes) => Ok(undecided(board, Why::Nodes(nodes), rounds)),
    }
}
