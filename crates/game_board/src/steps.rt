//! The steps of a game, one event at a time.

ghost use Rattle.std.specs.Prelude.{◌≡◌, ◌≤◌, IfOk, OnErr};
ghost use Rattle.dom_core.specs.Problem.{problem_of};
ghost use Rattle.game_history.specs.Legal.{Legal};
ghost use Rattle.game_board.specs.Entries.{entries_of};
ghost use Rattle.game_board.specs.Replies.{IsLook, StepsTo};
ghost use Rattle.game_board.specs.Running.{LeadsTo};

use crate::board::Board;
use crate::reply::{Event, Reply};
use dom_core::{Domain, Problem, Side};
use game_tree::Skeleton;
use lin_term::Memory;
use std::alloc::Global;

impl<D: Domain> Board<D> {
    /// The version of a side, copied; none exactly where there is no such version. It refuses only for memory.
    fn copied(&self, alloc: Global, side: Side, version: u32) -> Result<Option<Skeleton<D>>, Memory>
        ensures { IfOk result (λ o. IsLook D.SORT self.now side version o) }
    {
        let Some(view) = self.look(side, version) else {
            return Ok(None);
        };
        let copy = view.copy(alloc)?;
        Ok(Some(copy))
    }

    /// One event: the call of its name, with its answer; a look copies the version. Want of memory changes nothing.
    pub fn step(&mut self, alloc: Global, event: Event<D>) -> Result<Reply<D>, Memory>
        ensures steps { IfOk result (λ r. StepsTo D.SORT self.old event r self.new) }
        ensures kept { OnErr result (self.new ≡ self.old) }
    {
        match event {
            Event::Look(side, version) => Ok(Reply::Look(self.copied(alloc, side, version)?)),
            Event::Publish(counter, version) => {
                Ok(Reply::Publish(self.publish(alloc, counter, version)?))
            }
            Event::Finish(won, side, version) => {
                Ok(Reply::Finish(self.finish(won, side, version)))
            }
            Event::Found(won, side) => Ok(Reply::Found(self.found(alloc, won, side)?)),
            Event::Note(note, version) => Ok(Reply::Note(self.note(alloc, note, version)?)),
        }
    }
}

/// The board of a problem and a budget of at most 4,096 rounds, and then each event in turn; the answers are let go. It refuses
/// only for memory.
pub fn run_events<D: Domain>(
    alloc: Global,
    problem: Problem<D>,
    rounds: u32,
    events: Vec<Event<D>>,
) -> Result<Board<D>, Memory>
    requires { rounds ≤ 4096 }
    ensures runs { IfOk result (LeadsTo D.SORT problem rounds events.items) }
    ensures legal { IfOk result (λ b. Legal D.SORT (problem_of problem) rounds (entries_of b.history)) }
{
    let mut board = Board::begin(alloc, problem, rounds)?;
    for event in events {
        let _reply = board.step(alloc, event)?;
    }
    let _legal = board.history();
    Ok(board)
}
