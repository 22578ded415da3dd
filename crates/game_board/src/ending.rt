//! Verdicts.

ghost use Rattle.std.specs.Prelude.{◌≡◌, ◌↔◌, IsTrue, IfOk, OnErr};
ghost use Rattle.dom_core.specs.Game.{dual};
ghost use Rattle.dom_core.specs.Problem.{problem_of};
ghost use Rattle.game_board.specs.Board.{with_verdict};
ghost use Rattle.game_board.specs.Replies.{WinsVersion, Finishes, FinishesFound};
ghost use Rattle.game_board.specs.Kept.{EndsGame};

use crate::board::Board;
use crate::entry::Entry;
use crate::reply::Finished;
use dom_core::{Domain, Side};
use lin_term::Memory;
use proof_rules::Won;
use std::alloc::Global;

impl<D: Domain> Board<D> {
    /// Whether the game is of the board's problem for the side, and its skeleton is this version of the side as it is.
    fn is_win(&self, won: &Won<D>, side: Side, version: u32) -> bool
        ensures value { IsTrue result ↔ WinsVersion D.SORT self.now won.now side version }
        ensures dual { problem_of self.now.dual ≡ dual D.SORT (problem_of self.now.problem) }
    {
        if !self.halves.of(side).problem.is_same(won.problem()) {
            return false;
        }
        self.halves.of(side).is_version(version, &won.skeleton())
    }

    /// The entry is the verdict, by this game.
    fn end(&mut self, entry: Entry<D>, won: Won<D>)
        requires { EndsGame D.SORT self.old entry won }
        ensures { self.new ≡ with_verdict self.old entry won }
    {
        self.history.push_reserved(entry);
        self.won = Some(won);
    }

    /// A game is won by a version of a side. Over exactly where a verdict stands; then Foreign exactly where the problem
    /// differs, there is no such version, or its skeleton differs. These change nothing. Set: one entry is added, and the
    /// verdict stands. It takes no memory.
    pub fn finish(&mut self, won: Won<D>, side: Side, version: u32) -> Finished
        ensures { Finishes D.SORT self.old won side version result self.new }
    {
        if self.is_over() {
            return Finished::Over;
        }
        if !self.is_win(&won, side, version) {
            return Finished::Foreign;
        }
        // What is read of the skeleton says that its losing system has no solution.
        let _lost = won.skeleton();
        self.end(Entry::Won { side, version }, won);
        Finished::Set
    }

    /// A game is won by a skeleton of a side that need be no version. Over exactly where a verdict stands; then Foreign exactly
    /// where the problem differs. These change nothing. Set: one entry with a copy of the skeleton is added, and the verdict
    /// stands. It refuses only for memory, for that copy, and then changes nothing.
    pub fn found(&mut self, alloc: Global, won: Won<D>, side: Side) -> Result<Finished, Memory>
        ensures found { IfOk result (λ r. FinishesFound D.SORT self.old won side r self.new) }
        ensures kept { OnErr result (self.new ≡ self.old) }
    {
        if self.is_over() {
            return Ok(Finished::Over);
        }
        if !self.halves.of(side).problem.is_same(won.problem()) {
            return Ok(Finished::Foreign);
        }
        let tree = won.skeleton().copy(alloc)?;
        self.end(Entry::Found { side, tree }, won);
        Ok(Finished::Set)
    }
}
