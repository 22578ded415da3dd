//! What a board tells. No call here takes memory.

ghost use Rattle.std.specs.Prelude.{◌≡◌, ◌≤◌, ◌+◌, ◌*◌, ◌↔◌, IsTrue, Bool, None, Some, MatchOption, length};
ghost use Rattle.dom_core.specs.declared.Side.TheVariants.{Exists, Forall};
ghost use Rattle.dom_core.specs.Game.{dual};
ghost use Rattle.dom_core.specs.Problem.{problem_of};
ghost use Rattle.dom_core.specs.Sides.{other};
ghost use Rattle.game_history.specs.History.{of_side, newest_number, version as version_of};
ghost use Rattle.game_history.specs.Legal.{Legal, IsAbove};
ghost use Rattle.game_history.specs.Work.{HasWork, IsBlocked};
ghost use Rattle.game_board.specs.declared.reply.Job.TheVariants as job;
ghost use Rattle.game_board.specs.Entries.{entries_of};
ghost use Rattle.game_board.specs.Board.{problem_on, state_of};
ghost use Rattle.game_board.specs.Replies.{IsUndecided, IsJob, IsLook};
ghost use Rattle.game_board.specs.Laws.{IsPlayed};
ghost use Rattle.game_board.specs.Kept.{IsDecided};

use crate::board::Board;
use crate::entry::Entry;
use crate::reply::{Closed, Job, Standing};
use dom_core::{Domain, Problem, Side};
use grown_tree::View;
use sqlite_items::Items;

impl<D: Domain> Board<D> {
    /// Whether a verdict stands.
    #[tactic(auto, using(crate::proofs::Working::over_opened))]
    pub(crate) fn is_over(&self) -> bool
        ensures { result ≡ (state_of D.SORT self.now).is_over }
    {
        self.won.is_some()
    }

    /// The newest version of the other side, where the side has work.
    fn work_of(&self, side: Side) -> Option<u32>
        requires { IsUndecided D.SORT self.now }
        ensures { MatchOption result (¬ HasWork side (state_of D.SORT self.now)) (λ v. HasWork side (state_of D.SORT self.now) × (v ≡ newest_number (of_side (other side) (state_of D.SORT self.now)))) }
    {
        let rival = self.halves.of(side.other());
        let newest = rival.newest_number();
        if let Some(_reach) = self.halves.of(side).stale_reach(newest) {
            return None;
        }
        if rival.is_noted(newest) {
            return None;
        }
        Some(newest)
    }

    /// Work for a worker who plays for a side: the newest version of the other side, where that is above the side's reach and
    /// carries no note; where there is none, that of the side itself for the other one. Over comes exactly where a verdict
    /// stands, Blocked exactly where none stands and neither side has work: then a newest version that is not beaten carries a
    /// note.
    pub fn next(&self, wish: Side) -> Job
        ensures job { IsJob D.SORT self.now wish result }
        ensures blocked { result ≡ job.Blocked → IsBlocked D.SORT (problem_of self.now.problem) (entries_of self.now.history) }
    {
        // What is read of the board says what its type keeps.
        let _rounds = self.rounds;
        if self.is_over() {
            return Job::Over;
        }
        if let Some(version) = self.work_of(wish) {
            return Job::Attack {
                side: wish.other(),
                version,
            };
        }
        if let Some(version) = self.work_of(wish.other()) {
            return Job::Attack {
                side: wish,
                version,
            };
        }
        Job::Blocked
    }

    /// The version of a side, lent; None exactly where there is no such version.
    pub fn look(&self, side: Side, version: u32) -> Option<View<'_, D>>
        ensures { IsLook D.SORT self.now side version result }
    {
        self.halves.of(side).grown.view(version)
    }

    /// The newest versions, the reaches, the length of the history, and whether a verdict stands.
    pub fn standing(&self) -> Standing
        ensures exists { result.exists ≡ newest_number (state_of D.SORT self.now).of_exists }
        ensures forall { result.forall ≡ newest_number (state_of D.SORT self.now).of_forall }
        ensures reach_exists { result.reach_exists ≡ (state_of D.SORT self.now).of_exists.reach }
        ensures reach_forall { result.reach_forall ≡ (state_of D.SORT self.now).of_forall.reach }
        ensures entries { result.entries ≡ length self.now.history }
        ensures over { result.over ≡ (state_of D.SORT self.now).is_over }
    {
        Standing {
            exists: self.halves.exists.newest_number(),
            forall: self.halves.forall.newest_number(),
            reach_exists: self.halves.exists.reach,
            reach_forall: self.halves.forall.reach,
            entries: self.history.len() as u32,
            over: self.is_over(),
        }
    }

    /// The entries in order. They are legal: each meets what it needs in the state before it, and none follows a verdict; so
    /// there are at most twice the rounds and 7.
    pub fn history(&self) -> &[Entry<D>]
        ensures value { result.now ≡ self.now.history }
        ensures legal { Legal D.SORT (problem_of self.now.problem) self.now.rounds (entries_of self.now.history) }
        ensures few { length self.now.history ≤ 2 * self.now.rounds + 7 }
        ensures played { IsPlayed D.SORT self.now }
    {
        self.history.as_slice()
    }

    /// Whether the board is that of this problem and this budget.
    pub fn is_for(&self, problem: &Problem<D>, rounds: u32) -> bool
        ensures { IsTrue result ↔ ((self.now.problem ≡ problem.now) × (self.now.rounds ≡ rounds)) }
    {
        if self.rounds != rounds {
            return false;
        }
        self.halves.exists.problem.is_same(problem)
    }

    /// The problem in which the side is Exists: for Forall the dual of the board's problem.
    pub fn problem(&self, side: Side) -> &Problem<D>
        ensures value { result.now ≡ problem_on side self.now }
        ensures dual { problem_of self.now.dual ≡ dual D.SORT (problem_of self.now.problem) }
    {
        &self.halves.of(side).problem
    }

    /// The history, which is legal, and the game that is won where a verdict stands: the history then ends with the verdict by
    /// that game.
    pub fn close(self) -> Closed<D>
        ensures history { result.history ≡ self.history }
        ensures won { result.won ≡ self.won }
        ensures legal { Legal D.SORT (problem_of self.problem) self.rounds (entries_of self.history) }
        ensures decided { IsDecided D.SORT self self.won }
    {
        let Board {
            halves: _halves,
            rounds: _rounds,
            added: _added,
            spent: _spent,
            large: _large,
            history,
            won,
        } = self;
        Closed {
            history: Items::from_vec(history),
            won,
        }
    }
}
