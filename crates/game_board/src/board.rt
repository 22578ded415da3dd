//! The board: two sides that grow, and what happened. Its type keeps that the history is legal and that the rest is what the
//! history gives.

ghost use Rattle.std.specs.Prelude.{◌≤◌, IfOk};
ghost use Rattle.game_board.specs.Running.{IsFirst};

use crate::entry::Entry;
use crate::half::Half;
use crate::halves::Halves;
use dom_core::{Domain, Problem};
use lin_term::Memory;
use proof_rules::Won;
use std::alloc::Global;
use std::marker::Model;

/// A game of two sides: each has versions of its skeleton, a reach, the greatest version of the other side that it is known to
/// beat, and notes on versions that are not attacked further. The history has what happened.
#[derive(Drop)]
pub struct Board<D: Domain> {
    pub(crate) halves: Halves<D>,
    pub(crate) rounds: u32,
    pub(crate) added: u32,
    pub(crate) spent: bool,
    pub(crate) large: bool,
    pub(crate) history: Vec<Entry<D>>,
    pub(crate) won: Option<Won<D>>,
}

impl<D: Domain> Model for Board<D> {
    ghost use Rattle.std.specs.Prelude.{vec_capacity};
    ghost use Rattle.dom_core.specs.contracts.Matrix as m;
    ghost use Rattle.game_tree.specs.contracts.Tree as t;
    ghost use Rattle.std.specs.Coded.{codes};
    ghost use Rattle.game_board.specs.Board.{WrittenBoard};
    ghost use Rattle.game_board.specs.Kept.{IsBoard, board_of};

    ghost Value = { WrittenBoard D };

    ghost coded = { Prim.hlevel (codes, m.the_row.coded, t.the_row.coded, D.code) };

    ghost view = { λ b. board_of b.halves b.rounds b.history.items b.won };

    ghost invariant = { λ b. IsBoard D.SORT (board_of b.halves b.rounds b.history.items b.won) b.halves (record { added = b.added; spent = b.spent; large = b.large }) (vec_capacity b.history) };
}

impl<D: Domain> Board<D> {
    /// The board of a problem and a budget of at most 4,096 rounds: both sides have version 0, the zero skeleton, no reach and
    /// no note; the history is empty. It has room for each entry that can come; refuses only for memory.
    pub fn begin(alloc: Global, problem: Problem<D>, rounds: u32) -> Result<Board<D>, Memory>
        requires { rounds ≤ 4096 }
        ensures { IfOk result (IsFirst D.SORT problem rounds) }
    {
        let _kept = problem.matrix();
        let contrary = problem.dual(alloc)?;
        let exists = Half::begin(alloc, problem, rounds)?;
        let forall = Half::begin(alloc, contrary, rounds)?;
        let history = Vec::with_capacity(alloc, 2 * (rounds as usize) + 7)?;
        Ok(Board {
            halves: Halves { exists, forall },
            rounds,
            added: 0,
            spent: false,
            large: false,
            history,
            won: None,
        })
    }
}
