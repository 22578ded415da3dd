//! Why a version is not attacked further.

ghost use Rattle.std.specs.Prelude.{◌≡◌, IfOk};
ghost use Rattle.game_board.specs.Entries.{wideness_of, number_of, IsWide};

use cube_elim::WideCube;
use dom_core::{Domain, Side};
use lin_term::Memory;
use std::alloc::Global;
use term_select::WideChoice;

/// What stops an attack on a version: a wide cube of its losing system, or a point from which selection forms a number past
/// the cap.
#[derive(Drop)]
pub enum Wideness<D: Domain> {
    Cube(WideCube<D>),
    Choice(WideChoice),
}

/// A note that a version of a side is not attacked further.
#[derive(Drop)]
pub struct WideNote<D: Domain> {
    pub side: Side,
    pub version: u32,
    pub why: Wideness<D>,
}

/// Why a game has no verdict: a note on a newest version, the budget of rounds that is spent, or the nodes of a union past
/// 1,048,576.
#[derive(Drop)]
pub enum Why<D: Domain> {
    Coefficient(WideNote<D>),
    Rounds(u32),
    Nodes(u64),
}

impl<D: Domain> Wideness<D> {
    /// The number past the cap. A cube's is one of its elimination, or the first of the point that it determines.
    pub fn number(&self) -> i128
        ensures value { result ≡ number_of (wideness_of self.now) }
        ensures wide { IsWide D.SORT (wideness_of self.now) }
    {
        match self {
            Wideness::Cube(cube) => cube.number(),
            Wideness::Choice(choice) => choice.number,
        }
    }

    /// An equal value; refuses only for memory.
    pub fn copy(&self, alloc: Global) -> Result<Wideness<D>, Memory>
        ensures { IfOk result (λ w. w ≡ self.now) }
    {
        match self {
            Wideness::Cube(cube) => Ok(Wideness::Cube(cube.copy(alloc)?)),
            Wideness::Choice(choice) => Ok(Wideness::Choice(choice.copy(alloc)?)),
        }
    }
}

impl<D: Domain> WideNote<D> {
    /// An equal note; refuses only for memory.
    pub fn copy(&self, alloc: Global) -> Result<WideNote<D>, Memory>
        ensures { IfOk result (λ n. n ≡ self.now) }
    {
        let why = self.why.copy(alloc)?;
        Ok(WideNote {
            side: self.side,
            version: self.version,
            why,
        })
    }
}
