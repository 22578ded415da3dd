//! The rationals as a domain.

use crate::fourier_motzkin::eliminate;
use crate::picking::pick;
use crate::putting::put_in;
use dom_core::{Cube, Domain};
use lin_term::{Defined, Memory, Move, Point, Short, Sort, Wide, definition_literals};
use sqlite_items::Items;
use std::alloc::Global;

/// Fractions of whole numbers.
#[derive(Clone, Copy, Debug, PartialEq, Eq, Drop)]
pub struct Rat;

impl Domain for Rat {
    ghost use Rattle.lin_term.specs.declared.Sort.TheVariants.{Rat as rational};
    ghost use Rattle.lin_term.proofs.Fixed.{names_fix};
    ghost use Rattle.dom_core.proofs.Eliminating.{eliminated_covers, eliminated_solves};
    ghost use Rattle.dom_core.proofs.PickRat.{keeps_rat};
    ghost use Rattle.dom_core.proofs.PutMoves.{puts, puts_back};

    const SORT: Sort = Sort::Rat;

    ghost SORT = { rational };

    fn definition(alloc: Global, term: &Move, node: u32, names: &[u32]) -> Result<Defined, Memory> {
        definition_literals(alloc, Sort::Rat, term, node, names)
    }

    fn eliminate(alloc: Global, cube: &Cube, var: u32) -> Result<Items<Cube>, Short<Wide>> {
        eliminate(alloc, cube, var)
    }

    fn pick(alloc: Global, cube: &Cube, var: u32, point: &Point) -> Result<Move, Short<Wide>> {
        pick(alloc, cube, var, point)
    }

    fn put_in(
        alloc: Global,
        cube: &Cube,
        var: u32,
        term: &Move,
        point: &Point,
    ) -> Result<Cube, Short<Wide>> {
        put_in(alloc, cube, var, term, point)
    }

    ghost fixes = { λ m names v p. names_fix rational m names v p };

    ghost covers = { λ c x p v. eliminated_covers rational c x p v };

    ghost solves = { λ c x p. eliminated_solves rational c x p };

    ghost keeps = { λ c x p v. keeps_rat x c p v };

    ghost puts = { λ c x m e p. puts rational x m e c p };

    ghost puts_back = { λ c x m p. puts_back rational x m c p };
}
