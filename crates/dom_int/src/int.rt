//! The integers as a domain.

use crate::elimination::eliminate;
use crate::picking::pick;
use crate::putting::put_in;
use dom_core::{Cube, Domain};
use lin_term::{Defined, Memory, Move, Point, Short, Sort, Wide, definition_literals};
use sqlite_items::Items;
use std::alloc::Global;

/// Whole numbers.
#[derive(Clone, Copy, Debug, PartialEq, Eq, Drop)]
pub struct Int;

impl Domain for Int {
    ghost use Rattle.lin_term.specs.declared.Sort.TheVariants.{Int as whole};
    ghost use Rattle.lin_term.proofs.Fixed.{names_fix};
    ghost use Rattle.dom_core.proofs.Eliminating.{eliminated_covers, eliminated_solves};
    ghost use Rattle.dom_core.proofs.PickInt.{keeps_int};
    ghost use Rattle.dom_core.proofs.PutMoves.{puts, puts_back};

    const SORT: Sort = Sort::Int;

    ghost SORT = { whole };

    fn definition(alloc: Global, term: &Move, node: u32, names: &[u32]) -> Result<Defined, Memory> {
        definition_literals(alloc, Sort::Int, term, node, names)
    }

    fn eliminate(alloc: Global, cube: &Cube, var: u32) -> Result<Items<Cube>, Short<Wide>> {
        eliminate(alloc, cube, var)
    }

    fn pick(alloc: Global, cube: &Cube, var: u32, point: &Point) -> Result<Move, Short<Wide>> {
        pick(alloc, cube, var, point)
    }

    fn put_in(
        alloc: Global,
        cube: &Cube,
        var: u32,
        term: &Move,
        point: &Point,
    ) -> Result<Cube, Short<Wide>> {
        put_in(alloc, cube, var, term, point)
    }

    ghost fixes = { λ m names v p. names_fix whole m names v p };

    ghost covers = { λ c x p v. eliminated_covers whole c x p v };

    ghost solves = { λ c x p. eliminated_solves whole c x p };

    ghost keeps = { λ c x p v. keeps_int x c p v };

    ghost puts = { λ c x m e p. puts whole x m e c p };

    ghost puts_back = { λ c x m p. puts_back whole x m c p };
}
