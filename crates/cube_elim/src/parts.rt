//! The literals of a cube over the rationals, parted by how they bound a variable.

ghost use Rattle.std.specs.Prelude.{◌≡◌, ◌++◌, length, IfOk};
ghost use Rattle.std.specs.List.{AllByRecursion};
ghost use Rattle.lin_term.specs.declared.Sort.TheVariants.{Rat};
ghost use Rattle.lin_term.specs.Literal.{IsOf};
ghost use Rattle.dom_core.specs.Cube.{IsCube};
ghost use Rattle.dom_core.specs.Elimination.{is_free, is_lower, is_upper};
ghost use Rattle.cube_elim.specs.Stored.{lits_of, AreIn, when};
ghost use Rattle.cube_elim.specs.Parted.{IsSide, IsParted};

use lin_term::{Lit, Memory, coefficient_at};
use sqlite_items::Items;
use std::alloc::Global;

/// How a literal bounds a variable: not, from below, or from above.
#[derive(Clone, Copy)]
pub(crate) enum Side {
    Free,
    Lower,
    Upper,
}

/// The places of literals, by how they bound a variable.
#[derive(Drop)]
pub(crate) struct Parts {
    pub free: Items<u32>,
    pub lower: Items<u32>,
    pub upper: Items<u32>,
}

/// How a literal of the rationals bounds the variable.
fn side_of(lit: &Lit, var: u32) -> Side
    requires { IsOf Rat lit.now }
    ensures { IsSide var lit.now result }
{
    let coef = coefficient_at(lit.row(), var);
    if coef > 0 {
        Side::Lower
    } else if coef < 0 {
        Side::Upper
    } else {
        Side::Free
    }
}

/// The place of a literal, put with the others of its side.
fn add_part(parts: &mut Parts, id: u32, lit: &Lit, var: u32) -> Result<(), Memory>
    requires { IsOf Rat lit.now }
    ensures free { IfOk result (λ u. parts.new.free ≡ parts.old.free ++ when (is_free var lit.now) id) }
    ensures lower { IfOk result (λ u. parts.new.lower ≡ parts.old.lower ++ when (is_lower var lit.now) id) }
    ensures upper { IfOk result (λ u. parts.new.upper ≡ parts.old.upper ++ when (is_upper var lit.now) id) }
{
    match side_of(lit, var) {
        Side::Free => parts.free.push(id)?,
        Side::Lower => parts.lower.push(id)?,
        Side::Upper => parts.upper.push(id)?,
    }
    Ok(())
}

/// The places of a cube's literals, in order, parted by how they bound the variable.
pub(crate) fn parted(alloc: Global, lits: &[Lit], ids: &[u32], var: u32) -> Result<Parts, Memory>
    requires within { AreIn (length lits.now) ids.now }
    requires rational { IsCube Rat (lits_of lits.now ids.now) }
    ensures { IfOk result (IsParted var lits.now ids.now) }
{
    let mut parts = Parts {
        free: Items::new(alloc),
        lower: Items::new(alloc),
        upper: Items::new(alloc),
    };
    for id in ids {
        add_part(&mut parts, *id, &lits[*id as usize], var)?;
    }
    Ok(parts)
}
