//! A move put into each literal of a list.

ghost use Rattle.std.specs.Prelude.{◌<◌, map};
ghost use Rattle.lin_term.specs.Literal.{IsPrimitive};
ghost use Rattle.lin_term.specs.Primable.{IsPrimable};
ghost use Rattle.lin_term.specs.PutIn.{substituted as substituted_of};
ghost use Rattle.dom_core.specs.Adding.{AddsLit, AddsCube};
ghost use Rattle.dom_core.specs.Cube.{IsPrimitiveCube};
ghost use Rattle.dom_core.specs.PutMove.{substituted_all};

use crate::cube::add_made;
use lin_term::{Lit, Move, Short, Sort, Wide, substitute};
use sqlite_items::Items;
use std::alloc::Global;

/// The literal with the move put in, added to the others.
fn add_substituted(
    alloc: Global,
    out: &mut Items<Lit>,
    sort: Sort,
    lit: &Lit,
    var: u32,
    term: &Move,
    residue: u64,
) -> Result<(), Short<Wide>>
    requires primitive { IsPrimitive sort lit.now }
    requires primable { IsPrimable sort lit.now }
    requires residue_less { residue < term.now.div }
    ensures { AddsLit out.old out.new (substituted_of sort lit.now var term.now residue) result }
{
    add_made(out, substitute(alloc, sort, lit, var, term, residue))
}

/// Each literal with (term - residue)/div put in for the variable, in order, added to the others. The literals are
/// primitive, a modulus is in `1..=CAP`; the residue is below the term's divisor. Wide names the first number of these
/// literals past the cap; where there is none, it refuses only for memory.
pub fn add_all_substituted(
    alloc: Global,
    out: &mut Items<Lit>,
    sort: Sort,
    lits: &[Lit],
    var: u32,
    term: &Move,
    residue: u64,
) -> Result<(), Short<Wide>>
    requires primitive { IsPrimitiveCube sort lits.now }
    requires residue_less { residue < term.now.div }
    ensures { AddsCube out.old out.new (substituted_all sort var term.now residue lits.now) result }
{
    for lit in lits {
        match add_substituted(alloc, out, sort, lit, var, term, residue) {
            Ok(()) => {}
            Err(fault) => return Err(fault),
        }
    }
    Ok(())
}
