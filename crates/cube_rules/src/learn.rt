//! The rule of learning: one of some literals holds, or all their negations do.

ghost use Rattle.std.specs.Prelude.{◌≡◌, None, Some, IfOk, map};
ghost use Rattle.std.specs.List.{AllByRecursion, list_all};
ghost use Rattle.lin_term.specs.Literal.{neg};
ghost use Rattle.lin_term.specs.Wide.{first_past, lit_numbers};
ghost use Rattle.cube_rules.specs.Facts.{guard};
ghost use Rattle.cube_rules.specs.Lines.{is_learn, is_split};

use crate::split::negation_of;
use lin_term::{Lit, Memory, Sort};
use sqlite_items::Items;
use std::alloc::Global;

/// The negations of the literals in primitive form, in order. None exactly where there is no literal, or where a literal
/// is not primitive, has a variable that is not below `nodes`, or has a negation with a number past the cap. The
/// literals' own numbers are within it. It refuses only for memory.
pub fn negations(
    alloc: Global,
    sort: Sort,
    nodes: u32,
    lits: &[Lit],
) -> Result<Option<Items<Lit>>, Memory>
    requires kept { AllByRecursion (λ l. first_past (lit_numbers l) ≡ None) lits.now }
    ensures { IfOk result (λ o. o ≡ guard (is_learn sort nodes lits.now) (Some (map (neg sort) lits.now))) }
{
    match lits {
        [] => Ok(None),
        [_, ..] => each_negation(alloc, sort, nodes, lits),
    }
}

/// The same of any number of literals.
fn each_negation(
    alloc: Global,
    sort: Sort,
    nodes: u32,
    lits: &[Lit],
) -> Result<Option<Items<Lit>>, Memory>
    requires kept { AllByRecursion (λ l. first_past (lit_numbers l) ≡ None) lits.now }
    ensures { IfOk result (λ o. o ≡ guard (list_all (is_split sort nodes) lits.now) (Some (map (neg sort) lits.now))) }
{
    let mut all = Items::new(alloc);
    for lit in lits {
        let Some(negation) = negation_of(alloc, sort, nodes, lit)? else {
            return Ok(None);
        };
        all.push(negation)?;
    }
    Ok(Some(all))
}
