//! Facts read as literals. A literal of the matrix on a path is negated and renamed once, when it becomes a fact.

ghost use Rattle.std.specs.Prelude.{◌≡◌, ℕ, Bool, Some, None, option_map, IfOk, IfSome, length, map, reverse, slice_get};
ghost use Rattle.std.specs.Option.{option_copied};
ghost use Rattle.lin_term.specs.declared.Sort.{Sort};
ghost use Rattle.lin_term.specs.Literal.{neg, rename_lit};
ghost use Rattle.dom_core.specs.Cube.{IsPrimitiveCube};
ghost use Rattle.lose_system.specs.Written.{WrittenSystem};
ghost use Rattle.dom_core.specs.Game.{lit as leaf, IsMatrix};
ghost use Rattle.dom_core.specs.Problem.{HasNegations};
ghost use Rattle.cube_rules.specs.Facts as facts_of;
ghost use Rattle.proof_rules.specs.Held.{fact_of, context_of, nodes_on, IsPath, IsKnown, IsFact, AreFacts};

use crate::fact::Fact;
use crate::parts::literal_of;
use dom_core::{Cube, Domain};
use lin_term::{Lit, Memory};
use lose_system::{System, negated};
use sqlite_items::Items;
use std::alloc::Global;
use std::rc::Rc;

/// The literal in a place that facts share.
pub fn shared(alloc: Global, lit: Lit) -> Result<Rc<Lit>, Memory>
    ensures { IfOk result (λ l. l.value ≡ lit) }
{
    match Rc::new(alloc, lit) {
        Ok(place) => Ok(place),
        Err(_) => Err(Memory),
    }
}

/// A literal of the matrix on a path.
fn made<D: Domain>(
    alloc: Global,
    system: &System<'_, D>,
    path: u32,
    lit: &Lit,
) -> Result<Rc<Lit>, Memory>
    requires path { IsPath system.now path }
    requires matrix { IsMatrix (leaf lit.now) D.SORT (length system.now.problem.prefix) }
    requires kept { HasNegations (leaf lit.now) D.SORT }
    ensures value { IfOk result (λ l. l.value ≡ rename_lit (nodes_on system.now path) (neg D.SORT lit.now)) }
    ensures known { IfOk result (λ l. IsKnown D.SORT l.value) }
{
    let Some(names) = system.path_nodes(alloc, path)? else {
        unreachable!();
    };
    let literal = negated(alloc, D::SORT, lit, names.as_slice())?;
    shared(alloc, literal)
}

/// The same fact; a literal of the matrix on a path is built, so that the lines that read it need not.
pub fn settled<'a, D: Domain>(
    alloc: Global,
    system: &System<'a, D>,
    fact: Fact<'a>,
) -> Result<Fact<'a>, Memory>
    requires { IsFact D.SORT system.now fact }
    ensures value { IfOk result (λ f. fact_of D.SORT system.now f ≡ fact_of D.SORT system.now fact.entry) }
    ensures kept { IfOk result (λ f. IsFact D.SORT system.now f) }
{
    match fact {
        Fact::Known(lit) => Ok(Fact::Known(lit)),
        Fact::Learnt(clause) => Ok(Fact::Learnt(clause)),
        Fact::OnPath(path, matrix) => match literal_of(matrix) {
            Some(lit) => Ok(Fact::Known(made(alloc, system, path, lit)?)),
            None => Ok(Fact::OnPath(path, matrix)),
        },
    }
}

/// The literal that the fact is, where it is one.
pub fn literal<D: Domain>(
    alloc: Global,
    system: &System<'_, D>,
    fact: &Fact<'_>,
) -> Result<Option<Rc<Lit>>, Memory>
    requires { IsFact D.SORT system.now fact.now }
    ensures value { IfOk result (λ o. option_map (λ l. l.value) o ≡ facts_of.literal_of (fact_of D.SORT system.now fact.now)) }
    ensures known { IfOk result (λ o. IfSome o (λ l. IsKnown D.SORT l.value)) }
{
    match fact {
        Fact::Known(lit) => Ok(Some(lit.clone()?)),
        Fact::Learnt(_) => Ok(None),
        Fact::OnPath(path, matrix) => {
            let matrix = *matrix;
            match literal_of(matrix) {
                Some(lit) => Ok(Some(made(alloc, system, *path, lit)?)),
                None => Ok(None),
            }
        }
    }
}

/// The fact of this number.
pub fn fact_at<'f, 'a>(facts: &'f [Fact<'a>], number: u32) -> Option<&'f Fact<'a>>
    ensures { option_copied result ≡ slice_get facts.now number }
{
    facts.get(number as usize)
}

/// The literal of this number, where the fact is one.
pub fn literal_at<D: Domain>(
    alloc: Global,
    system: &System<'_, D>,
    facts: &[Fact<'_>],
    number: u32,
) -> Result<Option<Rc<Lit>>, Memory>
    requires { AreFacts D.SORT system.now facts.now }
    ensures value { IfOk result (λ o. (bare : Bool) → option_map (λ l. l.value) o ≡ facts_of.literal_at (context_of D.SORT system.now bare facts.now) number) }
    ensures known { IfOk result (λ o. IfSome o (λ l. IsKnown D.SORT l.value)) }
{
    let Some(fact) = fact_at(facts, number) else {
        return Ok(None);
    };
    literal(alloc, system, fact)
}

/// The literals in the other order.
fn turned(alloc: Global, lits: Items<Lit>) -> Result<Items<Lit>, Memory>
    ensures { IfOk result (λ ls. ls ≡ reverse lits) }
{
    let mut left = lits;
    let mut turned = Items::new(alloc);
    while let Some(lit) = left.pop() {
        turned.push(lit)?;
    }
    Ok(turned)
}

/// The literals of a cube as facts.
pub fn known_facts<'a>(alloc: Global, cube: Cube) -> Result<Items<Fact<'a>>, Memory>
    ensures value { IfOk result (λ fs. (s : Sort) (w : WrittenSystem) → map (fact_of s w) fs ≡ map leaf cube) }
    ensures kept { IfOk result (λ fs. (s : Sort) (w : WrittenSystem) → IsPrimitiveCube s cube → AreFacts s w fs) }
{
    let mut left = turned(alloc, cube.into_lits())?;
    let mut facts = Items::new(alloc);
    while let Some(lit) = left.pop() {
        facts.push(Fact::Known(shared(alloc, lit)?))?;
    }
    Ok(facts)
}
