//! The literals of a goal that are handed to the elimination, with the definitions of moves.

ghost use Rattle.std.specs.Prelude.{◌≡◌, ◌<◌, ◌≤◌, ◌↔◌, ◌∷◌, ◌++◌, [], ℕ, suc, IsTrue, OnOk, IfOk, IfSome, length, slice_get};
ghost use Rattle.dom_core.specs.Game.{lit as leaf, IsMatrix};
ghost use Rattle.dom_core.specs.Problem.{HasNegations};
ghost use Rattle.lin_term.specs.Linear.{Below};
ghost use Rattle.lin_term.specs.Literal.{neg, form_of, rename_lit};
ghost use Rattle.lose_system.specs.Written.{system_of};
ghost use Rattle.cube_rules.specs.declared.Step.TheVariants as line;
ghost use Rattle.proof_rules.specs.Held.{nodes_on, IsPath, IsKnown};
ghost use Rattle.cube_elim.specs.Among.{IsAmong};
ghost use Rattle.clause_search.specs.Taken.{IsGoal, IsPart};
ghost use Rattle.clause_search.specs.Chosen.{Chooses, HasFirst, HasNodes, AddsLiteral, AddsPart, AddsDefinition, with_definition};

use crate::goal::{Goal, Part, one_more};
use cube_rules::Step;
use dom_core::{Domain, Matrix};
use lin_term::{Lit, Memory};
use lose_system::{System, negated};
use sqlite_items::Items;
use std::alloc::Global;

/// Literals, none twice, and the number of the fact that each is; the lines that make the definitions among them facts,
/// and how many facts there are then.
#[derive(Drop)]
pub struct Chosen {
    pub cube: Items<Lit>,
    pub numbers: Items<u32>,
    pub defs: Items<Step>,
    pub count: u32,
}

/// Whether the literal is one of these.
fn has(lits: &[Lit], lit: &Lit) -> bool
    ensures { IsTrue result ↔ IsAmong lit.now lits.now }
{
    for each in lits {
        if lit.is_same(each) {
            return true;
        }
    }
    false
}

/// One more literal, and the number of its fact.
fn push(chosen: &mut Chosen, lit: Lit, number: u32) -> Result<(), Memory>
    ensures { OnOk result (chosen.new ≡ record { cube = chosen.old.cube ++ lit ∷ []; numbers = chosen.old.numbers ++ number ∷ []; defs = chosen.old.defs; count = chosen.old.count }) }
{
    chosen.cube.push(lit)?;
    chosen.numbers.push(number)?;
    Ok(())
}

/// A literal of the matrix on a path, negated.
fn literal<D: Domain>(
    alloc: Global,
    system: &System<'_, D>,
    path: u32,
    lit: &Lit,
) -> Result<Lit, Memory>
    requires path { IsPath system.now path }
    requires matrix { IsMatrix (leaf lit.now) D.SORT (length system.now.problem.prefix) }
    requires kept { HasNegations (leaf lit.now) D.SORT }
    ensures value { IfOk result (λ l. l ≡ rename_lit (nodes_on system.now path) (neg D.SORT lit.now)) }
    ensures known { IfOk result (λ l. IsKnown D.SORT l) }
    ensures below { IfOk result (λ l. Below (system_of D.SORT system.now).count (form_of l)) }
{
    let Some(names) = system.path_nodes(alloc, path)? else {
        unreachable!();
    };
    negated(alloc, D::SORT, lit, names.as_slice())
}

/// Adds a literal and the number of its fact, where the literal is not there yet.
fn add_new(chosen: &mut Chosen, lit: Lit, number: u32) -> Result<(), Memory>
    ensures { OnOk result (AddsLiteral lit number chosen.old chosen.new) }
{
    if has(chosen.cube.as_slice(), &lit) {
        return Ok(());
    }
    push(chosen, lit, number)
}

/// Adds the literal that a part is, where it is one and not there yet.
fn add_part<D: Domain>(
    alloc: Global,
    system: &System<'_, D>,
    part: &Part<'_>,
    chosen: &mut Chosen,
) -> Result<(), Memory>
    requires { IsPart D.SORT system.now part.now }
    ensures { OnOk result (AddsPart D.SORT system.now part.now chosen.old chosen.new) }
{
    match part.matrix {
        Matrix::Lit(lit) => {
            let made = literal(alloc, system, part.path, lit)?;
            add_new(chosen, made, part.number)
        }
        Matrix::And(_) => Ok(()),
        Matrix::Or(_) => Ok(()),
    }
}

/// Adds a definition literal of a node and the line that makes it a fact.
fn push_definition(chosen: &mut Chosen, node: u32, which: u32, lit: Lit) -> Result<(), Memory>
    ensures { OnOk result (chosen.new ≡ with_definition chosen.old node which lit) }
{
    let number = chosen.count;
    let count = one_more(number)?;
    chosen.defs.push(Step::Def(node, which))?;
    push(chosen, lit, number)?;
    chosen.count = count;
    Ok(())
}

/// Adds definition literal `which` of a node, where the node is a move and the literal is not there yet.
fn add_definition<D: Domain>(
    alloc: Global,
    system: &System<'_, D>,
    node: u32,
    which: u32,
    chosen: &mut Chosen,
) -> Result<(), Memory>
    ensures { OnOk result (AddsDefinition D.SORT system.now node which chosen.old chosen.new) }
{
    let _kept = system.matrix();
    let Some(lit) = system.definition(alloc, node, which)? else {
        return Ok(());
    };
    if has(chosen.cube.as_slice(), &lit) {
        return Ok(());
    }
    push_definition(chosen, node, which, lit)
}

/// The literals of the goal.
pub fn literals_of<D: Domain>(
    alloc: Global,
    system: &System<'_, D>,
    goal: &Goal<'_>,
) -> Result<Chosen, Memory>
    requires { IsGoal D.SORT system.now goal.now }
    ensures chooses { IfOk result (λ c. Chooses D.SORT system.now goal.now c) }
    ensures all { IfOk result (λ c. HasFirst D.SORT system.now goal.now (length goal.now.lits) c.cube) }
{
    let mut chosen = Chosen {
        cube: Items::new(alloc),
        numbers: Items::new(alloc),
        defs: Items::new(alloc),
        count: goal.count,
    };
    for part in goal.lits.as_slice() {
        add_part(alloc, system, part, &mut chosen)?;
    }
    Ok(chosen)
}

/// With the definitions of all moves.
pub fn with_definitions<D: Domain>(
    alloc: Global,
    system: &System<'_, D>,
    goal: &Goal<'_>,
    chosen: Chosen,
) -> Result<Chosen, Memory>
    requires chooses { Chooses D.SORT system.now goal.now chosen }
    requires all { HasFirst D.SORT system.now goal.now (length goal.now.lits) chosen.cube }
    ensures chooses { IfOk result (λ c. Chooses D.SORT system.now goal.now c) }
    ensures all { IfOk result (λ c. HasFirst D.SORT system.now goal.now (length goal.now.lits) c.cube) }
    ensures nodes { IfOk result (λ c. HasNodes (system_of D.SORT system.now) (system_of D.SORT system.now).count c.cube) }
{
    let mut more = chosen;
    for node in 0..system.node_count() {
        add_definition(alloc, system, node, 0, &mut more)?;
        add_definition(alloc, system, node, 1, &mut more)?;
    }
    Ok(more)
}

/// The variables of the literal at this place.
fn variables_at(alloc: Global, lits: &[Lit], place: usize) -> Result<Option<Items<u32>>, Memory> {
    let Some(lit) = lits.get(place) else {
        return Ok(None);
    };
    let mut vars = Items::new(alloc);
    for term in lit.row().coefs() {
        vars.push(term.0)?;
    }
    Ok(Some(vars))
}

/// With the definitions of the moves among these nodes.
fn with_each<D: Domain>(
    alloc: Global,
    system: &System<'_, D>,
    goal: &Goal<'_>,
    nodes: &[u32],
    chosen: Chosen,
) -> Result<Chosen, Memory>
    requires { Chooses D.SORT system.now goal.now chosen }
    ensures { IfOk result (λ c. Chooses D.SORT system.now goal.now c) }
{
    let mut more = chosen;
    for node in nodes {
        add_definition(alloc, system, *node, 0, &mut more)?;
        add_definition(alloc, system, *node, 1, &mut more)?;
    }
    Ok(more)
}

/// With the definitions of the moves that the literals name, and of those that these name.
pub fn with_named<D: Domain>(
    alloc: Global,
    system: &System<'_, D>,
    goal: &Goal<'_>,
    chosen: Chosen,
) -> Result<Chosen, Memory>
    requires { Chooses D.SORT system.now goal.now chosen }
    ensures { IfOk result (λ c. Chooses D.SORT system.now goal.now c) }
{
    let mut more = chosen;
    for place in 0..usize::MAX {
        let Some(vars) = variables_at(alloc, more.cube.as_slice(), place)? else {
            return Ok(more);
        };
        more = with_each(alloc, system, goal, vars.as_slice(), more)?;
    }
    Ok(more)
}
