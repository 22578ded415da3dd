//! Working constant terms out, by their steps.

ghost use Rattle.std.specs.Prelude.{◌≡◌, ◌∷◌, [], None, take, drop, IfOk};
ghost use Rattle.term_table.specs.declared.step.Step.TheVariants as steps_of;
ghost use Rattle.term_table.specs.Known.{first_known, rest_known, known_step, known_run, turned};

use crate::known::{known_leaf, known_one, known_several, known_two};
use crate::node::{Binary, Unary, Variadic};
use crate::step::Step;
use lin_term::Fraction;
use std::alloc::{AllocError, Global};

/// Takes the value on top.
fn taken(stack: &mut Vec<Option<Fraction>>) -> Option<Fraction>
    ensures top { result ≡ first_known (turned stack.old.items) }
    ensures others { turned stack.new.items ≡ rest_known (turned stack.old.items) }
{
    match stack.pop() {
        Some(known) => known,
        None => None,
    }
}

/// Puts a value on top.
fn put(stack: &mut Vec<Option<Fraction>>, known: Option<Fraction>) -> Result<(), AllocError>
    ensures { IfOk result (λ _. turned stack.new.items ≡ known ∷ turned stack.old.items) }
{
    stack.push(known)?;
    Ok(())
}

/// Takes so many values, the top one first, or all that there are.
fn taken_all(
    alloc: Global,
    stack: &mut Vec<Option<Fraction>>,
    count: usize,
) -> Result<Vec<Option<Fraction>>, AllocError>
    ensures { IfOk result (λ parts. (parts.items ≡ take count (turned stack.old.items)) × (turned stack.new.items ≡ drop count (turned stack.old.items))) }
{
    let mut parts = Vec::new(alloc);
    for _ in 0..count {
        match stack.pop() {
            None => return Ok(parts),
            Some(known) => parts.push(known)?,
        }
    }
    Ok(parts)
}

fn put_one(stack: &mut Vec<Option<Fraction>>, op: Unary) -> Result<(), AllocError>
    ensures { IfOk result (λ _. turned stack.new.items ≡ known_step (steps_of.One op) (turned stack.old.items)) }
{
    let part = taken(stack);
    put(stack, known_one(op, part))
}

fn put_two(stack: &mut Vec<Option<Fraction>>, op: Binary) -> Result<(), AllocError>
    ensures { IfOk result (λ _. turned stack.new.items ≡ known_step (steps_of.Two op) (turned stack.old.items)) }
{
    let left = taken(stack);
    let right = taken(stack);
    put(stack, known_two(op, left, right))
}

fn put_choice(stack: &mut Vec<Option<Fraction>>) -> Result<(), AllocError>
    ensures { IfOk result (λ _. turned stack.new.items ≡ known_step steps_of.Choice (turned stack.old.items)) }
{
    let _ = taken(stack);
    let _ = taken(stack);
    let _ = taken(stack);
    put(stack, None)
}

fn put_several(
    alloc: Global,
    stack: &mut Vec<Option<Fraction>>,
    op: Variadic,
    count: usize,
) -> Result<(), AllocError>
    ensures { IfOk result (λ _. turned stack.new.items ≡ known_step (steps_of.Several op count) (turned stack.old.items)) }
{
    let parts = taken_all(alloc, stack, count)?;
    put(stack, known_several(op, parts.as_slice()))
}

fn put_binder(stack: &mut Vec<Option<Fraction>>) -> Result<(), AllocError>
    ensures { IfOk result (λ _. turned stack.new.items ≡ None ∷ rest_known (turned stack.old.items)) }
{
    let _ = taken(stack);
    put(stack, None)
}

/// Takes a step.
fn take_step(alloc: Global, stack: &mut Vec<Option<Fraction>>, step: Step) -> Result<(), AllocError>
    ensures { IfOk result (λ _. turned stack.new.items ≡ known_step step (turned stack.old.items)) }
{
    match step {
        Step::Leaf(leaf) => put(stack, known_leaf(&leaf)),
        Step::Variable(_) => put(stack, None),
        Step::One(op) => put_one(stack, op),
        Step::Two(op) => put_two(stack, op),
        Step::Choice => put_choice(stack),
        Step::Several(op, count) => put_several(alloc, stack, op, count),
        Step::Binder(_, _) => put_binder(stack),
    }
}

/// The value of the term that these steps build, where it is a constant term.
pub fn worked_out(alloc: Global, steps: Vec<Step>) -> Result<Option<Fraction>, AllocError>
    ensures { IfOk result (λ known. known ≡ first_known (known_run steps.items [])) }
{
    let mut stack = Vec::new(alloc);
    for step in steps {
        take_step(alloc, &mut stack, step)?;
    }
    Ok(taken(&mut stack))
}
