//! Terms from steps.

ghost use Rattle.std.specs.Prelude.{◌≡◌, ◌∷◌, List, [], map, take, drop, IfOk};
ghost use Rattle.lin_truth.specs.View.{tree_of};
ghost use Rattle.lin_truth.specs.Term.{ite};
ghost use Rattle.term_table.specs.Built as spec;
ghost use Rattle.term_table.specs.declared.step.Step.TheVariants as step;
ghost use Rattle.term_table.specs.Steps.{first, rest, run, stepped};
ghost use Rattle.term_table.specs.Stack.{stacked};

use crate::node::{Binary, Leaf, Quantifier, Unary, Variadic};
use crate::step::Step;
use lin_truth::{Term, VarSort};
use sqlite_items::{Boxed, Items};
use std::alloc::{AllocError, Global};

/// The term of a leaf.
fn leaf(leaf: Leaf) -> Term
    ensures { tree_of result ≡ spec.leaf_of leaf }
{
    match leaf {
        Leaf::True => Term::True,
        Leaf::False => Term::False,
        Leaf::Number { num, den } => Term::Number { num, den },
        Leaf::Constant(place) => Term::Var(place),
    }
}

/// The term of an operator with one part.
fn one(alloc: Global, op: Unary, part: Term) -> Result<Term, AllocError>
    ensures { IfOk result (λ t. tree_of t ≡ spec.one_of op (tree_of part)) }
{
    let part = Boxed::new(alloc, part)?;
    match op {
        Unary::Negative => Ok(Term::Negative(part)),
        Unary::Abs => Ok(Term::Abs(part)),
        Unary::Not => Ok(Term::Not(part)),
        Unary::Divisible(n) => Ok(Term::Divisible(n, part)),
    }
}

/// The term of an operator with two parts.
fn two(alloc: Global, op: Binary, left: Term, right: Term) -> Result<Term, AllocError>
    ensures { IfOk result (λ t. tree_of t ≡ spec.two_of op (tree_of left) (tree_of right)) }
{
    let left = Boxed::new(alloc, left)?;
    let right = Boxed::new(alloc, right)?;
    match op {
        Binary::Minus => Ok(Term::Minus(left, right)),
        Binary::Quotient => Ok(Term::Quotient(left, right)),
        Binary::Div => Ok(Term::Div(left, right)),
        Binary::Mod => Ok(Term::Mod(left, right)),
        Binary::Less => Ok(Term::Less(left, right)),
        Binary::AtMost => Ok(Term::AtMost(left, right)),
        Binary::Greater => Ok(Term::Greater(left, right)),
        Binary::AtLeast => Ok(Term::AtLeast(left, right)),
        Binary::Equal => Ok(Term::Equal(left, right)),
        Binary::Xor => Ok(Term::Xor(left, right)),
        Binary::Implies => Ok(Term::Implies(left, right)),
    }
}

/// The term of a condition and two terms.
fn choice(alloc: Global, condition: Term, left: Term, right: Term) -> Result<Term, AllocError>
    ensures { IfOk result (λ t. tree_of t ≡ ite (tree_of condition) (tree_of left) (tree_of right)) }
{
    let condition = Boxed::new(alloc, condition)?;
    let left = Boxed::new(alloc, left)?;
    let right = Boxed::new(alloc, right)?;
    Ok(Term::Ite(condition, left, right))
}

/// The term of an operator with any number of parts.
fn several(op: Variadic, parts: Items<Term>) -> Term
    ensures { tree_of result ≡ spec.several_of op (map tree_of parts) }
{
    match op {
        Variadic::Plus => Term::Plus(parts),
        Variadic::Times => Term::Times(parts),
        Variadic::And => Term::And(parts),
        Variadic::Or => Term::Or(parts),
    }
}

/// The term of a binder.
fn binder(
    alloc: Global,
    quantifier: Quantifier,
    sorts: Items<VarSort>,
    body: Term,
) -> Result<Term, AllocError>
    ensures { IfOk result (λ t. tree_of t ≡ spec.binder_of quantifier sorts (tree_of body)) }
{
    let body = Boxed::new(alloc, body)?;
    match quantifier {
        Quantifier::Forall => Ok(Term::Forall(sorts, body)),
        Quantifier::Exists => Ok(Term::Exists(sorts, body)),
    }
}

/// Takes the term on top; `false` where there is none.
fn taken(stack: &mut Vec<Term>) -> Term
    ensures top { tree_of result ≡ first (stacked stack.old.items) }
    ensures others { stacked stack.new.items ≡ rest (stacked stack.old.items) }
{
    match stack.pop() {
        Some(term) => term,
        None => Term::False,
    }
}

/// Puts a term on top.
fn put(stack: &mut Vec<Term>, term: Term) -> Result<(), AllocError>
    ensures { IfOk result (λ _. stacked stack.new.items ≡ tree_of term ∷ stacked stack.old.items) }
{
    stack.push(term)?;
    Ok(())
}

/// Takes so many terms, the top one first, or all that there are.
fn taken_all(alloc: Global, stack: &mut Vec<Term>, count: usize) -> Result<Items<Term>, AllocError>
    ensures { IfOk result (λ parts. (map tree_of parts ≡ take count (stacked stack.old.items)) × (stacked stack.new.items ≡ drop count (stacked stack.old.items))) }
{
    let mut parts = Vec::new(alloc);
    for _ in 0..count {
        match stack.pop() {
            None => return Ok(Items::from_vec(parts)),
            Some(term) => parts.push(term)?,
        }
    }
    Ok(Items::from_vec(parts))
}

fn put_one(alloc: Global, stack: &mut Vec<Term>, op: Unary) -> Result<(), AllocError>
    ensures { IfOk result (λ _. stacked stack.new.items ≡ stepped (step.One op) (stacked stack.old.items)) }
{
    let part = taken(stack);
    let term = one(alloc, op, part)?;
    put(stack, term)
}

fn put_two(alloc: Global, stack: &mut Vec<Term>, op: Binary) -> Result<(), AllocError>
    ensures { IfOk result (λ _. stacked stack.new.items ≡ stepped (step.Two op) (stacked stack.old.items)) }
{
    let left = taken(stack);
    let right = taken(stack);
    let term = two(alloc, op, left, right)?;
    put(stack, term)
}

fn put_choice(alloc: Global, stack: &mut Vec<Term>) -> Result<(), AllocError>
    ensures { IfOk result (λ _. stacked stack.new.items ≡ stepped step.Choice (stacked stack.old.items)) }
{
    let condition = taken(stack);
    let left = taken(stack);
    let right = taken(stack);
    let term = choice(alloc, condition, left, right)?;
    put(stack, term)
}

fn put_several(
    alloc: Global,
    stack: &mut Vec<Term>,
    op: Variadic,
    count: usize,
) -> Result<(), AllocError>
    ensures { IfOk result (λ _. stacked stack.new.items ≡ stepped (step.Several op count) (stacked stack.old.items)) }
{
    let parts = taken_all(alloc, stack, count)?;
    put(stack, several(op, parts))
}

fn put_binder(
    alloc: Global,
    stack: &mut Vec<Term>,
    quantifier: Quantifier,
    sorts: Items<VarSort>,
) -> Result<(), AllocError>
    ensures { IfOk result (λ _. stacked stack.new.items ≡ stepped (step.Binder quantifier sorts) (stacked stack.old.items)) }
{
    let body = taken(stack);
    let term = binder(alloc, quantifier, sorts, body)?;
    put(stack, term)
}

/// Takes a step.
fn take_step(alloc: Global, stack: &mut Vec<Term>, step: Step) -> Result<(), AllocError>
    ensures { IfOk result (λ _. stacked stack.new.items ≡ stepped step (stacked stack.old.items)) }
{
    match step {
        Step::Leaf(found) => put(stack, leaf(found)),
        Step::Variable(place) => put(stack, leaf(Leaf::Constant(place))),
        Step::One(op) => put_one(alloc, stack, op),
        Step::Two(op) => put_two(alloc, stack, op),
        Step::Choice => put_choice(alloc, stack),
        Step::Several(op, count) => put_several(alloc, stack, op, count),
        Step::Binder(quantifier, sorts) => put_binder(alloc, stack, quantifier, sorts),
    }
}

/// The term that these steps build.
pub fn built(alloc: Global, steps: Vec<Step>) -> Result<Term, AllocError>
    ensures { IfOk result (λ t. tree_of t ≡ first (run steps.items [])) }
{
    let mut stack = Vec::new(alloc);
    for step in steps {
        take_step(alloc, &mut stack, step)?;
    }
    Ok(taken(&mut stack))
}
