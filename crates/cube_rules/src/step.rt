//! The lines of a proof.

ghost use Rattle.std.specs.Prelude.{◌≡◌, ◌&&◌, length, nat_abs, nat_le, IfOk, Decides};
ghost use Rattle.std.specs.List.{AllByRecursion, list_all};
ghost use Rattle.lin_term.specs.Form.{IsRow};
ghost use Rattle.lin_term.specs.Literal.{form_of};
ghost use Rattle.lin_term.specs.Wide.{fits};
ghost use Rattle.cube_rules.specs.Limits as limits;
ghost use Rattle.cube_rules.specs.Lines as lines;

use crate::kind::Kind;
use crate::literal::literal_within;
use crate::rule::Rule;
use lin_term::{CAP, Lit, Memory};
use sqlite_items::Items;
use std::alloc::Global;

/// The greatest size of the divisor of a sum: 2^105.
pub const DIVISOR_CAP: u128 = 40_564_819_207_303_340_847_894_502_572_032;

/// A line of a proof. Facts are numbered from 0 in the context of the line, paths and nodes in preorder.
#[derive(Debug, Drop)]
pub enum Step {
    /// The negated matrix on this path.
    Path(u32),
    /// A move's node, and which of its two definition literals.
    Def(u32, u32),
    /// A fact that is a conjunction, and the place of a child.
    Part(u32, u32),
    /// A fact that is a disjunction, and the number of its children: as many subproofs follow.
    Cases(u32, u64),
    /// `p` times fact `f` plus `q` times fact `h`, divided by `g`: `p`, `f`, `q`, `h`, `g`.
    Sum(i64, u32, i64, u32, i128),
    /// A literal: two subproofs follow, of it and of its negation.
    Split(Lit),
    /// The facts that are kept; all others are dropped.
    Cube(Items<u32>),
    /// A variable that is eliminated, and the number of cases: as many subproofs follow.
    Least(u32, u64),
    /// One literal or more: two subproofs follow, of all their negations and of their disjunction.
    Learn(Items<Lit>),
    /// A fact that is false: the subproof ends.
    False(u32),
}

/// Equal literals, in order.
fn copied(alloc: Global, lits: &[Lit]) -> Result<Items<Lit>, Memory>
    ensures { IfOk result (λ ls. ls ≡ lits.now) }
{
    let mut all = Items::new(alloc);
    for lit in lits {
        all.push(lit.copy(alloc)?)?;
    }
    Ok(all)
}

impl Step {
    /// An equal line; refuses only for memory.
    pub fn copy(&self, alloc: Global) -> Result<Step, Memory>
        ensures { IfOk result (λ s. s ≡ self.now) }
    {
        match self {
            Step::Path(path) => Ok(Step::Path(*path)),
            Step::Def(node, literal) => Ok(Step::Def(*node, *literal)),
            Step::Part(fact, place) => Ok(Step::Part(*fact, *place)),
            Step::Cases(fact, count) => Ok(Step::Cases(*fact, *count)),
            Step::Sum(p, f, q, h, g) => Ok(Step::Sum(*p, *f, *q, *h, *g)),
            Step::Split(lit) => Ok(Step::Split(lit.copy(alloc)?)),
            Step::Cube(facts) => Ok(Step::Cube(Items::from_slice(alloc, facts.as_slice())?)),
            Step::Least(node, count) => Ok(Step::Least(*node, *count)),
            Step::Learn(lits) => Ok(Step::Learn(copied(alloc, lits.as_slice())?)),
            Step::False(fact) => Ok(Step::False(*fact)),
        }
    }

    /// The kind of the line.
    pub fn kind(&self) -> Kind
        ensures { result ≡ lines.kind_of self.now }
    {
        match self {
            Step::Path(_) => Kind::Path,
            Step::Def(_, _) => Kind::Def,
            Step::Part(_, _) => Kind::Part,
            Step::Cases(_, _) => Kind::Cases,
            Step::Sum(_, _, _, _, _) => Kind::Sum,
            Step::Split(_) => Kind::Split,
            Step::Cube(_) => Kind::Cube,
            Step::Least(_, _) => Kind::Least,
            Step::Learn(_) => Kind::Learn,
            Step::False(_) => Kind::False,
        }
    }

    /// How many subproofs stand open in place of the line's own: one after most lines, since the subproof goes on.
    pub fn parts(&self) -> u64
        ensures { result ≡ lines.parts self.now }
    {
        match self {
            Step::Cases(_, n) | Step::Least(_, n) => *n,
            Step::Split(_) | Step::Learn(_) => 2,
            Step::False(_) => 0,
            _ => 1,
        }
    }
}

/// The rule that a line is to meet.
pub fn rule_of_step(step: &Step) -> Rule
    ensures { result ≡ lines.rule_of step.now }
{
    Rule::Line(step.kind())
}

/// Whether each number of the line is within its limit: counts of cases, multipliers and the numbers of a literal within
/// the cap of 2^52 in size, a modulus 1 or more, the divisor of a sum at most 2^105 in size; and whether a `cube` names
/// a fact and a `learn` has a literal. The types of the line keep the others.
pub fn within(step: &Step) -> bool
    ensures value { result ≡ limits.is_within step.now }
    // So a line can be written.
    ensures exact { Decides result (limits.IsStep step.now) }
{
    let tested = numbers_within(step);
    keep_limits(step);
    tested
}

/// Whether the numbers whose limits no type keeps are within them.
fn numbers_within(step: &Step) -> bool
    ensures { result ≡ limits.is_within step.now }
{
    match step {
        Step::Cases(_, n) | Step::Least(_, n) => *n <= CAP as u64,
        Step::Sum(p, _, q, _, g) => sum_within(*p, *q, *g),
        Step::Split(lit) => is_written(lit),
        Step::Cube(facts) => has_one(facts.as_slice()),
        Step::Learn(lits) => are_written(lits.as_slice()),
        _ => true,
    }
}

/// The types of a line keep the limits of its indices and rows.
fn keep_limits(step: &Step)
    ensures { limits.IsTyped step.now }
{
    match step {
        Step::Path(n) | Step::False(n) => keep_index(*n),
        Step::Def(a, b) | Step::Part(a, b) => keep_pair(*a, *b),
        Step::Cases(n, _) | Step::Least(n, _) => keep_index(*n),
        Step::Sum(_, f, _, h, _) => keep_pair(*f, *h),
        Step::Split(lit) => keep_row(lit),
        Step::Cube(facts) => keep_indices(facts.as_slice()),
        Step::Learn(lits) => keep_rows(lits.as_slice()),
    }
}

fn keep_index(n: u32)
    ensures { limits.IsIndex n }
{}

fn keep_pair(a: u32, b: u32)
    ensures { limits.IsIndex a × limits.IsIndex b }
{}

fn keep_indices(facts: &[u32])
    ensures { AllByRecursion limits.IsIndex facts.now }
{
    for fact in facts {
        keep_index(*fact);
    }
}

fn keep_row(lit: &Lit)
    ensures { IsRow (form_of lit.now) }
{
    let row = lit.row();
    let _ = row.coefs();
    let _ = row.constant_part();
}

fn keep_rows(lits: &[Lit])
    ensures { AllByRecursion (λ l. IsRow (form_of l)) lits.now }
{
    for lit in lits {
        keep_row(lit);
    }
}

/// Whether there is one or more.
fn has_one<T>(items: &[T]) -> bool
    ensures { result ≡ nat_le 1 (length items.now) }
{
    !items.is_empty()
}

/// Whether there is one literal or more, and the numbers of each are within their limits.
fn are_written(lits: &[Lit]) -> bool
    ensures { result ≡ (nat_le 1 (length lits.now) && list_all limits.is_literal_within lits.now) }
{
    has_one(lits) && each_written(lits)
}

fn each_written(lits: &[Lit]) -> bool
    ensures { result ≡ list_all limits.is_literal_within lits.now }
{
    lits.iter().all(|lit| is_written(lit))
}

/// Whether the literal's numbers are within their limits.
fn is_written(lit: &Lit) -> bool
    ensures { result ≡ limits.is_literal_within lit.now }
{
    literal_within(lit) && has_modulus(lit)
}

/// Whether a modulus is 1 or more.
fn has_modulus(lit: &Lit) -> bool
    ensures { result ≡ limits.has_modulus lit.now }
{
    match lit {
        Lit::AtLeast(_) | Lit::Above(_) => true,
        Lit::Divides(d, _) | Lit::NotDivides(d, _) => *d >= 1,
    }
}

/// Whether the multipliers of a sum are within the cap, and its divisor within 2^105.
fn sum_within(p: i64, q: i64, g: i128) -> bool
    ensures { result ≡ (fits p && fits q && nat_le (nat_abs g) limits.divisor_cap) }
{
    multiplier_within(p) && multiplier_within(q) && g.unsigned_abs() <= DIVISOR_CAP
}

/// Whether a multiplier is within the cap.
fn multiplier_within(p: i64) -> bool
    ensures { result ≡ fits p }
{
    p.unsigned_abs() <= CAP as u64
}
