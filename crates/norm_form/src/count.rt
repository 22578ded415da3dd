//! The size of the form of a goal, counted on the goal in one pass and without the form. The form can be exponentially
//! larger than the goal, so a count stops at a limit.

ghost use Rattle.std.specs.Prelude.{ℕ, ◌≡◌, ◌+◌, ◌*◌, ◌≤◌, IfOk, min, List, ◌++◌, length, nat_eq, true, false};
ghost use Rattle.lin_truth.specs.Formed.{append_all};
ghost use Rattle.lin_truth.specs.Truth.{is_formula as is_formula_tree};
ghost use Rattle.lin_truth.specs.View.{tree_of, trees_of};
ghost use Rattle.norm_form.specs.Load.{load, loads, number_load, list_load, joined_load, Load, total as load_total, after as load_after, limit};
ghost use Rattle.norm_form.specs.Cut.{IsCut};

use lin_form::is_constant;
use lin_term::Memory;
use lin_truth::{Term, VarSort};
use sqlite_items::Items;
use std::alloc::Global;

/// Where counts stop: one more than the greatest number of nodes of a matrix.
pub const LIMIT: u64 = 1_048_577;

/// What a node of the matrix counts, and a variable of the prefix: 0 or 1.
#[derive(Clone, Copy, Debug, PartialEq, Eq)]
pub struct Rate {
    pub node: u64,
    pub binder: u64,
}

/// What a number adds: what stands around the rest, and how many copies of the rest there are.
#[derive(Clone, Copy, Debug, PartialEq, Eq)]
struct Share {
    own: u64,
    leaves: u64,
}

/// A number without a choice.
const PLAIN: Share = Share { own: 0, leaves: 1 };

/// The sum, up to the limit.
fn plus(a: u64, b: u64) -> u64
    requires a_limited { a ≤ limit }
    requires b_limited { b ≤ limit }
    ensures value { result ≡ min limit (a + b) }
    ensures limited { result ≤ limit }
{
    (a + b).min(LIMIT)
}

/// The product, up to the limit.
fn times(a: u64, b: u64) -> u64
    requires a_limited { a ≤ limit }
    requires b_limited { b ≤ limit }
    ensures value { result ≡ min limit (a * b) }
    ensures limited { result ≤ limit }
{
    (a * b).min(LIMIT)
}

/// One number after the other.
fn after(a: Share, b: Share) -> Share
    requires { (a.own ≤ limit) × (a.leaves ≤ limit) × (b.own ≤ limit) × (b.leaves ≤ limit) }
    ensures cut { (x y : Load) → IsCut a x → IsCut b y → IsCut result (load_after x y) }
    ensures limited { (result.own ≤ limit) × (result.leaves ≤ limit) }
{
    let copies = times(a.leaves, b.own);
    Share {
        own: plus(a.own, copies),
        leaves: times(a.leaves, b.leaves),
    }
}

/// A number and what each copy of the rest counts.
fn total(a: Share, n: u64) -> u64
    requires { (a.own ≤ limit) × (a.leaves ≤ limit) × (n ≤ 3) }
    ensures cut { (x : Load) → IsCut a x → result ≡ min limit (load_total x n) }
    ensures limited { result ≤ limit }
{
    let copies = times(a.leaves, n);
    plus(a.own, copies)
}

/// Two formulas of which each stands there twice, and three nodes around them.
fn both_ways(node: u64, x: u64, y: u64) -> u64
    requires { (node ≤ 1) × (x ≤ limit) × (y ≤ limit) }
    ensures { (a b : ℕ) → x ≡ min limit a → y ≡ min limit b → result ≡ min limit (3 * node + 2 * (a + b)) }
{
    plus(3 * node, times(2, plus(x, y)))
}

/// A choice between two formulas.
fn choice(node: u64, test: u64, x: u64, y: u64) -> u64
    requires { (node ≤ 1) × (test ≤ limit) × (x ≤ limit) × (y ≤ limit) }
    ensures { (c a b : ℕ) → test ≡ min limit c → x ≡ min limit a → y ≡ min limit b → result ≡ min limit (3 * node + 2 * c + (a + b)) }
{
    plus(plus(3 * node, times(2, test)), plus(x, y))
}

/// What a choice between two numbers adds.
fn choice_share(node: u64, test: u64) -> Share
    requires { (node ≤ 1) × (test ≤ limit) }
    ensures cut { (c : ℕ) → test ≡ min limit c → IsCut result (record { own = 3 * node + 2 * c; leaves = 2 }) }
    ensures limited { (result.own ≤ limit) × (result.leaves ≤ limit) }
{
    Share {
        own: plus(3 * node, times(2, test)),
        leaves: 2,
    }
}

/// What an absolute value adds: a choice by a literal.
fn absolute_share(node: u64) -> Share
    requires { node ≤ 1 }
    ensures cut { IsCut result (record { own = 5 * node; leaves = 2 }) }
    ensures limited { (result.own ≤ limit) × (result.leaves ≤ limit) }
{
    Share {
        own: 5 * node,
        leaves: 2,
    }
}

/// What a whole quotient or a remainder adds: two bounds, their conjunction and a variable.
fn division_share(rate: Rate) -> Share
    requires { (rate.node ≤ 1) × (rate.binder ≤ 1) }
    ensures cut { IsCut result (record { own = 3 * rate.node + rate.binder; leaves = 1 }) }
    ensures limited { (result.own ≤ limit) × (result.leaves ≤ limit) }
{
    Share {
        own: 3 * rate.node + rate.binder,
        leaves: 1,
    }
}

/// One formula or the other.
fn either(node: u64, x: u64, y: u64) -> u64
    requires { (node ≤ 1) × (x ≤ limit) × (y ≤ limit) }
    ensures { (a b : ℕ) → x ≡ min limit a → y ≡ min limit b → result ≡ min limit (node + (a + b)) }
{
    plus(node, plus(x, y))
}

/// The node of a conjunction or disjunction of n parts: one part stands for the whole.
fn own_node(n: usize, node: u64) -> u64
    requires { node ≤ 1 }
    ensures one { nat_eq n 1 ≡ true → result ≡ 0 }
    ensures more { nat_eq n 1 ≡ false → result ≡ node }
    ensures limited { result ≤ 1 }
{
    if n == 1 { 0 } else { node }
}

/// A formula under n bound variables.
fn bound(binder: u64, n: usize, inner: u64) -> u64
    requires { (binder ≤ 1) × (inner ≤ limit) }
    ensures { (a : ℕ) → inner ≡ min limit a → result ≡ min limit (binder * n + a) }
{
    let own = (n as u64).min(LIMIT);
    plus(times(binder, own), inner)
}

/// The scope with more variables.
fn extended(alloc: Global, scope: &[VarSort], sorts: &[VarSort]) -> Result<Items<VarSort>, Memory>
    ensures { IfOk result (λ all. all ≡ append_all scope.now sorts.now) }
{
    let mut all = Items::from_slice(alloc, scope)?;
    for sort in sorts {
        all.push(*sort)?;
    }
    Ok(all)
}

/// Whether a term is a formula, in this scope.
pub fn is_formula(term: &Term, scope: &[VarSort]) -> bool
    ensures { result ≡ is_formula_tree (tree_of term.now) scope.now }
{
    match term {
        Term::Var(i) => match scope.get(*i as usize) {
            Some(VarSort::Bool) => true,
            _ => false,
        },
        Term::Ite(_, a, _) => is_formula(a.get(), scope),
        Term::Number { .. } => false,
        Term::Negative(_) => false,
        Term::Abs(_) => false,
        Term::Minus(_, _) => false,
        Term::Quotient(_, _) => false,
        Term::Div(_, _) => false,
        Term::Mod(_, _) => false,
        Term::Plus(_) => false,
        Term::Times(_) => false,
        _ => true,
    }
}

/// What the form of a formula counts in this scope, or that of its negation, up to `LIMIT`. Both rates must be 0 or 1.
/// Refuses only for memory.
#[cycle(count)]
pub fn formula_count(
    alloc: Global,
    term: &Term,
    rate: Rate,
    scope: &[VarSort],
) -> Result<u64, Memory>
    requires { (rate.node ≤ 1) × (rate.binder ≤ 1) }
    ensures { IfOk result (λ n. n ≡ min limit (load (tree_of term.now) rate scope.now)) }
{
    match term {
        Term::Not(t) => formula_count(alloc, t.get(), rate, scope),
        Term::Divisible(_, t) => {
            let share = number_count(alloc, t.get(), rate, scope)?;
            Ok(total(share, rate.node))
        }
        Term::Less(a, b) | Term::AtMost(a, b) | Term::Greater(a, b) | Term::AtLeast(a, b) => {
            compared(alloc, a.get(), b.get(), rate.node, rate, scope)
        }
        Term::Equal(a, b) if !is_formula(a.get(), scope) => {
            compared(alloc, a.get(), b.get(), 3 * rate.node, rate, scope)
        }
        Term::Equal(a, b) | Term::Xor(a, b) => twice(alloc, a.get(), b.get(), rate, scope),
        Term::Implies(a, b) => {
            let x = formula_count(alloc, a.get(), rate, scope)?;
            let y = formula_count(alloc, b.get(), rate, scope)?;
            Ok(either(rate.node, x, y))
        }
        Term::Ite(c, a, b) => {
            let test = formula_count(alloc, c.get(), rate, scope)?;
            let x = formula_count(alloc, a.get(), rate, scope)?;
            let y = formula_count(alloc, b.get(), rate, scope)?;
            Ok(choice(rate.node, test, x, y))
        }
        Term::And(ts) | Term::Or(ts) => joined(alloc, ts.as_slice(), rate, scope),
        Term::Forall(sorts, t) | Term::Exists(sorts, t) => {
            quantified(alloc, sorts.as_slice(), t.get(), rate, scope)
        }
        _ => Ok(rate.node),
    }
}

/// A literal over two numbers, which counts n nodes.
#[cycle(count)]
fn compared(
    alloc: Global,
    a: &Term,
    b: &Term,
    n: u64,
    rate: Rate,
    scope: &[VarSort],
) -> Result<u64, Memory>
    requires { (n ≤ 3) × (rate.node ≤ 1) × (rate.binder ≤ 1) }
    ensures { IfOk result (λ count. count ≡ min limit (load_total (load_after (number_load (tree_of a.now) rate scope.now) (number_load (tree_of b.now) rate scope.now)) n)) }
{
    let x = number_count(alloc, a, rate, scope)?;
    let y = number_count(alloc, b, rate, scope)?;
    Ok(total(after(x, y), n))
}

/// Two formulas of which each stands there twice.
#[cycle(count)]
fn twice(alloc: Global, a: &Term, b: &Term, rate: Rate, scope: &[VarSort]) -> Result<u64, Memory>
    requires { (rate.node ≤ 1) × (rate.binder ≤ 1) }
    ensures { IfOk result (λ n. n ≡ min limit (3 * rate.node + 2 * (load (tree_of a.now) rate scope.now + load (tree_of b.now) rate scope.now))) }
{
    let x = formula_count(alloc, a, rate, scope)?;
    let y = formula_count(alloc, b, rate, scope)?;
    Ok(both_ways(rate.node, x, y))
}

/// A conjunction or disjunction: one child is that child.
#[cycle(count)]
fn joined(alloc: Global, parts: &[Term], rate: Rate, scope: &[VarSort]) -> Result<u64, Memory>
    requires { (rate.node ≤ 1) × (rate.binder ≤ 1) }
    ensures { IfOk result (λ n. n ≡ min limit (joined_load (loads (trees_of parts.now) rate scope.now) rate)) }
{
    let mut sum = own_node(parts.len(), rate.node);
    for part in parts {
        let count = formula_count(alloc, part, rate, scope)?;
        sum = plus(sum, count);
    }
    Ok(sum)
}

/// A formula under bound variables.
#[cycle(count)]
fn quantified(
    alloc: Global,
    sorts: &[VarSort],
    body: &Term,
    rate: Rate,
    scope: &[VarSort],
) -> Result<u64, Memory>
    requires { (rate.node ≤ 1) × (rate.binder ≤ 1) }
    ensures { IfOk result (λ n. n ≡ min limit (rate.binder * length sorts.now + load (tree_of body.now) rate (append_all scope.now sorts.now))) }
{
    let all = extended(alloc, scope, sorts)?;
    let inner = formula_count(alloc, body, rate, all.as_slice())?;
    Ok(bound(rate.binder, sorts.len(), inner))
}

/// What a number adds to its atom, up to the limit.
#[cycle(count)]
fn number_count(alloc: Global, term: &Term, rate: Rate, scope: &[VarSort]) -> Result<Share, Memory>
    requires { (rate.node ≤ 1) × (rate.binder ≤ 1) }
    ensures { IfOk result (λ s. IsCut s (number_load (tree_of term.now) rate scope.now)) }
{
    if is_constant(term) {
        return Ok(PLAIN);
    }
    match term {
        Term::Var(_) => Ok(PLAIN),
        Term::Negative(t) => number_count(alloc, t.get(), rate, scope),
        Term::Quotient(t, _) => number_count(alloc, t.get(), rate, scope),
        Term::Abs(t) => {
            let x = number_count(alloc, t.get(), rate, scope)?;
            Ok(after(x, absolute_share(rate.node)))
        }
        Term::Div(t, _) | Term::Mod(t, _) => {
            let x = number_count(alloc, t.get(), rate, scope)?;
            Ok(after(x, division_share(rate)))
        }
        Term::Minus(a, b) => {
            let x = number_count(alloc, a.get(), rate, scope)?;
            let y = number_count(alloc, b.get(), rate, scope)?;
            Ok(after(x, y))
        }
        Term::Ite(c, a, b) => {
            let x = number_count(alloc, a.get(), rate, scope)?;
            let y = number_count(alloc, b.get(), rate, scope)?;
            let test = formula_count(alloc, c.get(), rate, scope)?;
            Ok(after(x, after(y, choice_share(rate.node, test))))
        }
        Term::Plus(ts) => listed(alloc, ts.as_slice(), rate, scope),
        Term::Times(ts) => listed(alloc, ts.as_slice(), rate, scope),
        _ => Ok(Share {
            own: rate.node,
            leaves: 0,
        }),
    }
}

/// The numbers of a sum or a product, one after the other.
#[cycle(count)]
fn listed(alloc: Global, parts: &[Term], rate: Rate, scope: &[VarSort]) -> Result<Share, Memory>
    requires { (rate.node ≤ 1) × (rate.binder ≤ 1) }
    ensures { IfOk result (λ s. IsCut s (list_load (trees_of parts.now) rate scope.now)) }
{
    let mut all = PLAIN;
    for part in parts {
        let share = number_count(alloc, part, rate, scope)?;
        all = after(all, share);
    }
    Ok(all)
}
