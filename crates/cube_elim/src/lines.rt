//! The lines that refute a cube over the rationals: the sums on which a false literal hangs, and no others.

ghost use Rattle.std.specs.Prelude.{ℕ, ◌≡◌, ◌<◌, ◌≤◌, ◌+◌, ◌-◌, ◌*◌, ◌^◌, ◌/◌, pos, ◌≤ℤ◌, ◌+ℤ◌, ◌*ℤ◌, nat_abs, true, false, length, get_or, take, IfOk};
ghost use Rattle.std.specs.List.{range_with_len};
ghost use Rattle.lin_term.specs.declared.Sort.TheVariants.{Rat};
ghost use Rattle.lin_term.specs.Form.{AreTerms, IsRow, cap};
ghost use Rattle.lin_term.specs.Blend.{sum_terms};
ghost use Rattle.lin_term.specs.Literal.{form_of, divisor, gcd, gcd_terms};
ghost use Rattle.lin_term.specs.Sum.{sum_of};
ghost use Rattle.lin_term.specs.Truth.{truth_of};
ghost use Rattle.dom_core.specs.Elimination.{is_lower, is_upper, size_at};
ghost use Rattle.dom_core.specs.Reduced.{AreRows};
ghost use Rattle.cube_rules.specs.Bare.{ClosesBare};
ghost use Rattle.cube_rules.specs.Lines.{is_false};
ghost use Rattle.cube_elim.specs.Stored.{lit_of, IsStore};
ghost use Rattle.cube_elim.specs.Written.{IsMarked, IsNeeded, sum_line, AreClosed, AddsLine, SkipsLine, IsNextLine, IsWritten};

use crate::store::{Pair, Store};
use cube_rules::Step;
use lin_term::{Lit, Memory, Row, coefficient_at, common_of_sum, gcd_of_words, product};
use sqlite_items::Items;
use std::alloc::Global;

/// Above the number of every variable.
const NO_VARIABLE: u32 = 1 << 20;

/// Lines, the fact that each literal is, and how many facts there are; a literal that is not needed has the fact 0.
#[derive(Drop)]
pub(crate) struct Lines {
    pub steps: Items<Step>,
    pub facts: Items<u32>,
    pub count: u32,
}

/// A mark for each of so many literals, none set.
fn no_marks(alloc: Global, count: usize) -> Result<Items<bool>, Memory>
    ensures { IfOk result (λ marks. length marks ≡ count) }
{
    let mut marks = Items::new(alloc);
    for index in 0..count {
        marks.push(false)?;
    }
    Ok(marks)
}

/// The marks of the two literals of a pair are set, where that of their sum is.
fn mark_pair(marks: &mut Items<bool>, sum: usize, pair: Pair)
    requires sum { sum < length marks.old }
    requires lower { pair.lower < length marks.old }
    requires upper { pair.upper < length marks.old }
    ensures { IsMarked marks.old marks.new sum pair }
{
    if marks.as_slice()[sum] {
        marks.set(pair.lower as usize, true);
        marks.set(pair.upper as usize, true);
    }
}

/// Which literals of the store a literal hangs on: itself, and the two of each sum that it hangs on.
fn needed(alloc: Global, store: &Store, given: usize, id: u32) -> Result<Items<bool>, Memory>
    requires store { IsStore given store.now }
    requires within { id < length store.now.lits }
    ensures { IfOk result (IsNeeded given store.now.pairs id) }
{
    let pairs = store.pairs.as_slice();
    let mut marks = no_marks(alloc, store.lits.len())?;
    marks.set(id as usize, true);
    for k in 0..pairs.len() {
        let index = pairs.len() - 1 - k;
        mark_pair(&mut marks, given + index, pairs[index]);
    }
    Ok(marks)
}

/// The size of the coefficient of the variable.
fn size_of(lit: &Lit, var: u32) -> u64
    ensures value { result ≡ size_at var lit.now }
    ensures kept { result ≤ cap }
{
    coefficient_at(lit.row(), var).unsigned_abs()
}

/// What is read of a literal's row says that it is one.
fn read_row(lit: &Lit)
    ensures { IsRow (form_of lit.now) }
{
    let row = lit.row();
    let _terms = row.coefs();
    let _constant = row.constant_part();
}

/// The constant of the sum of p times the one row and q times the other.
fn constant_of(p: u64, left: &Row, q: u64, right: &Row) -> i128
    requires p_kept { p ≤ cap }
    requires q_kept { q ≤ cap }
    ensures value { result ≡ pos p *ℤ left.now.constant +ℤ pos q *ℤ right.now.constant }
    ensures size { nat_abs result ≤ 2 ^ 105 }
{
    product(p as i64, left.constant_part()) + product(q as i64, right.constant_part())
}

/// Its size.
fn constant_size(p: u64, left: &Row, q: u64, right: &Row) -> u128
    requires p_kept { p ≤ cap }
    requires q_kept { q ≤ cap }
    ensures { result ≡ nat_abs (pos p *ℤ left.now.constant +ℤ pos q *ℤ right.now.constant) }
{
    let constant = constant_of(p, left, q, right);
    constant.unsigned_abs()
}

/// The greatest common divisor of a number and the coefficients of p times the one row and q times the other.
fn common_of(start: u128, p: u64, left: &[(u32, i64)], q: u64, right: &[(u32, i64)]) -> u128
    requires p_kept { p ≤ cap }
    requires q_kept { q ≤ cap }
    requires left_kept { AreTerms 0 left.now }
    requires right_kept { AreTerms 0 right.now }
    ensures { result ≡ gcd start (gcd_terms (sum_terms (pos p) left.now (pos q) right.now (2 ^ 20))) }
{
    common_of_sum(start, 0, p as i64, left, q as i64, right, NO_VARIABLE)
}

/// The divisor of the sum of p times the lower and q times the upper literal.
fn divisor_of(p: u64, lower: &Lit, q: u64, upper: &Lit) -> u128
    requires p_kept { p ≤ cap }
    requires q_kept { q ≤ cap }
    ensures value { result ≡ divisor Rat (form_of (sum_of (pos p) lower.now (pos q) upper.now)) }
    ensures rows { IsRow (form_of lower.now) × IsRow (form_of upper.now) }
{
    read_row(lower);
    read_row(upper);
    let left = lower.row();
    let right = upper.row();
    let start = constant_size(p, left, q, right);
    let common = common_of(start, p, left.coefs(), q, right.coefs());
    common.max(1)
}

/// The divisor, which fits 105 bits.
#[tactic(auto, using(crate::proofs::SumLines::divisor_fits))]
fn small_divisor(p: u64, lower: &Lit, q: u64, upper: &Lit) -> u128
    requires p_kept { p ≤ cap }
    requires q_kept { q ≤ cap }
    ensures value { result ≡ divisor Rat (form_of (sum_of (pos p) lower.now (pos q) upper.now)) }
    ensures size { result ≤ 2 ^ 105 }
{
    divisor_of(p, lower, q, upper)
}

/// The line that forms the sum of a lower and an upper literal, which are the facts of these numbers.
fn line_of(lower: &Lit, lower_fact: u32, upper: &Lit, upper_fact: u32, var: u32) -> Step
    requires { is_lower var lower.now ≡ true }
    ensures { result ≡ sum_line var lower.now lower_fact upper.now upper_fact }
{
    let a = size_of(lower, var);
    let b = size_of(upper, var);
    let g = gcd_of_words(a, b);
    let p = b / g;
    let q = a / g;
    let divisor = small_divisor(p, lower, q, upper);
    Step::Sum(p as i64, lower_fact, q as i64, upper_fact, divisor as i128)
}

/// The numbers from 0 on.
pub(crate) fn first_facts(alloc: Global, count: u32) -> Result<Items<u32>, Memory>
    ensures { IfOk result (λ facts. facts ≡ range_with_len 0 count) }
{
    let mut facts = Items::new(alloc);
    for index in 0..count {
        facts.push(index)?;
    }
    Ok(facts)
}

/// The line that forms the sum of a pair, whose literals are facts; the sum is the next fact. More facts than 32 bits
/// count are want of memory.
fn add_line(lines: &mut Lines, lits: &[Lit], pair: Pair) -> Result<(), Memory>
    requires lower_in { pair.lower < length lits.now }
    requires upper_in { pair.upper < length lits.now }
    requires lower_fact { pair.lower < length lines.old.facts }
    requires upper_fact { pair.upper < length lines.old.facts }
    requires lower { is_lower pair.var (lit_of lits.now pair.lower) ≡ true }
    ensures { IfOk result (λ u. AddsLine lines.old lines.new (sum_line pair.var (lit_of lits.now pair.lower) (get_or lines.old.facts pair.lower 0) (lit_of lits.now pair.upper) (get_or lines.old.facts pair.upper 0))) }
{
    if lines.count == u32::MAX {
        return Err(Memory);
    }
    let facts = lines.facts.as_slice();
    let lower_fact = facts[pair.lower as usize];
    let upper_fact = facts[pair.upper as usize];
    let lower = &lits[pair.lower as usize];
    let upper = &lits[pair.upper as usize];
    lines
        .steps
        .push(line_of(lower, lower_fact, upper, upper_fact, pair.var))?;
    lines.facts.push(lines.count)?;
    lines.count += 1;
    Ok(())
}

/// A sum that is not needed has no line.
fn skip_line(lines: &mut Lines) -> Result<(), Memory>
    ensures { IfOk result (λ u. SkipsLine lines.old lines.new) }
{
    lines.facts.push(0)?;
    Ok(())
}

/// The line of a sum, where it is needed.
fn next_line(lines: &mut Lines, lits: &[Lit], pair: Pair, is_needed: bool) -> Result<(), Memory>
    requires lower_in { pair.lower < length lits.now }
    requires upper_in { pair.upper < length lits.now }
    requires lower_fact { pair.lower < length lines.old.facts }
    requires upper_fact { pair.upper < length lines.old.facts }
    requires lower { is_lower pair.var (lit_of lits.now pair.lower) ≡ true }
    ensures { IfOk result (λ u. IsNextLine is_needed lines.old lines.new (sum_line pair.var (lit_of lits.now pair.lower) (get_or lines.old.facts pair.lower 0) (lit_of lits.now pair.upper) (get_or lines.old.facts pair.upper 0))) }
{
    if is_needed {
        return add_line(lines, lits, pair);
    }
    skip_line(lines)
}

/// The lines of the sums that are marked, over so many given literals.
fn marked_lines(alloc: Global, store: &Store, given: u32, marks: &[bool]) -> Result<Lines, Memory>
    requires store { IsStore given store.now }
    requires rows { AreRows store.now.lits }
    requires count { length marks.now ≡ given + length store.now.pairs }
    requires both { AreClosed given store.now.pairs marks.now }
    ensures { IfOk result (IsWritten given store.now.lits marks.now (length store.now.pairs)) }
{
    let lits = store.lits.as_slice();
    let pairs = store.pairs.as_slice();
    let mut lines = Lines {
        steps: Items::new(alloc),
        facts: first_facts(alloc, given)?,
        count: given,
    };
    for index in 0..pairs.len() {
        next_line(
            &mut lines,
            lits,
            pairs[index],
            marks[given as usize + index],
        )?;
    }
    Ok(lines)
}

/// What is read of rows says that they are rows.
fn read_rows(lits: &[Lit])
    ensures { AreRows lits.now }
{
    for lit in lits {
        read_row(lit);
    }
}

/// Lines that close the bare context of the first literals of a store, which are given; a literal of the store has no
/// variable and is false. It refuses only for memory.
pub(crate) fn refutation(
    alloc: Global,
    store: &Store,
    given: u32,
    id: u32,
) -> Result<Items<Step>, Memory>
    requires store { IsStore given store.now }
    requires within { id < length store.now.lits }
    requires fails { is_false (truth_of (lit_of store.now.lits id)) ≡ true }
    ensures { IfOk result (λ steps. (n : ℕ) → ClosesBare Rat n (take given store.now.lits) steps) }
{
    read_rows(store.lits.as_slice());
    let marks = needed(alloc, store, given as usize, id)?;
    let lines = marked_lines(alloc, store, given, marks.as_slice())?;
    let Lines {
        mut steps,
        facts,
        count: _,
    } = lines;
    steps.push(Step::False(facts.as_slice()[id as usize]))?;
    Ok(steps)
}
