//! Applications of operators and definitions to arguments that were read.

ghost use Rattle.std.specs.Prelude.{◌≡◌, ◌<◌, length, map};
ghost use Rattle.std.specs.List.{list_any};
ghost use Rattle.smt_lex.specs.Place.{place};
ghost use Rattle.lin_truth.specs.declared.VarSort.TheVariants as sorts;
ghost use Rattle.smt_term.specs.declared.operator.Linear.TheVariants as linears;
ghost use Rattle.term_table.specs.Placed.{top};
ghost use Rattle.term_table.specs.Worth.{worth_of};
ghost use Rattle.term_table.specs.Meaning.{at, meanings};
ghost use Rattle.smt_term.specs.Apply as spec;
ghost use Rattle.smt_term.specs.Operator.{sort_given};
ghost use Rattle.smt_term.specs.View.{typed_at, all_at, sorts_seen, worths_at, AreAsked, AreIn, GivesOne, IsDone};

use crate::making::{added, built, nodes_of};
use crate::operator::{Gives, Linear, Operator, Takes};
use crate::part::bad;
use crate::seen::{Seen, is_same};
use lin_truth::VarSort;
use ss_names::{FaultKind, ScriptFault};
use std::alloc::Global;
use term_table::{Node, Table, Unary, Worth};

fn is_at_most(count: usize, most: Option<usize>) -> bool
    ensures { result ≡ spec.is_at_most count most }
{
    match most {
        None => true,
        Some(most) => count <= most,
    }
}

fn arity_fits(op: Operator, count: usize) -> bool
    ensures { result ≡ spec.arity_fits op count }
{
    op.least <= count && is_at_most(count, op.most)
}

fn all_of(sort: VarSort, args: &[Seen]) -> bool
    ensures { result ≡ spec.all_of sort (sorts_seen args.now) }
{
    let mut rest = args;
    while let [arg, more @ ..] = rest {
        if !is_same(arg.sort, sort) {
            return false;
        }
        rest = more;
    }
    true
}

fn alike(args: &[Seen]) -> bool
    ensures { result ≡ spec.alike (sorts_seen args.now) }
{
    match args {
        [] => true,
        [first, rest @ ..] => all_of(first.sort, rest),
    }
}

fn is_choice(args: &[Seen]) -> bool
    ensures { result ≡ spec.is_choice (sorts_seen args.now) }
{
    match args {
        [] => false,
        [first, rest @ ..] => is_same(first.sort, VarSort::Bool) && alike(rest),
    }
}

/// Whether an operator takes arguments of these sorts.
pub fn sorts_fit(takes: Takes, args: &[Seen]) -> bool
    ensures { result ≡ spec.sorts_fit takes (sorts_seen args.now) }
{
    match takes {
        Takes::Formulas => all_of(VarSort::Bool, args),
        Takes::Numbers => all_of(VarSort::Number, args),
        Takes::Alike => alike(args),
        Takes::Choice => is_choice(args),
    }
}

fn last_sort(args: &[Seen]) -> VarSort
    ensures { result ≡ spec.last_sort sorts.Bool (sorts_seen args.now) }
{
    let mut last = VarSort::Bool;
    let mut rest = args;
    while let [arg, more @ ..] = rest {
        last = arg.sort;
        rest = more;
    }
    last
}

fn sort_of(gives: Gives, args: &[Seen]) -> VarSort
    ensures { result ≡ sort_given gives (spec.last_sort sorts.Bool (sorts_seen args.now)) }
{
    match gives {
        Gives::Formula => VarSort::Bool,
        Gives::Number => VarSort::Number,
        Gives::Last => last_sort(args),
    }
}

fn is_zero(worth: Worth) -> bool
    ensures { result ≡ spec.is_zero worth }
{
    match worth {
        Worth::Value { num, .. } => num == 0,
        Worth::Free => false,
        Worth::Large => false,
        Worth::Wide => false,
    }
}

fn is_free(worth: Worth) -> bool
    ensures { result ≡ spec.is_free worth }
{
    match worth {
        Worth::Free => true,
        Worth::Value { .. } => false,
        Worth::Large => false,
        Worth::Wide => false,
    }
}

fn is_wide(worth: Worth) -> bool
    ensures { result ≡ spec.is_wide worth }
{
    match worth {
        Worth::Wide => true,
        Worth::Value { .. } => false,
        Worth::Large => false,
        Worth::Free => false,
    }
}

fn some_zero(worths: &[Worth]) -> bool
    ensures { result ≡ list_any spec.is_zero worths.now }
{
    worths.iter().any(|worth| is_zero(*worth))
}

fn some_free(worths: &[Worth]) -> bool
    ensures { result ≡ list_any spec.is_free worths.now }
{
    worths.iter().any(|worth| is_free(*worth))
}

fn one_free(worths: &[Worth]) -> bool
    ensures { result ≡ spec.one_free worths.now }
{
    let mut rest = worths;
    while let [worth, more @ ..] = rest {
        if is_free(*worth) {
            return !some_free(more);
        }
        rest = more;
    }
    true
}

fn divisors_fit(worths: &[Worth], line: u64, column: u64) -> Result<(), ScriptFault>
    ensures { IsDone (spec.linear_fits linears.Divisors worths.now (place line column)) result }
{
    let divisors = match worths {
        [] => worths,
        [_, rest @ ..] => rest,
    };
    if some_zero(divisors) {
        return Err(bad(FaultKind::Divisor, line, column));
    }
    if some_free(divisors) {
        return Err(bad(FaultKind::Linear, line, column));
    }
    Ok(())
}

fn linear_fits(linear: Linear, worths: &[Worth], line: u64, column: u64) -> Result<(), ScriptFault>
    ensures { IsDone (spec.linear_fits linear worths.now (place line column)) result }
{
    match linear {
        Linear::Free => Ok(()),
        Linear::Factors => {
            if one_free(worths) {
                Ok(())
            } else {
                Err(bad(FaultKind::Linear, line, column))
            }
        }
        Linear::Divisors => divisors_fit(worths, line, column),
    }
}

/// A term of the table at an application, by what is known of it as a constant term (`Table::worth`): a fault of kind
/// Number at this place where a step of working it out has a number past the cap.
pub fn checked(
    table: &Table,
    seen: Seen,
    worth: Worth,
    line: u64,
    column: u64,
) -> Result<Seen, ScriptFault>
    requires node { seen.node < length table.now }
    requires worth { worth ≡ worth_of (at (meanings table.now) seen.node top 0) }
    ensures { GivesOne table.now (spec.checked (place line column) (typed_at (meanings table.now) seen)) result table.now }
{
    if is_wide(worth) {
        return Err(bad(FaultKind::Number, line, column));
    }
    Ok(seen)
}

/// An operator at its arguments, which are in the table, by what is known of these as constant terms where it looks at
/// that: faults of kinds Arity, Sort, Divisor and Linear in this order, as the definition gives them, or want of
/// memory.
pub fn application(
    alloc: Global,
    table: &mut Table,
    op: Operator,
    args: &[Seen],
    worths: &[Worth],
    line: u64,
    column: u64,
) -> Result<Seen, ScriptFault>
    requires args { AreIn (length table.old) args.now }
    requires worths { AreAsked op.linear worths.now (worths_at (meanings table.old) args.now) }
    ensures { GivesOne table.old (spec.application op (place line column) (all_at (meanings table.old) args.now)) result table.new }
{
    if !arity_fits(op, args.len()) {
        return Err(bad(FaultKind::Arity, line, column));
    }
    if !sorts_fit(op.takes, args) {
        return Err(bad(FaultKind::Sort, line, column));
    }
    let _ = match linear_fits(op.linear, worths, line, column) {
        Ok(fits) => fits,
        Err(fault) => return Err(fault),
    };
    let node = match built(alloc, table, op.shape, args) {
        Ok(node) => node,
        Err(fault) => return Err(fault),
    };
    Ok(Seen {
        sort: sort_of(op.gives, args),
        node,
    })
}

fn have_sorts(args: &[Seen], sorts: &[VarSort]) -> bool
    ensures { result ≡ spec.same_sorts (sorts_seen args.now) sorts.now }
{
    let mut left = args;
    let mut right = sorts;
    while let [arg, more @ ..] = left {
        match right {
            [] => return false,
            [sort, others @ ..] => {
                if !is_same(arg.sort, *sort) {
                    return false;
                }
                left = more;
                right = others;
            }
        }
    }
    right.is_empty()
}

/// A definition with parameters of these sorts and this body, at its arguments, all in the table: faults of kind Arity
/// where it has no parameters or another number of them, then of kind Sort; or want of memory.
pub fn expansion(
    alloc: Global,
    table: &mut Table,
    params: &[VarSort],
    body: Seen,
    args: &[Seen],
    line: u64,
    column: u64,
) -> Result<Seen, ScriptFault>
    requires args { AreIn (length table.old) args.now }
    requires body { body.node < length table.old }
    ensures { GivesOne table.old (spec.expansion (record { params = params.now; meaning = typed_at (meanings table.old) body }) (place line column) (all_at (meanings table.old) args.now)) result table.new }
{
    if params.is_empty() {
        return Err(bad(FaultKind::Arity, line, column));
    }
    if args.len() != params.len() {
        return Err(bad(FaultKind::Arity, line, column));
    }
    if !have_sorts(args, params) {
        return Err(bad(FaultKind::Sort, line, column));
    }
    let parts = nodes_of(alloc, args)?;
    let used = Node::Use {
        body: body.node,
        args: parts,
    };
    let node = match added(table, used) {
        Ok(node) => node,
        Err(fault) => return Err(fault),
    };
    Ok(Seen {
        sort: body.sort,
        node,
    })
}

/// `(_ divisible n)` at its arguments, which are in the table: faults of kind Arity where it is not one, Sort where
/// that is no number, and Divisor where n is 0, in this order; or want of memory.
pub fn divided(
    table: &mut Table,
    modulus: u64,
    args: &[Seen],
    line: u64,
    column: u64,
) -> Result<Seen, ScriptFault>
    requires { AreIn (length table.old) args.now }
    ensures { GivesOne table.old (spec.divided modulus (place line column) (all_at (meanings table.old) args.now)) result table.new }
{
    if args.len() != 1 {
        return Err(bad(FaultKind::Arity, line, column));
    }
    if !is_same(args[0].sort, VarSort::Number) {
        return Err(bad(FaultKind::Sort, line, column));
    }
    if modulus == 0 {
        return Err(bad(FaultKind::Divisor, line, column));
    }
    let node = match added(table, Node::One(Unary::Divisible(modulus), args[0].node)) {
        Ok(node) => node,
        Err(fault) => return Err(fault),
    };
    Ok(Seen {
        sort: VarSort::Bool,
        node,
    })
}
