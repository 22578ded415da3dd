//! The term of a binder, from its variables and its body.

ghost use Rattle.std.specs.Prelude.{◌≡◌, ◌<◌, [], length, IfOk};
ghost use Rattle.smt_lex.specs.Place.{place};
ghost use Rattle.smt_tree.specs.Seen.{all_seen};
ghost use Rattle.term_table.specs.Meaning.{meanings};
ghost use Rattle.smt_term.specs.Terms as spec;
ghost use Rattle.smt_term.specs.Scope.{sorts_in_order};
ghost use Rattle.smt_term.specs.View.{typed_at, GivesOne};
ghost use Rattle.smt_term.specs.Newest.{newest_first, sorts_bound};

use crate::bindings::Binding;
use crate::making::added;
use crate::part::bad;
use crate::seen::{Seen, is_same};
use lin_truth::VarSort;
use smt_tree::Expr;
use sqlite_items::Items;
use ss_names::{FaultKind, ScriptFault};
use std::alloc::{AllocError, Global};
use term_table::{Node, Quantifier, Table};

/// The line and column of the first expression, or these where there is none.
pub fn first_place(line: u64, column: u64, items: &[Expr<'_>]) -> (u64, u64)
    ensures { place result.0 result.1 ≡ spec.first_place (place line column) (all_seen items.now) }
{
    match items {
        [] => (line, column),
        [first, ..] => match first {
            Expr::Leaf(token) => (token.line, token.column),
            Expr::List { line, column, .. } => (*line, *column),
        },
    }
}

// The sorts of the variables.
fn sorts_of(alloc: Global, variables: &[Binding<'_>]) -> Result<Items<VarSort>, AllocError>
    ensures { IfOk result (λ sorts. sorts ≡ sorts_bound variables.now) }
{
    let mut sorts = Vec::new(alloc);
    for v in variables {
        sorts.push(v.sort)?;
    }
    Ok(Items::from_vec(sorts))
}

/// A binder of these variables over its body, which has this place: kind Sort where the body is no formula.
pub fn quantified(
    alloc: Global,
    table: &mut Table,
    around: u32,
    quantifier: Quantifier,
    variables: &[Binding<'_>],
    body: Seen,
    line: u64,
    column: u64,
) -> Result<Seen, ScriptFault>
    requires { body.node < length table.old }
    ensures { GivesOne table.old (spec.quantified around quantifier (sorts_in_order (newest_first [] variables.now)) (place line column) (typed_at (meanings table.old) body)) result table.new }
{
    if !is_same(body.sort, VarSort::Bool) {
        return Err(bad(FaultKind::Sort, line, column));
    }
    let sorts = sorts_of(alloc, variables)?;
    let binder = Node::Binder {
        quantifier,
        sorts,
        around,
        body: body.node,
    };
    let node = match added(table, binder) {
        Ok(node) => node,
        Err(fault) => return Err(fault),
    };
    Ok(Seen {
        sort: VarSort::Bool,
        node,
    })
}
