//! Bindings: names, and what stands behind them.

ghost use Rattle.std.specs.Prelude.{◌≡◌, is_some};
ghost use Rattle.symbol_table.specs.Names.{looked_up};
ghost use Rattle.smt_lex.specs.Place.{place};
ghost use Rattle.smt_tree.specs.Seen.{all_seen};
ghost use Rattle.smt_term.specs.Terms as spec;
ghost use Rattle.smt_term.specs.Word as words;
ghost use Rattle.smt_term.specs.View.{part, part_seen};
ghost use Rattle.smt_term.specs.Newest.{IsName, IsPair, IsBindings, IsSorted, pair_of, bindings_of};

use crate::part::{Part, bad, part_of};
use crate::seen::Seen;
use crate::word::{is_free, is_symbol, sort_of};
use lin_term::Sort;
use lin_truth::VarSort;
use smt_tree::Expr;
use ss_names::{FaultKind, ScriptFault};
use std::alloc::Global;
use symbol_table::{Known, Names};

/// A name and its sort.
#[derive(Clone, Copy, Debug)]
pub struct Binding<'a> {
    pub name: &'a [u8],
    pub sort: VarSort,
}

/// A name and its term.
#[derive(Clone, Copy, Debug)]
pub struct Bound<'a> {
    pub name: &'a [u8],
    pub seen: Seen,
}

fn is_taken(taken: &Names<'_>, name: &[u8]) -> bool
    ensures { result ≡ is_some (looked_up taken.now name.now) }
{
    match taken.find(name) {
        None => false,
        Some(_) => true,
    }
}

/// The name that an expression declares or binds, where these names are taken. A fault of kind Sort where it is no
/// symbol, and of kind Symbol where it is reserved, an operator of the logic or taken; each at its place.
pub fn new_name<'a>(
    logic: Sort,
    taken: &Names<'_>,
    part: Part<'_, 'a>,
) -> Result<&'a [u8], ScriptFault>
    ensures { IsName (words.new_name logic taken.now (part_seen part.entry)) result }
{
    match part {
        Part::Group(line, column, _) => Err(bad(FaultKind::Sort, line, column)),
        Part::Token(token) => {
            if !is_symbol(&token) {
                return Err(bad(FaultKind::Sort, token.line, token.column));
            }
            if !is_free(logic, &token) || is_taken(taken, token.text) {
                return Err(bad(FaultKind::Symbol, token.line, token.column));
            }
            Ok(token.text)
        }
    }
}

/// The name of a binding, where these names are taken, and the expression behind it.
pub fn pair_of<'e, 'a>(
    logic: Sort,
    taken: &Names<'_>,
    item: &'e Expr<'a>,
) -> Result<(&'a [u8], &'e Expr<'a>), ScriptFault>
    ensures { IsPair (pair_of logic taken.now (part item.now)) item.now result }
{
    match part_of(item) {
        Part::Token(token) => Err(bad(FaultKind::Sort, token.line, token.column)),
        Part::Group(line, column, items) => {
            if items.len() != 2 {
                return Err(bad(FaultKind::Sort, line, column));
            }
            let name = match new_name(logic, taken, part_of(&items[0])) {
                Ok(name) => name,
                Err(fault) => return Err(fault),
            };
            Ok((name, &items[1]))
        }
    }
}

/// The bindings that stand first among the arguments of a `let` or a binder, of which there is one at least, and the body
/// behind them.
pub fn bindings_of<'e, 'a>(
    line: u64,
    column: u64,
    args: &'e [Expr<'a>],
) -> Result<(&'e [Expr<'a>], &'e [Expr<'a>]), ScriptFault>
    ensures { IsBindings (bindings_of (place line column) (all_seen args.now)) (all_seen args.now) result }
{
    let (first, body) = match args {
        [] => {
            return Err(bad(FaultKind::Arity, line, column));
        }
        [first, body @ ..] => (first, body),
    };
    match part_of(first) {
        Part::Token(token) => Err(bad(FaultKind::Sort, token.line, token.column)),
        Part::Group(line, column, items) => {
            if items.is_empty() {
                return Err(bad(FaultKind::Sort, line, column));
            }
            Ok((items, body))
        }
    }
}

/// The names with their sorts that stand in a list, in order: as a definition's parameters, or a binder's variables.
/// Else the first fault: kind Sort at an item that is no list of two, those of `new_name`, where the names before it
/// are taken, and those of `sort_of`; or want of memory.
pub fn sorted<'a>(
    alloc: Global,
    logic: Sort,
    items: &[Expr<'a>],
) -> Result<Vec<Binding<'a>>, ScriptFault>
    ensures { IsSorted (spec.sorted logic (all_seen items.now)) result }
{
    let mut taken = Names::new(alloc);
    let mut bindings = Vec::new(alloc);
    for item in items {
        let (name, value) = match pair_of(logic, &taken, item) {
            Ok(pair) => pair,
            Err(fault) => return Err(fault),
        };
        let sort = match sort_of(logic, part_of(value)) {
            Ok(sort) => sort,
            Err(fault) => return Err(fault),
        };
        let known = Known {
            sort,
            node: 0,
            signature: 0,
        };
        match taken.push(name, known) {
            Ok(_) => {}
            Err(_) => return Err(ScriptFault::Memory),
        }
        bindings.push(Binding { name, sort })?;
    }
    Ok(bindings)
}
