//! One expression, by what it is, and faults at a place.

ghost use Rattle.std.specs.Prelude.{◌≡◌};
ghost use Rattle.ss_names.specs.declared.ScriptFault.TheVariants.{Bad};
ghost use Rattle.smt_term.specs.View.{part, part_seen};

use smt_lex::Token;
use smt_tree::Expr;
use ss_names::{FaultKind, ScriptFault};

/// A token, or what stands in parentheses behind its `(` at this line and column.
#[derive(Clone, Copy)]
pub enum Part<'e, 'a> {
    Token(Token<'a>),
    Group(u64, u64, &'e [Expr<'a>]),
}

/// What an expression is.
pub fn part_of<'e, 'a>(expr: &'e Expr<'a>) -> Part<'e, 'a>
    ensures { part_seen result ≡ part expr.now }
{
    match expr {
        Expr::Leaf(token) => Part::Token(*token),
        Expr::List {
            line,
            column,
            items,
        } => Part::Group(*line, *column, items.as_slice()),
    }
}

/// The fault of this kind at this place.
pub fn bad(kind: FaultKind, line: u64, column: u64) -> ScriptFault
    ensures { result ≡ Bad kind line column }
{
    ScriptFault::Bad { kind, line, column }
}
