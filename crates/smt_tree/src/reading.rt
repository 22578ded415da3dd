//! Reads an expression.

ghost use Rattle.std.specs.Prelude.{◌≡◌, ◌∷◌, [], OnOk, MatchOption};
ghost use Rattle.smt_lex.specs.Place.{place};
ghost use Rattle.smt_lex.specs.Lexeme.{lexeme};
ghost use Rattle.smt_tree.specs.Sexp.{leaf, none};
ghost use Rattle.smt_tree.specs.Expressions.{inside, opened, closed, with_item, expressions};
ghost use Rattle.smt_tree.specs.Seen.{Gives, level, level_of, seen};

use crate::expr::Expr;
use smt_lex::{Token, TokenKind, Tokens};
use sqlite_items::Items;
use ss_names::{FaultKind, ScriptFault};
use std::alloc::{AllocError, Global};

// How many parentheses may be open at one place, so that the recursion over an expression is bounded.
const MAX_OPEN: usize = 1024;

/// A list whose `)` has not come.
#[derive(Drop)]
pub struct Open<'a> {
    line: u64,
    column: u64,
    items: Items<Expr<'a>>,
}

// A list at the `(` of this place, without items yet.
fn begun<'a>(alloc: Global, line: u64, column: u64) -> Open<'a>
    ensures { level_of result ≡ level line column }
{
    Open {
        line,
        column,
        items: Items::new(alloc),
    }
}

// Puts an item at the end of a list.
fn add<'a>(inner: &mut Open<'a>, item: Expr<'a>) -> Result<(), AllocError>
    ensures { OnOk result (level_of inner.new ≡ with_item (level_of inner.old) (seen item.entry)) }
{
    inner.items.push(item)
}

// The expression that an open list is once its `)` has come.
fn whole<'a>(inner: Open<'a>) -> Expr<'a>
    ensures { seen result ≡ closed (level_of inner.entry) }
{
    Expr::List {
        line: inner.line,
        column: inner.column,
        items: inner.items,
    }
}

// Reads on from the `(` of an expression.
fn list_from<'a>(
    alloc: Global,
    tokens: &mut Tokens<'a>,
    line: u64,
    column: u64,
) -> Result<Expr<'a>, ScriptFault>
    ensures { Gives (inside (level line column ∷ []) tokens.old) result tokens.new }
{
    let mut outer: Vec<Open<'a>> = Vec::new(alloc);
    let mut inner = begun(alloc, line, column);
    while let Some(found) = tokens.next() {
        let token = match found {
            Ok(token) => token,
            Err(fault) => return Err(fault),
        };
        match token.kind {
            TokenKind::Left => {
                if outer.len() >= MAX_OPEN - 1 {
                    return Err(ScriptFault::Bad {
                        kind: FaultKind::Depth,
                        line: token.line,
                        column: token.column,
                    });
                }
                outer.push(inner)?;
                inner = begun(alloc, token.line, token.column);
            }
            TokenKind::Right => {
                let list = whole(inner);
                match outer.pop() {
                    None => return Ok(list),
                    Some(mut around) => {
                        add(&mut around, list)?;
                        inner = around;
                    }
                }
            }
            _ => add(&mut inner, Expr::Leaf(token))?,
        }
    }
    Err(ScriptFault::Bad {
        kind: FaultKind::Unclosed,
        line,
        column,
    })
}

/// The first expression or fault. After a fault nothing is said of the tokens that are left.
pub fn first<'a>(alloc: Global, tokens: &mut Tokens<'a>) -> Option<Result<Expr<'a>, ScriptFault>>
    ensures { MatchOption result ((tokens.old ≡ []) × (tokens.new ≡ [])) (λ r. Gives (expressions tokens.old) r tokens.new) }
{
    match tokens.next() {
        None => None,
        Some(Err(fault)) => Some(Err(fault)),
        Some(Ok(token)) => match token.kind {
            TokenKind::Left => Some(list_from(alloc, tokens, token.line, token.column)),
            _ => Some(Err(ScriptFault::Bad {
                kind: FaultKind::Unclosed,
                line: token.line,
                column: token.column,
            })),
        },
    }
}
