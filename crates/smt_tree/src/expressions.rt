//! The expressions of a script, one after the other.

ghost use Rattle.std.specs.Prelude.{◌≡◌};
ghost use Rattle.smt_lex.specs.Tokens.{tokens};
ghost use Rattle.smt_tree.specs.Seen.{Steps, expressions_left};
ghost use Rattle.smt_tree.specs.Spelling.{IsSpelled};

use crate::expr::Expr;
use crate::reading::first;
use smt_lex::{Tokens, tokens_of};
use ss_names::ScriptFault;
use std::alloc::Global;
use std::marker::Model;

/// The expressions that are left of a script. Contracts see them as the tokens that are left.
/// Nothing behind the `)` of the expression that `next` gives is looked at.
#[derive(Drop)]
pub struct Expressions<'a> {
    alloc: Global,
    tokens: Tokens<'a>,
}

impl<'a> Model for Expressions<'a> {
    ghost use Rattle.std.specs.Prelude.{List};
    ghost use Rattle.smt_lex.specs.Lexeme.{Found};

    ghost Value = { List Found };

    ghost view = { λ e. e.tokens };
}

/// The expressions of a script, one in parentheses after the other, up to the first fault: of kind Token where a token
/// is none, Unclosed at a token outside parentheses or at the `(` of the expression in which the script ends, Depth at a
/// `(` at which 1,024 are open. After a fault, and after want of memory, None comes.
/// The tokens are the spelling of the expressions, and then those that are not read; without a fault all are read.
pub fn expressions_of(alloc: Global, bytes: &[u8]) -> Expressions<'_>
    ensures tokens { result ≡ tokens bytes.now }
    ensures spelled { IsSpelled result }
{
    Expressions {
        alloc,
        tokens: tokens_of(bytes),
    }
}

impl<'a> Iterator for Expressions<'a> {
    type Item = Result<Expr<'a>, ScriptFault>;

    ghost next_gives = { Steps };

    ghost remaining = { expressions_left };

    fn next(&mut self) -> Option<Result<Expr<'a>, ScriptFault>> {
        match first(self.alloc, &mut self.tokens) {
            None => None,
            Some(Ok(expression)) => Some(Ok(expression)),
            Some(Err(fault)) => {
                self.tokens = tokens_of(&[]);
                Some(Err(fault))
            }
        }
    }
}
