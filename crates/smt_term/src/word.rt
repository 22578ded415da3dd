//! Symbols, reserved words and sorts.

ghost use Rattle.std.specs.Prelude.{◌≡◌};
ghost use Rattle.smt_lex.specs.Lexeme.{lexeme};
ghost use Rattle.smt_term.specs.Word as spec;
ghost use Rattle.smt_term.specs.View.{IsRead, part_seen};

use crate::operator::operator_named;
use crate::part::{Part, bad};
use lin_term::Sort;
use lin_truth::VarSort;
use smt_lex::{Token, TokenKind};
use ss_names::{FaultKind, ScriptFault, reserved_words};

fn is_kind_symbol(kind: TokenKind) -> bool
    ensures { result ≡ spec.is_kind_symbol kind }
{
    match kind {
        TokenKind::Symbol => true,
        TokenKind::Quoted => true,
        _ => false,
    }
}

fn is_simple_kind(kind: TokenKind) -> bool
    ensures { result ≡ spec.is_simple_kind kind }
{
    match kind {
        TokenKind::Symbol => true,
        _ => false,
    }
}

/// Whether a token is a symbol, quoted or not: both spell the same name.
pub fn is_symbol(token: &Token<'_>) -> bool
    ensures { result ≡ spec.is_symbol (lexeme token.now) }
{
    is_kind_symbol(token.kind)
}

/// Whether a token is this word, unquoted.
pub fn is_word(word: &[u8], token: &Token<'_>) -> bool
    ensures { result ≡ spec.is_word word.now (lexeme token.now) }
{
    is_simple_kind(token.kind) && token.text == word
}

fn is_reserved_word(text: &[u8]) -> bool
    ensures { result ≡ spec.is_reserved_word text.now }
{
    let words = reserved_words();
    match words.find_bytes(text) {
        None => false,
        Some(_) => true,
    }
}

/// Whether a token is a reserved word. A quoted one is an ordinary symbol.
pub fn is_reserved(token: &Token<'_>) -> bool
    ensures { result ≡ spec.is_reserved (lexeme token.now) }
{
    is_simple_kind(token.kind) && is_reserved_word(token.text)
}

fn is_operator(logic: Sort, name: &[u8]) -> bool
    ensures { result ≡ spec.is_operator logic name.now }
{
    match operator_named(logic, name) {
        None => false,
        Some(_) => true,
    }
}

/// Whether a symbol may be declared or bound, where no name is taken: it is no reserved word and spells no operator of
/// the logic.
pub fn is_free(logic: Sort, token: &Token<'_>) -> bool
    ensures { result ≡ spec.is_free logic (lexeme token.now) }
{
    !is_reserved(token) && !is_operator(logic, token.text)
}

fn number_sort(logic: Sort) -> &'static [u8]
    ensures { result.now ≡ spec.number_sort logic }
{
    match logic {
        Sort::Rat => b"Real",
        Sort::Int => b"Int",
    }
}

fn sort_spelled(logic: Sort, token: &Token<'_>) -> Result<VarSort, ScriptFault>
    ensures { IsRead (spec.sort_spelled logic (lexeme token.now)) result }
{
    if token.text == b"Bool".as_slice() {
        return Ok(VarSort::Bool);
    }
    if token.text == number_sort(logic) {
        return Ok(VarSort::Number);
    }
    Err(bad(FaultKind::Sort, token.line, token.column))
}

/// The sort that an expression names: `Bool`, or `Real` or `Int`, whichever the logic's numbers are; each other one is
/// a fault of kind Sort at its place.
pub fn sort_of(logic: Sort, part: Part<'_, '_>) -> Result<VarSort, ScriptFault>
    ensures { IsRead (spec.sort_of logic (part_seen part.entry)) result }
{
    match part {
        Part::Group(line, column, _) => Err(bad(FaultKind::Sort, line, column)),
        Part::Token(token) => {
            if !is_symbol(&token) || is_reserved(&token) {
                return Err(bad(FaultKind::Sort, token.line, token.column));
            }
            sort_spelled(logic, &token)
        }
    }
}
