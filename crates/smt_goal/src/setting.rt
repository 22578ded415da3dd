//! Infos, options and logics.

ghost use Rattle.std.specs.Prelude.{◌≡◌, slice_get, Bool, true};
ghost use Rattle.smt_lex.specs.Lexeme.{lexeme};
ghost use Rattle.smt_term.specs.View.{IsRead, part_seen};
ghost use Rattle.smt_goal.specs.Command as spec;

use lin_term::Sort;
use smt_lex::{Token, TokenKind};
use smt_term::{Part, is_symbol};
use ss_names::logics;

/// Whether an expression is a token of kind Keyword.
pub fn is_keyword(part: Part<'_, '_>) -> bool
    ensures { result ≡ spec.is_keyword (part_seen part.entry) }
{
    match part {
        Part::Group(_, _, _) => false,
        Part::Token(token) => match token.kind {
            TokenKind::Keyword => true,
            _ => false,
        },
    }
}

fn is_symbol_part(word: &[u8], part: Part<'_, '_>) -> bool
    ensures { result ≡ spec.is_symbol_part word.now (part_seen part.entry) }
{
    match part {
        Part::Group(_, _, _) => false,
        Part::Token(token) => is_symbol(&token) && token.text == word,
    }
}

fn is_string_part(word: &[u8], part: Part<'_, '_>) -> bool
    ensures { result ≡ spec.is_string_part word.now (part_seen part.entry) }
{
    match part {
        Part::Group(_, _, _) => false,
        Part::Token(token) => match token.kind {
            TokenKind::Text => token.text == word,
            _ => false,
        },
    }
}

/// Whether an option may have this value: `:print-success` and `:global-declarations` the symbol `false` alone,
/// `:regular-output-channel` the string `stdout` alone, each other option any value.
pub fn is_offered(option: &[u8], value: Part<'_, '_>) -> bool
    ensures { result ≡ spec.is_offered option.now (part_seen value.entry) }
{
    if option == b":print-success".as_slice() {
        return is_symbol_part(b"false", value);
    }
    if option == b":global-declarations".as_slice() {
        return is_symbol_part(b"false", value);
    }
    if option == b":regular-output-channel".as_slice() {
        return is_string_part(b"stdout", value);
    }
    true
}

fn logic_at(row: usize) -> Option<Sort>
    ensures { result ≡ slice_get spec.logics row }
{
    let all = [Sort::Rat, Sort::Rat, Sort::Int, Sort::Int];
    match all.get(row) {
        None => None,
        Some(sort) => Some(*sort),
    }
}

fn logic_spelled(name: &[u8]) -> Option<Sort>
    ensures { result ≡ spec.logic_spelled name.now }
{
    let row = match logics().find_bytes(name) {
        None => return None,
        Some(row) => row,
    };
    logic_at(row)
}

/// The sort of the numbers of the logic that an expression names: Rat for LRA and QF_LRA, Int for LIA and QF_LIA,
/// quoted or not; None exactly for all else.
pub fn logic_named(part: Part<'_, '_>) -> Option<Sort>
    ensures { result ≡ spec.logic_named (part_seen part.entry) }
{
    match part {
        Part::Group(_, _, _) => None,
        Part::Token(token) => {
            if is_symbol(&token) {
                logic_spelled(token.text)
            } else {
                None
            }
        }
    }
}
