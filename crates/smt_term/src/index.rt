//! A list as the head of a list.

ghost use Rattle.std.specs.Prelude.{◌≡◌};
ghost use Rattle.smt_lex.specs.Lexeme.{lexeme};
ghost use Rattle.smt_lex.specs.Place.{place};
ghost use Rattle.smt_tree.specs.Seen.{all_seen};
ghost use Rattle.smt_term.specs.Terms as spec;
ghost use Rattle.smt_term.specs.View.{IsRead, part_seen};

use crate::number::numeral;
use crate::part::{Part, bad, part_of};
use crate::word::{is_reserved, is_symbol, is_word};
use lin_term::Sort;
use smt_lex::{Token, TokenKind};
use smt_tree::Expr;
use ss_names::{FaultKind, ScriptFault};

// The numeral of an index.
fn index_value(part: Part<'_, '_>) -> Result<u64, ScriptFault>
    ensures { IsRead (spec.index_value (part_seen part.entry)) result }
{
    match part {
        Part::Group(line, column, _) => Err(bad(FaultKind::Sort, line, column)),
        Part::Token(token) => match token.kind {
            TokenKind::Numeral => numeral(&token),
            _ => Err(bad(FaultKind::Sort, token.line, token.column)),
        },
    }
}

fn is_divisible(logic: Sort, word: &Token<'_>) -> bool
    ensures { result ≡ spec.is_divisible logic (lexeme word.now) }
{
    match logic {
        Sort::Rat => false,
        Sort::Int => !is_reserved(word) && word.text == b"divisible".as_slice(),
    }
}

fn divisible_index(logic: Sort, word: Part<'_, '_>, index: Part<'_, '_>) -> Result<u64, ScriptFault>
    ensures { IsRead (spec.divisible_index logic (part_seen word.entry) (part_seen index.entry)) result }
{
    match word {
        Part::Group(line, column, _) => Err(bad(FaultKind::Sort, line, column)),
        Part::Token(token) => {
            if !is_symbol(&token) {
                return Err(bad(FaultKind::Sort, token.line, token.column));
            }
            if !is_divisible(logic, &token) {
                return Err(bad(FaultKind::Symbol, token.line, token.column));
            }
            index_value(index)
        }
    }
}

fn is_mark(part: Part<'_, '_>) -> bool
    ensures { result ≡ spec.is_mark (part_seen part.entry) }
{
    match part {
        Part::Group(_, _, _) => false,
        Part::Token(token) => is_word(b"_", &token),
    }
}

/// The n of `(_ divisible n)`, a head whose `(` stands at this place. A fault of kind Sort where the list has another
/// form, of kind Symbol where its second word is another symbol or the numbers are Real, and of kind Number where n is
/// past 2^52.
pub fn index_head(
    logic: Sort,
    line: u64,
    column: u64,
    items: &[Expr<'_>],
) -> Result<u64, ScriptFault>
    ensures { IsRead (spec.index_head logic (place line column) (all_seen items.now)) result }
{
    if items.len() != 3 {
        return Err(bad(FaultKind::Sort, line, column));
    }
    let mark = part_of(&items[0]);
    let word = part_of(&items[1]);
    let index = part_of(&items[2]);
    if !is_mark(mark) {
        return Err(bad(FaultKind::Sort, line, column));
    }
    divisible_index(logic, word, index)
}
