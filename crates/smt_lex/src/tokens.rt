//! The tokens of a script, one after the other.

ghost use Rattle.std.specs.Prelude.{◌≡◌, ◌+◌, ◌-◌, ◌<◌, ◌≤◌, ◌^◌, true, length, take, drop, MatchOption, [], ◌∷◌, ℕ};
ghost use Rattle.std.specs.Iterator.{YieldsFirstBy, item_count};
ghost use Rattle.smt_lex.specs.Tokens.{tokens, tokens_from, left_at};
ghost use Rattle.smt_lex.specs.Piece.{is_on_line};
ghost use Rattle.smt_lex.specs.Place.{place};
ghost use Rattle.smt_lex.specs.Lexeme.{found};
ghost use Rattle.smt_lex.specs.Spelling.{AreTokensOf};

use crate::piece::{Piece, piece_at};
use crate::token::Token;
use ss_names::{FaultKind, ScriptFault};
use std::marker::Model;

/// A place in a script, and the bytes from there on.
#[derive(Clone, Copy)]
struct Rest<'a> {
    bytes: &'a [u8],
    line: u64,
    column: u64,
    ghost line_fits: { line + length bytes.now < 2 ^ 64 },
    ghost column_fits: { column + length bytes.now < 2 ^ 64 },
}

// Passes a byte.
#[inline]
fn behind<'a>(from: Rest<'a>) -> Rest<'a>
    requires { 0 < length from.bytes.now }
    ensures tokens { (n : ℕ) → tokens_from n (place result.line result.column) result.bytes.now ≡ tokens_from (n + 1) (place from.entry.line from.entry.column) from.entry.bytes.now }
    ensures shorter { length result.bytes.now + 1 ≡ length from.entry.bytes.now }
{
    let is_end = from.bytes[0] == b'\n';
    Rest {
        bytes: &from.bytes[1..],
        line: if is_end { from.line + 1 } else { from.line },
        column: if is_end { 1 } else { from.column + 1 },
    }
}

// Passes so many bytes.
#[tactic(auto, unfolding(crate::specs::Tokens::tokens_at))]
fn past<'a>(from: Rest<'a>, len: usize) -> Rest<'a>
    requires { len ≤ length from.bytes.now }
    ensures tokens { left_at result.line result.column result.bytes.now ≡ tokens_from len (place from.entry.line from.entry.column) from.entry.bytes.now }
    ensures shorter { length result.bytes.now + len ≡ length from.entry.bytes.now }
{
    let mut rest = from;
    for _ in 0..len {
        rest = behind(rest);
    }
    rest
}

// Passes so many bytes, among which no line ends.
#[inline]
#[tactic(auto, using(crate::proofs::TokensLemmas::along_line))]
fn along<'a>(from: Rest<'a>, len: usize) -> Rest<'a>
    requires within { len ≤ length from.bytes.now }
    requires on_line { is_on_line (take len from.bytes.now) ≡ true }
    ensures tokens { left_at result.line result.column result.bytes.now ≡ tokens_from len (place from.entry.line from.entry.column) from.entry.bytes.now }
    ensures shorter { length result.bytes.now + len ≡ length from.entry.bytes.now }
{
    Rest {
        bytes: &from.bytes[len..],
        line: from.line,
        column: from.column + len as u64,
    }
}

// The first token or fault, and what is left behind it.
fn first<'a>(from: Rest<'a>) -> (Option<Result<Token<'a>, ScriptFault>>, Rest<'a>)
    ensures { MatchOption result.0
        ((left_at from.entry.line from.entry.column from.entry.bytes.now ≡ []) × (left_at result.1.line result.1.column result.1.bytes.now ≡ []))
        (λ x. left_at from.entry.line from.entry.column from.entry.bytes.now ≡ found x ∷ left_at result.1.line result.1.column result.1.bytes.now) }
{
    let mut rest = from;
    while !rest.bytes.is_empty() {
        match piece_at(rest.bytes) {
            Piece::Blank => rest = behind(rest),
            Piece::Comment(len) => rest = along(rest, len),
            Piece::Word(kind, len) => {
                let token = Token {
                    kind,
                    line: rest.line,
                    column: rest.column,
                    text: &rest.bytes[..len],
                };
                return (Some(Ok(token)), along(rest, len));
            }
            Piece::Enclosed(kind, len) => {
                let token = Token {
                    kind,
                    line: rest.line,
                    column: rest.column,
                    text: &rest.bytes[1..len - 1],
                };
                return (Some(Ok(token)), past(rest, len));
            }
            Piece::Bad => {
                let fault = ScriptFault::Bad {
                    kind: FaultKind::Token,
                    line: rest.line,
                    column: rest.column,
                };
                let nothing = Rest {
                    bytes: &[],
                    line: 1,
                    column: 1,
                };
                return (Some(Err(fault)), nothing);
            }
        }
    }
    (None, rest)
}

/// The tokens that are left of a script. Contracts see them as a list, in which a fault is the last.
/// Nothing behind the token that `next` gives is looked at.
#[derive(Drop)]
pub struct Tokens<'a> {
    rest: Rest<'a>,
}

impl<'a> Model for Tokens<'a> {
    ghost use Rattle.std.specs.Prelude.{List};
    ghost use Rattle.smt_lex.specs.Lexeme.{Found};
    ghost use Rattle.smt_lex.specs.Tokens.{left_at};

    ghost Value = { List Found };

    ghost view = { λ t. left_at t.rest.line t.rest.column t.rest.bytes.now };
}

/// The tokens of a script, up to the first run that is none, or the first string or quoted symbol that does not end or
/// has a `\\`: there a fault of kind Token comes, at its first byte, and then None. (SMT-LIB 2.6, section 3.1.)
/// The bytes are the spelling of the tokens, each as long as it can be and at its place, with white space and comments
/// between them.
pub fn tokens_of(bytes: &[u8]) -> Tokens<'_>
    ensures tokens { result ≡ tokens bytes.now }
    ensures spelled { AreTokensOf bytes.now result }
{
    Tokens {
        rest: Rest {
            bytes,
            line: 1,
            column: 1,
        },
    }
}

impl<'a> Iterator for Tokens<'a> {
    type Item = Result<Token<'a>, ScriptFault>;

    ghost next_gives = { YieldsFirstBy found (λ tokens. tokens) };

    ghost remaining = { item_count (λ tokens. tokens) };

    fn next(&mut self) -> Option<Result<Token<'a>, ScriptFault>> {
        let (item, rest) = first(self.rest);
        self.rest = rest;
        item
    }
}
