//! What stands at the front of a text.

ghost use Rattle.std.specs.Prelude.{◌≡◌, ◌||◌, ◌==◌, ◌+◌, ◌<◌, ◌≤◌, not, true, false, length, take, drop, IfSome, slice_index};
ghost use Rattle.std.specs.List.{list_all, prefix_len};
ghost use Rattle.smt_lex.specs.Run.{is_of_run, is_symbol_byte};
ghost use Rattle.smt_lex.specs.Piece as spec;

use crate::class;
use crate::token::TokenKind;

/// What stands at the front of a text, with its length in bytes.
#[derive(Clone, Copy, Debug)]
pub enum Piece {
    /// A byte of white space.
    Blank,
    /// A comment, without the line feed behind it.
    Comment(usize),
    /// A token that lies on one line, and is its bytes.
    Word(TokenKind, usize),
    /// A token between two marks, and what stands between them.
    Enclosed(TokenKind, usize),
    /// No token.
    Bad,
}

fn comment_len(z: &[u8]) -> usize
    ensures value { result ≡ prefix_len (λ b. not (b == 10)) z.now }
    ensures within { result ≤ length z.now }
{
    z.iter().take_while(|b| **b != b'\n').count()
}

// The length of the longest run at the front, and whether a symbol may hold all of it.
fn run_len(mut z: &[u8]) -> (usize, bool)
    ensures len { result.0 ≡ prefix_len is_of_run z.entry.now }
    ensures within { result.0 ≤ length z.entry.now }
    ensures symbol { result.1 ≡ list_all is_symbol_byte (take result.0 z.entry.now) }
{
    let mut len = 0;
    let mut is_symbol = true;
    while let [b, rest @ ..] = z {
        if !class::is_of_run(*b) {
            return (len, is_symbol);
        }
        is_symbol = is_symbol & class::is_symbol_byte(*b);
        len += 1;
        z = rest;
    }
    (len, is_symbol)
}

fn inside_len(z: &[u8]) -> usize
    ensures value { result ≡ prefix_len (λ b. not (b == 124 || b == 92)) z.now }
    ensures within { result ≤ length z.now }
{
    z.iter()
        .take_while(|b| !(**b == b'|' || **b == b'\\'))
        .count()
}

// The length of a string, without its opening quote.
fn closing(mut z: &[u8]) -> Option<usize>
    ensures value { result ≡ spec.closing 1 false z.entry.now }
    ensures within { IfSome result (λ len. (1 < len) × (len ≤ length z.entry.now + 1)) }
{
    let mut is_outside = false;
    let mut len = 1;
    while let [b, rest @ ..] = z {
        if is_outside && *b != b'"' {
            return Some(len);
        }
        is_outside = !is_outside && *b == b'"';
        len += 1;
        z = rest;
    }
    if is_outside { Some(len) } else { None }
}

fn string_at(z: &[u8]) -> Piece
    requires { 0 < length z.now }
    ensures value { result ≡ spec.string_at z.now }
    ensures within { spec.IsWithin result z.now }
{
    match closing(&z[1..]) {
        None => Piece::Bad,
        Some(len) => Piece::Enclosed(TokenKind::Text, len),
    }
}

fn quoted_at(z: &[u8]) -> Piece
    requires { 0 < length z.now }
    ensures value { result ≡ spec.quoted_at z.now }
    ensures within { spec.IsWithin result z.now }
{
    let end = inside_len(&z[1..]) + 1;
    if end < z.len() && z[end] == b'|' {
        Piece::Enclosed(TokenKind::Quoted, end + 1)
    } else {
        Piece::Bad
    }
}

#[tactic(auto, using(crate::proofs::PrefixLemmas::prefix_len_moves))]
fn run_at(z: &[u8]) -> Piece
    requires some { 0 < length z.now }
    requires begins { is_of_run (slice_index z.now 0) ≡ true }
    ensures value { result ≡ spec.run_at z.now }
    ensures within { spec.IsWithin result z.now }
{
    let (len, is_symbol) = run_len(z);
    match class::kind_of(&z[..len], is_symbol) {
        None => Piece::Bad,
        Some(kind) => Piece::Word(kind, len),
    }
}

/// What stands at the front of the text.
#[inline]
#[tactic(auto, unfolding(crate::specs::Piece::piece_at))]
pub fn piece_at(z: &[u8]) -> Piece
    requires { 0 < length z.now }
    ensures value { result ≡ spec.piece_at z.now }
    ensures within { spec.IsWithin result z.now }
{
    let b = z[0];
    if b == b' ' || b == b'\t' || b == b'\n' || b == b'\r' {
        Piece::Blank
    } else if b == b'(' {
        Piece::Word(TokenKind::Left, 1)
    } else if b == b')' {
        Piece::Word(TokenKind::Right, 1)
    } else if b == b';' {
        Piece::Comment(comment_len(z))
    } else if b == b'"' {
        string_at(z)
    } else if b == b'|' {
        quoted_at(z)
    } else {
        run_at(z)
    }
}
