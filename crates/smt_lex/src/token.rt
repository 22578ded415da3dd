//! What a token is.

/// The kinds of tokens. (SMT-LIB 2.6, section 3.1.)
#[derive(Clone, Copy, Debug, PartialEq, Eq)]
pub enum TokenKind {
    /// `(`.
    Left,
    /// `)`.
    Right,
    /// A string, as `"abc"`.
    Text,
    /// A quoted symbol, as `|abc|`.
    Quoted,
    /// `0`, or digits without a leading zero.
    Numeral,
    /// A numeral, a point and digits, as `1.50`.
    Decimal,
    /// `#x` and hexadecimal digits.
    Hexadecimal,
    /// `#b` and binary digits.
    Binary,
    /// `:` and symbol characters.
    Keyword,
    /// Symbol characters, of which the first is no digit.
    Symbol,
}

/// A token with its place, and its bytes in the script.
#[derive(Clone, Copy, Debug)]
pub struct Token<'a> {
    pub kind: TokenKind,
    /// The line of its first byte, from 1. A line feed ends a line.
    pub line: u64,
    /// The column of its first byte, from 1, in bytes.
    pub column: u64,
    /// Its bytes as they stand in the script. Of a string and of a quoted symbol these are the bytes between the two
    /// marks: `|abc|` and `abc` have the same text, and in a string a `""` stays two bytes.
    pub text: &'a [u8],
}
