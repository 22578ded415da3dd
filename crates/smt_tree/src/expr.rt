//! What an expression is.

use smt_lex::Token;
use sqlite_items::Items;

/// A token, or a list in parentheses. (SMT-LIB 2.6, section 3.2.)
#[derive(Drop)]
pub enum Expr<'a> {
    Leaf(Token<'a>),
    /// The place is that of the `(`. Lines and columns count from 1, columns in bytes.
    List {
        line: u64,
        column: u64,
        items: Items<Expr<'a>>,
    },
}
