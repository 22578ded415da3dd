//! The tokens of a script, as slices of its bytes.
#![tactic(auto)]

mod class;
mod piece;
mod token;
mod tokens;

pub use token::{Token, TokenKind};
pub use tokens::{Tokens, tokens_of};
