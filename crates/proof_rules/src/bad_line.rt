//! Why a proof is refused.

use cube_rules::Rule;
use thiserror::Error;

/// The first line, counted from 0, that breaks its rule. Lines that are missing break rule Form at the line after the
/// last, lines that are too many at the first of them.
#[derive(Clone, Copy, Debug, PartialEq, Eq, Error)]
#[error("line {line} breaks rule {rule:?}")]
pub struct BadLine {
    pub line: u64,
    pub rule: Rule,
}
