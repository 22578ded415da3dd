//! Why a script is refused.

ghost use Rattle.std.specs.Prelude.{◌≡◌};
ghost use Rattle.ss_names.specs.declared.fault.ScriptFault.TheVariants.{Memory};
ghost use Rattle.ss_names.specs.Kind.{kind_number, kind_name};

use std::alloc::{AllocError, AllocFailed};
use thiserror::Error;

/// What is wrong with a script.
#[derive(Clone, Copy, Debug, PartialEq, Eq, Error)]
pub enum FaultKind {
    /// A run of bytes is no token, or a string or a quoted symbol does not end or has a `\`.
    #[error("a run of bytes is no token")]
    Token = 1,
    /// The input ends in a command, or a token stands outside one.
    #[error("a parenthesis is missing")]
    Unclosed = 2,
    /// The head of a command is no command's name.
    #[error("no such command")]
    Command = 3,
    /// The logic is none of those that are read.
    #[error("no such logic")]
    Logic = 4,
    /// A symbol is not known, is reserved, or is declared a second time.
    #[error("a name is not known or not free")]
    Symbol = 5,
    /// A sort is not the logic's, or an expression has another sort or form than its place allows.
    #[error("a sort does not fit")]
    Sort = 6,
    /// A wrong number of arguments or parts.
    #[error("a wrong number of parts")]
    Arity = 7,
    /// Two factors, or a divisor, are not constant terms.
    #[error("a product or a quotient is not linear")]
    Linear = 8,
    /// A constant divisor is 0.
    #[error("a divisor is 0")]
    Divisor = 9,
    /// A number is larger than the numbers that are kept.
    #[error("a number is too large")]
    Number = 10,
    /// A goal has too many nodes or is too deep.
    #[error("a goal is too large")]
    Size = 11,
    /// A goal has too many variables.
    #[error("a goal has too many variables")]
    Variables = 12,
    /// A command stands before or behind one that it may not.
    #[error("a command stands out of order")]
    Order = 13,
    /// An option has a value that is not offered.
    #[error("an option has no such value")]
    Setting = 14,
    /// Too many parentheses are open.
    #[error("parentheses are too deep")]
    Depth = 15,
}

impl FaultKind {
    /// The number of the kind, from 1 to 15.
    pub fn number(self) -> u32
        ensures { result ≡ kind_number self }
    {
        self as u32
    }

    /// The name that is printed for the kind: its variant's name.
    pub fn name(self) -> &'static str
        ensures { result.now ≡ kind_name self }
    {
        match self {
            FaultKind::Token => "Token",
            FaultKind::Unclosed => "Unclosed",
            FaultKind::Command => "Command",
            FaultKind::Logic => "Logic",
            FaultKind::Symbol => "Symbol",
            FaultKind::Sort => "Sort",
            FaultKind::Arity => "Arity",
            FaultKind::Linear => "Linear",
            FaultKind::Divisor => "Divisor",
            FaultKind::Number => "Number",
            FaultKind::Size => "Size",
            FaultKind::Variables => "Variables",
            FaultKind::Order => "Order",
            FaultKind::Setting => "Setting",
            FaultKind::Depth => "Depth",
        }
    }
}

/// Why a script could not be read.
#[derive(Debug, Drop, Error)]
pub enum ScriptFault {
    /// The script has this fault at this place. Lines and columns count from 1, columns in bytes.
    #[error("line {line}, column {column}: {kind}")]
    Bad {
        kind: FaultKind,
        line: u64,
        column: u64,
    },
    /// There was no memory.
    #[error("out of memory")]
    Memory,
}

impl From<AllocError> for ScriptFault {
    ghost from_gives = { λ _ e. e ≡ Memory };

    fn from(_e: AllocError) -> ScriptFault {
        ScriptFault::Memory
    }
}

impl<T: Drop> From<AllocFailed<T>> for ScriptFault {
    ghost from_gives = { λ _ e. e ≡ Memory };

    fn from(_e: AllocFailed<T>) -> ScriptFault {
        ScriptFault::Memory
    }
}
