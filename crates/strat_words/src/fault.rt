//! Why a text is refused.

ghost use Rattle.std.specs.Prelude.{◌≡◌};
ghost use Rattle.strat_words.specs.declared.fault.FileFault.TheVariants.{Memory};

use std::alloc::{AllocError, AllocFailed};
use thiserror::Error;

/// The first word that does not fit, or want of memory.
#[derive(Clone, Copy, Debug, PartialEq, Eq, Error)]
pub enum FileFault {
    /// The line and the word in it, both from 1.
    #[error("line {line}, word {word} does not fit")]
    Bad { line: u64, word: u64 },
    #[error("out of memory")]
    Memory,
}

impl From<AllocError> for FileFault {
    ghost from_gives = { λ _ e. e ≡ Memory };

    fn from(_e: AllocError) -> FileFault {
        FileFault::Memory
    }
}

impl From<lin_term::Memory> for FileFault {
    ghost from_gives = { λ _ e. e ≡ Memory };

    fn from(_e: lin_term::Memory) -> FileFault {
        FileFault::Memory
    }
}

impl<T: Drop> From<AllocFailed<T>> for FileFault {
    ghost from_gives = { λ _ e. e ≡ Memory };

    fn from(_e: AllocFailed<T>) -> FileFault {
        FileFault::Memory
    }
}
