//! Why a call refuses.

ghost use Rattle.std.specs.Prelude.{◌≡◌};
ghost use Rattle.lin_term.specs.declared.fault.Short.TheVariants as short;

use std::alloc::{AllocError, AllocFailed};
use thiserror::Error;

/// Want of memory.
#[derive(Clone, Copy, Debug, PartialEq, Eq, Error)]
#[error("out of memory")]
pub struct Memory;

impl From<AllocError> for Memory {
    fn from(_e: AllocError) -> Memory {
        Memory
    }
}

/// A number past the cap.
#[derive(Clone, Copy, Debug, PartialEq, Eq, Error)]
#[error("{number} is past the cap")]
pub struct Wide {
    pub number: i128,
}

/// A fault, or want of memory.
#[derive(Clone, Copy, Debug, PartialEq, Eq)]
pub enum Short<E> {
    Fault(E),
    Memory,
}

impl<E> From<Memory> for Short<E> {
    ghost from_gives = { λ _ e. e ≡ short.Memory };

    fn from(_e: Memory) -> Short<E> {
        Short::Memory
    }
}

impl<E> From<AllocError> for Short<E> {
    ghost from_gives = { λ _ e. e ≡ short.Memory };

    fn from(_e: AllocError) -> Short<E> {
        Short::Memory
    }
}

impl<E, T: Drop> From<AllocFailed<T>> for Short<E> {
    ghost from_gives = { λ _ e. e ≡ short.Memory };

    fn from(_e: AllocFailed<T>) -> Short<E> {
        Short::Memory
    }
}
