//! Why a search gives up.

use lin_term::{Memory, Short, Wide};
use std::alloc::{AllocError, AllocFailed};

/// Why a search gives up. It is no answer about what was searched.
#[derive(Clone, Copy, Debug, PartialEq, Eq)]
pub enum Stuck {
    /// A number past the cap.
    Wide,
    /// An index past the end of its list.
    Place,
    /// The work that was allowed is spent.
    Fuel,
    /// Want of memory.
    Memory,
}

impl From<AllocError> for Stuck {
    fn from(_e: AllocError) -> Stuck {
        Stuck::Memory
    }
}

impl<T: Drop> From<AllocFailed<T>> for Stuck {
    fn from(_e: AllocFailed<T>) -> Stuck {
        Stuck::Memory
    }
}

impl From<Memory> for Stuck {
    fn from(_e: Memory) -> Stuck {
        Stuck::Memory
    }
}

impl From<Wide> for Stuck {
    fn from(_e: Wide) -> Stuck {
        Stuck::Wide
    }
}

impl From<Short<Wide>> for Stuck {
    fn from(e: Short<Wide>) -> Stuck {
        match e {
            Short::Fault(_) => Stuck::Wide,
            Short::Memory => Stuck::Memory,
        }
    }
}
