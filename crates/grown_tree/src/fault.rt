//! Why a skeleton does not grow.

ghost use Rattle.std.specs.Prelude.{◌≡◌};
ghost use Rattle.grown_tree.specs.declared.fault.GrowFault.TheVariants as fault;

use lin_term::Memory;
use std::alloc::AllocError;

/// Why there is no further version.
#[derive(Clone, Copy, Debug, PartialEq, Eq, Drop)]
pub enum GrowFault {
    /// The union has so many nodes, more than 1,048,576.
    Large { nodes: u64 },
    /// Want of memory.
    Memory,
}

impl From<Memory> for GrowFault {
    ghost from_gives = { λ _ e. e ≡ fault.Memory };

    fn from(_e: Memory) -> GrowFault {
        GrowFault::Memory
    }
}

impl From<AllocError> for GrowFault {
    ghost from_gives = { λ _ e. e ≡ fault.Memory };

    fn from(_e: AllocError) -> GrowFault {
        GrowFault::Memory
    }
}
