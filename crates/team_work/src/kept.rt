//! What is kept from one attack to the next.

use dom_core::Side;
use search_attack::Values;
use std::alloc::Global;

/// The values of the points that were found last, by whose skeleton was attacked.
#[derive(Drop)]
pub struct Kept {
    exists: Values,
    forall: Values,
}

impl Kept {
    /// Nothing.
    pub fn new(alloc: Global) -> Kept {
        Kept {
            exists: Values::new(alloc),
            forall: Values::new(alloc),
        }
    }

    /// The values of attacks on this side.
    pub fn of_side(&mut self, side: Side) -> &mut Values {
        match side {
            Side::Exists => &mut self.exists,
            Side::Forall => &mut self.forall,
        }
    }
}
