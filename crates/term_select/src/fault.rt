//! Why a selection stops.

ghost use Rattle.std.specs.Prelude.{◌≡◌, IfOk};
ghost use Rattle.term_select.specs.declared.fault.SelectFault.TheVariants as fault;

use lin_term::{Memory, Point};
use std::alloc::Global;

/// The point from which a selection began, the position of the prefix at which it formed a number past the cap, and the
/// first such number.
#[derive(Drop)]
pub struct WideChoice {
    pub point: Point,
    pub var: u32,
    pub number: i128,
}

impl WideChoice {
    /// An equal one; refuses only for memory.
    pub fn copy(&self, alloc: Global) -> Result<WideChoice, Memory>
        ensures { IfOk result (λ c. c ≡ self.now) }
    {
        let point = self.point.copy(alloc)?;
        Ok(WideChoice {
            point,
            var: self.var,
            number: self.number,
        })
    }
}

/// A number past the cap, or want of memory.
#[derive(Drop)]
pub enum SelectFault {
    Choice(WideChoice),
    Memory,
}

impl From<Memory> for SelectFault {
    ghost from_gives = { λ _ e. e ≡ fault.Memory };

    fn from(_e: Memory) -> SelectFault {
        SelectFault::Memory
    }
}
