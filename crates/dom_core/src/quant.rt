//! Quantifiers and players.

ghost use Rattle.std.specs.Prelude.{◌≡◌, ◌↔◌, IfOk, IsTrue};
ghost use Rattle.dom_core.specs.Game.{flip, flip_all};
ghost use Rattle.dom_core.specs.Sides.{other};

use lin_term::Memory;
use sqlite_items::Items;
use std::alloc::Global;

/// Who chooses the value of a variable.
#[derive(Clone, Copy, Debug, PartialEq, Eq, Drop)]
pub enum Quant {
    Exists,
    Forall,
}

/// A player: Exists wants the matrix true, Forall wants it false.
#[derive(Clone, Copy, Debug, PartialEq, Eq, Drop)]
pub enum Side {
    Exists,
    Forall,
}

impl Side {
    /// The other player.
    pub fn other(self) -> Side
        ensures { result ≡ other self }
    {
        match self {
            Side::Exists => Side::Forall,
            Side::Forall => Side::Exists,
        }
    }
}

/// The other quantifier.
fn flip(quant: Quant) -> Quant
    ensures { result ≡ flip quant }
{
    match quant {
        Quant::Exists => Quant::Forall,
        Quant::Forall => Quant::Exists,
    }
}

/// Whether the quantifiers are equal.
fn is_same(a: Quant, b: Quant) -> bool
    ensures { IsTrue result ↔ (a ≡ b) }
{
    match a {
        Quant::Exists => match b {
            Quant::Exists => true,
            Quant::Forall => false,
        },
        Quant::Forall => match b {
            Quant::Exists => false,
            Quant::Forall => true,
        },
    }
}

/// Whether the prefixes are equal, one by one.
pub(crate) fn is_same_prefix(prefix: &[Quant], other: &[Quant]) -> bool
    ensures { IsTrue result ↔ (prefix.now ≡ other.now) }
{
    if prefix.len() != other.len() {
        return false;
    }
    let mut index: usize = 0;
    for quant in prefix {
        if !is_same(*quant, other[index]) {
            return false;
        }
        index += 1;
    }
    true
}

/// Each quantifier flipped; refuses only for memory.
pub(crate) fn flipped(alloc: Global, prefix: &[Quant]) -> Result<Items<Quant>, Memory>
    ensures { IfOk result (λ qs. qs ≡ flip_all prefix.now) }
{
    let mut quants = Items::new(alloc);
    for quant in prefix {
        quants.push(flip(*quant))?;
    }
    Ok(quants)
}
