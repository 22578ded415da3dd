//! The prefix, and the first place of each block.

ghost use Rattle.std.specs.Prelude.{◌≡◌, ◌≤◌, ◌++◌, [], IfOk, OnOk};
ghost use Rattle.dom_core.specs.Game.{flip};
ghost use Rattle.dom_core.specs.declared.Quant.TheVariants.{Exists};
ghost use Rattle.prenex_form.specs.Pass.{starts, sum_of};
ghost use Rattle.prenex_form.specs.Prenex.{quants, repeat};

use dom_core::Quant;
use lin_term::Memory;
use sqlite_items::Items;
use std::alloc::Global;

/// The other quantifier.
fn flipped(quant: Quant) -> Quant
    ensures { result ≡ flip quant }
{
    match quant {
        Quant::Exists => Quant::Forall,
        Quant::Forall => Quant::Exists,
    }
}

/// So many variables more.
fn push_block(prefix: &mut Items<Quant>, quant: Quant, size: u32) -> Result<(), Memory>
    ensures { OnOk result (prefix.new ≡ prefix.old ++ repeat size quant []) }
{
    for _turn in 0..size {
        prefix.push(quant)?;
    }
    Ok(())
}

/// The prefix of these blocks, which alternate from Exists on.
pub(crate) fn prefix_of(alloc: Global, sizes: &[u32]) -> Result<Items<Quant>, Memory>
    ensures { IfOk result (λ qs. qs ≡ quants Exists sizes.now) }
{
    let mut prefix = Items::new(alloc);
    let mut quant = Quant::Exists;
    for size in sizes {
        push_block(&mut prefix, quant, *size)?;
        quant = flipped(quant);
    }
    Ok(prefix)
}

/// The first place of each block.
pub(crate) fn starts_of(alloc: Global, sizes: &[u32]) -> Result<Items<u32>, Memory>
    requires { sum_of sizes.now ≤ 1024 }
    ensures { IfOk result (λ places. places ≡ starts 0 sizes.now) }
{
    let mut places = Items::new(alloc);
    let mut place = 0;
    for size in sizes {
        places.push(place)?;
        place += *size;
    }
    Ok(places)
}
