//! Rows and literals at other names.

ghost use Rattle.std.specs.Prelude.{◌≡◌, ◌^◌, IfOk, length};
ghost use Rattle.lin_term.specs.Linear.{Below, rename};
ghost use Rattle.lin_term.specs.Literal.{form_of, rename_lit};
ghost use Rattle.lin_term.specs.Rising.{IsRisingAt};

use crate::fault::Memory;
use crate::lit::Lit;
use crate::row::{Coefs, Row};
use std::alloc::Global;

/// The row with `names[i]` for variable i. At the row's variables, which are below their count, the names ascend and are
/// below 2^20; the other names may be any. It refuses only for memory.
pub fn renamed_row(alloc: Global, row: &Row, names: &[u32]) -> Result<Row, Memory>
    requires rising { IsRisingAt names.now row.now.terms (2 ^ 20) }
    requires below { Below (length names.now) row.now }
    ensures { IfOk result (λ r. r ≡ rename names.now row.now) }
{
    let mut coefs = Coefs::with_capacity(alloc, row.coefs().len())?;
    for (var, coef) in row.coefs() {
        match coefs.push((names[*var as usize], *coef)) {
            Ok(()) => {}
            Err(_) => return Err(Memory),
        }
    }
    Ok(Row::from_parts(coefs, row.constant_part()))
}

/// The literal with `names[i]` for variable i, with names as for `renamed_row`. It refuses only for memory.
pub fn renamed(alloc: Global, lit: &Lit, names: &[u32]) -> Result<Lit, Memory>
    requires rising { IsRisingAt names.now (form_of lit.now).terms (2 ^ 20) }
    requires below { Below (length names.now) (form_of lit.now) }
    ensures { IfOk result (λ l. l ≡ rename_lit names.now lit.now) }
{
    match lit {
        Lit::AtLeast(row) => Ok(Lit::AtLeast(renamed_row(alloc, row, names)?)),
        Lit::Above(row) => Ok(Lit::Above(renamed_row(alloc, row, names)?)),
        Lit::Divides(d, row) => Ok(Lit::Divides(*d, renamed_row(alloc, row, names)?)),
        Lit::NotDivides(d, row) => Ok(Lit::NotDivides(*d, renamed_row(alloc, row, names)?)),
    }
}
