//! How a literal bounds a variable.

ghost use Rattle.std.specs.Prelude.{◌≡◌};
ghost use Rattle.dom_core.specs.Elimination.{is_lower, is_upper};

use lin_term::{Lit, coefficient_at};

/// Whether the literal is an inequality with a positive coefficient at the variable: it bounds it from below.
pub fn is_lower(lit: &Lit, var: u32) -> bool
    ensures { result ≡ is_lower var lit.now }
{
    match lit {
        Lit::AtLeast(row) | Lit::Above(row) => coefficient_at(row, var) > 0,
        Lit::Divides(_, _) | Lit::NotDivides(_, _) => false,
    }
}

/// Whether the literal is an inequality with a negative coefficient at the variable: it bounds it from above.
pub fn is_upper(lit: &Lit, var: u32) -> bool
    ensures { result ≡ is_upper var lit.now }
{
    match lit {
        Lit::AtLeast(row) | Lit::Above(row) => coefficient_at(row, var) < 0,
        Lit::Divides(_, _) | Lit::NotDivides(_, _) => false,
    }
}
