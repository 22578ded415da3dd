//! Literals without variables.

ghost use Rattle.std.specs.Prelude.{◌≡◌};
ghost use Rattle.lin_term.specs.Truth.{truth_of, divides_number};

use crate::lit::Lit;

/// The truth of a literal without variables; None exactly where it has a variable.
pub fn closed_truth(lit: &Lit) -> Option<bool>
    ensures { result ≡ truth_of lit.now }
{
    match lit {
        Lit::AtLeast(row) => {
            if !row.coefs().is_empty() {
                return None;
            }
            Some(row.constant_part() >= 0)
        }
        Lit::Above(row) => {
            if !row.coefs().is_empty() {
                return None;
            }
            Some(row.constant_part() > 0)
        }
        Lit::Divides(d, row) => {
            if !row.coefs().is_empty() {
                return None;
            }
            Some(divides(*d, row.constant_part()))
        }
        Lit::NotDivides(d, row) => {
            if !row.coefs().is_empty() {
                return None;
            }
            Some(!divides(*d, row.constant_part()))
        }
    }
}

/// Whether d divides z; 0 divides 0 alone.
fn divides(d: u64, z: i64) -> bool
    ensures { result ≡ divides_number d z }
{
    if d == 0 {
        z == 0
    } else {
        z.unsigned_abs() % d == 0
    }
}
