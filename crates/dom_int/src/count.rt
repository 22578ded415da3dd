//! How many cases a variable has.

ghost use Rattle.std.specs.Prelude.{◌≡◌, ◌≤◌, ◌^◌, pos, map, IfOk};
ghost use Rattle.lin_term.specs.Form.{cap};
ghost use Rattle.dom_core.specs.Elimination.{last_of, count_sums};
ghost use Rattle.dom_int.specs.Counts.{count_at};
ghost use Rattle.lin_term.specs.Wide.{CappedWide};

use lin_term::{CAP, Lit, Wide, coefficient_at};

/// The cases of one literal: a*n where it is a lower one with coefficient a, else none.
pub(crate) fn count_of(lit: &Lit, var: u32, n: u64) -> u128
    requires n_kept { n ≤ cap }
    ensures value { result ≡ count_at var n lit.now }
    ensures size { result ≤ 2 ^ 104 }
{
    match lit {
        Lit::AtLeast(row) | Lit::Above(row) => {
            let a = coefficient_at(row, var);
            if a > 0 {
                u128::from(a.unsigned_abs()) * u128::from(n)
            } else {
                0
            }
        }
        Lit::Divides(_, _) | Lit::NotDivides(_, _) => 0,
    }
}

/// The cases of all lower literals, 0 where there is none, or the first partial sum that is past the cap.
pub(crate) fn sum_of_counts(cube: &[Lit], var: u32, n: u64) -> Result<u64, Wide>
    requires n_kept { n ≤ cap }
    ensures value { CappedWide (map pos (count_sums var n 0 cube.now)) (last_of 0 (count_sums var n 0 cube.now)) result }
    ensures size { IfOk result (λ n. n ≤ cap) }
{
    let mut total: u64 = 0;
    for lit in cube {
        let next = u128::from(total) + count_of(lit, var, n);
        if next > CAP as u128 {
            return Err(Wide {
                number: next as i128,
            });
        }
        total = next as u64;
    }
    Ok(total)
}
