//! Residues of wide numbers.

ghost use Rattle.std.specs.Prelude.{◌≡◌, ◌≤◌, ◌+◌, ◌^◌, ◌-ℤ◌, pos, nat_abs};
ghost use Rattle.lin_term.specs.Form.{cap};
ghost use Rattle.lin_term.specs.Literal.{residue as residue_of};

/// The difference of two numbers.
pub(crate) fn difference(z: i128, y: i128) -> i128
    requires { nat_abs z + nat_abs y ≤ 2 ^ 126 + cap }
    ensures { result ≡ z -ℤ y }
{
    z - y
}

/// The number modulo n, from 0 to n - 1.
pub(crate) fn residue(z: i128, n: u64) -> i64
    requires least { 1 ≤ n }
    requires kept { n ≤ cap }
    ensures value { result ≡ pos (residue_of z n) }
    ensures size { nat_abs result ≤ cap }
{
    z.rem_euclid(n as i128) as i64
}
