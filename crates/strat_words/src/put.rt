//! Writing numbers.

ghost use Rattle.std.specs.Prelude.{◌≡◌, ◌++◌, OnOk};
ghost use Rattle.strat_words.specs.Spelled as spelled;

use itoa::Buffer;
use std::alloc::AllocError;

/// Writes a space and the number behind what was written; refuses only for memory, and then nothing is said of `out`.
pub fn put_natural(out: &mut Vec<u8>, n: u64) -> Result<(), AllocError>
    ensures { OnOk result (out.new.items ≡ out.old.items ++ spelled.natural n) }
{
    let mut buffer = Buffer::new();
    out.push(b' ')?;
    out.extend_from_slice(buffer.format(n).as_bytes())?;
    Ok(())
}

/// Writes a space and the number, with a minus where it is negative, behind what was written; refuses only for memory,
/// and then nothing is said of `out`.
pub fn put_signed(out: &mut Vec<u8>, z: i128) -> Result<(), AllocError>
    ensures { OnOk result (out.new.items ≡ out.old.items ++ spelled.signed z) }
{
    let mut buffer = Buffer::new();
    out.push(b' ')?;
    out.extend_from_slice(buffer.format(z).as_bytes())?;
    Ok(())
}
