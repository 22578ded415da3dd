//! Numbers, each the next word of a line.

ghost use Rattle.std.specs.Prelude.{◌≡◌, ◌≤◌, ◌<◌, ◌+◌, ◌^◌, length, IfOk, IfErr, nat_abs, pos, ◌≢◌};
ghost use Rattle.lin_term.specs.Form.{cap};
ghost use Rattle.strat_words.specs.Spot.{Gives, Spot};
ghost use Rattle.strat_words.specs.View.{spot};
ghost use Rattle.strat_words.specs.Taking as spec;
ghost use Rattle.strat_words.specs.declared.fault.FileFault.TheVariants.{Memory};

use crate::cursor::Cursor;
use crate::fault::FileFault;
use crate::number::{PAST_CAP, coef_of, natural_of, signed_of};
use crate::words::{last_fault, next};

/// The next word as a number without a sign, from `low` to below `limit`, of at most 32 digits and no 0 in front of
/// others. Another word is the fault itself; a missing or empty one is that of `next`.
pub fn natural(at: Cursor<'_>, low: u128, limit: u128) -> Result<(u128, Cursor<'_>), FileFault>
    ensures gives { Gives (λ x. (x.0, spot x.1)) result (spec.natural low limit (spot at.entry)) }
    ensures least { IfOk result (λ x. low ≤ x.0) }
    ensures below { IfOk result (λ x. x.0 < limit) }
    ensures shorter { IfOk result (λ x. length x.1.rest.now < length at.entry.rest.now) }
    ensures place { IfErr result (λ e. e ≢ Memory) }
{
    let (word, after) = next(at)?;
    match natural_of(word, low, limit) {
        Some(n) => Ok((n, after)),
        None => Err(last_fault(after)),
    }
}

/// The next word as a number with or without a minus, of a size below `limit`, which is at most 2^127; at most 32
/// digits, no 0 in front of others and no `-0`. Another word is the fault itself; a missing or empty one is that of
/// `next`.
pub fn signed(at: Cursor<'_>, limit: u128) -> Result<(i128, Cursor<'_>), FileFault>
    requires { limit ≤ 2 ^ 127 }
    ensures gives { Gives (λ x. (x.0, spot x.1)) result (spec.signed limit (spot at.entry)) }
    ensures below { IfOk result (λ x. nat_abs x.0 < limit) }
    ensures shorter { IfOk result (λ x. length x.1.rest.now < length at.entry.rest.now) }
    ensures place { IfErr result (λ e. e ≢ Memory) }
{
    let (word, after) = next(at)?;
    match signed_of(word, limit) {
        Some(z) => Ok((z, after)),
        None => Err(last_fault(after)),
    }
}

/// One past the greatest index.
const PAST_INDEX: u128 = u32::MAX as u128 + 1;

/// The next word as an index, below 2^32; faults as those of `natural`.
pub fn index(at: Cursor<'_>) -> Result<(u32, Cursor<'_>), FileFault>
    ensures gives { Gives (λ x. (x.0, spot x.1)) result (spec.index (spot at.entry)) }
    ensures shorter { IfOk result (λ x. length x.1.rest.now < length at.entry.rest.now) }
    ensures place { IfErr result (λ e. e ≢ Memory) }
{
    let (n, after) = natural(at, 0, PAST_INDEX)?;
    Ok((n as u32, after))
}

/// The next word as a count, from `low` to the cap 2^52; faults as those of `natural`.
pub fn count(at: Cursor<'_>, low: u128) -> Result<(u64, Cursor<'_>), FileFault>
    ensures gives { Gives (λ x. (x.0, spot x.1)) result (spec.count low (spot at.entry)) }
    ensures least { IfOk result (λ x. low ≤ x.0) }
    ensures within { IfOk result (λ x. x.0 ≤ cap) }
    ensures shorter { IfOk result (λ x. length x.1.rest.now < length at.entry.rest.now) }
    ensures place { IfErr result (λ e. e ≢ Memory) }
{
    let (n, after) = natural(at, low, PAST_CAP)?;
    Ok((n as u64, after))
}

/// The next word as a number within the cap, `-2^52..=2^52`; faults as those of `signed`.
pub fn kept(at: Cursor<'_>) -> Result<(i64, Cursor<'_>), FileFault>
    ensures gives { Gives (λ x. (x.0, spot x.1)) result (spec.kept (spot at.entry)) }
    ensures within { IfOk result (λ x. nat_abs x.0 ≤ cap) }
    ensures shorter { IfOk result (λ x. length x.1.rest.now < length at.entry.rest.now) }
    ensures place { IfErr result (λ e. e ≢ Memory) }
{
    let (z, after) = signed(at, PAST_CAP)?;
    Ok((z as i64, after))
}

/// The next word as a number other than 0 within the cap, `-2^52..=2^52`; faults as those of `signed`, and a 0 is one.
pub fn coef(at: Cursor<'_>) -> Result<(i64, Cursor<'_>), FileFault>
    ensures gives { Gives (λ x. (x.0, spot x.1)) result (spec.coef (spot at.entry)) }
    ensures shorter { IfOk result (λ x. length x.1.rest.now < length at.entry.rest.now) }
    ensures place { IfErr result (λ e. e ≢ Memory) }
{
    let (word, after) = next(at)?;
    match coef_of(word) {
        Some(z) => Ok((z, after)),
        None => Err(last_fault(after)),
    }
}
