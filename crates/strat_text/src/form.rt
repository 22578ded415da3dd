//! Linear forms and literals.

ghost use Rattle.std.specs.Prelude.{◌≡◌, ◌≤◌, ◌<◌, ◌+◌, ◌^◌, length, IfOk};
ghost use Rattle.lin_term.specs.Form.{AreTerms};
ghost use Rattle.strat_words.specs.Spot.{Gives};
ghost use Rattle.strat_words.specs.Taking.{natural};
ghost use Rattle.strat_words.specs.View.{spot};
ghost use Rattle.strat_text.specs.Line as spec;

use lin_term::{Coefs, Lit, Row};
use smallvec::SmallVec;
use std::alloc::Global;
use strat_words::{
    Cursor, FileFault, coef, count, kept, last_fault, natural, next, number_follows,
};

/// The variables of a literal are below this number.
const VARIABLES: u32 = 1_048_576;

fn variable(at: Cursor<'_>, low: u32, limit: u32) -> Result<(u32, Cursor<'_>), FileFault>
    ensures gives { Gives (λ x. (x.0, spot x.1)) result (natural low limit (spot at.entry)) }
    ensures below { IfOk result (λ x. x.0 < limit) }
    ensures shorter { IfOk result (λ x. length x.1.rest.now < length at.entry.rest.now) }
{
    let (n, after) = natural(at, low as u128, limit as u128)?;
    Ok((n as u32, after))
}

fn term(at: Cursor<'_>, limit: u32, low: u32) -> Result<((u32, i64), Cursor<'_>), FileFault>
    ensures gives { Gives (λ x. (x.0, spot x.1)) result (spec.term limit low (spot at.entry)) }
    ensures below { IfOk result (λ x. x.0.0 < limit) }
    ensures shorter { IfOk result (λ x. length x.1.rest.now < length at.entry.rest.now) }
{
    let (a, after) = coef(at)?;
    let (v, after) = variable(after, low, limit)?;
    Ok(((v, a), after))
}

fn terms(alloc: Global, at: Cursor<'_>, limit: u32) -> Result<(Coefs, Cursor<'_>), FileFault>
    requires { limit ≤ 2 ^ 20 }
    ensures gives { Gives (λ x. (x.0.items, spot x.1)) result (spec.terms limit (spot at.entry)) }
    ensures terms { IfOk result (λ x. AreTerms 0 x.0.items) }
    ensures shorter { IfOk result (λ x. length x.1.rest.now ≤ length at.entry.rest.now) }
{
    let mut all: Coefs = SmallVec::new(alloc);
    let mut rest = at;
    let mut low = 0;
    while number_follows(rest) {
        let (item, after) = term(rest, limit, low)?;
        all.push(item)?;
        low = item.0 + 1;
        rest = after;
    }
    Ok((all, rest))
}

/// A linear form over variables below `limit`, as long as a number follows.
#[tactic(auto, unfolding(crate::specs::Line::row))]
pub fn row(alloc: Global, at: Cursor<'_>, limit: u32) -> Result<(Row, Cursor<'_>), FileFault>
    requires { limit ≤ 2 ^ 20 }
    ensures gives { Gives (λ x. (x.0, spot x.1)) result (spec.row limit (spot at.entry)) }
    ensures shorter { IfOk result (λ x. length x.1.rest.now ≤ length at.entry.rest.now) }
{
    let (constant, after) = kept(at)?;
    let (coefs, after) = terms(alloc, after, limit)?;
    Ok((Row::from_parts(coefs, constant), after))
}

fn literal_of<'a>(
    alloc: Global,
    mark: &[u8],
    at: Cursor<'a>,
) -> Result<(Lit, Cursor<'a>), FileFault>
    ensures gives { Gives (λ x. (x.0, spot x.1)) result (spec.literal_of mark.now (spot at.entry)) }
    ensures shorter { IfOk result (λ x. length x.1.rest.now ≤ length at.entry.rest.now) }
{
    if mark == b">=".as_slice() {
        let (form, after) = row(alloc, at, VARIABLES)?;
        Ok((Lit::AtLeast(form), after))
    } else if mark == b">".as_slice() {
        let (form, after) = row(alloc, at, VARIABLES)?;
        Ok((Lit::Above(form), after))
    } else if mark == b"|".as_slice() {
        let (d, after) = count(at, 1)?;
        let (form, after) = row(alloc, after, VARIABLES)?;
        Ok((Lit::Divides(d, form), after))
    } else if mark == b"!|".as_slice() {
        let (d, after) = count(at, 1)?;
        let (form, after) = row(alloc, after, VARIABLES)?;
        Ok((Lit::NotDivides(d, form), after))
    } else {
        Err(last_fault(at))
    }
}

/// A literal: its mark, and its form.
#[tactic(auto, unfolding(crate::specs::Line::literal))]
pub fn literal(alloc: Global, at: Cursor<'_>) -> Result<(Lit, Cursor<'_>), FileFault>
    ensures gives { Gives (λ x. (x.0, spot x.1)) result (spec.literal (spot at.entry)) }
    ensures shorter { IfOk result (λ x. length x.1.rest.now < length at.entry.rest.now) }
{
    let (mark, after) = next(at)?;
    literal_of(alloc, mark, after)
}
