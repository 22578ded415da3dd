//! Whether the letters of a section fit the prefix.

ghost use Rattle.std.specs.Prelude.{◌≡◌};
ghost use Rattle.strat_check.specs.Section.{turns_of, same_turns, is_mine};

use dom_core::Quant;

/// Whether a variable belongs to the owner.
fn is_mine(quant: Quant) -> bool
    ensures { result ≡ is_mine quant }
{
    match quant {
        Quant::Exists => true,
        Quant::Forall => false,
    }
}

/// Whether the turns are true exactly for the variables of Exists.
pub fn fit(turns: &[bool], prefix: &[Quant]) -> bool
    ensures { result ≡ same_turns turns.now (turns_of prefix.now) }
{
    if turns.len() != prefix.len() {
        return false;
    }
    for i in 0..turns.len() {
        if turns[i] != is_mine(prefix[i]) {
            return false;
        }
    }
    true
}
