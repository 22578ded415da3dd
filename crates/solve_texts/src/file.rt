//! The strategy file of outcomes.

ghost use Rattle.std.specs.Prelude.{◌≡◌, IfOk};
ghost use Rattle.strat_text.specs.Spelling.{IsSection, Spells};
ghost use Rattle.strat_text.specs.Sections.{HasLines};
ghost use Rattle.solve_texts.specs.Texts.{verdict_section, goal_section, strategy_sections, strategy_text};

use crate::solved::Solved;
use dom_core::{Domain, Side};
use lin_term::Memory;
use std::alloc::Global;
use strat_section::section_of;
use strat_text::{Section, Sections, write_file};
use team_work::Verdict;

/// The greatest number of sections of a file: 2^52.
const COUNT: u64 = 4_503_599_627_370_496;

/// The section that claims a verdict; refuses only for memory.
fn claim<D: Domain>(alloc: Global, verdict: &Verdict<D>) -> Result<Section, Memory>
    ensures value { IfOk result (λ x. x ≡ verdict_section verdict.now) }
    ensures written { IfOk result IsSection }
    ensures lines { IfOk result (HasLines 2) }
{
    match verdict {
        Verdict::Sat(won) => section_of(alloc, won, Side::Exists),
        Verdict::Unsat(won) => section_of(alloc, won, Side::Forall),
        Verdict::Unknown(_) => Ok(Section::Unknown),
    }
}

fn section(alloc: Global, solved: &Solved) -> Result<Section, Memory>
    ensures value { IfOk result (λ x. x ≡ goal_section solved.now) }
    ensures written { IfOk result IsSection }
    ensures lines { IfOk result (HasLines 2) }
{
    match solved {
        Solved::Rat(outcome) => claim(alloc, &outcome.verdict),
        Solved::Int(outcome) => claim(alloc, &outcome.verdict),
    }
}

/// The bytes of the strategy file, in version 2: for each goal its verdict, and for one that is won the turns, the tree and
/// the lines of its game. It refuses only for memory, which no more than 2^52 outcomes have.
pub fn strategy(alloc: Global, outcomes: &[Solved]) -> Result<Vec<u8>, Memory>
    ensures text { IfOk result (λ v. v.items ≡ strategy_text outcomes.now) }
    ensures spells { IfOk result (λ v. Spells v.items (strategy_sections outcomes.now)) }
{
    if outcomes.len() as u64 > COUNT {
        return Err(Memory);
    }
    let mut sections = Sections::new(alloc, 2);
    for solved in outcomes {
        let section = section(alloc, solved)?;
        sections.push(section)?;
    }
    write_file(alloc, &sections)
}
