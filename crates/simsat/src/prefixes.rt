//! The prefixes of the games of a script.

ghost use Rattle.std.specs.Prelude.{◌≡◌, IfOk, map};
ghost use Rattle.script_games.specs.Given.{games_of_given};

use dom_core::{Domain, Problem, Quant};
use lin_term::Memory;
use script_games::ScriptGames;
use sqlite_items::Items;
use std::alloc::Global;

/// An equal prefix; refuses only for memory.
fn copied(alloc: Global, prefix: &[Quant]) -> Result<Items<Quant>, Memory>
    ensures { IfOk result (λ qs. qs ≡ prefix.now) }
{
    let mut quants = Items::new(alloc);
    for quant in prefix {
        quants.push(*quant)?;
    }
    Ok(quants)
}

fn prefixes_among<D: Domain>(
    alloc: Global,
    problems: &[Problem<D>],
) -> Result<Vec<Items<Quant>>, Memory>
    ensures { IfOk result (λ v. v.items ≡ map (λ P. P.prefix) problems.now) }
{
    let mut prefixes = Vec::new(alloc);
    for problem in problems {
        let prefix = copied(alloc, problem.prefix())?;
        match prefixes.push(prefix) {
            Ok(()) => {}
            Err(_) => return Err(Memory),
        }
    }
    Ok(prefixes)
}

/// The prefix of each game, in order; refuses only for memory.
#[tactic(auto, using(crate::proofs::Outcomes::prefix_of_each))]
pub fn prefixes_of(alloc: Global, games: &ScriptGames) -> Result<Vec<Items<Quant>>, Memory>
    ensures { IfOk result (λ v. v.items ≡ map (λ P. P.prefix) (games_of_given games.now).problems) }
{
    match games {
        ScriptGames::Rat(problems) => prefixes_among(alloc, problems.as_slice()),
        ScriptGames::Int(problems) => prefixes_among(alloc, problems.as_slice()),
    }
}
