//! The games of a script, played one after the other.

ghost use Rattle.std.specs.Prelude.{◌≡◌, ◌≤◌, IfOk, IsTrue, [], map, length};
ghost use Rattle.lin_term.specs.declared.Sort.TheVariants as sort;
ghost use Rattle.dom_core.specs.Problem.{problem_of};
ghost use Rattle.script_games.specs.Given.{games_of_given};
ghost use Rattle.simsat.specs.Plan.{ArePlayed};

use dom_core::Problem;
use dom_int::Int;
use dom_rat::Rat;
use lin_term::Memory;
use script_games::ScriptGames;
use solve_texts::Solved;
use std::alloc::Global;
use team_work::solve_alone;

/// The outcomes of the first games, in order, and whether there is one for each.
#[derive(Drop)]
pub struct Played {
    pub outcomes: Vec<Solved>,
    pub is_all: bool,
}

/// Plays the games of a script of rationals within a budget of at most 4,096 rounds each; it stops for want of memory alone.
fn play_rat(
    alloc: Global,
    problems: Vec<Problem<Rat>>,
    rounds: u32,
    outcomes: &mut Vec<Solved>,
) -> Result<(), Memory>
    requires few { rounds ≤ 4096 }
    requires none { outcomes.old.items ≡ [] }
    ensures first { ArePlayed rounds sort.Rat (map problem_of problems.items) outcomes.new.items }
    ensures all { IfOk result (λ u. length outcomes.new.items ≡ length problems.items) }
{
    for problem in problems {
        let outcome = match solve_alone(alloc, problem, rounds) {
            Ok(outcome) => outcome,
            Err(_) => return Err(Memory),
        };
        match outcomes.push(Solved::Rat(outcome)) {
            Ok(()) => {}
            Err(_) => return Err(Memory),
        }
    }
    Ok(())
}

/// The same of a script of integers.
fn play_int(
    alloc: Global,
    problems: Vec<Problem<Int>>,
    rounds: u32,
    outcomes: &mut Vec<Solved>,
) -> Result<(), Memory>
    requires few { rounds ≤ 4096 }
    requires none { outcomes.old.items ≡ [] }
    ensures first { ArePlayed rounds sort.Int (map problem_of problems.items) outcomes.new.items }
    ensures all { IfOk result (λ u. length outcomes.new.items ≡ length problems.items) }
{
    for problem in problems {
        let outcome = match solve_alone(alloc, problem, rounds) {
            Ok(outcome) => outcome,
            Err(_) => return Err(Memory),
        };
        match outcomes.push(Solved::Int(outcome)) {
            Ok(()) => {}
            Err(_) => return Err(Memory),
        }
    }
    Ok(())
}

/// Plays the games of a script within a budget of at most 4,096 rounds each; it stops for want of memory alone.
pub fn play(alloc: Global, games: ScriptGames, rounds: u32) -> Played
    requires few { rounds ≤ 4096 }
    ensures first { ArePlayed rounds (games_of_given games).sort (games_of_given games).problems result.outcomes.items }
    ensures all { IsTrue result.is_all → length result.outcomes.items ≡ length (games_of_given games).problems }
{
    let mut outcomes = Vec::new(alloc);
    let played = match games {
        ScriptGames::Rat(problems) => play_rat(alloc, problems, rounds, &mut outcomes),
        ScriptGames::Int(problems) => play_int(alloc, problems, rounds, &mut outcomes),
    };
    Played {
        outcomes,
        is_all: played.is_ok(),
    }
}
