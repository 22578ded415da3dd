//! What a run prints and stores where nothing outside fails but the script's fetch.

ghost use Rattle.std.specs.Prelude.{◌≡◌, ◌≤◌, ◌++◌, ◌∷◌, [], ℕ, map, length, Option, IfOk, OnOk, Ok, Err, Some, string_bytes};
ghost use Rattle.ss_names.specs.declared.ScriptFault.TheVariants.{Bad};
ghost use Rattle.ss_shelf.specs.Outside.{Files};
ghost use Rattle.strat_text.specs.Spelling.{Spells};
ghost use Rattle.script_games.specs.Told.{ReadCounted};
ghost use Rattle.script_games.specs.Given.{games_of_given};
ghost use Rattle.solve_words.specs.Words.{words_of, solve, generate};
ghost use Rattle.solve_words.specs.Seen.{names_of};
ghost use Rattle.solve_texts.specs.Texts.{lines, strategy_sections, strategy_text};
ghost use Rattle.simsat.specs.Answer.{usage_answer, refused_answer};
ghost use Rattle.simsat.specs.Plan.{store_of, answer_of, IsReady, PlansGames, PlansSolved, PlansWords, IsScriptOf, stores_with};

use crate::plan::{Halt, NewFile, Plan};
use crate::playing::play;
use crate::prefixes::prefixes_of;
use crate::status::SolveStatus;
use dom_core::Quant;
use lin_term::Memory;
use script_games::{GamesFault, ScriptGames, read_games, refusal_line};
use solve_texts::{Solved, generated, generated_lines, journal, lines, strategy};
use solve_words::{Asking, Names, asked};
use sqlite_items::Items;
use ss_names::FaultKind;
use ss_shelf::Shelf;
use std::alloc::Global;
use team_work::solve_alone;

/// The usage line alone; refuses only for memory.
fn usage_plan(alloc: Global) -> Result<Plan, Memory>
    ensures answer { IfOk result (λ p. answer_of p ≡ usage_answer) }
    ensures ready { IfOk result (λ p. IsReady p.status) }
{
    let usage = String::from_str(
        alloc,
        "usage: simsat SCRIPT --strategy FILE [--journal FILE] [--workers N] [--rounds N]\n",
    );
    match usage {
        Ok(text) => Ok(Plan {
            status: SolveStatus::Usage,
            text: text.into_bytes(),
            outcomes: Vec::new(alloc),
            stores: Vec::new(alloc),
        }),
        Err(_) => Err(Memory),
    }
}

/// The line of a script's fault alone; refuses only for memory.
fn refusal_plan(alloc: Global, kind: FaultKind, line: u64, column: u64) -> Result<Plan, Memory>
    ensures answer { IfOk result (λ p. answer_of p ≡ refused_answer (Bad kind line column)) }
    ensures ready { IfOk result (λ p. IsReady p.status) }
{
    match refusal_line(alloc, kind, line, column) {
        Ok(text) => Ok(Plan {
            status: SolveStatus::Refused,
            text: text.into_bytes(),
            outcomes: Vec::new(alloc),
            stores: Vec::new(alloc),
        }),
        Err(_) => Err(Memory),
    }
}

/// One more file; refuses only for memory.
fn push_file(
    alloc: Global,
    files: &mut Vec<NewFile>,
    name: &str,
    bytes: Vec<u8>,
) -> Result<(), Memory>
    ensures { OnOk result (map store_of files.new.items ≡ map store_of files.old.items ++ (name.now, bytes.items) ∷ []) }
{
    let Ok(name) = String::from_str(alloc, name) else {
        return Err(Memory);
    };
    match files.push(NewFile { name, bytes }) {
        Ok(()) => Ok(()),
        Err(_) => Err(Memory),
    }
}

/// The files that are stored of outcomes; refuses only for memory.
fn stores_for(
    alloc: Global,
    names: &Names<'_>,
    prefixes: &[Items<Quant>],
    outcomes: &[Solved],
) -> Result<Vec<NewFile>, Memory>
    requires each { length prefixes.now ≡ length outcomes.now }
    ensures stores { IfOk result (λ v. map store_of v.items ≡ stores_with (names_of names.now) prefixes.now outcomes.now) }
    ensures spelled { IfOk result (λ v. Spells (strategy_text outcomes.now) (strategy_sections outcomes.now)) }
{
    let mut files = Vec::new(alloc);
    let bytes = strategy(alloc, outcomes)?;
    push_file(alloc, &mut files, names.strategy, bytes)?;
    if let Some(name) = names.journal {
        let bytes = journal(alloc, prefixes, outcomes)?;
        push_file(alloc, &mut files, name, bytes)?;
    }
    Ok(files)
}

/// The lines and the files of outcomes.
#[derive(Drop)]
struct Texts {
    lines: Vec<u8>,
    files: Vec<NewFile>,
}

/// The lines and the files of outcomes; refuses only for memory.
fn texts_of(
    alloc: Global,
    names: &Names<'_>,
    prefixes: &[Items<Quant>],
    outcomes: &[Solved],
) -> Result<Texts, Memory>
    requires each { length prefixes.now ≡ length outcomes.now }
    ensures lines { IfOk result (λ t. t.lines.items ≡ lines outcomes.now) }
    ensures stores { IfOk result (λ t. map store_of t.files.items ≡ stores_with (names_of names.now) prefixes.now outcomes.now) }
    ensures spelled { IfOk result (λ t. Spells (strategy_text outcomes.now) (strategy_sections outcomes.now)) }
{
    let files = stores_for(alloc, names, prefixes, outcomes)?;
    let lines = lines(alloc, outcomes)?;
    Ok(Texts { lines, files })
}

/// The plan for outcomes of all games, whose prefixes these are; refuses only for memory, and hands the outcomes back then.
fn solved_plan(
    alloc: Global,
    names: &Names<'_>,
    prefixes: &[Items<Quant>],
    outcomes: Vec<Solved>,
) -> Result<Plan, Halt>
    requires each { length prefixes.now ≡ length outcomes.items }
    ensures { PlansSolved (names_of names.now) prefixes.now outcomes.items result }
{
    match texts_of(alloc, names, prefixes, outcomes.as_slice()) {
        Ok(texts) => Ok(Plan {
            status: SolveStatus::Done,
            text: texts.lines,
            outcomes,
            stores: texts.files,
        }),
        Err(_) => Err(Halt::Memory(outcomes)),
    }
}

/// Plays the games of a script, each alone, and makes the plan.
#[tactic(auto, using(crate::proofs::Planned::plans_games, crate::proofs::Planned::as_many))]
fn games_plan(alloc: Global, names: &Names<'_>, games: ScriptGames) -> Result<Plan, Halt>
    requires few { names.now.rounds ≤ 4096 }
    ensures { PlansGames (names_of names.now) (games_of_given games) result }
{
    let prefixes = match prefixes_of(alloc, &games) {
        Ok(prefixes) => prefixes,
        Err(_) => return Err(Halt::Memory(Vec::new(alloc))),
    };
    let played = play(alloc, games, names.rounds);
    if !played.is_all {
        return Err(Halt::Memory(played.outcomes));
    }
    solved_plan(alloc, names, prefixes.as_slice(), played.outcomes)
}

/// The plan for a script.
#[tactic(auto, using(crate::proofs::Planned::script_planned, crate::proofs::Planned::refused_planned, crate::proofs::Planned::never_unread))]
fn script_plan<S: Shelf>(alloc: Global, names: &Names<'_>, shelf: &mut S) -> Result<Plan, Halt>
    requires few { names.now.rounds ≤ 4096 }
    ensures same { S.files shelf.new ≡ S.files shelf.old }
    ensures plan { PlansWords (S.files shelf.old) (Some (solve (names_of names.now))) result }
    ensures counts { ReadCounted (IsScriptOf (Some (solve (names_of names.now)))) (S.faults shelf.old) (S.faults shelf.new) (result ≡ Err Halt.Unread) }
{
    match read_games(alloc, shelf, names.script) {
        Ok(games) => games_plan(alloc, names, games),
        Err(GamesFault::Bad { kind, line, column }) => {
            match refusal_plan(alloc, kind, line, column) {
                Ok(plan) => Ok(plan),
                Err(_) => Err(Halt::Memory(Vec::new(alloc))),
            }
        }
        Err(GamesFault::Unread) => Err(Halt::Unread),
        Err(GamesFault::Memory) => Err(Halt::Memory(Vec::new(alloc))),
    }
}

/// Plays the generated problem of this size, from 1 to 64, alone within a budget of at most 4,096 rounds.
#[tactic(auto, using(crate::proofs::Planned::is_generated, crate::proofs::Planned::generated_planned, crate::proofs::Planned::generated_halted))]
fn generated_plan(alloc: Global, size: u32, rounds: u32) -> Result<Plan, Halt>
    requires few { rounds ≤ 4096 }
    requires size { size ≤ 64 }
    ensures { (told : Option Files) → PlansWords told (Some (generate size rounds)) result }
{
    let Ok(problem) = generated(alloc, size) else {
        return Err(Halt::Memory(Vec::new(alloc)));
    };
    let Ok(outcome) = solve_alone(alloc, problem, rounds) else {
        return Err(Halt::Memory(Vec::new(alloc)));
    };
    let lines = generated_lines(alloc, size, &outcome);
    let mut outcomes = Vec::new(alloc);
    if outcomes.push(Solved::Rat(outcome)).is_err() {
        return Err(Halt::Memory(Vec::new(alloc)));
    }
    match lines {
        Ok(text) => Ok(Plan {
            status: SolveStatus::Done,
            text,
            outcomes,
            stores: Vec::new(alloc),
        }),
        Err(_) => Err(Halt::Memory(outcomes)),
    }
}

/// The plan for the words. Of the outside it fetches the script alone.
pub fn words_plan<S: Shelf>(alloc: Global, words: &[String], shelf: &mut S) -> Result<Plan, Halt>
    ensures same { S.files shelf.new ≡ S.files shelf.old }
    ensures plan { PlansWords (S.files shelf.old) (words_of (map string_bytes words.now)) result }
    ensures counts { ReadCounted (IsScriptOf (words_of (map string_bytes words.now))) (S.faults shelf.old) (S.faults shelf.new) (result ≡ Err Halt.Unread) }
{
    match asked(alloc, words) {
        Ok(Some(Asking::Solve(names))) => script_plan(alloc, &names, shelf),
        Ok(Some(Asking::Generate { size, rounds })) => generated_plan(alloc, size, rounds),
        Ok(None) => match usage_plan(alloc) {
            Ok(plan) => Ok(plan),
            Err(_) => Err(Halt::Memory(Vec::new(alloc))),
        },
        Err(_) => Err(Halt::Memory(Vec::new(alloc))),
    }
}
