//! From a script to its games.

ghost use Rattle.std.specs.Prelude.{◌≡◌, ℕ, map, IfOk, Err};
ghost use Rattle.ss_names.specs.declared.FaultKind.{FaultKind};
ghost use Rattle.ss_names.specs.declared.ScriptFault.TheVariants.{Bad};
ghost use Rattle.smt_goal.specs.Answer.{asked_by};
ghost use Rattle.script_games.specs.Carried.{AreOfSort};
ghost use Rattle.script_games.specs.Games.{games_of};
ghost use Rattle.script_games.specs.Given.{AreGiven, GivesGames, GivesTold};
ghost use Rattle.script_games.specs.Told.{ReadCounted};

use crate::fetch::fetch_all;
use crate::given::{GamesFault, ScriptGames};
use crate::problems::problems_of;
use dom_int::Int;
use dom_rat::Rat;
use lin_term::Sort;
use smt_goal::{Script, read_script};
use ss_names::ScriptFault;
use ss_shelf::{Shelf, ShelfFault};
use std::alloc::Global;

/// The problems of the goals, in the sort of the script.
fn played(alloc: Global, script: &Script) -> Result<ScriptGames, ScriptFault>
    requires { AreOfSort script.now.sort script.now.goals }
    ensures games { IfOk result (λ g. AreGiven script.now.sort script.now.goals g) }
    ensures fault { (k : FaultKind) (l c : ℕ) → result ≡ Err (Bad k l c) → games_of (map asked_by script.now.goals) ≡ Err (Bad k l c) }
{
    match script.sort() {
        Sort::Rat => match problems_of::<Rat>(alloc, script.goals()) {
            Ok(problems) => Ok(ScriptGames::Rat(problems)),
            Err(fault) => Err(fault),
        },
        Sort::Int => match problems_of::<Int>(alloc, script.goals()) {
            Ok(problems) => Ok(ScriptGames::Int(problems)),
            Err(fault) => Err(fault),
        },
    }
}

/// The games of a script of these bytes: the problem of each goal in order, each true exactly where its goal is. Else the
/// script's first fault, or that of the first goal without a problem, or want of memory.
pub fn games_in(alloc: Global, script: &[u8]) -> Result<ScriptGames, ScriptFault>
    ensures { GivesGames script.now result }
{
    let script = match read_script(alloc, script) {
        Ok(script) => script,
        Err(fault) => return Err(fault),
    };
    played(alloc, &script)
}

/// The games of the script of this name, or why there are none. Unread comes only where the count of the name's fetches rose.
pub fn read_games<S: Shelf>(
    alloc: Global,
    shelf: &mut S,
    name: &str,
) -> Result<ScriptGames, GamesFault>
    ensures same { S.files shelf.new ≡ S.files shelf.old }
    ensures games { GivesTold (S.files shelf.old) name.now result }
    ensures counts { ReadCounted (λ n. n ≡ name.now) (S.faults shelf.old) (S.faults shelf.new) (result ≡ Err GamesFault.Unread) }
{
    let bytes = match fetch_all(alloc, shelf, name) {
        Ok(bytes) => bytes,
        Err(ShelfFault::Failed) => return Err(GamesFault::Unread),
        Err(ShelfFault::Memory) => return Err(GamesFault::Memory),
    };
    match games_in(alloc, bytes.as_slice()) {
        Ok(games) => Ok(games),
        Err(ScriptFault::Bad { kind, line, column }) => Err(GamesFault::Bad { kind, line, column }),
        Err(ScriptFault::Memory) => Err(GamesFault::Memory),
    }
}
