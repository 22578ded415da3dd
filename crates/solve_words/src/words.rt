//! What the words behind the program's name ask for.

ghost use Rattle.std.specs.Prelude.{◌≡◌, ◌∷◌, [], IfOk, Some, None, false, codes, map, not, option_map, string_bytes};
ghost use Rattle.std.specs.Str.{bytes_eq};
ghost use Rattle.clap.specs.Words.{app_of, found_of, kind_of, rule_of};
ghost use Rattle.solve_words.specs.Words.{are_names as are_names_of, asking_by, generating as generating_of, is_name as is_name_of, named, script_asks, size_asks, solving as solving_of, words_of};
ghost use Rattle.solve_words.specs.Seen.{asking_of, text_of};
ghost use Rattle.solve_words.specs.Reading.{command as command_of, option_rule, settings_in, settings_of};

use crate::number::{number, number_or};
use clap::error::ErrorKind;
use clap::{Arg, ArgAction, ArgMatches, Command, Error};
use lin_term::Memory;
use std::alloc::{AllocError, Global};

/// The files of a run, and its numbers.
#[derive(Clone, Copy, Debug)]
pub struct Names<'a> {
    /// The file that is read. No two of the files have the same name.
    pub script: &'a str,
    /// The file that the strategies are written to.
    pub strategy: &'a str,
    /// The file that the journal is written to.
    pub journal: Option<&'a str>,
    /// 0 to 64; with 0 the caller's thread works alone.
    pub workers: u32,
    /// 0 to 4,096.
    pub rounds: u32,
}

/// What the words ask for.
#[derive(Clone, Copy, Debug)]
pub enum Asking<'a> {
    /// A run over a script.
    Solve(Names<'a>),
    /// A run over the problem of this size, 1 to 64, within so many rounds, 0 to 4,096.
    Generate { size: u32, rounds: u32 },
}

/// The word that is given for each argument.
#[derive(Clone, Copy)]
struct Given<'a> {
    script: Option<&'a str>,
    strategy: Option<&'a str>,
    journal: Option<&'a str>,
    workers: Option<&'a str>,
    rounds: Option<&'a str>,
    generate: Option<&'a str>,
}

/// An option with a value.
fn option<'a>(alloc: Global, name: &'a str) -> Arg<'a>
    ensures rule { rule_of result ≡ option_rule name.entry.now }
    ensures local { result.global ≡ false }
{
    Arg::new(alloc, name).long(name).action(ArgAction::Set)
}

/// The command line as `clap` is told of it: SCRIPT and the options, in any order.
fn command<'a>(alloc: Global) -> Result<Command<'a>, AllocError>
    ensures { IfOk result (λ c. app_of c ≡ command_of) }
{
    let script = Arg::new(alloc, "script").action(ArgAction::Set);
    Command::new(alloc, "simsat")
        .no_binary_name(true)
        .disable_help_flag(true)
        .arg(script)?
        .arg(option(alloc, "strategy"))?
        .arg(option(alloc, "journal"))?
        .arg(option(alloc, "workers"))?
        .arg(option(alloc, "rounds"))?
        .arg(option(alloc, "generate"))
}

/// What was found for each argument.
fn words_found<'a>(found: &ArgMatches<'a>) -> Given<'a>
    ensures { settings_of result ≡ settings_in (found_of found.now) }
{
    Given {
        script: found.get_str("script"),
        strategy: found.get_str("strategy"),
        journal: found.get_str("journal"),
        workers: found.get_str("workers"),
        rounds: found.get_str("rounds"),
        generate: found.get_str("generate"),
    }
}

/// Whether the word is not empty and does not begin with `-`.
fn is_name(word: &str) -> bool
    ensures { result ≡ is_name_of word.now }
{
    match word.as_bytes() {
        [] => false,
        [first, ..] => *first != b'-',
    }
}

/// Whether the two are the same word.
fn is_same(word: &str, other: &str) -> bool
    ensures { result ≡ bytes_eq word.now other.now }
{
    word.as_bytes() == other.as_bytes()
}

/// Whether these are names that are not the same.
fn are_two_names(script: &str, strategy: &str) -> bool
    ensures { result ≡ are_names_of (script.now ∷ strategy.now ∷ []) }
{
    is_name(script) && is_name(strategy) && !is_same(script, strategy)
}

/// Whether these are names, no two the same.
fn are_names(script: &str, strategy: &str, journal: Option<&str>) -> bool
    ensures { result ≡ are_names_of (script.now ∷ strategy.now ∷ named (option_map text_of journal.entry)) }
{
    match journal {
        Some(journal) => {
            are_two_names(script, strategy)
                && is_name(journal)
                && !is_same(script, journal)
                && !is_same(strategy, journal)
        }
        None => are_two_names(script, strategy),
    }
}

/// A run over a script, where its numbers are such.
fn solving<'a>(
    script: &'a str,
    strategy: &'a str,
    journal: Option<&'a str>,
    workers: Option<u32>,
    rounds: Option<u32>,
) -> Option<Asking<'a>>
    ensures { option_map asking_of result ≡ solving_of script.entry.now strategy.entry.now (option_map text_of journal.entry) workers rounds }
{
    let workers = workers?;
    let rounds = rounds?;
    if !are_names(script, strategy, journal) {
        return None;
    }
    Some(Asking::Solve(Names {
        script,
        strategy,
        journal,
        workers,
        rounds,
    }))
}

/// A run over a script.
fn script_run<'a>(script: &'a str, given: &Given<'a>) -> Option<Asking<'a>>
    ensures { option_map asking_of result ≡ script_asks script.entry.now (settings_of given.now).strategy (settings_of given.now) }
{
    let strategy = given.strategy?;
    let workers = number_or(2, 0, 64, given.workers);
    let rounds = number_or(256, 0, 4096, given.rounds);
    solving(script, strategy, given.journal, workers, rounds)
}

/// A run over the problem of this size, where its numbers are such.
fn generating<'a>(size: Option<u32>, rounds: Option<u32>) -> Option<Asking<'a>>
    ensures { option_map asking_of result ≡ generating_of size rounds }
{
    let size = size?;
    let rounds = rounds?;
    Some(Asking::Generate { size, rounds })
}

/// A run over a problem that is made by itself.
fn size_run<'a>(size: &str, given: &Given<'a>) -> Option<Asking<'a>>
    ensures { option_map asking_of result ≡ size_asks size.now (settings_of given.now) }
{
    if given.strategy.is_some() || given.journal.is_some() || given.workers.is_some() {
        return None;
    }
    generating(number(size, 1, 64), number_or(256, 0, 4096, given.rounds))
}

/// What is asked for; none where the arguments do not go together.
#[tactic(auto, unfolding(crate::specs::Words::asking_by))]
fn meaning<'a>(given: &Given<'a>) -> Option<Asking<'a>>
    ensures { option_map asking_of result ≡ asking_by (settings_of given.now) }
{
    match given.script {
        Some(script) => match given.generate {
            Some(_) => None,
            None => script_run(script, given),
        },
        None => match given.generate {
            Some(size) => size_run(size, given),
            None => None,
        },
    }
}

/// None, or want of memory.
fn refused<'a>(error: &Error) -> Result<Option<Asking<'a>>, Memory>
    ensures { IfOk result (λ a. (a ≡ None) × (kind_of error.now ≡ ErrorKind.OutOfMemory → ⊥)) }
{
    match error.kind() {
        ErrorKind::OutOfMemory => Err(Memory),
        _ => Ok(None),
    }
}

/// What the words ask for; none where they are not in the grammar. Refuses only for memory.
pub fn asked<'a>(alloc: Global, words: &'a [String]) -> Result<Option<Asking<'a>>, Memory>
    ensures { IfOk result (λ a. option_map asking_of a ≡ words_of (map string_bytes words.entry.now)) }
{
    let command = match command(alloc) {
        Ok(command) => command,
        Err(_) => return Err(Memory),
    };
    match command.try_get_matches_from(words) {
        Ok(found) => Ok(meaning(&words_found(&found))),
        Err(error) => refused(&error),
    }
}
