//! A run of the checker over files and output.

ghost use Rattle.std.specs.Prelude.{◌≡◌, ◌⊎◌, map, option_map, IfOk, Err, Some, string_bytes};
ghost use Rattle.dom_core.specs.Problem.{problem_of};
ghost use Rattle.ss_shelf.specs.Outside.{Rose};
ghost use Rattle.script_games.specs.Told.{ReadCounted};
ghost use Rattle.script_games.specs.Given.{games_of_given};
ghost use Rattle.script_games.specs.Headline.{SatIsTrue, UnsatIsFalse, OthersClaimNothing, AcceptedIsPrinted};
ghost use Rattle.simcheck.specs.Words.{is_name as is_name_of, names_of};
ghost use Rattle.simcheck.specs.Answer.{answer_of, Answers, AnswersGiven, IsAnswer, IsNamed, Said, SaidPart, UsageOnlyFor};
ghost use Rattle.simcheck.specs.Told.{WhereTold};

use crate::report::{Report, judge, refusal_report, usage_report};
use crate::status::CheckStatus;
use dom_core::{Domain, Problem};
use script_games::{GamesFault, ScriptGames, fetch_all, read_games};
use ss_shelf::{Shelf, ShelfFault, Sink, SinkFault};
use std::alloc::Global;

/// Why there is no report.
#[derive(Clone, Copy, Debug, PartialEq, Eq)]
pub enum Stop {
    ReadFault,
    Memory,
}

fn is_name(word: &str) -> bool
    ensures { result ≡ is_name_of word.now }
{
    match word.as_bytes() {
        [] => false,
        [first, ..] => *first != 45,
    }
}

fn two_names<'a>(words: &'a [String]) -> Option<(&'a str, &'a str)>
    ensures { option_map (λ p. record { script = p.0.now; file = p.1.now }) result ≡ names_of (map string_bytes words.now) }
{
    match words {
        [script, file] => {
            if is_name(script.as_str()) && is_name(file.as_str()) {
                return Some((script.as_str(), file.as_str()));
            }
            None
        }
        _ => None,
    }
}

/// The answer for these problems over the file of this name.
fn judge_file<D: Domain, S: Shelf>(
    alloc: Global,
    shelf: &mut S,
    file: &str,
    problems: &[Problem<D>],
) -> Result<Report, Stop>
    ensures same { S.files shelf.new ≡ S.files shelf.old }
    ensures answer { IfOk result (λ r. AnswersGiven (S.files shelf.old) file.now (record { sort = D.SORT; problems = map problem_of problems.now }) (answer_of r)) }
    ensures status { IfOk result (λ r. IsAnswer r.status) }
    ensures counts { ReadCounted (λ n. n ≡ file.now) (S.faults shelf.old) (S.faults shelf.new) (result ≡ Err Stop.ReadFault) }
{
    let bytes = match fetch_all(alloc, shelf, file) {
        Ok(bytes) => bytes,
        Err(ShelfFault::Failed) => return Err(Stop::ReadFault),
        Err(ShelfFault::Memory) => return Err(Stop::Memory),
    };
    match judge(alloc, problems, bytes.as_slice()) {
        Ok(report) => Ok(report),
        Err(_) => Err(Stop::Memory),
    }
}

/// The answer for the games of a script, by their sort.
fn judge_games<S: Shelf>(
    alloc: Global,
    shelf: &mut S,
    file: &str,
    games: &ScriptGames,
) -> Result<Report, Stop>
    ensures same { S.files shelf.new ≡ S.files shelf.old }
    ensures answer { IfOk result (λ r. AnswersGiven (S.files shelf.old) file.now (games_of_given games.now) (answer_of r)) }
    ensures status { IfOk result (λ r. IsAnswer r.status) }
    ensures counts { ReadCounted (λ n. n ≡ file.now) (S.faults shelf.old) (S.faults shelf.new) (result ≡ Err Stop.ReadFault) }
{
    match games {
        ScriptGames::Rat(problems) => judge_file(alloc, shelf, file, problems.as_slice()),
        ScriptGames::Int(problems) => judge_file(alloc, shelf, file, problems.as_slice()),
    }
}

fn answer_names<S: Shelf>(
    alloc: Global,
    shelf: &mut S,
    script: &str,
    file: &str,
) -> Result<Report, Stop>
    ensures same { S.files shelf.new ≡ S.files shelf.old }
    ensures answer { IfOk result (λ r. Answers (S.files shelf.old) (Some (record { script = script.now; file = file.now })) (answer_of r)) }
    ensures status { IfOk result (λ r. IsAnswer r.status) }
    ensures counts { ReadCounted (IsNamed (Some (record { script = script.now; file = file.now }))) (S.faults shelf.old) (S.faults shelf.new) (result ≡ Err Stop.ReadFault) }
{
    match read_games(alloc, shelf, script) {
        Ok(games) => judge_games(alloc, shelf, file, &games),
        Err(GamesFault::Bad { kind, line, column }) => {
            match refusal_report(alloc, kind, line, column) {
                Ok(report) => Ok(report),
                Err(_) => Err(Stop::Memory),
            }
        }
        Err(GamesFault::Unread) => Err(Stop::ReadFault),
        Err(GamesFault::Memory) => Err(Stop::Memory),
    }
}

/// The report on these words, made before anything is printed.
fn report_on<S: Shelf>(alloc: Global, words: &[String], shelf: &mut S) -> Result<Report, Stop>
    ensures same { S.files shelf.new ≡ S.files shelf.old }
    ensures answer { IfOk result (λ r. Answers (S.files shelf.old) (names_of (map string_bytes words.now)) (answer_of r)) }
    ensures usage { IfOk result (λ r. UsageOnlyFor (names_of (map string_bytes words.now)) r.status) }
    ensures status { IfOk result (λ r. IsAnswer r.status) }
    ensures counts { ReadCounted (IsNamed (names_of (map string_bytes words.now))) (S.faults shelf.old) (S.faults shelf.new) (result ≡ Err Stop.ReadFault) }
{
    match two_names(words) {
        Some((script, file)) => answer_names(alloc, shelf, script, file),
        None => match usage_report(alloc) {
            Ok(report) => Ok(report),
            Err(_) => Err(Stop::Memory),
        },
    }
}

/// Makes the answer and prints it.
#[tactic(auto, using(crate::proofs::Telling::is_over))]
fn answer_and_print<S: Shelf, O: Sink>(
    alloc: Global,
    words: &[String],
    shelf: &mut S,
    out: &mut O,
) -> CheckStatus
    ensures answer { IsAnswer result → Said (S.files shelf.old) (names_of (map string_bytes words.now)) (O.written out.old) (O.written out.new) result }
    ensures usage { IsAnswer result → UsageOnlyFor (names_of (map string_bytes words.now)) result }
    ensures counts { ReadCounted (IsNamed (names_of (map string_bytes words.now))) (S.faults shelf.old) (S.faults shelf.new) (result ≡ CheckStatus.ReadFault) }
    ensures nothing { result ≡ CheckStatus.ReadFault → O.written out.new ≡ O.written out.old }
    ensures print_fault { result ≡ CheckStatus.PrintFault → Rose (O.faults out.old) (O.faults out.new) }
    ensures part { result ≡ CheckStatus.PrintFault → SaidPart (S.files shelf.old) (names_of (map string_bytes words.now)) (O.written out.old) (O.written out.new) }
    ensures memory { result ≡ CheckStatus.Memory → (O.written out.new ≡ O.written out.old) ⊎ SaidPart (S.files shelf.old) (names_of (map string_bytes words.now)) (O.written out.old) (O.written out.new) }
    ensures files { S.files shelf.new ≡ S.files shelf.old }
{
    let report = match report_on(alloc, words, shelf) {
        Ok(report) => report,
        Err(Stop::ReadFault) => return CheckStatus::ReadFault,
        Err(Stop::Memory) => return CheckStatus::Memory,
    };
    match out.write(report.text.as_slice()) {
        Ok(()) => report.status,
        Err(SinkFault::Failed) => CheckStatus::PrintFault,
        Err(SinkFault::Memory) => CheckStatus::Memory,
    }
}

/// Checks the file against the script that the words name, prints the answer, and says how it ended. The statuses 0 to 3
/// are answers; the others are a fault of reading, a fault of printing, and want of memory.
pub fn check_run<S: Shelf, O: Sink>(
    alloc: Global,
    words: &[String],
    shelf: &mut S,
    out: &mut O,
) -> CheckStatus
    // Of each run over files and output that are told, whatever its status: where line k of what it printed is
    // `accepted sat`, goal k of the script is true, and the file accepts it. Goals and lines count from 0.
    ensures sat { WhereTold (S.files shelf.old) (names_of (map string_bytes words.now)) (O.written out.old) (O.written out.new) SatIsTrue }
    // Where it is `accepted unsat`, the goal is not true, and the file accepts it.
    ensures unsat { WhereTold (S.files shelf.old) (names_of (map string_bytes words.now)) (O.written out.old) (O.written out.new) UnsatIsFalse }
    // Where it is any other, the file accepts the goal for no side.
    ensures others { WhereTold (S.files shelf.old) (names_of (map string_bytes words.now)) (O.written out.old) (O.written out.new) OthersClaimNothing }
    // An answer has an accepted line for each goal that the file accepts.
    ensures accepted { IsAnswer result → WhereTold (S.files shelf.old) (names_of (map string_bytes words.now)) (O.written out.old) (O.written out.new) AcceptedIsPrinted }
    // An answer is that of the words and of what the shelf tells of the files, and where the sink tells it, exactly its
    // text was written.
    ensures answer { IsAnswer result → Said (S.files shelf.old) (names_of (map string_bytes words.now)) (O.written out.old) (O.written out.new) result }
    // Among the statuses 0 to 3, Usage comes exactly where the words are not in the grammar.
    ensures usage { IsAnswer result → UsageOnlyFor (names_of (map string_bytes words.now)) result }
    // A fault of reading comes only where the count of a fetch of SCRIPT or FILE rose; no other count changes.
    ensures counts { ReadCounted (IsNamed (names_of (map string_bytes words.now))) (S.faults shelf.old) (S.faults shelf.new) (result ≡ CheckStatus.ReadFault) }
    ensures nothing { result ≡ CheckStatus.ReadFault → O.written out.new ≡ O.written out.old }
    // A fault of printing comes only where the sink's count rose, or stands at its greatest value, and a prefix of the text was written.
    ensures print_fault { result ≡ CheckStatus.PrintFault → Rose (O.faults out.old) (O.faults out.new) }
    ensures part { result ≡ CheckStatus.PrintFault → SaidPart (S.files shelf.old) (names_of (map string_bytes words.now)) (O.written out.old) (O.written out.new) }
    ensures memory { result ≡ CheckStatus.Memory → (O.written out.new ≡ O.written out.old) ⊎ SaidPart (S.files shelf.old) (names_of (map string_bytes words.now)) (O.written out.old) (O.written out.new) }
    // Where the shelf tells its files, every file is as before.
    ensures files { S.files shelf.new ≡ S.files shelf.old }
{
    answer_and_print(alloc, words, shelf, out)
}
