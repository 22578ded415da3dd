//! What is printed, made before anything is printed.

ghost use Rattle.std.specs.Prelude.{◌≡◌, ◌<◌, ◌^◌, ◌||◌, ◌++◌, ℕ, List, map, length, IfOk, Ok, codes, decimal, string_bytes};
ghost use Rattle.strat_text.specs.File.{reading};
ghost use Rattle.std.specs.List.{AllByRecursion};
ghost use Rattle.dom_core.specs.Problem.{problem_of};
ghost use Rattle.ss_names.specs.declared.ScriptFault.TheVariants.{Bad};
ghost use Rattle.strat_text.specs.Sections.{Sections};
ghost use Rattle.strat_text.specs.Spelling.{IsSection, line_of};
ghost use Rattle.script_games.specs.Acceptance.{IsReadAsSpelled};
ghost use Rattle.simcheck.specs.Verdicts.{usage, refusal, verdict_text, is_rejected, lines, any_rejected, checked, printed_for};
ghost use Rattle.simcheck.specs.Carried.{EachWins, ReadsSpelled};
ghost use Rattle.simcheck.specs.Answer.{answer_of, IsAnswer};

use crate::status::CheckStatus;
use dom_core::{Domain, Problem, Side};
use script_games::refusal_line;
use ss_names::FaultKind;
use std::alloc::{AllocError, Global};
use strat_check::{Checked, check_goal};
use strat_text::{Section, read_file};
use strat_words::FileFault;

/// A status, and what is to be printed before it.
#[derive(Debug, Drop)]
pub struct Report {
    pub status: CheckStatus,
    pub text: Vec<u8>,
}

/// The usage line, with the status Usage. Refuses only for memory.
pub fn usage_report(alloc: Global) -> Result<Report, AllocError>
    ensures answer { IfOk result (λ r. answer_of r ≡ usage) }
    ensures status { IfOk result (λ r. IsAnswer r.status) }
{
    let text = String::from_str(alloc, "usage: simcheck SCRIPT FILE\n")?;
    Ok(Report {
        status: CheckStatus::Usage,
        text: text.into_bytes(),
    })
}

/// The line of a script's fault: its kind's number and name, and its place, with the status Refused. Refuses only for
/// memory.
pub fn refusal_report(
    alloc: Global,
    kind: FaultKind,
    line: u64,
    column: u64,
) -> Result<Report, AllocError>
    ensures answer { IfOk result (λ r. answer_of r ≡ refusal (Bad kind line column)) }
    ensures status { IfOk result (λ r. IsAnswer r.status) }
{
    let text = refusal_line(alloc, kind, line, column)?;
    Ok(Report {
        status: CheckStatus::Refused,
        text: text.into_bytes(),
    })
}

/// The line of a goal.
fn text_of(alloc: Global, verdict: Checked) -> Result<String, AllocError>
    ensures { IfOk result (λ s. string_bytes s ≡ verdict_text verdict) }
{
    match verdict {
        Checked::Accepted(side) => match side {
            Side::Exists => String::from_str(alloc, "accepted sat\n"),
            Side::Forall => String::from_str(alloc, "accepted unsat\n"),
        },
        Checked::Unclaimed => String::from_str(alloc, "unclaimed\n"),
        Checked::Rejected { line, rule } => {
            let name = rule.name();
            format!(in alloc; "rejected {line} {name}\n")
        }
    }
}

fn rejects(verdict: Checked) -> bool
    ensures { result ≡ is_rejected verdict }
{
    match verdict {
        Checked::Rejected { .. } => true,
        Checked::Accepted(_) => false,
        Checked::Unclaimed => false,
    }
}

fn either(a: bool, b: bool) -> bool
    ensures { result ≡ (a || b) }
{
    a || b
}

/// Appends one line for each problem, and says whether a section is rejected.
fn append_lines<D: Domain>(
    alloc: Global,
    problems: &[Problem<D>],
    sections: &[Section],
    text: &mut Vec<u8>,
) -> Result<bool, AllocError>
    requires count { length problems.now ≡ length sections.now }
    requires written { AllByRecursion IsSection sections.now }
    requires early { AllByRecursion (λ x. line_of x < 2 ^ 63) sections.now }
    ensures text { IfOk result (λ r. text.new.items ≡ text.old.items ++ lines D.SORT (map problem_of problems.now) sections.now) }
    ensures rejected { IfOk result (λ r. r ≡ any_rejected D.SORT (map problem_of problems.now) sections.now) }
    ensures wins { IfOk result (λ r. EachWins D.SORT (map problem_of problems.now) sections.now) }
{
    let mut rejected = false;
    for i in 0..problems.len() {
        let verdict = match check_goal(alloc, &problems[i], &sections[i]) {
            Ok(verdict) => verdict,
            Err(_) => return Err(AllocError),
        };
        let line = text_of(alloc, verdict)?;
        text.extend_from_slice(line.as_bytes())?;
        rejected = either(rejected, rejects(verdict));
    }
    Ok(rejected)
}

/// The answer where each goal has a section, or not.
fn check_sections<D: Domain>(
    alloc: Global,
    problems: &[Problem<D>],
    sections: &[Section],
) -> Result<Report, AllocError>
    requires written { AllByRecursion IsSection sections.now }
    requires early { AllByRecursion (λ x. line_of x < 2 ^ 63) sections.now }
    ensures answer { IfOk result (λ r. answer_of r ≡ checked (record { sort = D.SORT; problems = map problem_of problems.now }) sections.now) }
    ensures status { IfOk result (λ r. IsAnswer r.status) }
    ensures wins { IfOk result (λ r. length problems.now ≡ length sections.now → EachWins D.SORT (map problem_of problems.now) sections.now) }
{
    if problems.len() != sections.len() {
        let text = String::from_str(alloc, "rejected 2 goals\n")?;
        return Ok(Report {
            status: CheckStatus::Rejected,
            text: text.into_bytes(),
        });
    }
    let mut text = Vec::new(alloc);
    if append_lines(alloc, problems, sections, &mut text)? {
        Ok(Report {
            status: CheckStatus::Rejected,
            text,
        })
    } else {
        Ok(Report {
            status: CheckStatus::Accepted,
            text,
        })
    }
}

fn reject_form(alloc: Global, line: u64) -> Result<Report, AllocError>
    ensures { IfOk result (λ r. (r.status ≡ CheckStatus.Rejected) × (r.text.items ≡ codes "rejected " ++ (decimal line ++ codes " form\n"))) }
{
    let text = format!(in alloc; "rejected {line} form\n")?;
    Ok(Report {
        status: CheckStatus::Rejected,
        text: text.into_bytes(),
    })
}

/// The answer for these problems over the bytes of the file; what it says to be accepted is won by its section. Refuses
/// only for memory.
#[tactic(auto, unfolding(crate::specs::Verdicts::printed_for))]
pub fn judge<D: Domain>(
    alloc: Global,
    problems: &[Problem<D>],
    file: &[u8],
) -> Result<Report, AllocError>
    ensures answer { IfOk result (λ r. answer_of r ≡ printed_for (record { sort = D.SORT; problems = map problem_of problems.now }) file.now) }
    ensures status { IfOk result (λ r. IsAnswer r.status) }
    ensures wins { IfOk result (λ r. (xs : Sections) → reading file.now ≡ Ok xs → length problems.now ≡ length xs.list → EachWins D.SORT (map problem_of problems.now) xs.list) }
    // What is read is spelled, and what is spelled is read.
    ensures spelled { IfOk result (λ r. IsReadAsSpelled file.now) }
    ensures reads { IfOk result (λ r. ReadsSpelled file.now) }
{
    match read_file(alloc, file) {
        Ok(sections) => check_sections(alloc, problems, sections.as_slice()),
        Err(FileFault::Bad { line, word }) => {
            let _ = word;
            reject_form(alloc, line)
        }
        Err(FileFault::Memory) => Err(AllocError),
    }
}
