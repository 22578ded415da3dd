//! Vectors: sections for two problems with one literal, and what they are worth.

ghost use Rattle.std.specs.Prelude.{◌≡◌, IfOk, length};
ghost use Rattle.dom_core.specs.Game.{lit as leaf};
ghost use Rattle.dom_core.specs.View.{matrix_of};
ghost use Rattle.strat_check.specs.Example.{second_above_first};

use crate::damaged::with_line;
use cube_rules::{Kind, Rule};
use dom_core::{Matrix, Problem, Quant, Side};
use dom_rat::Rat;
use lin_term::{Lit, Memory, Row, Short, Wide};
use smallvec::SmallVec;
use sqlite_items::Items;
use std::alloc::Global;
use std::test::*;
use strat_check::{Checked, check_goal};
use strat_text::read_file;

/// v1 > v0 for every v0 with a v1 of one's choice: the move v0 + 1 proves it.
const GREATER: &str =
    "simsat-strategy 1\ngoals 1\ngoal 0 sat\nturns to\nt\no 1\nm 1 1 1 0\nproof 4\npath 0\ndef 1 0\nsum 1 0 1 1 1\nfalse 2\nend\n";

/// A v0 below each v1: the move v0 - 1 of the other player refutes it.
const LEAST: &str =
    "simsat-strategy 1\ngoals 1\ngoal 0 unsat\nturns to\nt\no 1\nm 1 -1 1 0\nproof 4\npath 0\ndef 1 1\nsum 1 0 1 1 1\nfalse 2\nend\n";

/// A line of GREATER, what stands in its place, the line that is rejected, and its rule.
const REJECTED: &[(u64, &str, u64, Rule)] = &[
    // the same number is not greater
    (7, "m 1 0 1 0", 12, Rule::Line(Kind::False)),
    // not in lowest form
    (7, "m 2 2 2 0", 7, Rule::Move),
    // a number that some are not below
    (7, "m 1 5", 12, Rule::Line(Kind::False)),
    // no such path
    (9, "path 1", 9, Rule::Line(Kind::Path)),
    // no such node
    (10, "def 2 0", 10, Rule::Line(Kind::Def)),
    // the other literal, and a sum that does not cancel
    (10, "def 1 1", 12, Rule::Line(Kind::False)),
    // multipliers of an inequality are not negative
    (11, "sum 0 0 1 1 1", 11, Rule::Line(Kind::Sum)),
    (11, "sum -1 0 1 1 1", 11, Rule::Line(Kind::Sum)),
    // another divisor
    (11, "sum 1 0 1 1 2", 11, Rule::Line(Kind::Sum)),
    // a literal that is not false
    (12, "false 1", 12, Rule::Line(Kind::False)),
];

/// The matrix v1 > v0.
fn greater(alloc: Global) -> Result<Matrix, Memory>
    ensures { IfOk result (λ m. matrix_of m ≡ leaf second_above_first) }
{
    let coefs = SmallVec::from_slice(alloc, &[(0, -1), (1, 1)])?;
    Ok(Matrix::Lit(Lit::Above(Row::from_parts(coefs, 0))))
}

/// The problem of that matrix under two quantifiers.
fn problem(alloc: Global, first: Quant, second: Quant) -> Result<Problem<Rat>, Short<Wide>> {
    let matrix = greater(alloc)?;
    let mut prefix = Items::new(alloc);
    prefix.push(first)?;
    prefix.push(second)?;
    Problem::make(alloc, prefix, matrix)
}

/// What the only section of a file is worth; none where the file does not read so.
fn judged(alloc: Global, problem: &Problem<Rat>, bytes: &[u8]) -> Option<Checked> {
    let sections = match read_file(alloc, bytes) {
        Ok(sections) => sections,
        Err(_) => return None,
    };
    match sections.as_slice() {
        [section] => match check_goal(alloc, problem, section) {
            Ok(checked) => Some(checked),
            Err(_) => None,
        },
        _ => None,
    }
}

#[test]
fn a_greater_number_is_accepted(rt: HostRuntime) {
    let alloc = rt.alloc();
    let problem = problem(alloc, Quant::Forall, Quant::Exists).expect(&rt, "a problem");
    let checked = judged(alloc, &problem, GREATER.as_bytes()).expect(&rt, "a section");
    assert_eq!(rt; checked, Checked::Accepted(Side::Exists));
}

#[test]
fn a_least_number_is_refuted(rt: HostRuntime) {
    let alloc = rt.alloc();
    let problem = problem(alloc, Quant::Exists, Quant::Forall).expect(&rt, "a problem");
    let checked = judged(alloc, &problem, LEAST.as_bytes()).expect(&rt, "a section");
    assert_eq!(rt; checked, Checked::Accepted(Side::Forall));
    // Its claim is not that of the dual.
    let turns = judged(alloc, &problem, GREATER.as_bytes()).expect(&rt, "a section");
    assert_eq!(rt;
        turns,
        Checked::Rejected {
            line: 4,
            rule: Rule::Turns
        }
    );
}

#[test]
fn the_first_line_out_of_order_is_named(rt: HostRuntime) {
    let alloc = rt.alloc();
    let problem = problem(alloc, Quant::Forall, Quant::Exists).expect(&rt, "a problem");
    for (at, line, number, rule) in REJECTED {
        let text = with_line(alloc, GREATER, *at, line).expect(&rt, "memory");
        let checked = judged(alloc, &problem, text.as_slice()).expect(&rt, "a section");
        assert_eq!(rt;
            checked,
            Checked::Rejected {
                line: *number,
                rule: *rule
            },
            "{line}"
        );
    }
}

#[test]
fn turns_that_do_not_fit_are_rejected(rt: HostRuntime) {
    let alloc = rt.alloc();
    let problem = problem(alloc, Quant::Forall, Quant::Exists).expect(&rt, "a problem");
    let file =
        "simsat-strategy 1\ngoals 1\ngoal 0 sat\nturns ot\no 1\nm 1 0\nt\nproof 4\npath 0\ndef 0 0\nsum 1 0 1 1 1\nfalse 2\nend\n";
    let checked = judged(alloc, &problem, file.as_bytes()).expect(&rt, "a section");
    assert_eq!(rt;
        checked,
        Checked::Rejected {
            line: 4,
            rule: Rule::Turns
        }
    );
    let short = "simsat-strategy 1\ngoals 1\ngoal 0 sat\nturns t\nt\nproof 1\nfalse 0\nend\n";
    let checked = judged(alloc, &problem, short.as_bytes()).expect(&rt, "a section");
    assert_eq!(rt;
        checked,
        Checked::Rejected {
            line: 4,
            rule: Rule::Turns
        }
    );
}

#[test]
fn nothing_is_claimed(rt: HostRuntime) {
    let alloc = rt.alloc();
    let problem = problem(alloc, Quant::Forall, Quant::Exists).expect(&rt, "a problem");
    let file = "simsat-strategy 1\ngoals 1\ngoal 0 unknown\nend\n";
    let checked = judged(alloc, &problem, file.as_bytes()).expect(&rt, "a section");
    assert_eq!(rt; checked, Checked::Unclaimed);
}
