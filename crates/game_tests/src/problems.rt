//! Goals and their problems.

use dom_core::{Domain, Matrix, Problem, Quant};
use dom_int::Int;
use dom_rat::Rat;
use lin_term::{Lit, Row, Sort};
use lin_truth::Goal;
use prenex_form::problem_of;
use smt_goal::read_script;
use ss_names::ScriptFault;
use std::alloc::{AllocError, Global};
use std::test::Fail;

// Each line is a logic and a formula, and then the prefix and the matrix of its goal. A literal is written as in a strategy file.
const PROBLEMS: &str = "\
LRA (forall ((x Real)) (exists ((y Real)) (< x y))) ==> AE [> 0 -1 0 1 1]
LRA (exists ((x Real)) (< x 1)) ==> E [> 1 -1 0]
LIA (exists ((x Int)) (< x 1)) ==> E [>= 0 -1 0]
LRA (or (forall ((x Real)) (and (forall ((y Real)) (>= y 0)) (>= x 0))) (forall ((u Real)) (exists ((v Real)) (forall ((w Real)) (>= w 0))))) ==> AAAEA (or (and [>= 0 1 1] [>= 0 1 0]) [>= 0 1 4])
LRA (forall ((x Real)) (and (forall ((y Real)) (< x y)) (exists ((z Real)) (< x z)))) ==> AEA (and [> 0 -1 0 1 2] [> 0 -1 0 1 1])
LRA (= (exists ((x Real)) (< x 0)) true) ==> EA (and (or [>= 0 1 1] (and)) (or [> 0 -1 0] (or)))
LIA (exists ((x Int)) (= (div x 2) 1)) ==> EE (and [>= 0 1 0 -2 1] [>= 1 -1 0 2 1] (and [>= -1 1 1] [>= 1 -1 1]))
LIA (exists ((x Int)) (not (= (mod x 3) 1))) ==> EE (and [>= 0 1 0 -3 1] [>= 2 -1 0 3 1] (or [>= -2 1 0 -3 1] [>= 0 -1 0 3 1]))
LIA (forall ((x Int)) (<= 0 (abs x))) ==> A (and (or [>= -1 -1 0] [>= 0 1 0]) (or [>= 0 1 0] [>= 0 -1 0]))
LRA (exists ((b Bool) (x Real)) (= x (ite b 1 0))) ==> EE (and (or [> 1 -1 0] (and [>= -1 1 1] [>= 1 -1 1])) (or [>= -1 1 0] (and [>= 0 1 1] [>= 0 -1 1])))
LIA (forall ((x Int)) (=> ((_ divisible 4) (* 2 x)) ((_ divisible 2) x))) ==> A (or [!| 2 0 1 0] [| 2 0 1 0])
LRA (xor true (forall ((x Real)) (< x 0))) ==> EA (or (and (and) [>= 0 1 0]) (and (or) [> 0 -1 1]))
LRA (exists ((x Real)) (< (/ x 3) (/ 1 2))) ==> E [> 3 -2 0]
LIA (exists ((x Int)) (distinct x 0 1)) ==> E (and (or [>= -1 1 0] [>= -1 -1 0]) (or [>= -2 1 0] [>= 0 -1 0]) (or (or) (and)))
";

// The constant, then coefficients and variables.
fn put_row(alloc: Global, out: &mut String, row: &Row) -> Result<(), AllocError> {
    let constant = format!(in alloc; "{}", row.constant_part())?;
    out.push_str(constant.as_str())?;
    for (var, coef) in row.coefs() {
        let term = format!(in alloc; " {coef} {var}")?;
        out.push_str(term.as_str())?;
    }
    out.push_str("]")
}

fn put_literal(alloc: Global, out: &mut String, lit: &Lit) -> Result<(), AllocError> {
    match lit {
        Lit::AtLeast(row) => {
            out.push_str("[>= ")?;
            put_row(alloc, out, row)
        }
        Lit::Above(row) => {
            out.push_str("[> ")?;
            put_row(alloc, out, row)
        }
        Lit::Divides(modulus, row) => {
            let mark = format!(in alloc; "[| {modulus} ")?;
            out.push_str(mark.as_str())?;
            put_row(alloc, out, row)
        }
        Lit::NotDivides(modulus, row) => {
            let mark = format!(in alloc; "[!| {modulus} ")?;
            out.push_str(mark.as_str())?;
            put_row(alloc, out, row)
        }
    }
}

#[cycle(put)]
fn put(alloc: Global, out: &mut String, matrix: &Matrix) -> Result<(), AllocError> {
    match matrix {
        Matrix::Lit(lit) => put_literal(alloc, out, lit),
        Matrix::And(parts) => {
            out.push_str("(and")?;
            put_all(alloc, out, parts.as_slice())
        }
        Matrix::Or(parts) => {
            out.push_str("(or")?;
            put_all(alloc, out, parts.as_slice())
        }
    }
}

#[cycle(put)]
fn put_all(alloc: Global, out: &mut String, parts: &[Matrix]) -> Result<(), AllocError> {
    for part in parts {
        out.push_str(" ")?;
        put(alloc, out, part)?;
    }
    out.push_str(")")
}

fn shown<D: Domain>(alloc: Global, problem: &Problem<D>) -> Result<String, AllocError> {
    let mut out = String::new(alloc);
    for quant in problem.prefix() {
        out.push_str(match quant {
            Quant::Exists => "E",
            Quant::Forall => "A",
        })?;
    }
    out.push_str(" ")?;
    put(alloc, &mut out, problem.matrix())?;
    Ok(out)
}

fn shown_of<D: Domain>(
    alloc: Global,
    found: Result<Problem<D>, ScriptFault>,
) -> Result<String, Fail> {
    match found {
        Ok(problem) => Ok(shown(alloc, &problem)?),
        Err(_) => Err("no problem".into()),
    }
}

fn answer(alloc: Global, goal: &Goal) -> Result<String, Fail> {
    match goal.sort() {
        Sort::Rat => shown_of(alloc, problem_of::<Rat>(alloc, goal)),
        Sort::Int => shown_of(alloc, problem_of::<Int>(alloc, goal)),
    }
}

fn answer_line(alloc: Global, line: &str) -> Result<String, Fail> {
    let (logic, formula) = match line.split_once(' ') {
        Some((logic, formula)) => (logic, formula),
        None => (line, ""),
    };
    let text = format!(in alloc; "(set-logic {logic})(assert {formula})(check-sat)")?;
    let script = match read_script(alloc, text.as_bytes()) {
        Ok(script) => script,
        Err(_) => return Err("no script".into()),
    };
    match script.goals() {
        [goal] => answer(alloc, goal),
        _ => Err("no goal".into()),
    }
}

#[test]
fn goals_have_their_problems(rt: HostRuntime) -> Result<(), Fail> {
    for line in PROBLEMS.lines() {
        let (question, wanted) = match line.split_once(" ==> ") {
            Some((question, wanted)) => (question, wanted),
            None => (line, ""),
        };
        let out = answer_line(rt.alloc(), question)?;
        assert_eq!(rt; out.as_str(), wanted, "at {question}");
    }
    Ok(())
}
