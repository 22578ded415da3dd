use lin_term::Sort;
use lin_truth::{Goal, Term};
use smt_goal::*;
use ss_names::ScriptFault;
use std::alloc::Global;
use std::test::Fail;

// Each line is a script, in which `~` stands for a line feed, then ` -> `, and then what it asks: the sort of its numbers,
// and for each goal its place, the number of its constants and of its assertions; or the fault and its place.
const SCRIPTS: &str = "\
; nothing -> Rat
(exit) ) \" -> Rat
(set-logic LRA)~(check-sat) -> Rat 2:1 0 0
(set-logic QF_LIA)~(check-sat)(set-info :status)~(exit) -> Int 2:1 0 0
(set-logic LRA)~(declare-const x Real)~(assert (< x 4503599627370496))~(check-sat) -> Rat 4:1 1 1
(set-logic LRA)~(declare-const x Real)~(assert (< x 4503599627370497))~(check-sat) -> Number 3:14
(set-logic LIA)~(declare-const x Int)~(assert (<= x 4503599627370496))~(check-sat) -> Int 4:1 1 1
(set-logic LRA)~(declare-const x Real)~(declare-const y Real)~(assert (< (* x y) 1)) -> Linear 4:12
(set-logic LRA)~(declare-const x Real)~(declare-const y Real)~(assert (< (/ x 0) 1)) -> Divisor 4:12
(set-logic LRA)~(declare-const x Real)~(declare-const y Real)~(assert (< x z)) -> Symbol 4:14
(set-logic LIA)~(declare-const x Real) -> Sort 2:18
(set-logic LRA)~(check-sat -> Unclosed 2:1
(set-logic LIA)~(push 1)~(assert false)~(check-sat)~(pop 1)~(check-sat) -> Command 2:1
(check-sat) -> Order 1:1
(set-logic LRA)(set-logic LRA) -> Order 1:16
(set-logic LRA)(check-sat)~(assert) -> Order 2:1
(set-logic LRA)(check-sat)~(check-sat) -> Order 2:1
(set-logic 5) -> Logic 1:12
(set-logic (LRA)) -> Logic 1:12
(set-logic) -> Arity 1:1
(set-info 5 6) -> Sort 1:11
(set-info :a 1 2) -> Arity 1:1
(set-option :print-success true) -> Setting 1:1
(set-option :print-success |false|) -> Rat
(set-option 1 true) -> Sort 1:13
(declare-const x) -> Order 1:1
(set-logic LIA)(declare-const x) -> Arity 1:16
(set-logic LIA)(declare-const 5 Foo) -> Sort 1:31
(set-logic LIA)(declare-const let Int) -> Symbol 1:31
(set-logic LIA)(declare-const x Int)~(declare-fun x () Int) -> Symbol 2:14
(set-logic LIA)(declare-fun 5 (Int) Int) -> Arity 1:16
(set-logic LIA)(declare-fun f g Int) -> Sort 1:31
(set-logic LIA)(define-fun f ((n Int)) Int (f n)) -> Symbol 1:45
(set-logic LIA)(define-fun f () Bool 1) -> Sort 1:38
(set-logic LIA)(define-fun f (n) Int 1) -> Sort 1:31
(set-logic LIA)(define-fun f ((n Int)) Int (* 2 n))~(assert (= (f 3) 6))(assert true)(check-sat) -> Int 2:34 0 2
(set-logic LIA)(assert 1) -> Sort 1:24
(set-logic LIA)(assert true true) -> Arity 1:16
(|exit|) -> Command 1:1
((exit)) -> Command 1:1
() -> Command 1:1
exit -> Unclosed 1:1
(set-logic LRA)~#x1g -> Token 2:1
";

fn plain(alloc: Global, text: &str) -> Result<Vec<u8>, Fail> {
    let mut bytes = Vec::new(alloc);
    for byte in text.as_bytes() {
        bytes.push(if *byte == b'~' { b'\n' } else { *byte })?;
    }
    Ok(bytes)
}

fn assertions(goal: &Goal) -> usize {
    match goal.body() {
        Term::And(parts) => parts.len(),
        _ => 1_000_000,
    }
}

fn answer(alloc: Global, bytes: &[u8]) -> Result<String, Fail> {
    let script = match read_script(alloc, bytes) {
        Ok(script) => script,
        Err(ScriptFault::Bad { kind, line, column }) => {
            return Ok(format!(in alloc; "{} {line}:{column}", kind.name())?);
        }
        Err(ScriptFault::Memory) => return Ok(format!(in alloc; "Memory")?),
    };
    let sort = match script.sort() {
        Sort::Rat => "Rat",
        Sort::Int => "Int",
    };
    let mut text = format!(in alloc; "{sort}")?;
    for goal in script.goals() {
        let consts = goal.consts().len();
        let parts = assertions(goal);
        text = format!(in alloc; "{text} {}:{} {consts} {parts}", goal.line(), goal.column())?;
    }
    Ok(text)
}

#[test]
fn scripts(rt: HostRuntime) -> Result<(), Fail> {
    assert_eq!(rt; answer(rt.alloc(), b"")?.as_str(), "Rat");
    for line in SCRIPTS.lines() {
        let (script, wanted) = match line.split_once(" -> ") {
            Some((script, wanted)) => (script, wanted),
            None => ("", ""),
        };
        let bytes = plain(rt.alloc(), script)?;
        let got = answer(rt.alloc(), bytes.as_slice())?;
        assert_eq!(rt; got.as_str(), wanted, "at {script}");
    }
    Ok(())
}

// So many constants and no assertion.
fn constants(alloc: Global, count: u32) -> Result<Vec<u8>, Fail> {
    let mut bytes = Vec::new(alloc);
    bytes.extend_from_slice(b"(set-logic LRA)")?;
    for i in 0..count {
        let line = format!(in alloc; "(declare-const c{i} Real)")?;
        bytes.extend_from_slice(line.as_bytes())?;
    }
    bytes.extend_from_slice(b"\n(check-sat)")?;
    Ok(bytes)
}

// The sum of the last term with itself, so often, each time by a definition.
fn doubling(alloc: Global, count: u32) -> Result<Vec<u8>, Fail> {
    let mut bytes = Vec::new(alloc);
    bytes.extend_from_slice(b"(set-logic LIA)(declare-const x Int)(define-fun f0 () Int x)")?;
    for i in 0..count {
        let line = format!(in alloc; "(define-fun f{} () Int (+ f{i} f{i}))", i + 1)?;
        bytes.extend_from_slice(line.as_bytes())?;
    }
    let line = format!(in alloc; "\n(assert (= f{count} 0))\n (check-sat)")?;
    bytes.extend_from_slice(line.as_bytes())?;
    Ok(bytes)
}

#[test]
fn limits(rt: HostRuntime) -> Result<(), Fail> {
    let most = constants(rt.alloc(), 1024)?;
    assert_eq!(rt;
        answer(rt.alloc(), most.as_slice())?.as_str(),
        "Rat 2:1 1024 0"
    );
    let many = constants(rt.alloc(), 1025)?;
    assert_eq!(rt;
        answer(rt.alloc(), many.as_slice())?.as_str(),
        "Variables 2:1"
    );
    let large = doubling(rt.alloc(), 60)?;
    assert_eq!(rt; answer(rt.alloc(), large.as_slice())?.as_str(), "Size 3:2");
    let small = doubling(rt.alloc(), 4)?;
    assert_eq!(rt;
        answer(rt.alloc(), small.as_slice())?.as_str(),
        "Int 3:2 1 1"
    );
    Ok(())
}
