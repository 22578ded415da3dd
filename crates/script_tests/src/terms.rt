ghost use Rattle.std.specs.Prelude.{OnOk};
ghost use Rattle.smt_term.specs.Reads.{Fits};

use lin_term::Sort;
use lin_truth::{Term, VarSort};
use smt_term::*;
use smt_tree::{Expr, expressions_of};
use ss_names::ScriptFault;
use std::alloc::{AllocError, Global};
use std::test::Fail;
use symbol_table::{Known, Names};
use term_table::{Leaf, Node, Table};

// Each line is a logic, a command with a term, and then the term that is read, with `v` and a place for a variable, or
// its first fault. The constants x, y and b stand at the places 0, 1 and 2.
const TERMS: &str = "\
LRA (assert (< x 4503599627370496)) ==> (< v0 4503599627370496)
LRA (assert (< x 4503599627370497)) ==> Number 1 14
LRA (assert (< (* x y) 1)) ==> Linear 1 12
LRA (assert (< (/ x 0) 1)) ==> Divisor 1 12
LRA (assert (< x z)) ==> Symbol 1 14
LRA (assert (< b x)) ==> Sort 1 9
LRA (assert (< z)) ==> Symbol 1 12
LRA (assert (< b)) ==> Arity 1 9
LRA (assert (= x 1.50)) ==> (= v0 3/2)
LRA (assert (let ((x 1) (y x)) (< x y))) ==> (< 1 v0)
LRA (assert (let ((x 1)) (let ((x (+ x 1))) (= x y)))) ==> (= (+ 1 1) v1)
LRA (assert (and (let ((x y)) (< x 1)) (< x 1))) ==> (and (< v1 1) (< v0 1))
LRA (assert (let ((z 1) (z 2)) b)) ==> Symbol 1 22
LRA (assert (let ((z 1) (w z)) b)) ==> Symbol 1 24
LRA (assert (let () b)) ==> Sort 1 14
LRA (assert (let ((z)) b)) ==> Sort 1 15
LRA (assert (let ((z 1)))) ==> Arity 1 9
LRA (assert (let ((z 1)) b b)) ==> Arity 1 9
LRA (assert (let ((and 1)) b)) ==> Symbol 1 16
LRA (assert (forall ((z Real)) (exists ((w Real)) (<= w z)))) ==> (forall 1 (exists 1 (<= v4 v3)))
LRA (assert (exists ((z Real) (c Bool)) (= c (< z x)))) ==> (exists 2 (= v4 (< v3 v0)))
LRA (assert (and (forall ((x Real)) (< x y)) (< x y))) ==> (and (forall 1 (< v3 v1)) (< v0 v1))
LRA (assert (let ((u x)) (forall ((x Real)) (< u x)))) ==> (forall 1 (< v0 v3))
LRA (assert (forall ((z Real)) z)) ==> Sort 1 28
LRA (assert (forall ((z Int)) b)) ==> Sort 1 21
LRA (assert (forall ((z Real) (z Real)) b)) ==> Symbol 1 28
LRA (assert (! (< x y) :named a)) ==> (< v0 v1)
LRA (assert (! b)) ==> Arity 1 9
LRA (assert (=> b b b)) ==> (=> v2 (=> v2 v2))
LRA (assert (xor b b b)) ==> (xor (xor v2 v2) v2)
LRA (assert (< (- x y 1) 0)) ==> (< (- (- v0 v1) 1) 0)
LRA (assert (= x y 1)) ==> (and (= v0 v1) (= v1 1))
LRA (assert (distinct x y)) ==> (not (= v0 v1))
LRA (assert (distinct x y 1)) ==> (and (not (= v0 v1)) (not (= v0 1)) (not (= v1 1)))
LRA (assert (ite b (< x y) true)) ==> (ite v2 (< v0 v1) true)
LRA (assert ()) ==> Sort 1 9
LRA (assert (b)) ==> Arity 1 9
LRA (assert and) ==> Arity 1 9
LRA (assert |b|) ==> v2
LRA (assert :b) ==> Sort 1 9
LIA (assert ((_ divisible 2) x)) ==> (divisible 2 v0)
LIA (assert ((_ divisible 0) x)) ==> Divisor 1 9
LIA (assert ((_ divisible 2) b)) ==> Sort 1 9
LIA (assert ((_ foo 2) x)) ==> Symbol 1 13
LIA (assert (= x (+ 4503599627370496 1))) ==> Number 1 14
LIA (assert (= (div x y) 1)) ==> Linear 1 12
LIA (assert (= (mod x (- 3 3)) 1)) ==> Divisor 1 12
LIA (assert (= (abs x) 1.0)) ==> Sort 1 20
";

// A whole number, or a fraction.
fn put_ratio(alloc: Global, out: &mut String, num: i64, den: i64) -> Result<(), AllocError> {
    let text = if den == 1 {
        format!(in alloc; "{num}")?
    } else {
        format!(in alloc; "{num}/{den}")?
    };
    out.push_str(text.as_str())
}

// A variable by its place.
fn put_place(alloc: Global, out: &mut String, place: u32) -> Result<(), AllocError> {
    let text = format!(in alloc; "v{place}")?;
    out.push_str(text.as_str())
}

// The parenthesis and the word of a term with two arguments or of a binder.
fn opening(term: &Term) -> &'static str {
    match term {
        Term::Minus(_, _) => "(-",
        Term::Less(_, _) => "(<",
        Term::AtMost(_, _) => "(<=",
        Term::Equal(_, _) => "(=",
        Term::Xor(_, _) => "(xor",
        Term::Implies(_, _) => "(=>",
        Term::Forall(_, _) => "(forall",
        Term::Exists(_, _) => "(exists",
        _ => "(another",
    }
}

// A blank, and then the term, where it has no other operators than those of the table of terms.
#[cycle(put)]
fn put(alloc: Global, out: &mut String, term: &Term) -> Result<(), AllocError> {
    out.push_str(" ")?;
    match term {
        Term::True => out.push_str("true"),
        Term::Number { num, den } => put_ratio(alloc, out, *num, *den),
        Term::Var(place) => put_place(alloc, out, *place),
        Term::Not(a) => put_one(alloc, out, "(not", a.get()),
        Term::Divisible(n, a) => {
            let text = format!(in alloc; "(divisible {n}")?;
            put_one(alloc, out, text.as_str(), a.get())
        }
        Term::Minus(a, b)
        | Term::Less(a, b)
        | Term::AtMost(a, b)
        | Term::Equal(a, b)
        | Term::Xor(a, b)
        | Term::Implies(a, b) => {
            out.push_str(opening(term))?;
            put(alloc, out, a.get())?;
            put(alloc, out, b.get())?;
            out.push_str(")")
        }
        Term::Ite(c, a, b) => {
            out.push_str("(ite")?;
            put(alloc, out, c.get())?;
            put(alloc, out, a.get())?;
            put(alloc, out, b.get())?;
            out.push_str(")")
        }
        Term::Plus(parts) => put_all(alloc, out, "(+", parts.as_slice()),
        Term::And(parts) => put_all(alloc, out, "(and", parts.as_slice()),
        Term::Forall(sorts, body) | Term::Exists(sorts, body) => {
            let text = format!(in alloc; "{} {}", opening(term), sorts.len())?;
            put_one(alloc, out, text.as_str(), body.get())
        }
        _ => out.push_str("another"),
    }
}

#[cycle(put)]
fn put_one(alloc: Global, out: &mut String, word: &str, a: &Term) -> Result<(), AllocError> {
    out.push_str(word)?;
    put(alloc, out, a)?;
    out.push_str(")")
}

#[cycle(put)]
fn put_all(alloc: Global, out: &mut String, word: &str, parts: &[Term]) -> Result<(), AllocError> {
    out.push_str(word)?;
    for part in parts {
        put(alloc, out, part)?;
    }
    out.push_str(")")
}

// A term that was read, with a blank before it, or its fault.
fn shown(
    alloc: Global,
    reader: &Reader<'_>,
    read: Result<Seen, ScriptFault>,
) -> Result<String, Fail> {
    match read {
        Ok(seen) => {
            let term = reader.table.tree(seen.node, 3)?;
            let mut out = String::new(alloc);
            put(alloc, &mut out, &term)?;
            Ok(out)
        }
        Err(ScriptFault::Bad { kind, line, column }) => {
            Ok(format!(in alloc; " {} {line} {column}", kind.name())?)
        }
        Err(ScriptFault::Memory) => Err("no memory".into()),
    }
}

fn add_constant<'a>(
    reader: &mut Reader<'a>,
    name: &'a [u8],
    sort: VarSort,
    place: u32,
) -> Result<(), Fail>
    requires { Fits reader.old }
    ensures { OnOk result (Fits reader.new) }
{
    let node = reader.table.add(Node::Leaf(Leaf::Constant(place)))?;
    let known = Known {
        sort,
        node,
        signature: 0,
    };
    match reader.names.push(name, known) {
        Ok(_) => Ok(()),
        Err(_) => Err("no memory".into()),
    }
}

fn read_line<'a>(alloc: Global, logic: Sort, line: &'a str) -> Result<String, Fail> {
    let mut reader = Reader {
        alloc,
        logic,
        table: Table::new(alloc),
        names: Names::new(alloc),
        signatures: Vec::new(alloc),
        around: 0,
    };
    add_constant(&mut reader, b"x", VarSort::Number, 0)?;
    add_constant(&mut reader, b"y", VarSort::Number, 1)?;
    add_constant(&mut reader, b"b", VarSort::Bool, 2)?;
    let mut expressions = expressions_of(alloc, line.as_bytes());
    match expressions.next() {
        Some(Ok(Expr::List { items, .. })) => match items.as_slice() {
            [_, body] => {
                let read = reader.term(body);
                shown(alloc, &reader, read)
            }
            _ => Err("no command".into()),
        },
        _ => Err("no list".into()),
    }
}

#[test]
fn terms_of_lines(rt: HostRuntime) -> Result<(), Fail> {
    for line in TERMS.lines() {
        let (logic, rest) = match line.split_once(' ') {
            Some((logic, rest)) => (logic, rest),
            None => (line, ""),
        };
        let (text, wanted) = match rest.split_once(" ==>") {
            Some((text, wanted)) => (text, wanted),
            None => (rest, ""),
        };
        let sort = if logic == "LIA" { Sort::Int } else { Sort::Rat };
        let out = read_line(rt.alloc(), sort, text)?;
        assert_eq!(rt; out.as_str(), wanted, "at {text}");
    }
    Ok(())
}
