ghost use Rattle.lin_term.specs.Form.{IsRow};

use cube_rules::*;
use lin_term::{Lit, Memory, Row, Sort};
use smallvec::SmallVec;
use std::alloc::Global;
use std::test::Fail;

/// A literal row >= 0.
fn at_least(alloc: Global, coefs: &[(u32, i64)], constant: i64) -> Result<Lit, Memory>
    requires { IsRow (record { terms = coefs.now; constant = constant }) }
{
    let coefs = SmallVec::from_slice(alloc, coefs)?;
    Ok(Lit::AtLeast(Row::from_parts(coefs, constant)))
}

/// Whether the literal is row >= 0.
fn is_at_least(lit: &Lit, coefs: &[(u32, i64)], constant: i64) -> bool {
    match lit {
        Lit::AtLeast(row) => row.coefs() == coefs && row.constant_part() == constant,
        _ => false,
    }
}

/// The sum of primitive literals, where the line is within its bounds.
fn sum(
    alloc: Global,
    sort: Sort,
    p: i64,
    a: &Lit,
    q: i64,
    b: &Lit,
    g: i128,
) -> Result<Option<Lit>, Memory> {
    if !literal_within(a) || !literal_within(b) || !within(&Step::Sum(p, 0, q, 1, g)) {
        return Ok(None);
    }
    if !is_primitive_literal(alloc, sort, a)? || !is_primitive_literal(alloc, sort, b)? {
        return Ok(None);
    }
    summed(alloc, sort, p, a, q, b, g)
}

#[test]
fn sums(rt: HostRuntime) -> Result<(), Fail> {
    let alloc = rt.alloc();
    let a = at_least(alloc, &[(0, 1), (1, -1)], 0)?;
    let b = at_least(alloc, &[(0, -1), (1, 1)], -1)?;
    for (p, g) in [(0, 1), (-1, 1), (1, 2)] {
        assert!(rt; sum(alloc, Sort::Rat, p, &a, 1, &b, g)?.is_none());
    }
    match sum(alloc, Sort::Rat, 1, &a, 1, &b, 1)? {
        Some(c) => assert!(rt; is_at_least(&c, &[], -1) && is_false_literal(&c)),
        None => assert!(rt; false),
    }
    let a = at_least(alloc, &[(0, 1), (1, -2)], -1)?;
    let b = at_least(alloc, &[(0, 1), (1, 2)], 0)?;
    assert!(rt; sum(alloc, Sort::Int, 1, &a, 1, &b, 1)?.is_none());
    match sum(alloc, Sort::Int, 1, &a, 1, &b, 2)? {
        Some(c) => assert!(rt; is_at_least(&c, &[(0, 1)], -1) && !is_false_literal(&c)),
        None => assert!(rt; false),
    }
    let n = 4_503_599_627_370_496;
    let a = at_least(
        alloc,
        &[(0, -4_503_599_627_370_491), (1, 4_503_599_627_370_493)],
        -1,
    )?;
    let b = at_least(
        alloc,
        &[(0, 4_503_599_627_370_495), (1, -4_503_599_627_370_494)],
        -1,
    )?;
    assert!(rt; sum(alloc, Sort::Rat, n - 2, &a, n - 3, &b, 1)?.is_none());
    Ok(())
}

/// The two parts of a split over this many variables.
fn split(alloc: Global, sort: Sort, nodes: u32, lit: &Lit) -> Result<Option<(Lit, Lit)>, Memory> {
    if !literal_within(lit) {
        return Ok(None);
    }
    split_in_two(alloc, sort, nodes, lit)
}

#[test]
fn splits(rt: HostRuntime) -> Result<(), Fail> {
    let alloc = rt.alloc();
    let a = at_least(alloc, &[(0, 1)], -1)?;
    match split(alloc, Sort::Int, 1, &a)? {
        Some((b, c)) => {
            assert!(rt; is_at_least(&b, &[(0, 1)], -1) && is_at_least(&c, &[(0, -1)], 0));
        }
        None => assert!(rt; false),
    }
    assert!(rt; split(alloc, Sort::Int, 0, &a)?.is_none());
    let a = at_least(alloc, &[(0, 2)], -1)?;
    assert!(rt; split(alloc, Sort::Int, 1, &a)?.is_none());
    assert!(rt; split(alloc, Sort::Rat, 1, &a)?.is_some());
    assert!(rt; rule_of_step(&Step::Split(a)) == Rule::Line(Kind::Split));
    Ok(())
}
