ghost use Rattle.std.specs.Prelude.{◌≡◌, ◌≢◌, ◌≤◌, ℕ, ℤ, pos, nat_abs, IfOk, [], ◌∷◌};
ghost use Rattle.lin_term.specs.Form.{Form, cap};
ghost use Rattle.lin_term.specs.Literal.{IsPrimitive};
ghost use Rattle.lin_term.specs.Linear.{Below};
ghost use Rattle.lin_term.specs.Primable.{IsPrimable};
ghost use Rattle.lin_term.specs.Sum.{IsInequality};

use lin_term::{
    CAP, CombineFault, Defined, Lit, Memory, Move, Row, Short, Sort, Wide, closed_truth, combine,
    definition_literals, negate, primitive, substitute,
};
use smallvec::SmallVec;
use std::alloc::Global;

/// The row of one coefficient of variable 0, unless it is 0.
fn line(alloc: Global, a: i64, c: i64) -> Result<Row, Memory>
    requires a_nonzero { a ≢ pos 0 }
    requires a_kept { nat_abs a ≤ cap }
    requires c_kept { nat_abs c ≤ cap }
    ensures { IfOk result (λ r. r ≡ record { terms = (0, a) ∷ []; constant = c }) }
{
    let coefs = SmallVec::from_slice(alloc, &[(0, a)])?;
    Ok(Row::from_parts(coefs, c))
}

/// The row a*x0 + b*x1 + c.
fn plane(alloc: Global, a: i64, b: i64, c: i64) -> Result<Row, Memory>
    requires a_nonzero { a ≢ pos 0 }
    requires b_nonzero { b ≢ pos 0 }
    requires a_kept { nat_abs a ≤ cap }
    requires b_kept { nat_abs b ≤ cap }
    requires c_kept { nat_abs c ≤ cap }
    ensures { IfOk result (λ r. r ≡ record { terms = (0, a) ∷ (1, b) ∷ []; constant = c }) }
{
    let coefs = SmallVec::from_slice(alloc, &[(0, a), (1, b)])?;
    Ok(Row::from_parts(coefs, c))
}

/// Whether the row has these numbers.
fn has_parts(row: &Row, coefs: &[(u32, i64)], constant: i64) -> bool {
    row.coefs() == coefs && row.constant_part() == constant
}

/// Whether the literal is row >= 0 with these numbers.
fn is_at_least(lit: &Lit, coefs: &[(u32, i64)], constant: i64) -> bool {
    match lit {
        Lit::AtLeast(row) => has_parts(row, coefs, constant),
        _ => false,
    }
}

/// Whether the answer is that number past the cap.
fn is_wide(answer: &Result<Lit, Short<Wide>>, number: i128) -> bool {
    match answer {
        Err(Short::Fault(wide)) => wide.number == number,
        _ => false,
    }
}

/// row >= 0 in primitive form.
fn made(alloc: Global, sort: Sort, row: Row) -> Result<Lit, Short<Wide>>
    ensures primitive { IfOk result (λ l. IsPrimitive sort l) }
    ensures inequality { IfOk result IsInequality }
    ensures primable { IfOk result (λ l. IsPrimable sort l) }
{
    primitive(alloc, sort, Lit::AtLeast(row))
}

/// Whether the move is that row over that divisor.
fn is_move(term: &Move, coefs: &[(u32, i64)], constant: i64, div: i64) -> bool {
    has_parts(term.row(), coefs, constant) && term.div() == div
}

/// The definition at node 9 of a move over two variables, at the names 3 and 7; none where it is not kept.
fn defined_at_nine(alloc: Global, sort: Sort, term: &Move) -> Result<Option<Defined>, Memory>
    requires { Below 2 term.now.numer }
{
    if !term.is_kept(sort) {
        return Ok(None);
    }
    Ok(Some(definition_literals(alloc, sort, term, 9, &[3, 7])?))
}

#[test]
fn sums(rt: HostRuntime) {
    let alloc = rt.alloc();
    let a = plane(alloc, 5 - CAP, CAP - 3, -1).expect(&rt, "memory");
    let a = made(alloc, Sort::Rat, a).expect(&rt, "kept");
    let b = plane(alloc, CAP - 1, 2 - CAP, -1).expect(&rt, "memory");
    let b = made(alloc, Sort::Rat, b).expect(&rt, "kept");
    match combine(alloc, Sort::Rat, CAP - 2, &a, CAP - 3, &b, 1) {
        Err(fault) => assert!(rt;
            fault
                == CombineFault::Wide {
                    number: 13_510_798_882_111_481
                }
        ),
        Ok(_) => panic!(rt; "a number is past the cap"),
    }
    let a = plane(alloc, 1, -2, -1).expect(&rt, "memory");
    let a = made(alloc, Sort::Int, a).expect(&rt, "kept");
    let b = plane(alloc, 1, 2, 0).expect(&rt, "memory");
    let b = made(alloc, Sort::Int, b).expect(&rt, "kept");
    match combine(alloc, Sort::Int, 1, &a, 1, &b, 1) {
        Err(fault) => assert!(rt; fault == CombineFault::Divisor),
        Ok(_) => panic!(rt; "1 is not the divisor"),
    }
    let sum = combine(alloc, Sort::Int, 1, &a, 1, &b, 2).expect(&rt, "2 is the divisor");
    assert!(rt; is_at_least(&sum, &[(0, 1)], -1));
}

#[test]
fn primitive_forms(rt: HostRuntime) {
    let alloc = rt.alloc();
    let half = line(alloc, 2, -1).expect(&rt, "memory");
    let half = made(alloc, Sort::Int, half).expect(&rt, "kept");
    assert!(rt; is_at_least(&half, &[(0, 1)], -1));
    let not = negate(alloc, Sort::Int, &half).expect(&rt, "kept");
    assert!(rt; is_at_least(&not, &[(0, -1)], 0));
    let low = plane(alloc, 3, -3, -1).expect(&rt, "memory");
    let low = made(alloc, Sort::Int, low).expect(&rt, "kept");
    assert!(rt; is_at_least(&low, &[(0, 1), (1, -1)], -1));
    let high = plane(alloc, -3, 3, 2).expect(&rt, "memory");
    let high = made(alloc, Sort::Int, high).expect(&rt, "kept");
    assert!(rt; is_at_least(&high, &[(0, -1), (1, 1)], 0));
    let strict = line(alloc, -1, -CAP).expect(&rt, "memory");
    assert!(rt;
        is_wide(
            &primitive(alloc, Sort::Int, Lit::Above(strict)),
            -4_503_599_627_370_497
        )
    );
    let strict = line(alloc, -2, -CAP).expect(&rt, "memory");
    let strict = primitive(alloc, Sort::Int, Lit::Above(strict)).expect(&rt, "kept");
    assert!(rt; is_at_least(&strict, &[(0, -1)], -2_251_799_813_685_249));
    let even = line(alloc, 6, 2).expect(&rt, "memory");
    match primitive(alloc, Sort::Int, Lit::Divides(4, even)) {
        Ok(Lit::Divides(d, row)) => {
            assert!(rt; d == 2 && is_at_least(&Lit::AtLeast(row), &[(0, 1)], 1));
        }
        _ => panic!(rt; "a divisibility"),
    }
}

#[test]
fn closed_literals(rt: HostRuntime) {
    let alloc = rt.alloc();
    let open = line(alloc, 1, 0).expect(&rt, "memory");
    assert!(rt; closed_truth(&Lit::AtLeast(open)) == None);
    assert!(rt; closed_truth(&Lit::AtLeast(Row::constant(alloc, -1))) == Some(false));
    assert!(rt; closed_truth(&Lit::AtLeast(Row::constant(alloc, 0))) == Some(true));
    assert!(rt; closed_truth(&Lit::Above(Row::constant(alloc, 0))) == Some(false));
    assert!(rt; closed_truth(&Lit::Divides(2, Row::constant(alloc, -4))) == Some(true));
    assert!(rt; closed_truth(&Lit::NotDivides(2, Row::constant(alloc, -4))) == Some(false));
}

#[test]
fn lowest_forms(rt: HostRuntime) {
    let alloc = rt.alloc();
    let row = plane(alloc, 4, -6, 9).expect(&rt, "memory");
    let third = Move::make(Sort::Int, row, 6).expect(&rt, "kept");
    assert!(rt; is_move(&third, &[(0, 2), (1, -3)], 4, 3) && third.is_kept(Sort::Int));
    let row = plane(alloc, 4, -6, 9).expect(&rt, "memory");
    let sixth = Move::make(Sort::Rat, row, 6).expect(&rt, "kept");
    assert!(rt; is_move(&sixth, &[(0, 4), (1, -6)], 9, 6) && sixth.is_kept(Sort::Rat));
    assert!(rt; !sixth.is_kept(Sort::Int));
    let below = Move::make(Sort::Int, Row::constant(alloc, -7), 3).expect(&rt, "kept");
    assert!(rt; is_move(&below, &[], -3, 1));
    let none = Move::make(Sort::Rat, Row::constant(alloc, 0), 5).expect(&rt, "kept");
    assert!(rt; is_move(&none, &[], 0, 1));
}

#[test]
fn wide_definitions(rt: HostRuntime) {
    let alloc = rt.alloc();
    let row = line(alloc, 1, -CAP).expect(&rt, "memory");
    match Move::make(Sort::Int, row, 2) {
        Err(wide) => assert!(rt; wide.number == 4_503_599_627_370_497),
        _ => panic!(rt; "a number of the definition is past the cap"),
    }
    let row = line(alloc, 2, -CAP).expect(&rt, "memory");
    let half = Move::make(Sort::Int, row, 4).expect(&rt, "kept");
    assert!(rt; is_move(&half, &[(0, 1)], -2_251_799_813_685_248, 2));
    let row = line(alloc, 1, -CAP).expect(&rt, "memory");
    let wide = Move::from_parts(row, 2);
    assert!(rt; wide.is_kept(Sort::Rat) && !wide.is_kept(Sort::Int));
}

#[test]
fn definitions(rt: HostRuntime) {
    let alloc = rt.alloc();
    let row = plane(alloc, 2, -3, 5).expect(&rt, "memory");
    let term = Move::from_parts(row, 4);
    match defined_at_nine(alloc, Sort::Int, &term) {
        Ok(Some(both)) => {
            assert!(rt; is_at_least(&both.upper, &[(3, -2), (7, 3), (9, 4)], -2));
            assert!(rt; is_at_least(&both.lower, &[(3, 2), (7, -3), (9, -4)], 5));
        }
        _ => panic!(rt; "the move is kept"),
    }
    match defined_at_nine(alloc, Sort::Rat, &term) {
        Ok(Some(both)) => {
            assert!(rt; is_at_least(&both.upper, &[(3, -2), (7, 3), (9, 4)], -5));
            assert!(rt; is_at_least(&both.lower, &[(3, 2), (7, -3), (9, -4)], 5));
        }
        _ => panic!(rt; "the move is kept"),
    }
}

#[test]
fn substitutions(rt: HostRuntime) {
    let alloc = rt.alloc();
    let row = line(alloc, 1, 1).expect(&rt, "memory");
    let half = Move::make(Sort::Int, row, 2).expect(&rt, "kept");
    let row = plane(alloc, -1, 2, 0).expect(&rt, "memory");
    let lit = made(alloc, Sort::Int, row).expect(&rt, "kept");
    let closed = substitute(alloc, Sort::Int, &lit, 1, &half, 1).expect(&rt, "kept");
    assert!(rt; is_at_least(&closed, &[], 0));
    let row = line(alloc, CAP - 3, 0).expect(&rt, "memory");
    let term = Move::make(Sort::Rat, row, CAP).expect(&rt, "kept");
    let row = plane(alloc, 1, CAP - 1, 1).expect(&rt, "memory");
    let lit = made(alloc, Sort::Rat, row).expect(&rt, "kept");
    assert!(rt;
        is_wide(
            &substitute(alloc, Sort::Rat, &lit, 1, &term, 0),
            20_282_409_603_651_656_913_148_369_174_531
        )
    );
    let kept = substitute(alloc, Sort::Rat, &lit, 2, &term, 0).expect(&rt, "kept");
    assert!(rt; is_at_least(&kept, &[(0, 1), (1, CAP - 1)], 1));
}

#[test]
fn coefficients(rt: HostRuntime) {
    let alloc = rt.alloc();
    let row = plane(alloc, 2, 3, 1).expect(&rt, "memory");
    let row = row.with(5, 7).expect(&rt, "memory");
    let row = row.with(1, -4).expect(&rt, "memory");
    assert!(rt; has_parts(&row, &[(0, 2), (1, -4), (5, 7)], 1));
    let row = row.with(0, 0).expect(&rt, "memory");
    let row = row.with(3, 0).expect(&rt, "memory");
    assert!(rt; has_parts(&row, &[(1, -4), (5, 7)], 1));
}
