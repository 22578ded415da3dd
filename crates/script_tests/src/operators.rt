use lin_term::Sort;
use smt_lex::{Token, TokenKind};
use smt_term::*;
use std::alloc::{AllocError, Global};

// Each line is an operator, and the least and the greatest number of its arguments in a logic of reals and in one of
// integers: `-` where there is no greatest, and `none` where the logic lacks it.
const OPERATORS: &str = "\
not 1 1 1 1
and 1 - 1 -
or 1 - 1 -
xor 2 - 2 -
=> 2 - 2 -
= 2 - 2 -
distinct 2 - 2 -
ite 3 3 3 3
< 2 - 2 -
<= 2 - 2 -
> 2 - 2 -
>= 2 - 2 -
+ 2 - 2 -
- 1 - 1 -
* 2 - 2 -
/ 2 - none
div none 2 -
mod none 2 2
abs none 1 1
let none none
divisible none none
";

fn bounds(alloc: Global, logic: Sort, name: &[u8]) -> Result<String, AllocError> {
    match operator_named(logic, name) {
        None => format!(in alloc; "none"),
        Some(op) => match op.most {
            None => format!(in alloc; "{} -", op.least),
            Some(most) => format!(in alloc; "{} {most}", op.least),
        },
    }
}

#[test]
fn operators_of_logics(rt: HostRuntime) -> Result<(), AllocError> {
    for line in OPERATORS.lines() {
        let (name, wanted) = match line.split_once(' ') {
            Some((name, wanted)) => (name, wanted),
            None => (line, ""),
        };
        let reals = bounds(rt.alloc(), Sort::Rat, name.as_bytes())?;
        let integers = bounds(rt.alloc(), Sort::Int, name.as_bytes())?;
        let both = format!(in rt.alloc(); "{reals} {integers}")?;
        assert_eq!(rt; both.as_str(), wanted, "at {name}");
    }
    Ok(())
}

fn token<'a>(kind: TokenKind, text: &'a [u8]) -> Token<'a> {
    Token {
        kind,
        line: 3,
        column: 7,
        text,
    }
}

fn whole(text: &[u8]) -> Option<u64> {
    match numeral(&token(TokenKind::Numeral, text)) {
        Ok(number) => Some(number),
        Err(_) => None,
    }
}

fn fraction(text: &[u8]) -> Option<(i64, i64)> {
    match decimal(&token(TokenKind::Decimal, text)) {
        Ok(value) => Some(value),
        Err(_) => None,
    }
}

#[test]
fn numbers(rt: HostRuntime) {
    assert!(rt;
        whole(b"0") == Some(0) && whole(b"4503599627370496") == Some(4_503_599_627_370_496)
    );
    assert!(rt; whole(b"4503599627370497").is_none());
    assert!(rt; fraction(b"1.50") == Some((3, 2)) && fraction(b"0.0") == Some((0, 1)));
    assert!(rt; fraction(b"4503599627370496.0") == Some((4_503_599_627_370_496, 1)));
    assert!(rt; fraction(b"0.00000000000000000000000000000000000001").is_none());
    assert!(rt; fraction(b"0.5000000000000000000000000000000000000000") == Some((1, 2)));
    assert!(rt; fraction(b"1.00000000000000000000000000000000000001").is_none());
}
