use crate::escaped::decoded;
use smt_lex::TokenKind;
use smt_tree::*;
use ss_names::{FaultKind, ScriptFault};
use std::alloc::Global;
use std::test::Fail;

// Each line is a script, in which %XX stands for a byte, and then how many expressions come before its end or its fault,
// and the fault with its place. A lone % is the script of no bytes.
const VECTORS: &str = "\
% 0
%20;%20nothing%0A 0
() 1
(a) 1
(a)(b)%20(c) 3
(a%20(b%20(c)%20d)%20e) 1
( 0 Unclosed 1 1
(a 0 Unclosed 1 1
%0A%20(a%20(b) 0 Unclosed 2 2
(a)%0A(check-sat 1 Unclosed 2 1
) 0 Unclosed 1 1
a 0 Unclosed 1 1
(a)%20b 1 Unclosed 1 5
(a)) 1 Unclosed 1 4
(a)%20) 1 Unclosed 1 5
()()( 2 Unclosed 1 5
((()) 0 Unclosed 1 1
(a%2001) 0 Token 1 4
(a%20%22x) 0 Token 1 4
(a%20|x) 0 Token 1 4
(a%20;%20)%0A%20b) 1
(a%20%22)%22%20|)|%20b) 1
(exit)%20%22 1 Token 1 8
(exit)01 1 Token 1 7
(exit)%20(x%20%01) 1 Token 1 11
(a%00) 0 Token 1 2
%22a%22 0 Unclosed 1 1
|a| 0 Unclosed 1 1
1 0 Unclosed 1 1
:k 0 Unclosed 1 1
(a%20(b%2001 0 Token 1 7
(a%20(b)%2001 0 Token 1 8
(set-logic%20LRA)%0A(check-sat 1 Unclosed 2 1
(((((a))))) 1
(a)%0D%0A(b%0D%0A 1 Unclosed 2 1
(a)(b 1 Unclosed 1 4
";

// How many expressions come, and the fault behind them.
fn counted(alloc: Global, script: &[u8]) -> (u64, Option<(FaultKind, u64, u64)>) {
    let mut count: u64 = 0;
    for read in expressions_of(alloc, script) {
        match read {
            Ok(_) => count = count.wrapping_add(1),
            Err(ScriptFault::Bad { kind, line, column }) => {
                return (count, Some((kind, line, column)));
            }
            Err(ScriptFault::Memory) => return (u64::MAX, None),
        }
    }
    (count, None)
}

#[test]
fn vectors(rt: HostRuntime) -> Result<(), Fail> {
    for line in VECTORS.lines() {
        let (input, wanted) = match line.split_once(' ') {
            Some((input, wanted)) => (input, wanted),
            None => (line, ""),
        };
        let script = decoded(rt.alloc(), input)?;
        let out = match counted(rt.alloc(), script.as_slice()) {
            (count, None) => format!(in rt.alloc(); "{count}")?,
            (count, Some((kind, line, column))) => {
                format!(in rt.alloc(); "{count} {} {line} {column}", kind.name())?
            }
        };
        assert_eq!(rt; out.as_str(), wanted, "at {input}");
    }
    Ok(())
}

#[test]
fn parentheses(rt: HostRuntime) -> Result<(), Fail> {
    let mut script = vec![in rt.alloc(); b'('; 1024]?;
    script.extend_from_slice(&[b')'; 1024])?;
    assert!(rt; counted(rt.alloc(), script.as_slice()) == (1, None));
    let deep = vec![in rt.alloc(); b'('; 1025]?;
    assert!(rt; counted(rt.alloc(), deep.as_slice()) == (0, Some((FaultKind::Depth, 1, 1025))));
    Ok(())
}

fn is_leaf(item: &Expr<'_>, kind: TokenKind, column: u64, text: &[u8]) -> bool {
    match item {
        Expr::Leaf(token) => token.kind == kind && token.column == column && token.text == text,
        Expr::List { .. } => false,
    }
}

#[test]
fn items(rt: HostRuntime) -> Result<(), Fail> {
    let mut expressions = expressions_of(rt.alloc(), b"\n (a |b c| ()) \"");
    match expressions.next() {
        Some(
            Ok(
                Expr::List {
                    line,
                    column,
                    items,
                },
            ),
        ) => {
            assert!(rt; line == 2 && column == 2 && items.len() == 3);
            match items.as_slice() {
                [first, second, third] => {
                    assert!(rt; is_leaf(first, TokenKind::Symbol, 3, b"a"));
                    assert!(rt; is_leaf(second, TokenKind::Quoted, 5, b"b c"));
                    match third {
                        Expr::List { column, items, .. } => {
                            assert!(rt; *column == 11 && items.is_empty());
                        }
                        Expr::Leaf(_) => return Err("no list".into()),
                    }
                }
                _ => return Err("other items".into()),
            }
        }
        _ => return Err("no list".into()),
    }
    assert!(rt; matches!(expressions.next(), Some(Err(ScriptFault::Bad { .. }))));
    assert!(rt; expressions.next().is_none());
    Ok(())
}
