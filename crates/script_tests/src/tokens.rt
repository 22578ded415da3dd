use crate::escaped::decoded;
use smt_lex::*;
use ss_names::ScriptFault;
use std::alloc::Global;
use std::test::Fail;

// Each line is a script, in which %XX stands for a byte, and then its tokens and its fault with their places. The texts
// of tokens are written in the same way. A lone % is the script of no bytes.
const VECTORS: &str = "\
%
%20%09%0D%0A
;%20only%20a%20comment
;%20a%20comment%0Ax Symbol:2:1:x
( Left:1:1:(
) Right:1:1:)
() Left:1:1:( Right:1:2:)
(a%20b) Left:1:1:( Symbol:1:2:a Symbol:1:4:b Right:1:5:)
abc Symbol:1:1:abc
|abc| Quoted:1:1:abc
|| Quoted:1:1:
|a%20b%0Ac|%20d Quoted:1:1:a%20b%0Ac Symbol:2:4:d
|a%5Cb| Token:1:1
|open Token:1:1
x|y|z Symbol:1:1:x Quoted:1:2:y Symbol:1:5:z
%22abc%22 Text:1:1:abc
%22%22 Text:1:1:
%22a%22%22b%22 Text:1:1:a%22%22b
%22a%22%20%22b%22 Text:1:1:a Text:1:5:b
%22a%22%22 Token:1:1
%22 Token:1:1
%22open%0Aline Token:1:1
%22a%5Cnb%22 Text:1:1:a%5Cnb
%22%00%01%FF%22%20y Text:1:1:%00%01%FF Symbol:1:7:y
|%80%FF| Quoted:1:1:%80%FF
;%20%FF%00%0A( Left:2:1:(
a%FFb Token:1:1
%00 Token:1:1
%7F Token:1:1
0 Numeral:1:1:0
01 Token:1:1
00 Token:1:1
10 Numeral:1:1:10
7%208 Numeral:1:1:7 Numeral:1:3:8
1.5 Decimal:1:1:1.5
1.50 Decimal:1:1:1.50
0.0 Decimal:1:1:0.0
01.5 Token:1:1
1. Token:1:1
.5 Symbol:1:1:.5
1.5.6 Token:1:1
1a Token:1:1
#x Token:1:1
#xfF09 Hexadecimal:1:1:#xfF09
#xfg Token:1:1
#b Token:1:1
#b0110 Binary:1:1:#b0110
#b012 Token:1:1
#o17 Token:1:1
# Token:1:1
: Token:1:1
:k Keyword:1:1::k
:1a Keyword:1:1::1a
:a:b Token:1:1
a:b Token:1:1
:print-success Keyword:1:1::print-success
~!@$%25^&*_-+=<>.?/ Symbol:1:1:~!@$%25^&*_-+=<>.?/
- Symbol:1:1:-
=> Symbol:1:1:=>
a;b%0Ac Symbol:1:1:a Symbol:2:1:c
'a Token:1:1
a,b Token:1:1
[x] Token:1:1
{ Token:1:1
` Token:1:1
a%0D%0Ab Symbol:1:1:a Symbol:2:1:b
%0D%0D%0A%09b Symbol:2:2:b
(x)%0A%20%20(y) Left:1:1:( Symbol:1:2:x Right:1:3:) Left:2:3:( Symbol:2:4:y Right:2:5:)
a(b)c Symbol:1:1:a Left:1:2:( Symbol:1:3:b Right:1:4:) Symbol:1:5:c
a%22b%22c Symbol:1:1:a Text:1:2:b Symbol:1:5:c
a%20b%0A%20cc%20%20d Symbol:1:1:a Symbol:1:3:b Symbol:2:2:cc Symbol:2:6:d
ok%20bad%01 Symbol:1:1:ok Token:1:4
1%2002%20x Numeral:1:1:1 Token:1:3
let Symbol:1:1:let
|let| Quoted:1:1:let
(set-logic%20LRA)%0A(declare-const%20x%20Real)%0A(assert%20(<%20x%204503599627370496))%0A(check-sat)%0A Left:1:1:( Symbol:1:2:set-logic Symbol:1:12:LRA Right:1:15:) Left:2:1:( Symbol:2:2:declare-const Symbol:2:16:x Symbol:2:18:Real Right:2:22:) Left:3:1:( Symbol:3:2:assert Left:3:9:( Symbol:3:10:< Symbol:3:12:x Numeral:3:14:4503599627370496 Right:3:30:) Right:3:31:) Left:4:1:( Symbol:4:2:check-sat Right:4:11:)
(assert%20(=%20|x%20y|%20%22a%22%22b%22%20#b01%201.25%20:named)) Left:1:1:( Symbol:1:2:assert Left:1:9:( Symbol:1:10:= Quoted:1:12:x%20y Text:1:18:a%22%22b Binary:1:25:#b01 Decimal:1:30:1.25 Keyword:1:35::named Right:1:41:) Right:1:42:)
%EF%BB%BFx Token:1:1
a%0Bb Token:1:1
a%0Cb Token:1:1
|a;b| Quoted:1:1:a;b
%22a;b%22%20c Text:1:1:a;b Symbol:1:7:c
;%20%22open%0A|x| Quoted:2:1:x
";

fn push_bytes(alloc: Global, out: &mut String, bytes: &[u8]) -> Result<(), Fail> {
    for b in bytes {
        if b.is_ascii_graphic() && *b != b'%' && *b != b'"' && *b != b'\\' {
            out.push(char::from(*b))?;
        } else {
            let text = format!(in alloc; "%{:02X}", *b)?;
            out.push_str(text.as_str())?;
        }
    }
    Ok(())
}

fn rendered(alloc: Global, script: &[u8]) -> Result<String, Fail> {
    let mut out = String::new(alloc);
    for found in tokens_of(script) {
        match found {
            Ok(token) => {
                let place = format!(in alloc;
                    " {:?}:{}:{}:",
                    token.kind, token.line, token.column
                )?;
                out.push_str(place.as_str())?;
                push_bytes(alloc, &mut out, token.text)?;
            }
            Err(ScriptFault::Bad { kind, line, column }) => {
                let fault = format!(in alloc; " {}:{}:{}", kind.name(), line, column)?;
                out.push_str(fault.as_str())?;
            }
            Err(ScriptFault::Memory) => return Err("no memory".into()),
        }
    }
    Ok(out)
}

#[test]
fn vectors(rt: HostRuntime) -> Result<(), Fail> {
    for line in VECTORS.lines() {
        let (input, wanted) = match line.split_once(' ') {
            Some((input, wanted)) => (input, wanted),
            None => (line, ""),
        };
        let script = decoded(rt.alloc(), input)?;
        let out = rendered(rt.alloc(), script.as_slice())?;
        assert_eq!(rt; out.as_str().trim_start(), wanted, "at {input}");
    }
    Ok(())
}

#[test]
fn none_behind_a_fault(rt: HostRuntime) {
    let mut tokens = tokens_of(b"a 01 b");
    assert!(rt; matches!(tokens.next(), Some(Ok(_))));
    assert!(rt; matches!(tokens.next(), Some(Err(_))));
    assert!(rt; tokens.next().is_none());
    assert!(rt; tokens.next().is_none());
}
