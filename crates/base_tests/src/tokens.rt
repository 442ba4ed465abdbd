//! The tokens of a statement, or its fault.

ghost use Rattle.std.specs.Prelude.{◌<◌, length};

use caf_base::refusal::Refusal;
use fortran_lines::{Stmt, join_lines};
use fortran_tokens::tokens;
use std::alloc::Global;
use std::process::Abort;

// Appends each token as its text with a bar behind it, or the fault.
fn show<R: Abort>(rt: &R, alloc: Global, stmt: &Stmt, out: &mut Vec<u8>)
    requires { length stmt.now.text < 4294967295 }
{
    match tokens(alloc, stmt) {
        Ok(all) => {
            for token in &all {
                let range = token.from as usize..token.to as usize;
                let text = stmt.text.as_slice().get(range).unwrap_or(b"?");
                out.extend_from_slice(text).expect(rt, "memory");
                out.push(b'|').expect(rt, "memory");
            }
        }
        Err(Refusal::Cause(fault)) => {
            let said = format!(in alloc; "{fault}").expect(rt, "memory");
            out.extend_from_slice(said.as_bytes()).expect(rt, "memory");
        }
        Err(Refusal::NoMemory) => panic!(rt; "memory"),
    }
}

// The tokens of the first statement.
fn shown<R: Abort>(rt: &R, alloc: Global, source: &[u8]) -> Vec<u8> {
    assert!(rt; source.len() < 1_000);
    let stmts = join_lines(alloc, source).expect(rt, "statements");
    let mut out = Vec::new(alloc);
    if let Some(stmt) = stmts.as_slice().first() {
        assert!(rt; stmt.text.len() < 1_000);
        show(rt, alloc, stmt, &mut out);
    }
    out
}

#[test]
fn statements_are_cut_or_refused(rt: HostRuntime) {
    let cases = [
        ("x=y", "x|=|y|"),
        ("a_1**b/=c", "a_1|**|b|/=|c|"),
        ("a.EQ.b .and.c==.not.d", "a|.EQ.|b|.and.|c|==|.not.|d|"),
        ("1.eq.2_8+3_k4", "1|.eq.|2_8|+|3_k4|"),
        ("1_44", "1_4|4|"),
        ("x(1::2)=[(/1/)]", "x|(|1|:|:|2|)|=|[|(/|1|/)|]|"),
        ("integer)::x", "integer|)|::|x|"),
        ("print *,'it''s',\"a'b\"", "print|*|,|'it''s'|,|\"a'b\"|"),
        ("a<=b\t>c", "a|<=|b|>|c|"),
        ("use m,y=>x", "use|m|,|y|=>|x|"),
        ("a==>b= >c", "a|==|>|b|=|>|c|"),
        ("0009223372036854775807", "0009223372036854775807|"),
        ("x = 1.5", "BadCharacter at 1:6"),
        ("a .foo. b", "BadCharacter at 1:3"),
        ("x = 1_5", "BadCharacter at 1:6"),
        ("a = b % c", "BadCharacter at 1:7"),
        ("& a = b", "BadCharacter at 1:1"),
        ("x = 'a\x01'", "BadCharacter at 1:7"),
        ("x = 09223372036854775808", "NumberTooWide at 1:5"),
        (
            "abcdefghijabcdefghijabcdefghijabcdefghijabcdefghijabcdefghijabcd",
            "BadCharacter at 1:64",
        ),
    ];
    for (source, wanted) in cases {
        let got = shown(&rt, rt.alloc(), source.as_bytes());
        assert_eq!(rt; got.as_slice(), wanted.as_bytes());
    }
}
