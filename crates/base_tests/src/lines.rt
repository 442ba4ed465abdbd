//! Statements joined of lines, and what is broken first.

use caf_base::place::Pos;
use caf_base::refusal::Refusal;
use fortran_lines::join_lines;
use std::alloc::Global;
use std::process::Abort;

// The texts of the statements, with a bar behind each, or what is refused.
fn joined<R: Abort>(rt: &R, alloc: Global, source: &[u8]) -> Vec<u8> {
    assert!(rt; source.len() < 2_000);
    let mut all = Vec::new(alloc);
    match join_lines(alloc, source) {
        Ok(stmts) => {
            for stmt in &stmts {
                all.extend_from_slice(stmt.text.as_slice())
                    .expect(rt, "memory");
                all.push(b'|').expect(rt, "memory");
            }
        }
        Err(Refusal::Cause(fault)) => {
            let said = format!(in alloc; "{fault}").expect(rt, "memory");
            all.extend_from_slice(said.as_bytes()).expect(rt, "memory");
        }
        Err(Refusal::NoMemory) => panic!(rt; "memory"),
    }
    all
}

#[test]
fn lines_are_joined_or_refused(rt: HostRuntime) {
    let cases = [
        ("a = 1\nb = 2", "a = 1|b = 2|"),
        ("a = & ! one\n\n ! two\n & 1\r\n", "a =  1|"),
        ("a = &\n1\n", "a =  1|"),
        ("a=1;; b=2 ; ! c\n", "a=1| b=2 |"),
        ("print *, 'it''s; & !'\n", "print *, 'it''s; & !'|"),
        ("print *, 'it&\n\n!c\n  &''s'", "print *, 'it''s'|"),
        ("print *, 'it'&\n&'s;'\n", "print *, 'it''s;'|"),
        ("a = &\n & ! alone\n & 1", "a =  1|"),
        ("&\na", " a|"),
        ("a\tb\rc ! é", "a\tb\rc |"),
        ("\n  \n! only\n;;\n", ""),
        ("a\n b = 'é' ! é\n", "NotAscii at 2:7"),
        ("a = 1 + & ! c\n\n  ! d", "DanglingContinuation at 1:9"),
        ("a = 'it&\n  ! d", "DanglingContinuation at 1:8"),
        ("a = 'it''s & ! d\n&", "OpenLiteral at 1:5"),
        ("a = 'it&\n\nb = 'é'", "OpenLiteral at 1:5"),
        ("a = 'it'&\n&'s", "OpenLiteral at 1:5"),
    ];
    for (source, wanted) in cases {
        let got = joined(&rt, rt.alloc(), source.as_bytes());
        assert_eq!(rt; got.as_slice(), wanted.as_bytes());
    }
}

#[test]
fn bytes_have_places(rt: HostRuntime) {
    let stmts = join_lines(rt.alloc(), b"a&\n &b; c").expect(&rt, "memory");
    assert_eq!(rt; stmts.len(), 2);
    let first = stmts[0].at.as_slice();
    assert_eq!(rt;
        first,
        [Pos { line: 1, col: 1 }, Pos { line: 2, col: 3 }].as_slice()
    );
    let second = stmts[1].at.as_slice();
    assert_eq!(rt;
        second,
        [Pos { line: 2, col: 5 }, Pos { line: 2, col: 6 }].as_slice()
    );
}

#[test]
fn a_long_line_is_refused(rt: HostRuntime) {
    let mut source = vec![in rt.alloc(); b' '; 1_000].expect(&rt, "memory");
    let kept = joined(&rt, rt.alloc(), source.as_slice());
    assert_eq!(rt; kept.as_slice(), b"".as_slice());
    source.push(b'!').expect(&rt, "memory");
    let refused = joined(&rt, rt.alloc(), source.as_slice());
    assert_eq!(rt; refused.as_slice(), b"LineTooLong at 1:1001".as_slice());
}
