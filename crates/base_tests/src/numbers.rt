//! Numbers and logicals as text.

use caf_text::{push_i_format, push_logical, push_number};

#[test]
fn numbers_are_written_in_their_fields(rt: HostRuntime) {
    let rows = [
        (42, 4, ":  42"),
        (123, 2, ":**"),
        (-7, 0, ":-7"),
        (0, 0, ":0"),
        (-12, 3, ":-12"),
        (-12, 2, ":**"),
        (2_147_483_647, 11, ": 2147483647"),
        (-2_147_483_648, 0, ":-2147483648"),
        (i64::MAX, 19, ":9223372036854775807"),
        (i64::MIN, 0, ":-9223372036854775808"),
    ];
    for (v, w, want) in rows {
        let mut out = b":".to_vec(rt.alloc()).expect(&rt, "memory");
        push_i_format(&mut out, v, w).expect(&rt, "memory");
        assert_eq!(rt; out.as_slice(), want.as_bytes(), "at {want}");
    }
}

#[test]
fn plain_numbers_and_logicals_are_appended(rt: HostRuntime) {
    let mut out = Vec::new(rt.alloc());
    push_number(&mut out, i64::MIN).expect(&rt, "memory");
    push_logical(&mut out, true).expect(&rt, "memory");
    push_logical(&mut out, false).expect(&rt, "memory");
    push_number(&mut out, 30).expect(&rt, "memory");
    assert_eq!(rt; out.as_slice(), b"-9223372036854775808TF30".as_slice());
}
