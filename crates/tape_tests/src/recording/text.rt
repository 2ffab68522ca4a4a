use tape_core::limits::LAST_MOMENT;
use tape_core::text::{next_field, next_line, only_field, position_of, read_number};

#[test]
fn lines_and_fields(rt: HostRuntime) {
    let (line, rest) = next_line(b" a\tbc \n\nd");
    assert_eq!(rt; line, b" a\tbc ".as_slice());
    assert_eq!(rt; rest, b"\nd".as_slice());
    assert_eq!(rt;
        next_field(line),
        Some((b"a".as_slice(), b"\tbc ".as_slice()))
    );
    assert_eq!(rt; only_field(line), None);
    assert_eq!(rt; only_field(b"\tbc "), Some(b"bc".as_slice()));
    assert_eq!(rt; only_field(b" \t"), None);
    assert_eq!(rt; position_of(line, b'b'), 3);
    assert_eq!(rt; position_of(line, b'\n'), line.len());
}

#[test]
fn numbers(rt: HostRuntime) {
    let rows: [(&[u8], Option<u64>); 8] = [
        (b"0", Some(0)),
        (b"007", Some(7)),
        (b"1000000000000000000", Some(LAST_MOMENT)),
        (b"1000000000000000001", Some(LAST_MOMENT)),
        (b"99999999999999999999999999", Some(LAST_MOMENT)),
        (b"", None),
        (b"-1", None),
        (b"1.0", None),
    ];
    for (text, n) in rows {
        assert_eq!(rt; read_number(text), n, "of {text:?}");
    }
}
