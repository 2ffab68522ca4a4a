use tape_core::{read_seconds, seconds_text};

#[test]
fn seconds_of_arguments(rt: HostRuntime) {
    let rows: [(&[u8], Option<u64>); 16] = [
        (b"0", Some(0)),
        (b"7", Some(7_000_000)),
        (b"0.5", Some(500_000)),
        (b"5.", Some(5_000_000)),
        (b"00.10", Some(100_000)),
        (b"0.4999999", Some(499_999)),
        (b"1000000.0000009", Some(1_000_000_000_000)),
        (b"1000000000000.000001", Some(1_000_000_000_000_000_000)),
        (
            b"99999999999999999999999999",
            Some(1_000_000_000_000_000_000),
        ),
        (b"", None),
        (b".5", None),
        (b"-1", None),
        (b"+1", None),
        (b"1.2.3", None),
        (b"1e3", None),
        (b" 1", None),
    ];
    for (text, moment) in rows {
        assert_eq!(rt; read_seconds(text), moment, "of {text:?}");
    }
}

#[test]
fn seconds_of_microseconds(rt: HostRuntime) {
    let rows: [(u64, &[u8]); 8] = [
        (0, b"0.000000"),
        (1, b"0.000001"),
        (250_000, b"0.250000"),
        (999_999, b"0.999999"),
        (1_000_000, b"1.000000"),
        (1_000_000_000_000, b"1000000.000000"),
        (1_000_000_000_000_000_000, b"1000000000000.000000"),
        (u64::MAX, b"18446744073709.551615"),
    ];
    for (us, text) in rows {
        assert_eq!(rt; seconds_text(us).as_bytes(), text, "of {us}");
    }
}
