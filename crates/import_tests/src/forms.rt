//! Which form a file has, by its first bytes: rows by hand.
use std::process::Abort;
use tape_import::form::{is_compressed, is_ttyrec, mark_len};

#[test]
fn compressed_files(rt: HostRuntime) {
    let rows: [(&[u8], bool); 9] = [
        (b"\x1f\x8b\x08\0abcdefgh", true),
        (b"\x1f\x8b\x08", true),
        (b"\x1f\x8b\x09", false),
        (b"BZh91AY", true),
        (b"BZ", false),
        (b"\xfd7zXZ\0", true),
        (b"\xfd7zXZ\n", false),
        (b"(\xb5/\xfd", true),
        (b"", false),
    ];
    for (file, wanted) in rows {
        assert_eq!(rt; is_compressed(file), wanted, "{file:?}");
    }
}

#[test]
fn marks_at_the_front(rt: HostRuntime) {
    let rows: [(&[u8], usize); 4] = [
        (b"\xef\xbb\xbf{", 3),
        (b"\xef\xbb\xbf", 3),
        (b"\xef\xbb", 0),
        (b"{\xef\xbb\xbf", 0),
    ];
    for (file, wanted) in rows {
        assert_eq!(rt; mark_len(file), wanted, "{file:?}");
    }
}

#[test]
fn ttyrecs_by_their_head(rt: HostRuntime) {
    let rows: [(&[u8], bool); 5] = [
        (b"{\"ve\0\0\0\0rsio", true),
        (b"{\"ve\x3f\x42\x0f\0rsio", true), // 999,999 microseconds
        (b"{\"ve\x40\x42\x0f\0rsio", false), // 1,000,000
        (b"{\"ve\0\0\0\x01rsio", false),
        (b"{\"ve\0\0\0\0rsi", false),
    ];
    for (file, wanted) in rows {
        assert_eq!(rt; is_ttyrec(file), wanted, "{file:?}");
    }
}
