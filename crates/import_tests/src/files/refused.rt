//! Refused growths, as for ttyrecs.
use super::file_of;
use std::process::Abort;
use std::rt::Runtime;
use std::test::Fail;
use tape_import::{ImportFault, import};

/// An asciicast of version 2, one of version 1, and a ttyrec.
const FILES: [&[u8]; 3] = [
    b"\xef\xbb\xbf{\"version\": 2, \"env\": {\"TERM\": \"xterm\"}}\n[1, \"o\", \"a\\u00e9\"]\n[2, \"o\", \"bc\"]\n",
    b"{\"version\": 1, \"env\": {\"TERM\": \"xterm\"}, \"stdout\": [[1, \"a\\u00e9\"], [1, \"bc\"]]}",
    b"\x00\x00\x00\x00\0\0\0\0\x03\0\0\0abc\x02\x00\x00\x00\0\0\0\0\x02\0\0\0de",
];

#[test]
fn files_that_are_imported(rt: HostRuntime) -> Result<(), Fail> {
    for bytes in FILES {
        let file = match file_of(rt.alloc(), bytes) {
            Ok(file) => file,
            Err(_) => {
                println!(rt; "refused: a file")?;
                file_of(rt.alloc(), bytes)?
            }
        };
        let imported = match import(rt.alloc(), &file) {
            Ok(imported) => imported,
            Err(fault) => {
                assert_eq!(rt; fault, ImportFault::OutOfMemory);
                println!(rt; "refused: import")?;
                import(rt.alloc(), &file)?
            }
        };
        let recording = &imported.recording;
        assert_eq!(rt; (recording.body_len(), recording.length()), (5, 2_000_000));
        assert!(rt; !imported.losses.is_damaged());
    }
    Ok(())
}
