//! Refused growths, as for ttyrecs.
use std::process::Abort;
use std::rt::Runtime;
use std::test::Fail;
use tape_import::import_asciicast_one;

/// A recording that tells all, with outputs in two arrays.
const FILE: &[u8] =
    b"{\"version\": 1, \"width\": 80, \"height\": 24, \"env\": {\"TERM\": \"xterm\"}, \
    \"timestamp\": 86400, \"stdout\": [[0, \"a\\u00e9\"]], \"stdout\": [[2, \"bc\"]]}\n";

#[test]
fn an_asciicast_of_version_1_that_is_imported(rt: HostRuntime) -> Result<(), Fail> {
    let imported = match import_asciicast_one(rt.alloc(), FILE) {
        Ok(imported) => imported,
        Err(_) => {
            println!(rt; "refused: import")?;
            import_asciicast_one(rt.alloc(), FILE)?
        }
    };
    let imported = imported.expect(&rt, "version 1");
    let header =
        b"Script started on 1970-01-02 00:00:00+00:00 [TERM=\"xterm\" COLUMNS=\"80\" LINES=\"24\"]\n";
    let recording = &imported.recording;
    assert_eq!(rt; recording.header(), header.as_slice());
    assert_eq!(rt; (recording.body_len(), recording.length()), (5, 2_000_000));
    Ok(())
}
