//! Refused growths, as for ttyrecs.
use std::process::Abort;
use std::rt::Runtime;
use std::test::Fail;
use tape_import::form::{Form, form_of};
use tape_import::{Version, import_asciicast};

/// A header that tells all, and two outputs.
const FILE: &[u8] =
    b"{\"version\": 2, \"width\": 80, \"height\": 24, \"env\": {\"TERM\": \"xterm\"}, \
    \"timestamp\": 86400}\n[0, \"o\", \"a\\u00e9\"]\n[1, \"r\", \"1x1\"]\n[2, \"o\", \"bc\"]\n";

#[test]
fn an_asciicast_that_is_imported(rt: HostRuntime) -> Result<(), Fail> {
    let form = match form_of(rt.alloc(), FILE) {
        Ok(form) => form,
        Err(_) => {
            println!(rt; "refused: form")?;
            form_of(rt.alloc(), FILE)?
        }
    };
    assert_eq!(rt; form, Form::Asciicast(Version::Two));
    let imported = match import_asciicast(rt.alloc(), Version::Two, FILE) {
        Ok(imported) => imported,
        Err(_) => {
            println!(rt; "refused: import")?;
            import_asciicast(rt.alloc(), Version::Two, FILE)?
        }
    };
    let header =
        b"Script started on 1970-01-02 00:00:00+00:00 [TERM=\"xterm\" COLUMNS=\"80\" LINES=\"24\"]\n";
    let recording = &imported.recording;
    assert_eq!(rt; recording.header(), header.as_slice());
    assert_eq!(rt; (recording.body_len(), recording.length()), (5, 2_000_000));
    Ok(())
}
