//! Refused growths. `tests/refused.py` runs this with the first, second, .. growth of memory refused, until none is, and
//! counts the lines `refused: WHAT`. After a refusal the same call answers.
use super::file_of;
use std::process::Abort;
use std::rt::Runtime;
use std::test::Fail;
use tape_import::form::is_ttyrec;
use tape_import::import_ttyrec;

#[test]
fn a_ttyrec_that_is_imported(rt: HostRuntime) -> Result<(), Fail> {
    let records = [
        (86_400, 0, 11, b"\x1b[8;30;100t".as_slice()),
        (86_401, 0, 9, b"bc".as_slice()),
    ];
    let file = match file_of(rt.alloc(), &records, b"") {
        Ok(file) => file,
        Err(_) => {
            println!(rt; "refused: a file")?;
            file_of(rt.alloc(), &records, b"")?
        }
    };
    assert!(rt; is_ttyrec(&file));
    let imported = match import_ttyrec(rt.alloc(), &file, 0) {
        Ok(imported) => imported,
        Err(_) => {
            println!(rt; "refused: import")?;
            import_ttyrec(rt.alloc(), &file, 0)?
        }
    };
    let header = b"Script started on 1970-01-02 00:00:00+00:00 [COLUMNS=\"100\" LINES=\"30\"]\n";
    let recording = &imported.recording;
    assert_eq!(rt; recording.header(), header.as_slice());
    assert_eq!(rt; (recording.body_len(), recording.length()), (13, 1_000_000));
    Ok(())
}
