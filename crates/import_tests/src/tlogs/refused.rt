//! Refused growths, as for ttyrecs.
use std::process::Abort;
use std::rt::Runtime;
use std::test::Fail;
use tape_import::import_tlog;

/// Two messages that tell all, of which the second has an input and a change of size.
const FILE: &[u8] =
    b"{\"ver\": \"2.3\", \"rec\": \"r\", \"id\": 1, \"pos\": 0, \"timing\": \"=80x24>2]1/1\", \
    \"out_txt\": \"a\\u00e9b\", \"out_bin\": [7], \"term\": \"xterm\", \"time\": 86400}\n\
    {\"ver\": \"2.3\", \"rec\": \"r\", \"id\": 2, \"pos\": 2000, \"timing\": \"<1=1x1>1\", \"in_txt\": \"x\", \
    \"in_bin\": [1], \"out_txt\": \"c\"}\n";

#[test]
fn a_tlog_that_is_imported(rt: HostRuntime) -> Result<(), Fail> {
    let imported = match import_tlog(rt.alloc(), FILE) {
        Ok(imported) => imported,
        Err(_) => {
            println!(rt; "refused: import")?;
            import_tlog(rt.alloc(), FILE)?
        }
    };
    let header =
        b"Script started on 1970-01-02 00:00:00+00:00 [TERM=\"xterm\" COLUMNS=\"80\" LINES=\"24\"]\n";
    let recording = &imported.recording;
    assert_eq!(rt; recording.header(), header.as_slice());
    assert_eq!(rt; (recording.body_len(), recording.length()), (5, 2_000_000));
    Ok(())
}
