//! Which files stand for a pair, and the first fault of others: rows by hand.
use super::file_of;
use crate::comparison::pair_of;
use std::alloc::Global;
use std::process::Abort;
use std::rt::Runtime;
use std::test::Fail;
use tape_import::import_whole;

/// The header of an asciicast of version 2.
const HEAD: &str = "{\"version\": 2, \"width\": 80, \"height\": 24}\n";

/// Compares what is told of a file that doesn't stand for a pair.
fn compare_refusal(
    rt: &(impl Runtime<A = Global> + Abort),
    bytes: &[u8],
    wanted: &str,
) -> Result<(), Fail> {
    let file = file_of(rt.alloc(), bytes)?;
    let told = match import_whole(rt.alloc(), &file) {
        Ok(_) => format!(in rt.alloc(); "nothing")?,
        Err(refusal) => format!(in rt.alloc(); "{refusal}")?,
    };
    assert_eq!(rt; told.as_str(), wanted, "{bytes:?}");
    Ok(())
}

#[test]
fn what_is_read(rt: HostRuntime) -> Result<(), Fail> {
    let rows: [(&str, &str, &str, u64); 3] = [
        (
            "[1, \"o\", \"a\"]\n[1.5, \"o\", \"b\"]",
            "ab",
            "1.000000 1\n0.500000 1\n",
            0,
        ),
        // Changes of size, and other events, refuse nothing.
        (
            "[0, \"r\", \"80x24\"]\n[0, \"o\", \"a\"]\n[0, \"i\", \"\"]\n[0, \"m\", null]\n[0, \"z\", {}]\n\
             [2, \"r\", \"100x30\"]\n[2, \"r\", \"100x30\"]\n[3, \"o\", \"b\"]\n",
            "ab",
            "0.000000 1\n3.000000 1\n",
            1,
        ),
        ("[1000000, \"o\", \"a\"]\n", "a", "1000000.000000 1\n", 0),
    ];
    for (events, body, timing, resizes) in rows {
        let bytes = format!(in rt.alloc(); "{HEAD}{events}")?;
        let file = file_of(rt.alloc(), bytes.as_bytes())?;
        let whole = import_whole(rt.alloc(), &file)?;
        let script = format!(in rt.alloc();
            "Script started on unknown [COLUMNS=\"80\" LINES=\"24\"]\n{body}"
        )?;
        let (got, times) = pair_of(rt.alloc(), &whole.recording)?;
        let got = (
            got.as_slice(),
            str::from_utf8(times.as_slice()).unwrap_or("no UTF-8"),
            whole.resizes,
        );
        assert_eq!(rt; got, (script.as_bytes(), timing, resizes), "{events}");
    }
    Ok(())
}

#[test]
fn first_faults_of_events(rt: HostRuntime) -> Result<(), Fail> {
    let rows = [
        (
            "[0, \"o\", \"a\"]\n[0, \"o\", \"\\x41\"]\n[1, \"o\", \"b\"]",
            "recording line 3: bad event",
        ),
        (
            "[1, \"o\", \"a\"]\n[2000002, \"o\", \"b\"]\n[2000003.5, \"o\", \"c\"]",
            "recording line 3: delay too large",
        ),
        // Whichever stands first, blank lines counted; the time of an output without bytes goes to the next one.
        (
            "\n[1000001, \"o\", \"\"]\n\n[1000001, \"o\", \"a\"]\n[9000001, \"o\", \"b\"]\n[]",
            "recording line 5: delay too large",
        ),
        (
            "[1, \"o\", \"a\"]\n[]\n[2000002, \"o\", \"b\"]",
            "recording line 3: bad event",
        ),
    ];
    for (events, wanted) in rows {
        let bytes = format!(in rt.alloc(); "{HEAD}{events}")?;
        compare_refusal(&rt, bytes.as_bytes(), wanted)?;
    }
    Ok(())
}

#[test]
fn first_faults_of_other_forms(rt: HostRuntime) -> Result<(), Fail> {
    let rows: [(&[u8], &str); 8] = [
        (b"\x1f\x8b\x08\0abcdefgh", "recording is compressed"),
        (b"Script started on X\nab", "recording of no known form"),
        (
            b"{\"version\": 1, \"stdout\": [[1, \"a\"], [1000001, \"b\"], [2]",
            "recording event 1: delay too large",
        ),
        // Clocks of 5, 3 and 4.5 seconds, and 5 bytes told of which 2 are there.
        (
            b"\x05\0\0\0\0\0\0\0\x01\0\0\0a\x03\0\0\0\0\0\0\0\x01\0\0\0b\x04\0\0\0\x20\xa1\x07\0\x05\0\0\0cd",
            "recording ends inside chunk 2",
        ),
        // Of 0 and 16777216 seconds: the chunk that is cut comes too late, too.
        (
            b"\0\0\0\0\0\0\0\0\x01\0\0\0a\0\0\0\x01\0\0\0\0\x05\0\0\0cd",
            "recording event 1: delay too large",
        ),
        (
            b"\0\0\0\0\0\0\0\0\x01\0\0\0a\0\0\0\x01",
            "recording event 1: bad event",
        ),
        // The first message stands before what is wrong with its outputs, and behind a line that is none.
        (
            b"\n{\"ver\": \"2.3\", \"id\": 3, \"pos\": 1000000001, \"timing\": \">1\", \"out_txt\": \"a\"}\n[]\n",
            "recording line 2: out of order",
        ),
        (
            b"{\"ver\": \"2.3\", \"id\": 1, \"pos\": 0, \"timing\": \">1+1000000001>1\", \"out_txt\": \"ab\"}\n\
              {\"ver\": \"2.3\", \"id\": 3, \"pos\": 0, \"timing\": \"\"}\n",
            "recording line 1: delay too large",
        ),
    ];
    for (bytes, wanted) in rows {
        compare_refusal(&rt, bytes, wanted)?;
    }
    Ok(())
}

#[test]
fn messages_that_begin_late(rt: HostRuntime) -> Result<(), Fail> {
    compare_refusal(
        &rt,
        b"{\"ver\": \"2.3\", \"id\": 3, \"pos\": 9000, \"timing\": \"=80x24>1=90x20>1\", \"out_txt\": \"ab\"}\n\
          {\"ver\": \"2.3\", \"id\": 5, \"pos\": 9000, \"timing\": \"=90x20>1\", \"out_txt\": \"c\"}\n",
        "recording line 1: out of order",
    )
}
