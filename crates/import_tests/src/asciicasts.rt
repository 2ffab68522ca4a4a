//! What asciicasts of version 2 and 3 are imported as: rows by hand.
use crate::comparison::{Told, compare_imported};
use std::alloc::{AllocError, Global};
use std::process::Abort;
use std::rt::Runtime;
use std::test::Fail;
use tape_import::form::{Form, form_of};
use tape_import::{Version, import_asciicast};

mod refused;

/// The header of a version 2, and what a pair's header tells of it.
const HEAD: &[u8] = b"{\"version\": 2, \"width\": 80, \"height\": 24}\n";

const SIZED: &[u8] = b"Script started on unknown [COLUMNS=\"80\" LINES=\"24\"]\n";

/// The version, where a file is an asciicast of version 2 or 3.
fn version_of(alloc: Global, file: &[u8]) -> Result<Option<Version>, AllocError> {
    match form_of(alloc, file)? {
        Form::Asciicast(version) => Ok(Some(version)),
        _ => Ok(None),
    }
}

/// Imports a file and compares what is written of it.
fn compare(rt: &(impl Runtime<A = Global> + Abort), file: &[u8], wanted: Told) -> Result<(), Fail> {
    let alloc = rt.alloc();
    let version = version_of(alloc, file)?.expect(rt, "a version");
    let imported = import_asciicast(alloc, version, file)?;
    compare_imported(rt, file, &imported, wanted)
}

/// Compares events behind the header of 80 columns and 24 lines.
fn compare_events(
    rt: &(impl Runtime<A = Global> + Abort),
    events: &[u8],
    body: &[u8],
    timing: &str,
    told: (&str, bool),
) -> Result<(), Fail> {
    let mut file = Vec::new(rt.alloc());
    file.extend_from_slice(HEAD)?;
    file.extend_from_slice(events)?;
    let mut script = Vec::new(rt.alloc());
    script.extend_from_slice(SIZED)?;
    script.extend_from_slice(body)?;
    compare(rt, &file, (&script, timing, told.0, told.1))
}

#[test]
fn versions(rt: HostRuntime) -> Result<(), Fail> {
    let rows: [(&[u8], bool); 10] = [
        (b"{\"version\": 2}", true),
        (b"\n \t\r\n {\"version\":3}\n", true),
        (b"{\"version\": 1}", false),
        (b"{\"version\": 2.0}", false),
        (b"{\"version\": \"2\"}", false),
        (b"{\"version\": 2} x", false),
        (b"{\"version\": 1, \"version\": 2}", true),
        (b"{\"version\": 2, \"version\": 1}", false),
        (b"{\"ver\\u0073ion\": 2}", true),
        (b"[2]", false),
    ];
    for (file, wanted) in rows {
        assert_eq!(rt; version_of(rt.alloc(), file)?.is_some(), wanted, "{file:?}");
    }
    Ok(())
}

#[test]
fn headers(rt: HostRuntime) -> Result<(), Fail> {
    let rows: [(&[u8], Told); 4] = [
        (
            b"{\"env\": {\"TERM\": \"xterm-256color\"}, \"timestamp\": 1504467315.9, \"height\": 30, \
              \"version\": 2, \"width\": 100}\n[0.5, \"o\", \"a\"]\n",
            (
                b"Script started on 2017-09-03 19:35:15+00:00 [TERM=\"xterm-256color\" COLUMNS=\"100\" LINES=\"30\"]\n\
                  a",
                "0.500000 1\n",
                "",
                false,
            ),
        ),
        (
            b"{\"version\": 2}\n",
            (b"Script started on unknown\n", "", "", false),
        ),
        (
            b"{\"version\": 2, \"width\": 80.5, \"height\": 24, \"env\": {\"TERM\": \"x\\\" COLUMNS=\\\"9\"}}\n",
            (b"Script started on unknown\n", "", "", false),
        ),
        (
            b"{\"version\": 3, \"term\": {\"cols\": 90, \"rows\": 20, \"type\": \"xterm\"}, \
              \"timestamp\": 86400}\n[0.5, \"o\", \"a\"]\n# b\n[0.25, \"i\", \"x\"]\n[0.25, \"o\", \"b\"]\n\
              [1, \"x\", \"0\"]\n",
            (
                b"Script started on 1970-01-02 00:00:00+00:00 [TERM=\"xterm\" COLUMNS=\"90\" LINES=\"20\"]\nab",
                "0.500000 1\n0.500000 1\n",
                "1 inputs, 0 markers, 0 resizes and 1 others left out\n",
                false,
            ),
        ),
    ];
    for (file, wanted) in rows {
        compare(&rt, file, wanted)?;
    }
    Ok(())
}

#[test]
fn moments(rt: HostRuntime) -> Result<(), Fail> {
    // Exact decimals, cut to microseconds.
    compare_events(
        &rt,
        b"[3.3e-05, \"o\", \"a\"]\n[0.0000999, \"o\", \"b\"]\n[1E+0, \"o\", \"c\"]\n[12e-1, \"o\", \"d\"]\n",
        b"abcd",
        "0.000033 1\n0.000066 1\n0.999901 1\n0.200000 1\n",
        ("", false),
    )?;
    // A moment that goes back stands still, and one below 0 is 0.
    compare_events(
        &rt,
        b"[1, \"o\", \"a\"]\n[0.5, \"o\", \"b\"]\n[1.25, \"o\", \"c\"]\n[-1, \"o\", \"d\"]\n",
        b"abcd",
        "1.000000 1\n0.000000 1\n0.250000 1\n0.000000 1\n",
        ("", false),
    )?;
    // An output without bytes gives no chunk, and its time goes to the next one.
    compare_events(
        &rt,
        b"[1, \"o\", \"a\"]\n[2, \"o\", \"\"]\n[2.5, \"o\", \"b\"]\n[9, \"o\", \"\"]\n",
        b"ab",
        "1.000000 1\n1.500000 1\n",
        ("", false),
    )?;
    // A delay above a million seconds is cut, and counted.
    compare_events(
        &rt,
        b"[1, \"o\", \"a\"]\n[2000002, \"o\", \"b\"]\n[2000003.5, \"o\", \"c\"]\n",
        b"abc",
        "1.000000 1\n1000000.000000 1\n1.500000 1\n",
        ("1 delays cut to 1000000 seconds\n", true),
    )
}

#[test]
fn texts(rt: HostRuntime) -> Result<(), Fail> {
    compare_events(
        &rt,
        b"[0, \"o\", \"\\\"\\\\\\/\\b\\f\\n\\r\\t\\u00e9\\ud83D\\uDE00\\u0000\"]",
        b"\"\\/\x08\x0c\n\r\t\xc3\xa9\xf0\x9f\x98\x80\0",
        "0.000000 15\n",
        ("", false),
    )?;
    compare_events(
        &rt,
        b"[0, \"o\", \"\\ud83dx\\ude00\\ud83d\\u0041\xff\xc3\"]",
        b"\xef\xbf\xbdx\xef\xbf\xbd\xef\xbf\xbdA\xff\xc3",
        "0.000000 13\n",
        ("", false),
    )
}

#[test]
fn damage(rt: HostRuntime) -> Result<(), Fail> {
    let rows: [(&[u8], &str); 12] = [
        (
            b"[0, \"o\", \"a\"]\n[0, \"o\", \"\\x41\"]\n[0, \"o\", \"b\"]\n",
            "recording line 3: bad event, 2 lines left out\n",
        ),
        (
            b"[0, \"o\", \"a\"]\n[0.1, \"o\", \"b",
            "recording line 3: bad event, 1 lines left out\n",
        ),
        (
            b"[0, \"o\", \"a\"]\n[0.1, \"o\"]",
            "recording line 3: bad event, 1 lines left out\n",
        ),
        (
            b"[0, \"o\", \"a\"]\n[0.1, \"o\", \"b\", 1]",
            "recording line 3: bad event, 1 lines left out\n",
        ),
        (
            b"[0, \"o\", \"a\"]\n[\"0.1\", \"o\", \"b\"]",
            "recording line 3: bad event, 1 lines left out\n",
        ),
        (
            b"[0, \"o\", \"a\"]\n[0.1, 1, \"b\"]",
            "recording line 3: bad event, 1 lines left out\n",
        ),
        (
            b"[0, \"o\", \"a\"]\n[0.1, \"o\", null]",
            "recording line 3: bad event, 1 lines left out\n",
        ),
        (
            b"[0, \"o\", \"a\"]\n[01, \"o\", \"b\"]",
            "recording line 3: bad event, 1 lines left out\n",
        ),
        (
            b"[0, \"o\", \"a\"]\n[NaN, \"o\", \"b\"]",
            "recording line 3: bad event, 1 lines left out\n",
        ),
        (
            b"[0, \"o\", \"a\"]\n[0, \"o\", \"b\"],",
            "recording line 3: bad event, 1 lines left out\n",
        ),
        (
            b"[0, \"o\", \"a\"]\n# b\n",
            "recording line 3: bad event, 1 lines left out\n",
        ),
        (
            b"[0, \"o\", \"a\"]\n\n\n[]\n\n",
            "recording line 5: bad event, 2 lines left out\n",
        ),
    ];
    for (events, told) in rows {
        compare_events(&rt, events, b"a", "0.000000 1\n", (told, true))?;
    }
    Ok(())
}

#[test]
fn what_a_pair_has_no_place_for(rt: HostRuntime) -> Result<(), Fail> {
    compare_events(
        &rt,
        b"[0, \"r\", \"80x24\"]\n[0, \"o\", \"a\"]\n[0, \"i\", \"x\"]\n[0, \"m\", null]\n[0, \"z\", {}]\n\
          [2, \"r\", \"100x30\"]\n[2, \"r\", \"100x30\"]\n[3, \"o\", \"b\"]\n",
        b"ab",
        "0.000000 1\n3.000000 1\n",
        (
            "1 inputs, 1 markers, 1 resizes and 1 others left out\n",
            true,
        ),
    )?;
    let file =
        b"{\"version\": 2, \"width\": 80, \"height\": 24}\n[0, \"r\", \"132x43\"]\n[0, \"o\", \"a\"]\n[0, \"i\", \"x\"]\n";
    compare(
        &rt,
        file.as_slice(),
        (
            b"Script started on unknown [COLUMNS=\"132\" LINES=\"43\"]\na",
            "0.000000 1\n",
            "1 inputs, 0 markers, 0 resizes and 0 others left out\n",
            false,
        ),
    )?;
    // A badly formed one counts, and leaves the size in force.
    compare_events(
        &rt,
        b"[0, \"o\", \"a\"]\n[0, \"r\", \"0x0\"]\n[0, \"r\", \"80x24\"]\n",
        b"a",
        "0.000000 1\n",
        (
            "0 inputs, 0 markers, 1 resizes and 0 others left out\n",
            true,
        ),
    )
}

#[test]
fn an_output_longer_than_a_chunk(rt: HostRuntime) -> Result<(), Fail> {
    let mut events = Vec::new(rt.alloc());
    events.extend_from_slice(b"[0, \"o\", \"")?;
    for _ in 0..1_048_577 {
        events.push(b'x')?;
    }
    events.extend_from_slice(b"\"]\n")?;
    compare_events(
        &rt,
        &events,
        b"",
        "",
        ("recording line 2: chunk too long, 1 lines left out\n", true),
    )
}

#[test]
fn arrays_that_are_too_deep(rt: HostRuntime) -> Result<(), Fail> {
    // The event is the outermost array: 63 more may stand in it.
    let rows = [
        (63, "", 1),
        (64, "recording line 2: bad event, 2 lines left out\n", 0),
    ];
    for (depth, told, chunks) in rows {
        let mut file = Vec::new(rt.alloc());
        file.extend_from_slice(b"{\"version\": 2}\n[0, \"x\", ")?;
        for _ in 0..depth {
            file.push(b'[')?;
        }
        for _ in 0..depth {
            file.push(b']')?;
        }
        file.extend_from_slice(b"]\n[0, \"o\", \"a\"]\n")?;
        let version = version_of(rt.alloc(), &file)?.expect(&rt, "a version");
        let imported = import_asciicast(rt.alloc(), version, &file)?;
        assert_eq!(rt;
            (imported.recording.length(), imported.losses.left.is_some()),
            (0, told != "")
        );
        assert_eq!(rt; imported.recording.body_len(), chunks);
    }
    Ok(())
}
