//! What asciicasts of version 1 are imported as: rows by hand.
use crate::comparison::{Told, compare_imported};
use std::alloc::Global;
use std::process::Abort;
use std::rt::Runtime;
use std::test::Fail;
use tape_import::import_asciicast_one;

mod refused;

/// What a pair's header tells where nothing is told, and where a size of 80 columns and 24 lines is.
const UNTOLD: &[u8] = b"Script started on unknown\n";

const SIZED: &[u8] = b"Script started on unknown [COLUMNS=\"80\" LINES=\"24\"]\n";

/// Imports a file and compares what is written of it.
fn compare(rt: &(impl Runtime<A = Global> + Abort), file: &[u8], wanted: Told) -> Result<(), Fail> {
    let imported = import_asciicast_one(rt.alloc(), file)?.expect(rt, "version 1");
    compare_imported(rt, file, &imported, wanted)
}

/// Compares what stands in `stdout` and behind it, where nothing else is told.
fn compare_entries(
    rt: &(impl Runtime<A = Global> + Abort),
    entries: &[u8],
    body: &[u8],
    timing: &str,
    told: &str,
) -> Result<(), Fail> {
    let mut file = Vec::new(rt.alloc());
    file.extend_from_slice(b"{\"version\": 1, \"stdout\": [")?;
    file.extend_from_slice(entries)?;
    let mut script = Vec::new(rt.alloc());
    script.extend_from_slice(UNTOLD)?;
    script.extend_from_slice(body)?;
    compare(rt, &file, (&script, timing, told, told != ""))
}

#[test]
fn members_in_any_order(rt: HostRuntime) -> Result<(), Fail> {
    let rows: [(&[u8], Told); 6] = [
        (
            b"{\"stdout\": [[0.5, \"a\"],\n[0.25, \"b\"], [0.1, \"\"], [0.1, \"c\"]], \"width\": 80, \"height\": 24, \
              \"version\": 1}",
            (
                b"Script started on unknown [COLUMNS=\"80\" LINES=\"24\"]\nabc",
                "0.500000 1\n0.250000 1\n0.200000 1\n",
                "",
                false,
            ),
        ),
        (
            b"{\"version\": 1, \"width\": 100, \"height\": 30, \"duration\": 1.5, \"command\": null, \"title\": \"\", \
              \"env\": {\"TERM\": \"vt100\", \"SHELL\": \"/bin/sh\"}, \"timestamp\": 1504467315.9, \"stdout\": []}\n",
            (
                b"Script started on 2017-09-03 19:35:15+00:00 [TERM=\"vt100\" COLUMNS=\"100\" LINES=\"30\"]\n",
                "",
                "",
                false,
            ),
        ),
        // Of two members with one name the last counts, but the entries of each `stdout`.
        (
            b" \r\n\t{ \"width\" : 1 , \"stdout\" : [ [ 1 , \"a\" ] ] , \"version\" : 2 , \"height\" : 24 , \
              \"stdout\" : [ [ 2 , \"b\" ] ] , \"width\" : 80 , \"version\" : 1 } \n",
            (
                b"Script started on unknown [COLUMNS=\"80\" LINES=\"24\"]\nab",
                "1.000000 1\n2.000000 1\n",
                "",
                false,
            ),
        ),
        // A name may be written by escapes.
        (
            b"{\"st\\u0064out\": [[1, \"\\u00e9\"]], \"\\u0076ersion\": 1}",
            (
                b"Script started on unknown\n\xc3\xa9",
                "1.000000 2\n",
                "",
                false,
            ),
        ),
        (
            b"{\"version\": 1, \"width\": 80.5, \"height\": 24, \"env\": \"TERM\", \"timestamp\": \"86400\"}",
            (UNTOLD, "", "", false),
        ),
        (
            b"{\"version\": 1, \"width\": 80, \"height\": 24, \"env\": {\"TERM\": \"x\\\" COLUMNS=\\\"9\"}}",
            (SIZED, "", "", false),
        ),
    ];
    for (file, wanted) in rows {
        compare(&rt, file, wanted)?;
    }
    Ok(())
}

#[test]
fn what_is_no_version_1(rt: HostRuntime) -> Result<(), Fail> {
    let rows: [&[u8]; 12] = [
        b"",
        b"{}",
        b"[1]",
        b"{\"version\": 2}",
        b"{\"version\": 1.0}",
        b"{\"version\": -1}",
        b"{\"version\": 1e0}",
        b"{\"version\": \"1\"}",
        b"{\"version\": 1, \"version\": 10}",
        b"{\"versio\": 1, \"env\": {\"version\": 1}}",
        // The fault comes before the version.
        b"{\"stdout\": [[1, \"a\"], [2]], \"version\": 1}",
        b"{\"stdout\": [[1, \"a\"]], \"version\"",
    ];
    for file in rows {
        assert!(rt;
            import_asciicast_one(rt.alloc(), file)?.is_none(),
            "{file:?}"
        );
    }
    Ok(())
}

#[test]
fn moments(rt: HostRuntime) -> Result<(), Fail> {
    // Exact decimals, cut to microseconds; one below 0 is 0.
    compare_entries(
        &rt,
        b"[3.39e-05, \"a\"], [-5, \"b\"], [0.0000999, \"c\"], [12E-1, \"d\"]]}",
        b"abcd",
        "0.000033 1\n0.000000 1\n0.000099 1\n1.200000 1\n",
        "",
    )?;
    // An output without bytes gives no chunk, and its time goes to the next one, also to one of another `stdout`.
    compare_entries(
        &rt,
        b"[1, \"a\"], [1, \"\"]], \"stdout\": [[0.5, \"\"], [0.25, \"b\"], [9, \"\"]]}",
        b"ab",
        "1.000000 1\n1.750000 1\n",
        "",
    )?;
    // A delay above a million seconds is cut, and counted.
    compare_entries(
        &rt,
        b"[1000000, \"a\"], [1000000.000001, \"b\"], [1e99, \"c\"], [1, \"d\"]]}",
        b"abcd",
        "1000000.000000 1\n1000000.000000 1\n1000000.000000 1\n0.000000 1\n",
        "2 delays cut to 1000000 seconds\n",
    )
}

#[test]
fn entries_that_are_not_whole(rt: HostRuntime) -> Result<(), Fail> {
    // How many bytes stand from the bad entry on, or from what stands in its place.
    let rows: [(&[u8], u64); 16] = [
        (b"[0.25, \"b", 9),
        (b"[2, \"b\", 3]]}", 13),
        (b"[2]]}", 5),
        (b"[]]}", 4),
        (b"[\"2\", \"b\"]]}", 12),
        (b"[2, 3]]}", 8),
        (b"[2, \"\\x41\"]]}", 13),
        (b"[02, \"b\"]]}", 11),
        (b"[2. , \"b\"]]}", 12),
        (b"[NaN, \"b\"]]}", 12),
        (b"2]}", 3),
        (b"{\"2\": \"b\"}]}", 12),
        (b"[[2, \"b\"]]]}", 12),
        (b"]}", 2), // behind a comma
        (b"", 0),
        (b" \r\n\t[2,\n", 4),
    ];
    for (bad, left) in rows {
        let mut entries = Vec::new(rt.alloc());
        entries.extend_from_slice(b"\n[1, \"a\"],\n")?;
        entries.extend_from_slice(bad)?;
        let told = format!(in rt.alloc(); "recording event 1: bad event, {left} bytes left out\n")?;
        compare_entries(&rt, &entries, b"a", "1.000000 1\n", told.as_str())?;
    }
    Ok(())
}

#[test]
fn what_cannot_stand_there(rt: HostRuntime) -> Result<(), Fail> {
    // Behind an entry, behind a member, and behind the object.
    let rows: [(&[u8], u64); 12] = [
        (b" [2, \"b\"]]}", 10),
        (b"}", 1),
        (b"]", 0),
        (b"] ]}", 2),
        (b"],}", 1),
        (b"], x}", 2),
        (b"], \"a\" 1}", 6),
        (b"], \"a\": }", 6),
        (b"], \"stdout\": 1}", 12),
        (b"], \"a\": 1 \"b\": 2}", 7),
        (b"]} x", 1),
        (b"]}\n{\"version\": 1}\n", 15),
    ];
    for (bad, left) in rows {
        let mut entries = Vec::new(rt.alloc());
        entries.extend_from_slice(b"[0, \"\"], [1, \"a\"]")?;
        entries.extend_from_slice(bad)?;
        let told = format!(in rt.alloc(); "recording event 2: bad event, {left} bytes left out\n")?;
        compare_entries(&rt, &entries, b"a", "1.000000 1\n", told.as_str())?;
    }
    Ok(())
}

#[test]
fn numbers_that_the_end_cuts_off(rt: HostRuntime) -> Result<(), Fail> {
    let rows: [(&[u8], &[u8], &str); 4] = [
        (
            b"{\"width\": 80, \"height\": 24, \"version\": 1",
            SIZED,
            "recording event 0: bad event, 0 bytes left out\n",
        ),
        (
            b"{\"version\": 1, \"width\": 80, \"height\": 24",
            SIZED,
            "recording event 0: bad event, 0 bytes left out\n",
        ),
        (
            b"{\"version\": 1, \"width\": 80, \"height\": 24.",
            SIZED,
            "recording event 0: bad event, 1 bytes left out\n",
        ),
        (
            b"{\"version\": 1, \"width\": 80, \"height\": -",
            UNTOLD,
            "recording event 0: bad event, 11 bytes left out\n",
        ),
    ];
    for (file, header, told) in rows {
        compare(&rt, file, (header, "", told, true))?;
    }
    Ok(())
}

#[test]
fn an_output_longer_than_a_chunk(rt: HostRuntime) -> Result<(), Fail> {
    let mut entries = Vec::new(rt.alloc());
    entries.extend_from_slice(b"[1, \"a\"], [2, \"")?;
    for _ in 0..1_048_577 {
        entries.push(b'x')?;
    }
    entries.extend_from_slice(b"\"], [3, \"b\"]]}")?;
    // The bad entry has 7 bytes beside its output, and 12 stand behind it.
    compare_entries(
        &rt,
        &entries,
        b"a",
        "1.000000 1\n",
        "recording event 1: chunk too long, 1048596 bytes left out\n",
    )
}

#[test]
fn arrays_that_are_too_deep(rt: HostRuntime) -> Result<(), Fail> {
    // The object is the outermost one: 63 arrays may stand in it. 128 brackets make 145 bytes from the name on.
    let rows = [
        (63, ""),
        (64, "recording event 0: bad event, 145 bytes left out\n"),
    ];
    for (depth, told) in rows {
        let mut file = Vec::new(rt.alloc());
        file.extend_from_slice(b"{\"version\": 1, \"deep\": ")?;
        for _ in 0..depth {
            file.push(b'[')?;
        }
        for _ in 0..depth {
            file.push(b']')?;
        }
        file.extend_from_slice(b", \"x\": 1}")?;
        compare(&rt, &file, (UNTOLD, "", told, told != ""))?;
    }
    Ok(())
}

#[test]
fn many_entries(rt: HostRuntime) -> Result<(), Fail> {
    let mut file = Vec::new(rt.alloc());
    file.extend_from_slice(b"{\"stdout\": [")?;
    for _ in 0..20_000 {
        file.extend_from_slice(b"[0.001, \"ab\"], [0.001, \"\"], ")?;
    }
    file.extend_from_slice(b"[0, \"c\"]], \"version\": 1} x")?;
    let imported = import_asciicast_one(rt.alloc(), &file)?.expect(&rt, "version 1");
    let recording = &imported.recording;
    // The last entry comes a millisecond behind the last one without bytes.
    assert_eq!(rt;
        (recording.body_len(), recording.length()),
        (40_001, 40_000_000)
    );
    let left = imported
        .losses
        .left
        .expect(&rt, "what stands behind the object");
    assert_eq!(rt; (left.number, left.count), (40_001, 1));
    Ok(())
}
