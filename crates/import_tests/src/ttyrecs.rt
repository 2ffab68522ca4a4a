//! What ttyrecs are imported as: rows by hand.
use crate::comparison::compare_imported;
use std::alloc::{AllocError, Global};
use std::process::Abort;
use std::rc::Rc;
use std::rt::Runtime;
use std::test::Fail;
use tape_import::form::is_ttyrec;
use tape_import::import_ttyrec;

mod refused;

/// A record: seconds and microseconds of its clock, the length that it tells, and its bytes.
type Record<'a> = (u32, u32, u32, &'a [u8]);

/// The new pair, what is told of losses, and whether something was left out or cut.
type Told<'a> = (&'a str, &'a str, &'a str, bool);

/// Adds a record to a file.
fn push_record(file: &mut Vec<u8>, record: Record) -> Result<(), AllocError> {
    for number in [record.0, record.1, record.2] {
        file.extend_from_slice(&number.to_le_bytes())?;
    }
    file.extend_from_slice(record.3)
}

/// A file of these records, and bytes behind them.
fn file_of(alloc: Global, records: &[Record], behind: &[u8]) -> Result<Rc<Vec<u8>>, AllocError> {
    let mut file = Vec::new(alloc);
    for record in records {
        push_record(&mut file, *record)?;
    }
    file.extend_from_slice(behind)?;
    Ok(Rc::new(alloc, file)?)
}

/// Imports a file and compares what is written of it.
fn compare(
    rt: &(impl Runtime<A = Global> + Abort),
    records: &[Record],
    behind: &[u8],
    wanted: Told,
) -> Result<(), Fail> {
    let alloc = rt.alloc();
    let file = file_of(alloc, records, behind)?;
    assert!(rt; is_ttyrec(&file));
    let imported = import_ttyrec(alloc, &file, 0)?;
    let (script, timing, told, damaged) = wanted;
    compare_imported(
        rt,
        &file,
        &imported,
        (script.as_bytes(), timing, told, damaged),
    )
}

#[test]
fn clocks(rt: HostRuntime) -> Result<(), Fail> {
    let rows: [(&[Record], Told); 4] = [
        // An output without bytes gives no chunk, and its time goes to the next one.
        (
            &[
                (1_795_801_254, 999_999, 1, b"a"),
                (1_795_801_255, 1, 0, b""),
                (1_795_801_256, 0, 2, b"bc"),
            ],
            (
                "Script started on 2026-11-27 17:40:54+00:00\nabc",
                "0.000000 1\n1.000001 2\n",
                "",
                false,
            ),
        ),
        // A clock that goes back stands still, and goes on from there.
        (
            &[(5, 0, 1, b"a"), (3, 0, 1, b"b"), (4, 500_000, 1, b"c")],
            (
                "Script started on unknown\nabc",
                "0.000000 1\n0.000000 1\n1.500000 1\n",
                "",
                false,
            ),
        ),
        // Microseconds aren't judged.
        (
            &[(86_400, 0, 1, b"a"), (86_400, 2_000_000, 1, b"b")],
            (
                "Script started on 1970-01-02 00:00:00+00:00\nab",
                "0.000000 1\n2.000000 1\n",
                "",
                false,
            ),
        ),
        // A delay above a million seconds is cut, and counted.
        (
            &[
                (86_399, 0, 1, b"a"),
                (1_086_399, 1, 1, b"b"),
                (1_086_400, 0, 1, b"c"),
            ],
            (
                "Script started on unknown\nabc",
                "0.000000 1\n1000000.000000 1\n0.999999 1\n",
                "1 delays cut to 1000000 seconds\n",
                true,
            ),
        ),
    ];
    for (records, wanted) in rows {
        compare(&rt, records, b"", wanted)?;
    }
    Ok(())
}

#[test]
fn sizes(rt: HostRuntime) -> Result<(), Fail> {
    let rows: [(&[u8], &str); 9] = [
        (b"\x1b%G\x1b[8;30;100t", " [COLUMNS=\"100\" LINES=\"30\"]"),
        (b"\x1b%@\x1b[8;1;9999tx", " [COLUMNS=\"9999\" LINES=\"1\"]"),
        (b"\x1b[8;024;080t", " [COLUMNS=\"80\" LINES=\"24\"]"),
        (b"\x1b[8;0;80t", ""),
        (b"\x1b[8;24;10000t", ""),
        (b"\x1b[8;24;80", ""),
        (b"\x1b[8;24;80;t", ""),
        (b"\x1b[8;2 4;80t", ""),
        (b"x\x1b[8;24;80t", ""),
    ];
    for (bytes, size) in rows {
        let script = format!(in rt.alloc();
            "Script started on 1970-01-02 00:00:00+00:00{size}\n{}",
            str::from_utf8(bytes).unwrap_or("")
        )?;
        let timing = format!(in rt.alloc(); "0.000000 {}\n", bytes.len())?;
        let records = [(86_400, 0, bytes.len().min(99) as u32, bytes)];
        compare(
            &rt,
            &records,
            b"",
            (script.as_str(), timing.as_str(), "", false),
        )?;
    }
    Ok(())
}

#[test]
fn damage(rt: HostRuntime) -> Result<(), Fail> {
    let rows: [(&[Record], &[u8], Told); 5] = [
        // Data that ends early is taken as far as it goes.
        (
            &[(5, 0, 1, b"a"), (3, 0, 1, b"b"), (4, 500_000, 5, b"cd")],
            b"",
            (
                "Script started on unknown\nabcd",
                "0.000000 1\n0.000000 1\n1.500000 2\n",
                "chunk 2 cut to 2 of 5 bytes\n",
                true,
            ),
        ),
        // A head that ends early.
        (
            &[(86_400, 0, 14, b"\x1b%G\x1b[8;30;100t")],
            b"abc",
            (
                "Script started on 1970-01-02 00:00:00+00:00 [COLUMNS=\"100\" LINES=\"30\"]\n\x1b%G\x1b[8;30;100t",
                "0.000000 14\n",
                "recording event 1: bad event, 3 bytes left out\n",
                true,
            ),
        ),
        // A head that tells bytes, and none of them there.
        (
            &[(86_400, 0, 0, b""), (86_400, 0, 5, b"")],
            b"",
            (
                "Script started on 1970-01-02 00:00:00+00:00\n",
                "",
                "recording event 1: bad event, 12 bytes left out\n",
                true,
            ),
        ),
        // More bytes told than a chunk has, also where they aren't there: the first clock is told, the size isn't.
        (
            &[(86_400, 0, 1_048_577, b"\x1b[8;30;100t")],
            b"",
            (
                "Script started on 1970-01-02 00:00:00+00:00\n",
                "",
                "recording event 0: chunk too long, 23 bytes left out\n",
                true,
            ),
        ),
        (
            &[(86_400, 0, 1_048_576, b"ab")],
            b"",
            (
                "Script started on 1970-01-02 00:00:00+00:00\nab",
                "0.000000 2\n",
                "chunk 0 cut to 2 of 1048576 bytes\n",
                true,
            ),
        ),
    ];
    for (records, behind, wanted) in rows {
        compare(&rt, records, behind, wanted)?;
    }
    Ok(())
}

#[test]
fn dates(rt: HostRuntime) -> Result<(), Fail> {
    let rows: [(u32, &str); 4] = [
        (1_795_801_211, "2026-11-27 17:40:11+00:00"), // its first byte is `{`
        (951_782_400, "2000-02-29 00:00:00+00:00"),
        (4_294_967_295, "2106-02-07 06:28:15+00:00"),
        (0, "unknown"),
    ];
    for (second, date) in rows {
        let script = format!(in rt.alloc(); "Script started on {date}\na")?;
        compare(
            &rt,
            &[(second, 0, 1, b"a")],
            b"",
            (script.as_str(), "0.000000 1\n", "", false),
        )?;
    }
    Ok(())
}
