//! What files of any form are imported as, and why others aren't: rows by hand.
use crate::comparison::{Told, compare_imported};
use std::alloc::{AllocError, Global};
use std::process::Abort;
use std::rc::Rc;
use std::rt::Runtime;
use std::test::Fail;
use tape_import::{ImportFault, import};

mod refused;
mod whole;

/// A file of these bytes.
fn file_of(alloc: Global, bytes: &[u8]) -> Result<Rc<Vec<u8>>, AllocError> {
    let mut file = Vec::new(alloc);
    file.extend_from_slice(bytes)?;
    Ok(Rc::new(alloc, file)?)
}

/// Imports a file and compares what is written of it.
fn compare(
    rt: &(impl Runtime<A = Global> + Abort),
    bytes: &[u8],
    wanted: Told,
) -> Result<(), Fail> {
    let imported = import(rt.alloc(), &file_of(rt.alloc(), bytes)?)?;
    compare_imported(rt, bytes, &imported, wanted)
}

#[test]
fn forms(rt: HostRuntime) -> Result<(), Fail> {
    let rows: [(&[u8], Told); 9] = [
        // A byte order mark, and blank lines, before and behind the header.
        (
            b"\xef\xbb\xbf{\"version\": 2, \"width\": 80, \"height\": 24}\r\n\r\n \t\r\n[1, \"o\", \"a\"]\r\n",
            (
                b"Script started on unknown [COLUMNS=\"80\" LINES=\"24\"]\na",
                "1.000000 1\n",
                "",
                false,
            ),
        ),
        (
            b"\xef\xbb\xbf\n \t\r\n  {\"version\": 3}\n# a\n[1, \"o\", \"a\"]\n[1, \"o\", \"b\"]\n",
            (
                b"Script started on unknown\nab",
                "1.000000 1\n1.000000 1\n",
                "",
                false,
            ),
        ),
        (
            b"{\"version\": 1, \"version\": 2}\n[1, \"o\", \"a\"]\n",
            (b"Script started on unknown\na", "1.000000 1\n", "", false),
        ),
        // A first line that is no value by itself, and one that is.
        (
            b"\xef\xbb\xbf\n{\"stdout\": [[0.5, \"a\"],\n[0.25, \"b\"], [0.1, \"\"], [0.1, \"c\"]], \"width\": 80, \
              \"height\": 24, \"version\": 1}",
            (
                b"Script started on unknown [COLUMNS=\"80\" LINES=\"24\"]\nabc",
                "0.500000 1\n0.250000 1\n0.200000 1\n",
                "",
                false,
            ),
        ),
        (
            b"{\"ver\": 2, \"timing\": 1, \"version\": 1, \"stdout\": [[1, \"a\"]]}\n[1, \"o\", \"b\"]\n",
            (
                b"Script started on unknown\na",
                "1.000000 1\n",
                "recording event 1: bad event, 14 bytes left out\n",
                true,
            ),
        ),
        (
            b"{\"version\": 1, \"width\": 80, \"height\": 24, \"stdout\": [\n[0.5, \"a\"],\n[0.25, \"b",
            (
                b"Script started on unknown [COLUMNS=\"80\" LINES=\"24\"]\na",
                "0.500000 1\n",
                "recording event 1: bad event, 9 bytes left out\n",
                true,
            ),
        ),
        // A header of version 2 that isn't whole tells no version.
        (
            b"{\"version\": 1,\n\"version\": 2, \"version\": 1}",
            (b"Script started on unknown\n", "", "", false),
        ),
        // A clock whose first byte is a brace, and one behind a mark.
        (
            b"{\xc0\tk\0\0\0\0\x01\0\0\0a",
            (
                b"Script started on 2026-11-27 17:40:11+00:00\na",
                "0.000000 1\n",
                "",
                false,
            ),
        ),
        (
            b"\xef\xbb\xbf\x80\x51\x01\0\0\0\0\0\0\0\0\0",
            (
                b"Script started on 1970-01-02 00:00:00+00:00\n",
                "",
                "",
                false,
            ),
        ),
    ];
    for (file, wanted) in rows {
        compare(&rt, file, wanted)?;
    }
    Ok(())
}

#[test]
fn what_is_not_read(rt: HostRuntime) -> Result<(), Fail> {
    let rows: [(&[u8], &str); 18] = [
        (b"\x1f\x8b\x08\0abcdefgh", "recording is compressed"),
        (b"BZh91AY&SY", "recording is compressed"),
        (b"\xfd7zXZ\0\0\x04", "recording is compressed"),
        (b"\x28\xb5\x2f\xfd", "recording is compressed"),
        (b"\xef\xbb\xbfBZh91AY&SY", "recording of no known form"),
        (b"Script started on X\nab", "recording of no known form"),
        (b"", "recording of no known form"),
        (b"\xef\xbb\xbf", "recording of no known form"),
        (b" \n\t\r\n", "recording of no known form"),
        (b"{}", "recording of no known form"),
        (b"[{\"version\": 1}]", "recording of no known form"),
        (b"x{\"version\": 2}", "recording of no known form"),
        (b"{\"version\": 4}", "recording of no known form"),
        (b"{\"version\": 2.0}\n", "recording of no known form"),
        (b"{\"version\": 2} x\n", "recording of no known form"),
        (b"{\"version\": \"1\"}", "recording of no known form"),
        (b"{\"version\":\n2}", "recording of no known form"),
        (
            b"{\"stdout\": [[1, \"a\"], 2], \"version\": 1}",
            "recording of no known form",
        ),
    ];
    for (bytes, wanted) in rows {
        let file = file_of(rt.alloc(), bytes)?;
        let told = match import(rt.alloc(), &file) {
            Ok(_) => format!(in rt.alloc(); "nothing")?,
            Err(fault) => format!(in rt.alloc(); "{fault}")?,
        };
        assert_eq!(rt; told.as_str(), wanted, "{bytes:?}");
    }
    Ok(())
}

#[test]
fn want_of_memory(rt: HostRuntime) -> Result<(), Fail> {
    let told = format!(in rt.alloc(); "{}", ImportFault::from(AllocError))?;
    assert_eq!(rt; told.as_str(), "out of memory");
    Ok(())
}
