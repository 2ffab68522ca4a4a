//! What recordings of tlog are imported as: rows by hand.
use crate::comparison::{Told, compare_imported};
use std::alloc::Global;
use std::process::Abort;
use std::rt::Runtime;
use std::test::Fail;
use tape_import::import_tlog;

mod order;
mod refused;

/// What a header tells where nothing is told.
pub const UNKNOWN: &[u8] = b"Script started on unknown\n";

/// What is told of a message with a fault in the first line, which is the only one.
const BAD: &str = "recording line 1: bad event, 1 lines left out\n";

/// Imports a file and compares what is written of it.
pub fn compare(
    rt: &(impl Runtime<A = Global> + Abort),
    file: &[u8],
    wanted: Told,
) -> Result<(), Fail> {
    let imported = import_tlog(rt.alloc(), file)?;
    compare_imported(rt, file, &imported, wanted)
}

/// Compares a file whose header tells nothing.
pub fn compare_body(
    rt: &(impl Runtime<A = Global> + Abort),
    file: &[u8],
    body: &[u8],
    timing: &str,
    told: (&str, bool),
) -> Result<(), Fail> {
    let mut script = Vec::new(rt.alloc());
    script.extend_from_slice(UNKNOWN)?;
    script.extend_from_slice(body)?;
    compare(rt, file, (&script, timing, told.0, told.1))
}

/// Compares a file of one message, of which these are the members behind its version, number and moment.
fn compare_message(
    rt: &(impl Runtime<A = Global> + Abort),
    members: &[u8],
    body: &[u8],
    timing: &str,
    told: (&str, bool),
) -> Result<(), Fail> {
    let mut file = Vec::new(rt.alloc());
    file.extend_from_slice(b"{\"ver\": \"2.3\", \"id\": 1, \"pos\": 0, ")?;
    file.extend_from_slice(members)?;
    file.extend_from_slice(b"}\n")?;
    compare_body(rt, &file, body, timing, told)
}

#[test]
fn streams_over_two_messages(rt: HostRuntime) -> Result<(), Fail> {
    compare(
        &rt,
        b"{\"ver\": \"2.3\", \"id\": 1, \"pos\": 0, \"timing\": \"=80x24+2>2+10<1>1]1/2\", \
          \"out_txt\": \"ab\xc3\xa9\xef\xbf\xbd\", \"in_txt\": \"x\", \"out_bin\": [230, 151]}\n\
          {\"ver\": \"2.3\", \"id\": 2, \"pos\": 300, \"timing\": \"=80x24+5]0/1\", \"out_bin\": [165]}\n",
        (
            b"Script started on unknown [COLUMNS=\"80\" LINES=\"24\"]\nab\xc3\xa9\xe6\x97\xa5",
            "0.002000 2\n0.010000 2\n0.000000 2\n0.293000 1\n",
            "1 inputs, 0 markers, 0 resizes and 0 others left out\n",
            false,
        ),
    )
}

#[test]
fn characters(rt: HostRuntime) -> Result<(), Fail> {
    let rows: [(&[u8], &[u8], &str); 7] = [
        // What is left over is nothing, and no item is needed.
        (
            b"\"timing\": \">1>0\", \"out_txt\": \"abc\"",
            b"a",
            "0.000000 1\n",
        ),
        (b"\"timing\": \"\", \"out_txt\": \"abc\"", b"", ""),
        // A character is a byte with those from 128 to 191 behind it, also where it begins with one.
        (
            b"\"timing\": \">1+1>1\", \"out_txt\": \"\x80\xbf\x80a\"",
            b"\x80\xbf\x80a",
            "0.000000 3\n0.001000 1\n",
        ),
        (
            b"\"timing\": \">2+1>1\", \"out_txt\": \"\xff\xc0\xf0\x9f\x98\x80\"",
            b"\xff\xc0\xf0\x9f\x98\x80",
            "0.000000 2\n0.001000 4\n",
        ),
        // An escape is the character that it means.
        (
            b"\"timing\": \">1+1>2\", \"out_txt\": \"\\u00e9\\ud83d\\ude00\\n\"",
            b"\xc3\xa9\xf0\x9f\x98\x80\n",
            "0.000000 2\n0.001000 5\n",
        ),
        // Numbers may have zeros before them.
        (
            b"\"timing\": \"+001>000000000000000000002\", \"out_txt\": \"ab\"",
            b"ab",
            "0.001000 2\n",
        ),
        // The last member of a name counts, however it is written.
        (
            b"\"timing\": \">9\", \"out_txt\": \"ab\", \"out_txt\": \"cd\", \"tim\\u0069ng\": \">1\"",
            b"c",
            "0.000000 1\n",
        ),
    ];
    for (members, body, timing) in rows {
        compare_message(&rt, members, body, timing, ("", false))?;
    }
    Ok(())
}

#[test]
fn binary_streams(rt: HostRuntime) -> Result<(), Fail> {
    // Characters that are skipped, and bytes in their place.
    compare_message(
        &rt,
        b"\"timing\": \">1+1]2/3+1>1+1]0/1\", \"out_txt\": \"a\xc3\xa9\xe6\x97\xa5b\", \
          \"out_bin\": [ 9 , 10, 0, 255 ]",
        b"a\x09\x0a\x00b\xff",
        "0.000000 1\n0.001000 3\n0.001000 1\n0.001000 1\n",
        ("", false),
    )?;
    // What was typed is counted, an item at a time.
    compare_message(
        &rt,
        b"\"timing\": \"[2/1<1>1[0/2<0\", \"in_txt\": \"\xc3\xa9bc\", \"in_bin\": [1, 2, 3], \"out_txt\": \"x\", \
          \"out_bin\": []",
        b"x",
        "0.000000 1\n",
        (
            "4 inputs, 0 markers, 0 resizes and 0 others left out\n",
            false,
        ),
    )
}

#[test]
fn more_than_there_is(rt: HostRuntime) -> Result<(), Fail> {
    let rows: [&[u8]; 10] = [
        b"\"timing\": \">1>9\", \"out_txt\": \"abc\"",
        b"\"timing\": \">1\"",
        b"\"timing\": \">1\", \"in_txt\": \"a\"",
        b"\"timing\": \"<1<1\", \"in_txt\": \"a\"",
        b"\"timing\": \"<1\", \"out_txt\": \"a\"",
        b"\"timing\": \"]0/2\", \"out_txt\": \"ab\", \"out_bin\": [1]",
        b"\"timing\": \"]2/1\", \"out_txt\": \"a\", \"out_bin\": [1]",
        b"\"timing\": \"[0/1\", \"out_bin\": [1]",
        b"\"timing\": \"[1/1\", \"in_bin\": [1]",
        b"\"timing\": \">99999999999999999999\", \"out_txt\": \"a\"",
    ];
    for members in rows {
        compare_message(&rt, members, b"", "", (BAD, true))?;
    }
    compare_message(
        &rt,
        b"\"timing\": \"=80x24>2>9\", \"out_txt\": \"abc\"",
        b"",
        "",
        (BAD, true),
    )
}

#[test]
fn timings_that_are_none(rt: HostRuntime) -> Result<(), Fail> {
    let rows: [&str; 17] = [
        "x", ">", "+", "+-1", ">1 ", " >1", ">1,>1", "=80x", "=x24", "=80", "=80X24", "]1", "]1/",
        "]/1", "[1/", "[/1", "\\u003e",
    ];
    for timing in rows {
        let members = format!(in rt.alloc();
            "\"timing\": \"{timing}\", \"in_txt\": \"abc\", \"out_txt\": \"abc\", \"out_bin\": [1]"
        )?;
        compare_message(&rt, members.as_bytes(), b"", "", (BAD, true))?;
    }
    Ok(())
}

#[test]
fn members_that_are_none(rt: HostRuntime) -> Result<(), Fail> {
    let rows: [&[u8]; 14] = [
        b"\"timing\": 1",
        b"\"timing\": null",
        b"\"out_txt\": \"\"",
        b"\"timing\": \"\", \"in_txt\": null",
        b"\"timing\": \"\", \"out_txt\": [97]",
        b"\"timing\": \"\", \"in_bin\": null",
        b"\"timing\": \"\", \"in_bin\": {}",
        b"\"timing\": \"\", \"out_bin\": \"a\"",
        b"\"timing\": \"\", \"out_bin\": [256]",
        b"\"timing\": \"\", \"out_bin\": [1.0]",
        b"\"timing\": \"\", \"out_bin\": [1, -1]",
        b"\"timing\": \"\", \"out_bin\": [1, \"a\"]",
        b"\"timing\": \"\", \"out_bin\": [1,]",
        b"\"timing\": \"\", \"x\": [01]",
    ];
    for members in rows {
        compare_message(&rt, members, b"", "", (BAD, true))?;
    }
    Ok(())
}

#[test]
fn versions_and_numbers(rt: HostRuntime) -> Result<(), Fail> {
    let rows = [
        ("\"1\"", "1", "0", true),
        ("\"2\"", "1", "0", true),
        ("\"2.30\"", "1", "999999999999999999", true),
        ("\"1.0\"", "0", "0", true),
        ("\"3\"", "1", "0", false),
        ("\"2.\"", "1", "0", false),
        ("\"2.x\"", "1", "0", false),
        ("\"22\"", "1", "0", false),
        ("\"\"", "1", "0", false),
        ("2", "1", "0", false),
        ("\"2\"", "1.0", "0", false),
        ("\"2\"", "\"1\"", "0", false),
        ("\"2\"", "1e0", "0", false),
        ("\"2\"", "-1", "0", false),
        ("\"2\"", "1", "1000000000000000000", false),
        ("\"2\"", "1", "null", false),
    ];
    for (version, number, pos, is_read) in rows {
        let file = format!(in rt.alloc();
            "{{\"ver\": {version}, \"id\": {number}, \"pos\": {pos}, \"timing\": \"\"}}"
        )?;
        let told = if is_read { "" } else { BAD };
        compare_body(&rt, file.as_bytes(), b"", "", (told, !is_read))?;
    }
    Ok(())
}

#[test]
fn windows(rt: HostRuntime) -> Result<(), Fail> {
    let rows: [(&[u8], &[u8], &str, u64); 4] = [
        // The last one before the first output gives the size.
        (
            b"=80x24=90x20>1",
            b"Script started on unknown [COLUMNS=\"90\" LINES=\"20\"]\na",
            "0.000000 1\n",
            0,
        ),
        // So does one behind an output without bytes.
        (
            b">0=90x20>1=90x20",
            b"Script started on unknown [COLUMNS=\"90\" LINES=\"20\"]\na",
            "0.000000 1\n",
            0,
        ),
        // A badly formed one counts, and leaves the size in force; so the next one is nothing.
        (
            b"=80x24=0x0>1=10000x24=80x24",
            b"Script started on unknown [COLUMNS=\"80\" LINES=\"24\"]\na",
            "0.000000 1\n",
            2,
        ),
        // Two behind it, back to the size that was in force before.
        (
            b"=80x24>1=90x20=80x24=80x24",
            b"Script started on unknown [COLUMNS=\"80\" LINES=\"24\"]\na",
            "0.000000 1\n",
            2,
        ),
    ];
    for (items, script, timing, resizes) in rows {
        let mut file = Vec::new(rt.alloc());
        file.extend_from_slice(b"{\"ver\": \"2.3\", \"id\": 1, \"pos\": 0, \"timing\": \"")?;
        file.extend_from_slice(items)?;
        file.extend_from_slice(b"\", \"out_txt\": \"a\"}")?;
        let told = format!(in rt.alloc();
            "0 inputs, 0 markers, {resizes} resizes and 0 others left out\n"
        )?;
        let told = if resizes > 0 { told.as_str() } else { "" };
        compare(&rt, &file, (script, timing, told, resizes > 0))?;
    }
    Ok(())
}

#[test]
fn what_the_first_message_tells(rt: HostRuntime) -> Result<(), Fail> {
    let header =
        b"Script started on 2017-09-03 19:35:15+00:00 [TERM=\"xterm\" COLUMNS=\"80\" LINES=\"24\"]\nab";
    compare(
        &rt,
        b"{\"ver\": \"2.3\", \"id\": 1, \"pos\": 0, \"timing\": \"=80x24>1\", \"out_txt\": \"a\", \
          \"term\": \"xterm\", \"time\": 1504467315.9}\n\
          {\"ver\": \"2.3\", \"id\": 2, \"pos\": 0, \"timing\": \">1\", \"out_txt\": \"b\", \
          \"term\": \"linux\", \"time\": 1504467316}\n",
        (header, "0.000000 1\n0.000000 1\n", "", false),
    )?;
    // What the second one tells isn't told.
    compare_body(
        &rt,
        b"{\"ver\": \"2.3\", \"id\": 1, \"pos\": 0, \"timing\": \"\", \"term\": \"a b\", \"time\": 86399}\n\
          {\"ver\": \"2.3\", \"id\": 2, \"pos\": 0, \"timing\": \"\", \"term\": \"xterm\", \"time\": 86400}\n",
        b"",
        "",
        ("", false),
    )
}

/// A message whose second output is longer than a chunk, and one behind it.
fn too_long(alloc: Global) -> Result<Vec<u8>, Fail> {
    let mut file = Vec::new(alloc);
    file.extend_from_slice(
        b"{\"ver\": \"2.3\", \"id\": 2, \"pos\": 0, \"timing\": \"=80x24<1>1=1x1<1>1048577>1\", \
          \"term\": \"xterm\", \"in_txt\": \"ab\", \"out_txt\": \"a",
    )?;
    for _ in 0..1_048_578 {
        file.push(b'x')?;
    }
    file.extend_from_slice(b"\"}\n{\"ver\": \"2.3\", \"id\": 3, \"pos\": 0, \"timing\": \"\"}\n")?;
    Ok(file)
}

#[test]
fn an_output_longer_than_a_chunk(rt: HostRuntime) -> Result<(), Fail> {
    compare(
        &rt,
        &too_long(rt.alloc())?,
        (
            b"Script started on unknown [TERM=\"xterm\" COLUMNS=\"80\" LINES=\"24\"]\na",
            "0.000000 1\n",
            "first message is number 2\nrecording line 1: chunk too long, 2 lines left out\n\
             2 inputs, 0 markers, 1 resizes and 0 others left out\n",
            true,
        ),
    )
}

#[test]
fn many_outputs_and_messages(rt: HostRuntime) -> Result<(), Fail> {
    let count: u64 = 20_000;
    let mut file = Vec::new(rt.alloc());
    file.extend_from_slice(b"{\"ver\": \"2.3\", \"id\": 1, \"pos\": 0, \"timing\": \"")?;
    for _ in 0..count {
        file.extend_from_slice(b"+1>1")?;
    }
    file.extend_from_slice(b"\", \"out_txt\": \"")?;
    for _ in 0..count {
        file.extend_from_slice("é".as_bytes())?;
    }
    file.extend_from_slice(b"\"}\n")?;
    for number in 0..1_000u64 {
        let id = number.wrapping_add(2);
        let line = format!(in rt.alloc();
            "{{\"ver\": \"2.3\", \"id\": {id}, \"pos\": 20000, \"timing\": \"]0/1\", \"out_bin\": [0]}}\n"
        )?;
        file.extend_from_slice(line.as_bytes())?;
    }
    let imported = import_tlog(rt.alloc(), &file)?;
    let recording = &imported.recording;
    assert_eq!(rt;
        (recording.body_len(), recording.length()),
        (41_000, 20_000_000)
    );
    assert!(rt; !imported.losses.is_damaged());
    Ok(())
}
