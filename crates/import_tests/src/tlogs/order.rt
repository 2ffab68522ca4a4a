//! When what messages tell is due, and which of them are in order.
use super::{compare, compare_body};
use std::alloc::Global;
use std::process::Abort;
use std::rt::Runtime;
use std::test::Fail;
use tape_import::import_tlog;

/// A message that shows a byte: its number, its moment, its timing, and members besides.
type Message<'a> = (u64, u64, &'a str, &'a str);

/// The file of these messages.
fn file_of(rt: &(impl Runtime<A = Global> + Abort), messages: &[Message]) -> Result<Vec<u8>, Fail> {
    let mut file = Vec::new(rt.alloc());
    for (number, pos, timing, members) in messages {
        let line = format!(in rt.alloc();
            "{{\"ver\": \"2.3\", \"id\": {number}, \"pos\": {pos}, \"timing\": \"{timing}\", \
             \"out_txt\": \"a\"{members}}}\n"
        )?;
        file.extend_from_slice(line.as_bytes())?;
    }
    Ok(file)
}

#[test]
fn moments(rt: HostRuntime) -> Result<(), Fail> {
    let rows: [(&[Message], &[u8], &str, &str); 5] = [
        // The times of a line add up, and end with it.
        (
            &[(1, 0, "+500+500>1+9000", ""), (2, 1500, "+1>1", "")],
            b"aa",
            "1.000000 1\n0.501000 1\n",
            "",
        ),
        // An output isn't due before the one before it.
        (
            &[(1, 300, "+200>1", ""), (2, 400, ">1", "")],
            b"aa",
            "0.500000 1\n0.000000 1\n",
            "",
        ),
        // One without bytes gives no chunk, and its time goes to the next one.
        (
            &[(1, 300, ">0", ""), (2, 400, ">1", "")],
            b"a",
            "0.400000 1\n",
            "",
        ),
        // A delay above a million seconds is cut, and counted.
        (
            &[(1, 0, ">1", ""), (2, 1_000_000_001, ">1", "")],
            b"aa",
            "0.000000 1\n1000000.000000 1\n",
            "1 delays cut to 1000000 seconds\n",
        ),
        // No moment is above 10^18 microseconds.
        (
            &[
                (1, 999_999_999_999_999_999, "+99999999999999999999>1", ""),
                (2, 999_999_999_999_999_999, ">1", ""),
            ],
            b"aa",
            "1000000.000000 1\n0.000000 1\n",
            "1 delays cut to 1000000 seconds\n",
        ),
    ];
    for (messages, body, timing, told) in rows {
        let file = file_of(&rt, messages)?;
        compare_body(&rt, &file, body, timing, (told, told != ""))?;
    }
    Ok(())
}

#[test]
fn a_recording_that_begins_late(rt: HostRuntime) -> Result<(), Fail> {
    compare(
        &rt,
        b"{\"ver\": \"2.3\", \"id\": 3, \"pos\": 9000, \"timing\": \"=80x24>1=90x20>1\", \"out_txt\": \"ab\"}\n\
          {\"ver\": \"2.3\", \"id\": 5, \"pos\": 9000, \"timing\": \"=90x20>1\", \"out_txt\": \"c\"}\n",
        (
            b"Script started on unknown [COLUMNS=\"80\" LINES=\"24\"]\nab",
            "9.000000 1\n0.000000 1\n",
            "first message is number 3\nrecording line 2: out of order, 1 lines left out\n\
             0 inputs, 0 markers, 1 resizes and 0 others left out\n",
            true,
        ),
    )
}

#[test]
fn messages_out_of_order(rt: HostRuntime) -> Result<(), Fail> {
    let disorder = "recording line 2: out of order, 1 lines left out\n";
    let bad = "recording line 2: bad event, 1 lines left out\n";
    let named = ", \"rec\": \"r\"";
    let rows: [(&[Message], &str); 10] = [
        (&[(1, 0, ">1", named), (2, 0, ">1", named)], ""),
        (&[(0, 0, ">1", ""), (1, 0, ">1", "")], ""),
        (&[(1, 0, ">1", ""), (1, 0, ">1", "")], disorder),
        (&[(1, 0, ">1", ""), (0, 0, ">1", "")], disorder),
        (&[(1, 0, ">1", ""), (3, 0, ">1", "")], disorder),
        (
            &[(1, 0, ">1", named), (2, 0, ">1", ", \"rec\": \"R\"")],
            disorder,
        ),
        (&[(1, 0, ">1", named), (2, 0, ">1", "")], disorder),
        (&[(1, 0, ">1", ""), (2, 0, ">1", named)], disorder),
        // None, and one that is no string, are alike.
        (
            &[
                (1, 0, ">1", ", \"rec\": 1"),
                (2, 0, ">1", ", \"rec\": null"),
            ],
            "",
        ),
        // Whether it is a message at all is looked at first.
        (&[(1, 0, ">1", ""), (3, 0, ">2", "")], bad),
    ];
    for (messages, told) in rows {
        let file = file_of(&rt, messages)?;
        if told == "" {
            compare_body(&rt, &file, b"aa", "0.000000 1\n0.000000 1\n", ("", false))?;
        } else {
            compare_body(&rt, &file, b"a", "0.000000 1\n", (told, true))?;
        }
    }
    Ok(())
}

#[test]
fn the_first_message_names_the_recording(rt: HostRuntime) -> Result<(), Fail> {
    let messages = [
        (7, 0, ">1", ", \"rec\": \"r\""),
        (8, 0, ">1", ", \"rec\": \"r\""),
        (9, 0, ">1", ", \"rec\": \"s\""),
        (10, 0, ">1", ""),
    ];
    let told = "first message is number 7\nrecording line 3: out of order, 2 lines left out\n";
    let file = file_of(&rt, &messages)?;
    compare_body(&rt, &file, b"aa", "0.000000 1\n0.000000 1\n", (told, true))
}

#[test]
fn lines(rt: HostRuntime) -> Result<(), Fail> {
    // Lines of space alone are skipped, and counted.
    compare_body(
        &rt,
        b"\n \t\r\n{\"ver\": \"2\", \"id\": 1, \"pos\": 0, \"timing\": \">1\", \"out_txt\": \"a\"}\r\n\n{}\n\n",
        b"a",
        "0.000000 1\n",
        ("recording line 5: bad event, 2 lines left out\n", true),
    )?;
    // A first line that is no message is as if there were none.
    compare_body(
        &rt,
        b"[]\n{\"ver\": \"2\", \"id\": 3, \"pos\": 0, \"timing\": \"\"}\n",
        b"",
        "",
        ("recording line 1: bad event, 2 lines left out\n", true),
    )?;
    compare_body(&rt, b"", b"", "", ("", false))
}

#[test]
fn fronts(rt: HostRuntime) -> Result<(), Fail> {
    let file = file_of(&rt, &[(1, 0, ">1", ""), (2, 5, ">1", "")])?;
    let line = file_of(&rt, &[(1, 0, ">1", "")])?.len();
    for len in 0..file.len() {
        // The brace, not the LF behind it, makes a line whole.
        let next = len.wrapping_add(1);
        let bytes = u64::from(next >= line) + u64::from(next == file.len());
        let is_whole = len == 0 || next == line || len == line || next == file.len();
        let imported = import_tlog(rt.alloc(), &file[..len])?;
        let got = (
            imported.recording.body_len(),
            imported.losses.left.is_some(),
        );
        assert_eq!(rt; got, (bytes, !is_whole), "{len}");
    }
    Ok(())
}
