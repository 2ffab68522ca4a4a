//! Lines of a check for a terminal of today.
use super::{PLAIN, compare_all, recorded};
use std::alloc::Global;
use std::process::Abort;
use std::rt::Runtime;
use std::test::Fail;
use tape_check::{PlayedAs, put_parts, write_check};
use tape_core::Watched;

/// A terminal of 90 columns and 30 lines.
const TODAY: PlayedAs = PlayedAs::Today {
    columns: 90,
    lines: 30,
};

/// Checks chunks under a header.
fn compare_today(
    rt: &(impl Runtime<A = Global> + Abort),
    header: &[u8],
    chunks: &[u8],
    lines: &str,
) -> Result<(), Fail> {
    let recording = recorded(rt, header, chunks, b"")?;
    compare_all(rt, &recording, TODAY, lines, "");
    Ok(())
}

/// Headers, and what is told of them: sizes are compared as numbers, names up to `-` or `.`.
const HEADERS: [(&[u8], &str); 7] = [
    (
        b"Script started on X [TERM=\"xterm-256color\" COLUMNS=\"090\" LINES=\"30\"]",
        "started X\nterm xterm-256color\nsize 090x30\n",
    ),
    (
        b"Script started on X [TERM=\"screen.linux\" COLUMNS=\"80\" LINES=\"24\"]",
        "started X\nterm screen.linux\nsize 80x24\nnote size: recorded at 80x24, played at 90x30\n",
    ),
    (
        b"Script started on X [COLUMNS=\"99999999999999999999\" LINES=\"30\"]",
        "started X\nsize 99999999999999999999x30\nnote size: recorded at 99999999999999999999x30, played at 90x30\n",
    ),
    (
        b"Script started on X [TERM=\"ansi\"]",
        "started X\nterm ansi\n",
    ),
    (
        b"Script started on X [TERM=\"st.\"]",
        "started X\nterm st.\n",
    ),
    (
        b"Script started on X [TERM=\"vt52\"]",
        "started X\nterm vt52\nnote term: recorded under vt52, played as xterm\n",
    ),
    (
        b"Script started on X [TERM=\"xterms\"]",
        "started X\nterm xterms\nnote term: recorded under xterms, played as xterm\n",
    ),
];

/// Chunks, and how many parts of them are no UTF-8.
const PARTS: [(&[u8], &str); 8] = [
    (b"a\xc3|\xa9\xe6\x97|\xa5", ""),
    (b"\x80", "note bytes: 1 parts that are no UTF-8\n"),
    // One for each maximal part: a character that can't go on, and a byte that begins none.
    (
        b"\xe6\x97\x1b[m\xff",
        "note bytes: 2 parts that are no UTF-8\n",
    ),
    (b"\xf0\x80\x80", "note bytes: 3 parts that are no UTF-8\n"),
    // What the end leaves unfinished.
    (b"\xf0\x9f\x98", "note bytes: 1 parts that are no UTF-8\n"),
    // Inside sequences, strings and titles bytes from 128 are nothing.
    (b"\x1b[\xff1m\x1b]0;\xff\x07", ""),
    (b"\x1bk\xff\x1b\\", ""),
    (
        b"\x1bk\xff\x07\xff",
        "note bytes: 1 parts that are no UTF-8\n",
    ),
];

/// Chunks, and what is unplayed of them.
const UNPLAYED: [(&[u8], &str); 9] = [
    (
        b"\x1b[?1h\x1b[?25l\x1b[?1049h\x1b[?2004h\x1b[?12;9999l\x1b[3;12h",
        "",
    ),
    (
        b"\x1b[?2;3;45;69;95h",
        "unplayed 1 ESC [ ? 2 h\nunplayed 1 ESC [ ? 3 h\nunplayed 1 ESC [ ? 45 h\nunplayed 1 ESC [ ? 69 h\nunplayed 1 ESC [ ? 95 h\n",
    ),
    (
        b"\x1b[q\x1b[t\x1b[?c\x1b[?n\x1b[?q\x1b[?r\x1b[?s\x1b[?u\x1b[?m",
        "",
    ),
    (
        b"\x1b[?t\x1b[w",
        "unplayed 1 ESC [ ? t\nunplayed 1 ESC [ w\n",
    ),
    (
        b"\x1b[>c\x1b[>n\x1b[$p\x1b[ q\x1b[>t\x1b[=u\x1b[>4m\x1b[!!p",
        "",
    ),
    (
        b"\x1b[!p\x1b[38:5:1m\x1b[ @",
        "unplayed 1 ESC [ .. @\nunplayed 1 ESC [ .. m\nunplayed 1 ESC [ .. p\n",
    ),
    // A control inside a text is no part of it.
    (
        b"\x1b[!\rp\x1b[38\n:1m\x1b[>\x1b[m",
        "unplayed 1 ESC [ .. m\nunplayed 1 ESC [ .. p\n",
    ),
    (
        b"\x1b F\x1b%G\x1b*0\x1b+0\x1b-A\x1b.A\x1b/A\x1b\\\x1bkt[\x1b\\",
        "",
    ),
    (
        b"\x1bN\x1b#3\x1b(X\x1b((A\x1bc",
        "unplayed 1 ESC # 3\nunplayed 1 ESC ( X\nunplayed 1 ESC .. A\nunplayed 1 ESC N\n",
    ),
];

/// Chunks with runs of graphic characters, and what is noted and unplayed of them.
const RUNS: [(&[u8], &str); 14] = [
    // 15, 16, 17 and 33 of them before a sequence.
    (b"abcdefghijklmno\x1b[w", "unplayed 1 ESC [ w\n"),
    (b"abcdefghijklmnop\x1b[w", "unplayed 1 ESC [ w\n"),
    (b"abcdefghijklmnopq\x1b[w", "unplayed 1 ESC [ w\n"),
    (
        b"abcdefghijklmnopqrstuvwxyzabcdefg\x1b[w",
        "unplayed 1 ESC [ w\n",
    ),
    // All of them, with a sequence before and behind, and DEL between.
    (
        b"\x1bN !\"#$%&'()*+,-./0123456789:;<=>?@AMNZ[\\]^_`amz{}~\x7f~~~\x1bN",
        "unplayed 2 ESC N\n",
    ),
    // A title ends with BEL, or by the ESC of a sequence.
    (
        b"abcdefghijklmnopq\x1bkabcdefghijklmnopq\x1b[w",
        "unplayed 1 ESC [ w\n",
    ),
    (
        b"\x1bkabcdefghijklmnopq|abcdefghijklmnopq\xff\x07abcdefghijklmnopq\xff\x1b[w",
        "note bytes: 1 parts that are no UTF-8\nunplayed 1 ESC [ w\n",
    ),
    // A string goes on over a border.
    (
        b"\x1b]0;abcdefghijklmnopq|[wabcdefghijklmnopq\xff\x07abcdefghijklmnopq\x1bN",
        "unplayed 1 ESC N\n",
    ),
    // A character that goes on, and one that doesn't.
    (
        b"abcdefghijklmnopq\xe6\x97|\xa5abcdefghijklmnopq\x1b[w",
        "unplayed 1 ESC [ w\n",
    ),
    (
        b"abcdefghijklmnopq\xe6\x97abcdefghijklmnopq\xf0|abcdefghijklmnopq\x1b[w",
        "note bytes: 2 parts that are no UTF-8\nunplayed 1 ESC [ w\n",
    ),
    // The graphic characters behind a border first end what was begun before it.
    (
        b"abcdefghijklmnopq\x1b[1;2|wabcdefghijklmnopq\x1b|[wabcdefghijklmnopq\x1b[|wabcdefghijklmnopq",
        "unplayed 3 ESC [ w\n",
    ),
    (
        b"\x1b|Nabcdefghijklmnopq\x1b#|3abcdefghijklmnopq\x1b(|(Aabcdefghijklmnopq",
        "unplayed 1 ESC # 3\nunplayed 1 ESC .. A\nunplayed 1 ESC N\n",
    ),
    (
        b"\x1b[38:|5:1mabcdefghijklmnopq\x1b[!|pabcdefghijklmnopq\x1b[!|!p\x1b[38|\n:1mabcdefghijklmnopq",
        "unplayed 2 ESC [ .. m\nunplayed 1 ESC [ .. p\n",
    ),
    // One that is cut begins anew.
    (
        b"\x1b[:|\x1b[4mabcdefghijklmnopq\x1b[:\x18mabcdefghijklmnopq\x1b[:\xff|4m\x1b[?2;|3h",
        "unplayed 1 ESC [ .. m\nunplayed 1 ESC [ ? 2 h\nunplayed 1 ESC [ ? 3 h\n",
    ),
];

#[test]
fn headers_of_today(rt: HostRuntime) -> Result<(), Fail> {
    for (header, lines) in &HEADERS {
        compare_today(&rt, header, b"ab", lines)?;
    }
    Ok(())
}

#[test]
fn malformed_parts_are_counted(rt: HostRuntime) -> Result<(), Fail> {
    for (chunks, notes) in &PARTS {
        let lines = format!(in rt.alloc(); "started X\n{notes}")?;
        compare_today(&rt, PLAIN, chunks, lines.as_str())?;
    }
    Ok(())
}

#[test]
fn quiet_sequences_are_left_out(rt: HostRuntime) -> Result<(), Fail> {
    for (chunks, unplayed) in &UNPLAYED {
        let lines = format!(in rt.alloc(); "started X\n{unplayed}")?;
        compare_today(&rt, PLAIN, chunks, lines.as_str())?;
    }
    Ok(())
}

#[test]
fn runs_hide_no_sequence(rt: HostRuntime) -> Result<(), Fail> {
    for (chunks, told) in &RUNS {
        let lines = format!(in rt.alloc(); "started X\n{told}")?;
        compare_today(&rt, PLAIN, chunks, lines.as_str())?;
    }
    Ok(())
}

#[test]
fn whoever_plays_it_gets_no_advice(rt: HostRuntime) -> Result<(), Fail> {
    let header = b"Script started on X [TERM=\"dumb\" COLUMNS=\"80\" LINES=\"24\"]";
    let recording = recorded(&rt, header, b"ab", b"")?;
    let mut writer = Watched::new(Vec::new(rt.alloc()));
    let told = put_parts(&recording, TODAY, 0, &mut writer);
    assert_eq!(&rt;
        (told, str::from_utf8(writer.into_inner().as_slice())),
        (
            Ok(true),
            Ok(
                "typetool: note: size: recorded at 80x24, played at 90x30; term: recorded under dumb, played as xterm (see typetool check)\n"
            )
        )
    );
    Ok(())
}

#[test]
fn changes_of_size_that_were_left_out_are_told(rt: HostRuntime) -> Result<(), Fail> {
    let recording = recorded(&rt, PLAIN, b"ab", b"")?;
    let mut writer = Watched::new(Vec::new(rt.alloc()));
    let noted = write_check(rt.alloc(), &recording, TODAY, 2, &mut writer);
    assert_eq!(&rt;
        (noted, str::from_utf8(writer.into_inner().as_slice())),
        (Ok(true), Ok("started X\nnote resizes: 2 left out\n"))
    );
    let mut writer = Watched::new(Vec::new(rt.alloc()));
    let told = put_parts(&recording, TODAY, 2, &mut writer);
    assert_eq!(&rt;
        (told, str::from_utf8(writer.into_inner().as_slice())),
        (
            Ok(true),
            Ok("typetool: note: resizes: 2 left out (see typetool check)\n")
        )
    );
    Ok(())
}
