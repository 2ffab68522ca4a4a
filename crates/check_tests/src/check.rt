//! Lines of a check: what a recording says of itself, and what its terminal can't show of it.

use std::alloc::Global;
use std::process::Abort;
use std::rt::Runtime;
use std::test::Fail;
use tape_check::{CheckFault, PlayedAs, put_parts, write_check};
use tape_core::{Fault, Recording, Watched};
use tape_tests::devices::{Writing, small_writer};
use tape_tests::once_more::read;
use vt_term::Profile;

mod refused;
mod today;
mod unplayed;

/// A header of script(1) with nothing behind its date, and the line that tells it.
const PLAIN: &[u8] = b"Script started on X";

const STARTED: &str = "started X\n";

/// A recording of a header line without its LF, chunks divided by bars, and a trailer.
fn recorded(
    rt: &impl Runtime<A = Global>,
    header: &[u8],
    chunks: &[u8],
    trailer: &[u8],
) -> Result<Recording, Fail> {
    let alloc = rt.alloc();
    let mut script = header.to_vec(alloc)?;
    script.push(b'\n')?;
    let mut timing = String::new(alloc);
    for chunk in chunks.split(|byte| *byte == b'|') {
        script.extend_from_slice(chunk)?;
        timing.push_str(format!(in alloc; "0 {}\n", chunk.len())?.as_str())?;
    }
    script.extend_from_slice(trailer)?;
    read(rt, script.as_slice(), timing.as_bytes())
}

/// Whether a note or an unplayed sequence is among lines.
fn is_noted(lines: &str) -> bool {
    lines.split('\n').any(|line| line.starts_with("note ") || line.starts_with("unplayed "))
}

/// What stands behind all other lines of a VT100 or a VT102, where one of them speaks against the picture.
const ADVICE: &str = "try --profile xterm\n";

/// Whether one of the lines speaks against the picture.
fn is_advised(lines: &str) -> bool {
    lines.split('\n').any(|line| {
        line.starts_with("note size")
            || line.starts_with("note term")
            || line.starts_with("note bytes")
            || line.starts_with("unplayed ")
    })
}

/// Compares the lines of a check before the advice, which is told where it is to be, and whether it has noted something.
fn compare<R: Abort + AllocGlobal>(rt: &R, recording: &Recording, profile: Profile, lines: &str) {
    let advice = if is_advised(lines) { ADVICE } else { "" };
    compare_all(rt, recording, PlayedAs::Vt(profile), lines, advice);
}

/// Compares the lines of a check, two texts of them, and whether it has noted something.
fn compare_all<R: Abort + AllocGlobal>(
    rt: &R,
    recording: &Recording,
    played: PlayedAs,
    lines: &str,
    advice: &str,
) {
    let mut writer = Watched::new(Vec::new(rt.alloc()));
    let noted = write_check(rt.alloc(), recording, played, 0, &mut writer);
    let text = writer.into_inner();
    let told = str::from_utf8(text.as_slice()).unwrap_or("");
    assert_eq!(rt;
        (noted, told.strip_suffix(advice)),
        (Ok(is_noted(lines)), Some(lines)),
        "{played:?}"
    );
}

/// Header lines, and the lines that tell of them.
const HEADERS: [(&[u8], &str); 12] = [
    (
        b"Script started on 2026-11-24 03:00:00+00:00 [TERM=\"vt100\" TTY=\"/dev/pts/0\" COLUMNS=\"80\" LINES=\"24\"]",
        "started 2026-11-24 03:00:00+00:00\nterm vt100\nsize 80x24\n",
    ),
    (
        b"Script started on Thu Jan  1 00:00:00 1970",
        "started Thu Jan  1 00:00:00 1970\n",
    ),
    (b"Script started on ", "started \n"),
    // Of two values the last one counts; one whose quotation mark isn't closed is none.
    (
        b"Script started on X [TERM=\"a\" TERM=\"vt52\" COLUMNS=\"90\" LINES=\"24]",
        "started X\nterm vt52\n",
    ),
    // A name stands behind a space or a bracket.
    (b"Script started on X [LTERM=\"a\"]", "started X\n"),
    // A bracket ends the date only behind a space.
    (
        b"Script started on X[TERM=\"vt100\"]",
        "started X[TERM=\"vt100\"]\nterm vt100\n",
    ),
    // Without a terminal nothing else is told.
    (
        b"Script started on X [TERM=\"a\" COLUMNS=\"9\" LINES=\"9\" <not executed on terminal>]",
        "started X\n",
    ),
    // Bytes below 32 and from 127 on are written as question marks.
    (
        b"Script started on \x01\x1f ~\x7f\xe9 [TERM=\"vt52-\x00\xff\"]",
        "started ?? ~??\nterm vt52-??\n",
    ),
    (b"", "note header: not script's\n"),
    (b" Script started on X", "note header: not script's\n"),
    (b"Script started on", "note header: not script's\n"),
    (
        b"Script started, file is x [TERM=\"vt100\"]",
        "term vt100\nnote header: not script's\n",
    ),
];

#[test]
fn tells_what_the_header_says(rt: HostRuntime) -> Result<(), Fail> {
    for (header, lines) in &HEADERS {
        let recording = recorded(&rt, header, b"ab", b"")?;
        compare(&rt, &recording, Profile::Vt100, lines);
    }
    Ok(())
}

/// What stands in a header behind the date, and the lines that tell of it.
const SIZES: [(&str, &str); 8] = [
    ("COLUMNS=\"80\" LINES=\"24\"", "size 80x24\n"),
    (
        "COLUMNS=\"132\" LINES=\"24\"",
        "size 132x24\nnote size: recorded at 132x24, played at 80x24\n",
    ),
    (
        "LINES=\"24\" COLUMNS=\"080\"",
        "size 080x24\nnote size: recorded at 080x24, played at 80x24\n",
    ),
    (
        "COLUMNS=\"99999999999999999999\" LINES=\"1\"",
        "size 99999999999999999999x1\nnote size: recorded at 99999999999999999999x1, played at 80x24\n",
    ),
    // Digits with a value above 0, of both.
    ("COLUMNS=\"00\" LINES=\"24\"", ""),
    ("COLUMNS=\"80\" LINES=\"\"", ""),
    ("COLUMNS=\"+80\" LINES=\"24\"", ""),
    ("COLUMNS=\"90\"", ""),
];

#[test]
fn tells_the_size(rt: HostRuntime) -> Result<(), Fail> {
    let alloc = rt.alloc();
    for (told, lines) in &SIZES {
        let header = format!(in alloc; "Script started on X [{told}]")?;
        let recording = recorded(&rt, header.as_bytes(), b"ab", b"")?;
        let wanted = format!(in alloc; "started X\n{lines}")?;
        compare(&rt, &recording, Profile::Vt100, wanted.as_str());
    }
    Ok(())
}

/// Names of terminals, and whether a VT100 and a VT102 play what was recorded under them.
const TERMS: [(&str, bool, bool); 11] = [
    ("vt100", true, true),
    ("vt102", false, true),
    ("vt52", true, true),
    ("vt100-w", true, true),
    ("vt102-nsgr", false, true),
    ("vt52-", true, true),
    ("vt1000", false, false),
    ("vt10", false, false),
    ("VT100", false, false),
    ("xterm", false, false),
    ("", false, false),
];

/// Compares the check of a recording under a terminal, which a profile plays or doesn't.
fn compare_term(
    rt: &(impl Runtime<A = Global> + Abort),
    term: &str,
    profile: Profile,
    name: &str,
    plays: bool,
) -> Result<(), Fail> {
    let alloc = rt.alloc();
    let header = format!(in alloc; "Script started on X [TERM=\"{term}\"]")?;
    let mut lines = format!(in alloc; "started X\nterm {term}\n")?;
    if !plays {
        let note = format!(in alloc; "note term: recorded under {term}, played as {name}\n")?;
        lines.push_str(note.as_str())?;
    }
    let recording = recorded(rt, header.as_bytes(), b"ab", b"")?;
    compare(rt, &recording, profile, lines.as_str());
    Ok(())
}

#[test]
fn tells_of_a_terminal_that_isnt_played(rt: HostRuntime) -> Result<(), Fail> {
    for (term, on_vt100, on_vt102) in &TERMS {
        compare_term(&rt, term, Profile::Vt100, "vt100", *on_vt100)?;
        compare_term(&rt, term, Profile::Vt102, "vt102", *on_vt102)?;
    }
    Ok(())
}

/// Those of the chunks alone, and neither DEL nor those of header and trailer.
#[test]
fn counts_the_bytes_from_128_on(rt: HostRuntime) -> Result<(), Fail> {
    let recording = recorded(
        &rt,
        b"Script started on \xe9",
        b"\x7f\x80a|\xff\xe9",
        b"\nScript done on \xe9\n",
    )?;
    let lines = "started ?\nnote bytes: 3 from 128 on: this terminal has no UTF-8\n";
    compare(&rt, &recording, Profile::Vt100, lines);
    Ok(())
}

/// Trailers, and the notes of them.
const TRAILERS: [(&[u8], &str); 12] = [
    (b"", ""),
    (b"\nScript done on Y\n", ""),
    (b"\nScript done on Y", ""),
    (b"\nScript done on \n", ""),
    (b"\nScript done on Script started on Z\n", ""),
    (
        b"\n",
        "note trailer: 1 bytes behind the last chunk are never shown\n",
    ),
    (
        b"Script done on Y\n",
        "note trailer: 17 bytes behind the last chunk are never shown\n",
    ),
    (
        b"\nScript done on Y\n\n",
        "note trailer: 19 bytes behind the last chunk are never shown\n",
    ),
    (
        b"\nScript done on",
        "note trailer: 15 bytes behind the last chunk are never shown\n",
    ),
    (
        b"x Script started on Z",
        "note trailer: 21 bytes behind the last chunk are never shown\n",
    ),
    // Further sessions.
    (
        b"Script started on ",
        "note trailer: 18 bytes behind the last chunk are never shown\nnote sessions: 1 more in the trailer\n",
    ),
    (
        b"\nScript done on Y\nScript started on Z\nb\nScript started on W\n",
        "note trailer: 60 bytes behind the last chunk are never shown\nnote sessions: 2 more in the trailer\n",
    ),
];

#[test]
fn tells_of_a_trailer(rt: HostRuntime) -> Result<(), Fail> {
    for (trailer, notes) in &TRAILERS {
        let recording = recorded(&rt, PLAIN, b"ab", trailer)?;
        let lines = format!(in rt.alloc(); "{}{notes}", STARTED)?;
        compare(&rt, &recording, Profile::Vt100, lines.as_str());
    }
    Ok(())
}

/// A header and a trailer of which all there is to note can be noted.
const FOREIGN: &[u8] = b"x [TERM=\"xterm\" COLUMNS=\"90\" LINES=\"30\"]";

const APPENDED: &[u8] = b"\nScript started on Z";

/// All lines of a check of it on a VT102.
const ALL: &str = "term xterm
size 90x30
note header: not script's
note size: recorded at 90x30, played at 80x24
note term: recorded under xterm, played as vt102
note bytes: 1 from 128 on: this terminal has no UTF-8
note trailer: 20 bytes behind the last chunk are never shown
note sessions: 1 more in the trailer
unplayed 1 ESC [ Q
try --profile xterm
";

#[test]
fn tells_all_lines_in_their_order(rt: HostRuntime) -> Result<(), Fail> {
    let recording = recorded(&rt, FOREIGN, b"\xe9\x1b[Q", APPENDED)?;
    compare_all(&rt, &recording, PlayedAs::Vt(Profile::Vt102), ALL, "");
    Ok(())
}

#[test]
fn an_empty_recording(rt: HostRuntime) -> Result<(), Fail> {
    let recording = read(&rt, b"Script started on X\n", b"")?;
    compare(&rt, &recording, Profile::Vt100, STARTED);
    compare(&rt, &recording, Profile::Vt102, STARTED);
    Ok(())
}

#[test]
fn stops_where_the_writer_fails(rt: HostRuntime) -> Result<(), Fail> {
    let recording = recorded(&rt, FOREIGN, b"\xe9\x1b[Q", APPENDED)?;
    for room in 0..=ALL.len() {
        let mut writer = Watched::new(small_writer(rt.alloc(), room, false));
        let answer = match write_check(
            rt.alloc(),
            &recording,
            PlayedAs::Vt(Profile::Vt102),
            0,
            &mut writer,
        ) {
            Ok(_) => Ok(()),
            Err(CheckFault::Write) => Err(Fault::WriteFault),
            Err(CheckFault::Memory) => Err(Fault::OutOfMemory),
        };
        let writing = Writing::of(answer, writer);
        assert_eq!(rt;
            writing.told(),
            writing.wanted(ALL.as_bytes()),
            "room for {room}"
        );
    }
    Ok(())
}

/// Headers and trailers, and the line for whoever plays the recording on a VT100.
const PARTS: [(&[u8], &[u8], &str); 5] = [
    (PLAIN, b"\nScript done on Y\n", ""),
    // Neither its header nor its trailer are told.
    (b"x", b"y", ""),
    (
        PLAIN,
        b"\nScript started on Z\nScript started on W",
        "typetool: note: sessions: 2 more in the trailer (see typetool check)\n",
    ),
    (
        b"Script started on X [TERM=\"vt102\"]",
        b"",
        "typetool: note: term: recorded under vt102, played as vt100 (see typetool check, or try --profile xterm)\n",
    ),
    (
        FOREIGN,
        APPENDED,
        "typetool: note: size: recorded at 90x30, played at 80x24; term: recorded under xterm, played as vt100; sessions: 1 more in the trailer (see typetool check, or try --profile xterm)\n",
    ),
];

#[test]
fn tells_whoever_plays_it_in_one_line(rt: HostRuntime) -> Result<(), Fail> {
    for (header, trailer, line) in &PARTS {
        let recording = recorded(&rt, header, b"\xe9\x1b[Q", trailer)?;
        let mut writer = Watched::new(Vec::new(rt.alloc()));
        let told = put_parts(&recording, PlayedAs::Vt(Profile::Vt100), 0, &mut writer);
        assert_eq!(&rt;
            (told, str::from_utf8(writer.into_inner().as_slice())),
            (Ok(!line.is_empty()), Ok(*line))
        );
    }
    Ok(())
}
