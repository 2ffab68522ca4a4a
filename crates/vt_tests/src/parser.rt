ghost use Rattle.std.specs.Prelude.{◌+◌, ◌<◌, ◌≤◌, length};

use std::alloc::Global;
use std::fmt::Write;
use std::process::Abort;
use std::test::Fail;
use vt_parser::{Command, Mode, Parser, ParserState, Token, printable_run};

// The commands that the bytes give in a mode, and then the state.
fn told(alloc: Global, mode: Mode, bytes: &[u8]) -> Result<String, Fail> {
    let mut parser = Parser::new();
    let mut text = String::new(alloc);
    for byte in bytes {
        if let Some(command) = parser.step(mode, *byte) {
            write!(text, "{command:?}, ")?;
        }
    }
    let state = parser.state();
    write!(text, "{state:?}")?;
    Ok(text)
}

fn see_told(
    rt: &(impl Abort + AllocGlobal),
    mode: Mode,
    bytes: &[u8],
    want: &str,
) -> Result<(), Fail> {
    let text = told(rt.alloc(), mode, bytes)?;
    assert_eq!(rt; text.as_str(), want, "at {bytes:?}");
    Ok(())
}

fn all_told(
    rt: &(impl Abort + AllocGlobal),
    mode: Mode,
    rows: &[(&[u8], &str)],
) -> Result<(), Fail> {
    for (bytes, want) in rows {
        see_told(rt, mode, bytes, want)?;
    }
    Ok(())
}

const BEGINNINGS: &[(&[u8], &str)] = &[
    (b"", "Ground"),
    (b"\x1b", "Escape"),
    (b"\x1b(", "EscapeOne(40)"),
    (b"\x1b()", "EscapeMany"),
    (b"\x1b()*", "EscapeMany"),
    (b"\x1b[", "CsiStart"),
    (
        b"\x1b[3",
        "Csi { private: false, params: [3], over: false }",
    ),
    (
        b"\x1b[;",
        "Csi { private: false, params: [0, 0], over: false }",
    ),
    (b"\x1b[?", "Csi { private: true, params: [0], over: false }"),
    (b"\x1b[0?", "CsiIgnored"),
    (b"\x1b[1 ", "CsiIgnored"),
    (
        b"\x1b[99999",
        "Csi { private: false, params: [9999], over: false }",
    ),
    (b"\x1bPabc", "Text"),
    (b"\x1bX", "Text"),
    (b"\x1b]0;title", "Text"),
    (b"\x1b^", "Text"),
    (b"\x1b_", "Text"),
];

const VT52_BEGINNINGS: &[(&[u8], &str)] = &[
    (b"", "Ground"),
    (b"\x1b", "Vt52Escape"),
    (b"\x1bY", "Vt52Line"),
    (b"\x1bY%", "Vt52Column(37)"),
];

#[test]
fn shows_how_far_a_sequence_has_come(rt: HostRuntime) -> Result<(), Fail> {
    all_told(&rt, Mode::Ansi, BEGINNINGS)?;
    all_told(&rt, Mode::Vt52, VT52_BEGINNINGS)
}

const SEQUENCES: &[(&[u8], &str)] = &[
    (b"\x1bc", "Esc { inter: None, last: 99 }, Ground"),
    (
        b"\x1b7x",
        "Esc { inter: None, last: 55 }, Show(120), Ground",
    ),
    (b"\x1b#8", "Esc { inter: Some(35), last: 56 }, Ground"),
    (b"\x1b(0", "Esc { inter: Some(40), last: 48 }, Ground"),
    (b"\x1b()B", "Ground"),
    (
        b"\x1b[m",
        "Csi { private: false, params: [0], last: 109 }, Ground",
    ),
    (
        b"\x1b[5;10r",
        "Csi { private: false, params: [5, 10], last: 114 }, Ground",
    ),
    (
        b"\x1b[?25h",
        "Csi { private: true, params: [25], last: 104 }, Ground",
    ),
    (b"\x1b[1 q", "Ground"),
    (b"\x1b[<1mx", "Show(120), Ground"),
];

const VT52_SEQUENCES: &[(&[u8], &str)] = &[
    (b"\x1bF", "Vt52(70), Ground"),
    (b"\x1b[m", "Vt52(91), Show(109), Ground"),
    (b"\x1bPx", "Vt52(80), Show(120), Ground"),
    (b"\x1b Z", "Vt52(32), Show(90), Ground"),
    (
        b"\x1bY%*X",
        "Vt52Address { line: 6, column: 11 }, Show(88), Ground",
    ),
    (b"\x1bY ~", "Vt52Address { line: 1, column: 95 }, Ground"),
];

#[test]
fn reads_whole_sequences(rt: HostRuntime) -> Result<(), Fail> {
    all_told(&rt, Mode::Ansi, SEQUENCES)?;
    all_told(&rt, Mode::Vt52, VT52_SEQUENCES)
}

const ON_GROUND: &[(&[u8], &str)] = &[
    (
        b"\x00\x05\x07\x08\x0f\x10\x1f",
        "Control(8), Control(15), Ground",
    ),
    (b"\x18\x1a\x7f", "Ground"),
    (b" ~", "Show(32), Show(126), Ground"),
    (b"\x80\xc3\xa9\xff", "Error, Error, Error, Error, Ground"),
];

#[test]
fn takes_controls_and_other_bytes_on_ground(rt: HostRuntime) -> Result<(), Fail> {
    all_told(&rt, Mode::Ansi, ON_GROUND)
}

const IN_SEQUENCES: &[(&[u8], &str)] = &[
    (
        b"\x1b[1\n2A",
        "Control(10), Csi { private: false, params: [12], last: 65 }, Ground",
    ),
    (b"\x1b\x07\x05D", "Esc { inter: None, last: 68 }, Ground"),
    (b"\x1b[3\x18m", "Error, Show(109), Ground"),
    (b"\x1b[3\x1am", "Error, Show(109), Ground"),
    (b"\x1b(\x18B", "Error, Show(66), Ground"),
    (
        b"\x1b[4\x1b[1m",
        "Csi { private: false, params: [1], last: 109 }, Ground",
    ),
    (b"\x1b\x1bc", "Esc { inter: None, last: 99 }, Ground"),
    (
        b"\x1b[1\x7f\xc8m",
        "Csi { private: false, params: [1], last: 109 }, Ground",
    ),
    (
        b"\x1b[?1\x07",
        "Csi { private: true, params: [1], over: false }",
    ),
];

#[test]
fn takes_controls_and_other_bytes_in_a_sequence(rt: HostRuntime) -> Result<(), Fail> {
    all_told(&rt, Mode::Ansi, IN_SEQUENCES)
}

const IN_STRINGS: &[(&[u8], &str)] = &[
    (b"\x1bPabc\x1ax", "Error, Show(120), Ground"),
    (b"\x1bPabc\x18x", "Error, Show(120), Ground"),
    (b"\x1b]0;title\x07ok", "Show(111), Show(107), Ground"),
    (
        b"\x1b]0\x1b\\x",
        "Esc { inter: None, last: 92 }, Show(120), Ground",
    ),
    (
        b"\x1bXa\x1b[2J",
        "Csi { private: false, params: [2], last: 74 }, Ground",
    ),
    (b"\x1b^\r\n\x7f\xc8", "Text"),
    (b"\x1b_[m", "Text"),
];

#[test]
fn takes_controls_and_other_bytes_in_a_string(rt: HostRuntime) -> Result<(), Fail> {
    all_told(&rt, Mode::Ansi, IN_STRINGS)
}

const IN_ADDRESSES: &[(&[u8], &str)] = &[
    (b"\x1bY\x18a", "Error, Show(97), Ground"),
    (b"\x1bY%\x1aa", "Error, Show(97), Ground"),
    (
        b"\x1bY%\x7f\xc8*",
        "Vt52Address { line: 6, column: 11 }, Ground",
    ),
    (
        b"\x1bY\n%\x07*",
        "Control(10), Vt52Address { line: 6, column: 11 }, Ground",
    ),
    (b"\x1bY%\x1bA", "Vt52(65), Ground"),
];

#[test]
fn takes_controls_and_other_bytes_in_an_address(rt: HostRuntime) -> Result<(), Fail> {
    all_told(&rt, Mode::Vt52, IN_ADDRESSES)
}

const IGNORED: &[(&[u8], &str)] = &[
    (b"\x1b[4:3m", "Ground"),
    (b"\x1b[4:3", "CsiIgnored"),
    (b"\x1b[:", "CsiIgnored"),
    (b"\x1b[>c", "Ground"),
    (b"\x1b[>", "CsiIgnored"),
    (b"\x1b[=c", "Ground"),
    (b"\x1b[=", "CsiIgnored"),
    (b"\x1b[<0c", "Ground"),
    (b"\x1b[1/c", "Ground"),
    (b"\x1b[1?h", "Ground"),
    (b"\x1b[1?", "CsiIgnored"),
    (b"\x1b[?1?2h", "Ground"),
    (b"\x1b[??h", "Ground"),
    (b"\x1b[;?h", "Ground"),
    (b"\x1b[3 1mx", "Show(120), Ground"),
    (b"\x1b/x", "Esc { inter: Some(47), last: 120 }, Ground"),
];

#[test]
fn ignores_texts_that_are_not_well_formed(rt: HostRuntime) -> Result<(), Fail> {
    all_told(&rt, Mode::Ansi, IGNORED)
}

// The sequences without a command that the bytes end.
fn formless(alloc: Global, bytes: &[u8]) -> Result<String, Fail> {
    let mut parser = Parser::new();
    let mut text = String::new(alloc);
    for byte in bytes {
        if let Some(form) = parser.state().formless_with(*byte) {
            write!(text, "{form:?}, ")?;
        }
        let _ = parser.step(Mode::Ansi, *byte);
    }
    Ok(text)
}

const FORMLESS: &[(&[u8], &str)] = &[
    (
        b"\x1b[1 q\x1b[>c",
        "ControlSequence(113), ControlSequence(99), ",
    ),
    (b"\x1b(*B", "Escape(66), "),
    (b"\x1b[?25l\x1b(B\x1b[1 \x18\x1bP1$\x1b\\", ""),
];

#[test]
fn tells_sequences_without_a_command(rt: HostRuntime) -> Result<(), Fail> {
    for (bytes, want) in FORMLESS {
        let text = formless(rt.alloc(), bytes)?;
        assert_eq!(rt; text.as_str(), *want, "at {bytes:?}");
    }
    Ok(())
}

// What a byte that is no graphic character gives where it comes, and the state after it.
fn in_sequence(alloc: Global, byte: u8, escaped: &str, state: &str) -> Result<String, Fail> {
    let mut text = String::new(alloc);
    match byte {
        8..=15 => write!(text, "Control({byte}), {state}")?,
        24 | 26 => text.push_str("Error, Ground")?,
        27 => text.push_str(escaped)?,
        _ => text.push_str(state)?,
    }
    Ok(text)
}

fn in_string(byte: u8) -> &'static str {
    match byte {
        7 => "Ground",
        24 | 26 => "Error, Ground",
        27 => "Escape",
        _ => "Text",
    }
}

fn on_ground(alloc: Global, byte: u8, escaped: &str) -> Result<String, Fail> {
    let mut text = String::new(alloc);
    match byte {
        8..=15 => write!(text, "Control({byte}), Ground")?,
        27 => text.push_str(escaped)?,
        128..=255 => text.push_str("Error, Ground")?,
        _ => text.push_str("Ground")?,
    }
    Ok(text)
}

// What the bytes and one more give in a mode, and then the state.
fn told_with(alloc: Global, mode: Mode, start: &[u8], byte: u8) -> Result<String, Fail> {
    let mut bytes = Vec::from_slice(alloc, start)?;
    bytes.push(byte)?;
    told(alloc, mode, &bytes)
}

// The beginnings of sequences, and their states.
const BEGUN: [(Mode, &[u8], &str); 10] = [
    (Mode::Ansi, b"\x1b", "Escape"),
    (Mode::Ansi, b"\x1b(", "EscapeOne(40)"),
    (Mode::Ansi, b"\x1b()", "EscapeMany"),
    (Mode::Ansi, b"\x1b[", "CsiStart"),
    (
        Mode::Ansi,
        b"\x1b[2;7",
        "Csi { private: false, params: [2, 7], over: false }",
    ),
    (
        Mode::Ansi,
        b"\x1b[?3",
        "Csi { private: true, params: [3], over: false }",
    ),
    (Mode::Ansi, b"\x1b[1 ", "CsiIgnored"),
    (Mode::Vt52, b"\x1b", "Vt52Escape"),
    (Mode::Vt52, b"\x1bY", "Vt52Line"),
    (Mode::Vt52, b"\x1bY%", "Vt52Column(37)"),
];

// The bytes that are no graphic characters.
fn is_other(byte: u8) -> bool {
    !matches!(byte, 32..=126)
}

// The state after ESC in a mode.
fn escaped(mode: Mode) -> &'static str {
    match mode {
        Mode::Ansi => "Escape",
        Mode::Vt52 => "Vt52Escape",
    }
}

// A byte after the beginning of a sequence is told as the table says.
fn see_in_sequence(
    rt: &(impl Abort + AllocGlobal),
    begun: &(Mode, &[u8], &str),
    byte: u8,
) -> Result<(), Fail> {
    let (mode, start, state) = *begun;
    let text = told_with(rt.alloc(), mode, start, byte)?;
    let want = in_sequence(rt.alloc(), byte, escaped(mode), state)?;
    assert_eq!(rt; text.as_str(), want.as_str(), "{byte} in {begun:?}");
    Ok(())
}

fn see_in_sequences(rt: &(impl Abort + AllocGlobal), byte: u8) -> Result<(), Fail> {
    for begun in &BEGUN {
        see_in_sequence(rt, begun, byte)?;
    }
    Ok(())
}

#[test]
fn takes_every_other_byte_in_a_sequence_as_the_table_says(rt: HostRuntime) -> Result<(), Fail> {
    for byte in 0..=255u8 {
        if is_other(byte) {
            see_in_sequences(&rt, byte)?;
        }
    }
    Ok(())
}

// A byte on ground is told as the table says.
fn see_on_ground(rt: &(impl Abort + AllocGlobal), mode: Mode, byte: u8) -> Result<(), Fail> {
    let text = told_with(rt.alloc(), mode, b"", byte)?;
    let want = on_ground(rt.alloc(), byte, escaped(mode))?;
    assert_eq!(rt; text.as_str(), want.as_str(), "{byte} on ground");
    Ok(())
}

#[test]
fn takes_every_other_byte_on_ground_as_the_table_says(rt: HostRuntime) -> Result<(), Fail> {
    for byte in 0..=255u8 {
        if is_other(byte) {
            see_on_ground(&rt, Mode::Ansi, byte)?;
            see_on_ground(&rt, Mode::Vt52, byte)?;
        }
    }
    Ok(())
}

const STRINGS: &[&[u8]] = &[b"\x1bP", b"\x1bX", b"\x1b]", b"\x1b^", b"\x1b_"];

// A byte in a string is told as the table says.
fn see_in_string(rt: &(impl Abort + AllocGlobal), start: &[u8], byte: u8) -> Result<(), Fail> {
    let text = told_with(rt.alloc(), Mode::Ansi, start, byte)?;
    assert_eq!(rt; text.as_str(), in_string(byte), "{byte} after {start:?}");
    Ok(())
}

fn see_in_strings(rt: &(impl Abort + AllocGlobal), byte: u8) -> Result<(), Fail> {
    for start in STRINGS {
        see_in_string(rt, start, byte)?;
    }
    Ok(())
}

#[test]
fn takes_every_other_byte_in_a_string_as_the_table_says(rt: HostRuntime) -> Result<(), Fail> {
    for byte in 0..=255u8 {
        if is_other(byte) {
            see_in_strings(&rt, byte)?;
        }
    }
    Ok(())
}

const PARAMETERS: &[(&[u8], &str)] = &[
    (
        b"\x1b[0;0;0;0;0;0;0;0;0;0;0;0;0;0;0;0;7",
        "Csi { private: false, params: [0, 0, 0, 0, 0, 0, 0, 0, 0, 0, 0, 0, 0, 0, 0, 0], over: true }",
    ),
    (
        b"\x1b[1;2;3;4;5;6;7;8;9;10;11;12;13;14;15;16",
        "Csi { private: false, params: [1, 2, 3, 4, 5, 6, 7, 8, 9, 10, 11, 12, 13, 14, 15, 16], over: false }",
    ),
    (
        b"\x1b[1;2;3;4;5;6;7;8;9;10;11;12;13;14;15;16;17;18m",
        "Csi { private: false, params: [1, 2, 3, 4, 5, 6, 7, 8, 9, 10, 11, 12, 13, 14, 15, 16], last: 109 }, Ground",
    ),
    (
        b"\x1b[;;;;;;;;;;;;;;;;",
        "Csi { private: false, params: [0, 0, 0, 0, 0, 0, 0, 0, 0, 0, 0, 0, 0, 0, 0, 0], over: true }",
    ),
    (
        b"\x1b[9999m",
        "Csi { private: false, params: [9999], last: 109 }, Ground",
    ),
    (
        b"\x1b[10000;1m",
        "Csi { private: false, params: [9999, 1], last: 109 }, Ground",
    ),
    (
        b"\x1b[99999999999999999999;007H",
        "Csi { private: false, params: [9999, 7], last: 72 }, Ground",
    ),
    (
        b"\x1b[;5c",
        "Csi { private: false, params: [0, 5], last: 99 }, Ground",
    ),
];

#[test]
fn counts_sixteen_parameters_of_at_most_9999(rt: HostRuntime) -> Result<(), Fail> {
    all_told(&rt, Mode::Ansi, PARAMETERS)
}

// What the bytes come to in a mode, taken in pieces of at most `piece` bytes, and then the state.
fn taken(alloc: Global, mode: Mode, bytes: &[u8], piece: usize) -> Result<String, Fail>
    requires { 0 < piece }
{
    let mut parser = Parser::new();
    let mut text = String::new(alloc);
    let mut at = 0;
    while at < bytes.len() {
        let rest = &bytes[at..];
        let (len, token) = parser.next(mode, &rest[..rest.len().min(piece)]);
        if let Some(token) = token {
            write!(text, "{len} {token:?}, ")?;
        }
        at += len;
    }
    let state = parser.state();
    write!(text, "{state:?}")?;
    Ok(text)
}

const RUNS_AND_SEQUENCES: &[(Mode, &[u8], &str)] = &[
    (
        Mode::Ansi,
        b"ab\x1b[1;31mc",
        "2 Show([97, 98]), 7 Csi { private: false, params: [1, 31], last: 109 }, 1 Show([99]), Ground",
    ),
    (
        Mode::Ansi,
        b"\x1b[?25h",
        "6 Csi { private: true, params: [25], last: 104 }, Ground",
    ),
    (
        Mode::Ansi,
        b"\x1b[mx",
        "3 Csi { private: false, params: [0], last: 109 }, 1 Show([120]), Ground",
    ),
    (
        Mode::Ansi,
        b"\x1b[1\n2A",
        "1 Control(10), 2 Csi { private: false, params: [12], last: 65 }, Ground",
    ),
    (
        Mode::Ansi,
        b"\x00\x00\x00\r\xe9",
        "1 Control(13), 1 Error, Ground",
    ),
    (
        Mode::Ansi,
        b"\x1b(0\x1b7",
        "1 Esc { inter: Some(40), last: 48 }, 1 Esc { inter: None, last: 55 }, Ground",
    ),
    (
        Mode::Ansi,
        b"\x1b[;;;;;;;;;;;;;;;;;7r",
        "21 Csi { private: false, params: [0, 0, 0, 0, 0, 0, 0, 0, 0, 0, 0, 0, 0, 0, 0, 0], last: 114 }, Ground",
    ),
    (
        Mode::Ansi,
        b"\x1b[99",
        "Csi { private: false, params: [99], over: false }",
    ),
    (
        Mode::Vt52,
        b"\x1bA\x1bY%*x",
        "1 Vt52(65), 1 Vt52Address { line: 6, column: 11 }, 1 Show([120]), Ground",
    ),
];

// Bytes that are taken as they come, at most all of them at once, come to this.
fn see_taken(
    rt: &(impl Abort + AllocGlobal),
    mode: Mode,
    bytes: &[u8],
    want: &str,
) -> Result<(), Fail> {
    let text = taken(rt.alloc(), mode, bytes, bytes.len().max(1))?;
    assert_eq!(rt; text.as_str(), want, "at {bytes:?}");
    Ok(())
}

#[test]
fn takes_runs_and_whole_sequences_at_once(rt: HostRuntime) -> Result<(), Fail> {
    for (mode, bytes, want) in RUNS_AND_SEQUENCES {
        see_taken(&rt, *mode, bytes, want)?;
    }
    Ok(())
}

#[test]
fn reads_on_in_the_mode_of_its_esc(rt: HostRuntime) {
    let mut parser = Parser::new();
    assert_eq!(rt; parser.step(Mode::Ansi, 27), None);
    assert_eq!(rt; parser.step(Mode::Vt52, b'['), None);
    assert_eq!(rt; parser.state(), &ParserState::CsiStart);
    assert_eq!(rt; parser.step(Mode::Vt52, 27), None);
    assert_eq!(rt; parser.step(Mode::Ansi, b'['), Some(Command::Vt52(b'[')));
}

const STARTS: &[&[u8]] = &[
    b"",
    b"\x1b",
    b"\x1b(",
    b"\x1b()",
    b"\x1b[",
    b"\x1b[?1;20",
    b"\x1b[1 ",
    b"\x1b]0",
    b"\x1b[1;2;3;4;5;6;7;8;9;10;11;12;13;14;15;16;17",
    b"\x1bY",
    b"\x1bY%",
];

// A copy of a parser that took these bytes has its state, and takes the next byte as it does.
fn see_copy(rt: &impl Abort, mode: Mode, start: &[u8]) {
    let mut parser = Parser::new();
    for byte in start {
        let _ = parser.step(mode, *byte);
    }
    let mut copy = Parser::new();
    let _ = copy.step(Mode::Ansi, 27);
    copy.copy_from(&parser);
    assert_eq!(rt; copy.state(), parser.state(), "after {start:?}");
    let next = parser.step(mode, b'h');
    assert_eq!(rt; copy.step(mode, b'h'), next, "after {start:?}");
}

#[test]
fn goes_on_from_a_copy(rt: HostRuntime) {
    for start in STARTS {
        see_copy(&rt, Mode::Ansi, start);
        see_copy(&rt, Mode::Vt52, start);
    }
}

// The run before a byte at `n`, where nothing follows it and where 40 bytes do.
fn runs_before(bytes: &mut [u8], n: usize, stop: u8) -> (usize, usize)
    requires { n + 41 ≤ length bytes.old }
{
    bytes[n] = stop;
    (
        printable_run(&bytes[..n + 1]),
        printable_run(&bytes[..n + 41]),
    )
}

#[test]
fn measures_runs_up_to_the_first_other_byte(rt: HostRuntime) {
    for n in 0..71usize {
        for stop in [31u8, 127, 128, 255] {
            let mut bytes = [b'A'; 111];
            assert_eq!(rt; runs_before(&mut bytes, n, stop), (n, n), "before {stop}");
        }
    }
}

// The first and the last graphic character by turns.
fn graphic() -> [u8; 70] {
    let mut bytes = [32; 70];
    for n in 0..70usize {
        if n % 2 == 1 {
            bytes[n] = 126;
        }
    }
    bytes
}

#[test]
fn measures_runs_of_the_first_and_the_last_graphic_character(rt: HostRuntime) {
    let bytes = graphic();
    for n in 0..71usize {
        assert_eq!(rt; printable_run(&bytes[..n]), n);
    }
}
