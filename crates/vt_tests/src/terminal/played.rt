//! Which finished sequences have a row, and the mode that commands leave.
use std::rt::HostRuntime;
use std::test::Fail;
use vt_parser::{Command, Mode, Parser, Token};
use vt_term::Profile;
use vt_term::played::{
    escape_has_row, mode_after, mode_has_row, mode_left, sequence_has_row, vt52_has_row,
};

const VT100: Profile = Profile::Vt100;

const VT102: Profile = Profile::Vt102;

// An escape sequence's intermediate and final, whether it has a row, and what it is.
const ESCAPES: [(Option<u8>, u8, bool, &str); 8] = [
    (None, b'D', true, "IND"),
    (None, b'N', false, "SS2"),
    (None, b'\\', false, "ST"),
    (Some(b'#'), b'8', true, "DECALN"),
    (Some(b'#'), b'7', false, "# 7"),
    (Some(b'('), b'0', true, "special graphics"),
    (Some(b'('), b'X', false, "no set X"),
    (Some(b'*'), b'B', false, "no G2"),
];

#[test]
fn escapes_have_rows(rt: HostRuntime) -> Result<(), Fail> {
    for (intermediate, last, has_row, name) in ESCAPES {
        assert_eq!(rt; escape_has_row(intermediate, last), has_row, "{name}");
    }
    Ok(())
}

// A control sequence's profile, whether it is private, its final, whether it has a row, and what it is.
const SEQUENCES: [(Profile, bool, u8, bool, &str); 6] = [
    (VT100, false, b'm', true, "SGR"),
    (VT100, false, b'G', false, "CHA"),
    (VT100, true, b'm', false, "? m"),
    (VT100, true, b'h', true, "? h"),
    (VT100, false, b'P', false, "DCH of a VT100"),
    (VT102, false, b'P', true, "DCH of a VT102"),
];

#[test]
fn sequences_have_rows(rt: HostRuntime) -> Result<(), Fail> {
    for (profile, private, last, has_row, name) in SEQUENCES {
        assert_eq!(rt; sequence_has_row(profile, private, last), has_row, "{name}");
    }
    Ok(())
}

// A mode's profile, whether it is private, its number, whether it has a row, and what it is.
const MODES: [(Profile, bool, u16, bool, &str); 6] = [
    (VT100, true, 7, true, "DECAWM"),
    (VT100, true, 1049, false, "? 1049"),
    (VT100, true, 0, false, "? 0"),
    (VT100, false, 20, true, "LNM"),
    (VT100, false, 4, false, "IRM of a VT100"),
    (VT102, false, 4, true, "IRM of a VT102"),
];

#[test]
fn modes_have_rows(rt: HostRuntime) -> Result<(), Fail> {
    for (profile, private, number, has_row, name) in MODES {
        assert_eq!(rt; mode_has_row(profile, private, number), has_row, "{name}");
    }
    Ok(())
}

#[test]
fn vt52_sequences_have_rows(rt: HostRuntime) -> Result<(), Fail> {
    assert!(rt; vt52_has_row(b'<'), "to ANSI mode");
    assert!(rt; !vt52_has_row(b'E'), "no E");
    Ok(())
}

// The command that comes with the last of the bytes.
fn last_command(mode: Mode, bytes: &[u8]) -> Option<Command> {
    let mut parser = Parser::new();
    let mut last = None;
    for byte in bytes {
        last = parser.step(mode, *byte);
    }
    last
}

// The mode that a sequence leaves.
fn left(mode: Mode, bytes: &[u8]) -> Mode {
    match last_command(mode, bytes) {
        Some(command) => mode_left(&command, mode),
        None => mode,
    }
}

// A mode, a sequence, and the mode that it leaves.
const LEFT: [(Mode, &[u8], Mode); 7] = [
    (Mode::Ansi, b"\x1b[?2l", Mode::Vt52),
    (Mode::Ansi, b"\x1b[?7;2l", Mode::Vt52),
    (Mode::Ansi, b"\x1b[?2h", Mode::Ansi),
    (Mode::Ansi, b"\x1b[2l", Mode::Ansi),
    (Mode::Vt52, b"\x1b<", Mode::Ansi),
    (Mode::Vt52, b"\x1bA", Mode::Vt52),
    (Mode::Ansi, b"\x1bc", Mode::Ansi),
];

#[test]
fn modes_are_left(rt: HostRuntime) -> Result<(), Fail> {
    for (mode, bytes, want) in LEFT {
        assert_eq!(rt; left(mode, bytes), want, "{:?}", bytes);
    }
    Ok(())
}

#[test]
fn tokens_leave_modes(rt: HostRuntime) -> Result<(), Fail> {
    let reset = Token::Csi {
        private: true,
        params: &[7, 2],
        last: b'l',
    };
    assert_eq!(rt; mode_after(&reset, Mode::Ansi), Mode::Vt52);
    assert_eq!(rt; mode_after(&Token::Vt52(b'<'), Mode::Vt52), Mode::Ansi);
    Ok(())
}
