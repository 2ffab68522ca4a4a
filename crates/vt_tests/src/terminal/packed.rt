//! A terminal that was packed is unpacked over one of which every part is another, and is again what it was.
use super::recordings::{MC, NANO, TOUR};
use super::starts::{ABOVE, AT_LAST_STOP, SET, VT52, VT52_GRAPHICS, WRAPPING};
use super::{are_same_terminals, feed_reset_as};
use std::process::Abort;
use std::test::Fail;
use vt_term::Profile;

// Every cell of a wide screen, every part and a sequence that isn't finished.
const OVER: &[u8] = b"\x1b[?3h\x1b#8\x1b[2;1H\x1b#6\x1b[3;9r\x1b[3g\x1b[1;4;5;7m\
    \x1b(0\x1b)A\x0e\x1b7\x1b[?1;4;5h\x1b=\x1b[2;3q\x1b[4;6";

// A screen at its reset and a full one, the starts, and sequences that aren't finished.
const STARTS: &[&[u8]] = &[
    b"",
    b"\x1b#8",
    b"\x1b[?3h\x1b#8",
    b"\x1b[24;80Hx",
    b"\x1b[7m \x1b[m   \r\n\x1b[5m    ",
    SET,
    WRAPPING,
    ABOVE,
    AT_LAST_STOP,
    VT52,
    VT52_GRAPHICS,
    b"\x1b[1;20;300",
    b"\x1b#",
    b"\x1bPtext",
    b"\x1b[?2l\x1bY%",
];

fn assert_comes_back(
    rt: &(impl Abort + AllocGlobal),
    profile: Profile,
    bytes: &[u8],
) -> Result<(), Fail> {
    let left = feed_reset_as(rt.alloc(), profile, &[bytes])?;
    let packed = left.terminal.pack(rt.alloc())?;
    let mut again = feed_reset_as(rt.alloc(), Profile::Vt102, &[OVER])?;
    again.terminal.unpack(&packed);
    assert!(rt;
        are_same_terminals(&again.terminal, &left.terminal),
        "at {} of a {profile:?}",
        bytes.escape_ascii()
    );
    Ok(())
}

#[test]
fn packed(rt: HostRuntime) -> Result<(), Fail> {
    for bytes in STARTS {
        assert_comes_back(&rt, Profile::Vt100, bytes)?;
        assert_comes_back(&rt, Profile::Vt102, bytes)?;
    }
    Ok(())
}

#[test]
fn packed_screens_of_real_programs(rt: HostRuntime) -> Result<(), Fail> {
    for bytes in [NANO, MC, TOUR] {
        assert_comes_back(&rt, Profile::Vt100, bytes)?;
    }
    Ok(())
}
