//! Worked rows.
use super::{Timed, compare, opened, recorded};
use std::alloc::Global;
use std::test::Fail;
use tape_seek::Session;
use vt_term::Profile;

/// Chunks of one byte each, a second apart.
const TEN: &[Timed<'static>] = &[
    ("1", b"0"),
    ("1", b"1"),
    ("1", b"2"),
    ("1", b"3"),
    ("1", b"4"),
    ("1", b"5"),
    ("1", b"6"),
    ("1", b"7"),
    ("1", b"8"),
    ("1", b"9"),
];

const ONE_REPORT: &[&str] = &[
    "reports 0 | count 2 fed 2 sent E[?1;2c 1:x | 2 2 1",
    "delete 0 1 | ok | 0 0 1",
    "reports 0 | count 1 fed 1 1:x | 1 1 1",
    "screen 0 | count 1 fed 0 1:x | 1 1 1",
    "log | delete 0 1\n | 1 1 1",
    "info | 1 chunks, 1 bytes, 0 us | 1 1 1",
];

#[test]
fn a_report_goes_with_its_chunk(rt: HostRuntime) -> Result<(), Fail> {
    let mut session = opened(rt.alloc(), &[("0", b"\x1b[c"), ("0", b"x")], 100)?;
    compare(&rt, rt.alloc(), &mut session, ONE_REPORT)
}

/// An insertion, a request for what the terminal is in front of RIS, and another behind it.
const INSERTED: &[Timed<'static>] = &[
    ("1", b"ab"),
    ("1", b"\x1b[1;1H\x1b[4h"),
    ("1", b"XY\x1b[c"),
    ("1", b"\x1bc"),
    ("1", b"c\x1b[c"),
];

/// A session of a profile over these chunks, with a terminal stored at every second count.
fn inserting(alloc: Global, profile: Profile) -> Result<Session, Fail> {
    let recording = recorded(alloc, INSERTED)?;
    Ok(Session::open_as(alloc, recording, 2, profile)?)
}

const OF_A_VT102: &[&str] = &[
    "seek 3 | count 3 fed 3 sent E[?6c 1:XYab | 3 3 2",
    "seek 2 | count 2 fed 0 1:ab | 3 2 2",
    "seek 1 | count 1 fed 1 1:ab | 3 1 2",
    "seek 5 | count 5 fed 3 sent E[?6cE[?6c 1:c | 5 5 3",
    "seek 0 | count 0 fed 0 | 5 0 3",
    "seek 1 | count 1 fed 1 1:ab | 5 1 3",
];

/// A VT102 inserts, answers as itself, and stays one from stored terminals, from the start and after RIS.
#[test]
fn a_session_of_a_vt102(rt: HostRuntime) -> Result<(), Fail> {
    let mut session = inserting(rt.alloc(), Profile::Vt102)?;
    compare(&rt, rt.alloc(), &mut session, OF_A_VT102)
}

const OF_A_VT100: &[&str] = &[
    "seek 3 | count 3 fed 3 sent E[?1;2c 1:XY | 3 3 2",
    "seek 5 | count 5 fed 2 sent E[?1;2cE[?1;2c 1:c | 5 5 3",
];

#[test]
fn a_session_of_a_vt100(rt: HostRuntime) -> Result<(), Fail> {
    let mut session = inserting(rt.alloc(), Profile::Vt100)?;
    compare(&rt, rt.alloc(), &mut session, OF_A_VT100)
}

const STORED: &[&str] = &[
    "screen 10 | count 10 fed 10 1:01234567 | 10 10 3",
    "screen 5 | count 5 fed 1 1:01234 | 10 5 3",
    "replace 6 2d | ok | 6 5 2",
    "screen 10 | count 10 fed 5 1:012345-7 | 10 10 3",
    "retime 0 2 | ok | 10 10 3",
    "screen 11 | count 10 fed 0 1:012345-7 | 10 10 3",
    "screen 10.999999 | count 9 fed 1 1:012345-7 | 10 9 3",
    // Each delay becomes half a second at most.
    "cap 0.5 | ok | 10 9 3",
    "screen 5 | count 10 fed 1 1:012345-7 | 10 10 3",
    "screen 4.75 | count 9 fed 1 1:012345-7 | 10 9 3",
    "info | 10 chunks, 10 bytes, 5000000 us | 10 9 3",
    "log | replace 6 2d\nretime 0 2.000000\ncap 0.500000\n | 10 9 3",
];

#[test]
fn stored_terminals_through_edits(rt: HostRuntime) -> Result<(), Fail> {
    let mut session = opened(rt.alloc(), TEN, 4)?;
    compare(&rt, rt.alloc(), &mut session, STORED)
}

const NO_CHUNKS: &[&str] = &[
    "seek 0 | count 0 fed 0 | 0 0 1",
    "delete 0 0 | BadRange | 0 0 1",
    "delete 0 1 | BadRange | 0 0 1",
    "replace 0 - | NoSuchChunk | 0 0 1",
    "retime 0 0 | NoSuchChunk | 0 0 1",
    // The first fault that holds.
    "insert 1 1000000.000001 - | NoSuchChunk | 0 0 1",
    "cap 0 | ok | 0 0 1",
    "insert 0 1000000 61 | ok | 0 0 1",
    "screen 1000000 | count 1 fed 1 1:a | 1 1 2",
    "log | cap 0.000000\ninsert 0 1000000.000000 61\n | 1 1 2",
];

#[test]
fn edits_of_no_chunks(rt: HostRuntime) -> Result<(), Fail> {
    let mut session = opened(rt.alloc(), &[], 1)?;
    compare(&rt, rt.alloc(), &mut session, NO_CHUNKS)
}

const REFUSED: &[&str] = &[
    "seek 7 | count 7 fed 7 1:0123456 | 7 7 3",
    "delete 3 3 | BadRange | 7 7 3",
    "delete 4 3 | BadRange | 7 7 3",
    "delete 0 11 | BadRange | 7 7 3",
    "insert 11 0 - | NoSuchChunk | 7 7 3",
    "insert 0 1000000.000001 - | DelayTooLarge | 7 7 3",
    "replace 10 - | NoSuchChunk | 7 7 3",
    "retime 10 0 | NoSuchChunk | 7 7 3",
    "retime 9 1000000.000001 | DelayTooLarge | 7 7 3",
    "cap 1000000.000001 | DelayTooLarge | 7 7 3",
    "log |  | 7 7 3",
    "info | 10 chunks, 10 bytes, 10000000 us | 7 7 3",
    "seek 7 | count 7 fed 0 1:0123456 | 7 7 3",
    "cap 1000000 | ok | 7 7 3",
    "info | 10 chunks, 10 bytes, 10000000 us | 7 7 3",
    "seek 2 | count 2 fed 2 1:01 | 7 2 3",
    "log | cap 1000000.000000\n | 7 2 3",
];

#[test]
fn refused_edits_change_nothing(rt: HostRuntime) -> Result<(), Fail> {
    let mut session = opened(rt.alloc(), TEN, 3)?;
    compare(&rt, rt.alloc(), &mut session, REFUSED)
}

const CUT: &[&str] = &[
    "seek 4 | count 4 fed 4 sent E[1;1RE[?1;2c | 4 4 5",
    "seek 2 | count 2 fed 0 in Csi { private: false, params: [6], over: false } | 4 2 5",
    "seek 3 | count 3 fed 0 sent E[1;1R | 4 3 5",
    "replace 2 63 | ok | 2 2 3",
    // Parameter 6 of a device attributes request is of no effect.
    "seek 4 | count 4 fed 2 sent E[?1;2c | 4 4 5",
    "seek 3 | count 3 fed 0 | 4 3 5",
    "delete 0 1 | ok | 0 0 1",
    "seek 3 | count 3 fed 3 sent E[?1;2c 1:6c | 3 3 4",
    "seek 0 | count 0 fed 0 | 3 0 4",
];

#[test]
fn sequences_cut_by_chunks(rt: HostRuntime) -> Result<(), Fail> {
    let chunks: [(&str, &[u8]); 4] = [("0", b"\x1b["), ("0", b"6"), ("0", b"n"), ("0", b"\x1b[c")];
    let mut session = opened(rt.alloc(), &chunks, 1)?;
    compare(&rt, rt.alloc(), &mut session, CUT)
}

const WRAPPED: &[&str] = &[
    "seek 2 | count 2 fed 2 1:AAAAAAAA 2:B | 2 2 3",
    "seek 1 | count 1 fed 0 1:AAAAAAAA wrap | 2 1 3",
    "seek 2 | count 2 fed 0 1:AAAAAAAA 2:B | 2 2 3",
    "seek 0 | count 0 fed 0 | 2 0 3",
];

#[test]
fn a_pending_wrap_is_stored(rt: HostRuntime) -> Result<(), Fail> {
    let line = vec![in rt.alloc(); b'A'; 80]?;
    let mut session = opened(rt.alloc(), &[("0", line.as_slice()), ("0", b"B")], 1)?;
    compare(&rt, rt.alloc(), &mut session, WRAPPED)
}

const BEHIND: &[&str] = &[
    "seek 10 | count 10 fed 10 1:01234567 | 10 10 3",
    "replace 6 2d | ok | 6 4 2",
    "seek 6 | count 6 fed 2 1:012345 | 6 6 2",
    "seek 10 | count 10 fed 4 1:012345-7 | 10 10 3",
    // An edit exactly at a stored terminal's count keeps it.
    "delete 8 9 | ok | 8 8 3",
    "seek 4 | count 4 fed 0 1:0123 | 8 4 3",
    "insert 4 0 2a | ok | 4 4 2",
    "seek 5 | count 5 fed 1 1:0123* | 5 5 2",
    // At the frontier and past it nothing is given up.
    "insert 5 0 2b | ok | 5 5 2",
    "replace 10 - | ok | 5 5 2",
    "seek 8 | count 8 fed 3 1:0123*+45 | 8 8 3",
    "insert 3 0 1b5b324a | ok | 3 0 1",
    "seek 3 | count 3 fed 3 1:012 | 3 3 1",
    // ED without a way home: what comes next stands where it stood.
    "seek 5 | count 5 fed 2 1:   3 | 5 5 2",
    "delete 0 12 | ok | 0 0 1",
    "seek 0 | count 0 fed 0 | 0 0 1",
];

#[test]
fn the_head_goes_back_behind_an_edit(rt: HostRuntime) -> Result<(), Fail> {
    let mut session = opened(rt.alloc(), TEN, 4)?;
    compare(&rt, rt.alloc(), &mut session, BEHIND)
}
